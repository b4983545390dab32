//! Memory for records that is lent.
ghost use Rattle.std.specs.Prelude.{◌≤◌, length};

/// Lent memory for records, and how many are in it. It holds as many as were lent and takes no memory
/// of its own, so that putting a record in cannot fail for want of memory.
#[derive(Drop)]
pub struct Table<'c, R> {
    pub rows: &'c mut [R],
    pub used: usize,
    ghost within: { used ≤ length rows.now },
}
