//! Records of one kind, in memory that is lent.
ghost use Rattle.std.specs.Prelude.{◌≡◌, ◌+◌, ◌<◌, List, [], ◌∷◌, ◌++◌, length, replicate, take, slice_index_or};
ghost use Rattle.catalogue.specs.Tables.{Held, Kept};

use crate::lent::Table;

/// A kind of record: the blank one stands where none is kept.
pub trait Record: Copy {
    ghost BLANK: { Self };

    const BLANK: Self;
}

/// Makes each record the blank one.
pub fn fill_blank<R: Copy>(records: &mut [R], blank: R)
    ensures { records.new ≡ replicate (length records.old) blank }
{
    // `fill` asks that a clone cannot fail, which `Copy` does not say.
    for record in records.iter_mut() {
        *record = blank;
    }
}

impl<'c, R: Record> Table<'c, R> {
    /// A table over memory that is lent, made blank.
    pub fn new(rows: &'c mut [R]) -> Table<'c, R>
        ensures lent { result.rows.ghost_name ≡ rows.entry.ghost_name }
        ensures long { length result.rows.now ≡ length rows.old }
        ensures blank { Held R.Record.BLANK result [] }
    {
        fill_blank(rows, R::BLANK);
        Table { rows, used: 0 }
    }

    /// The records that are in it.
    pub fn as_slice(&self) -> &[R]
        ensures { result.now ≡ take self.now.used self.now.rows.now }
    {
        &self.rows[..self.used]
    }

    /// The record of this number, or a blank one where there is no room for so many.
    pub fn get(&self, i: usize) -> R
        ensures { result ≡ slice_index_or self.now.rows.now i R.Record.BLANK }
    {
        self.rows.get(i).copied().unwrap_or(R::BLANK)
    }

    /// One record more, if there is room.
    // Whoever puts one in has asked for room first, and no public function has a `requires`.
    pub fn push(&mut self, row: R)
        ensures kept { Kept self.old self.new }
        ensures held { (xs : List R) → Held R.Record.BLANK self.old xs → self.old.used < length self.old.rows.now → Held R.Record.BLANK self.new (xs ++ row ∷ []) }
    {
        if self.used < self.rows.len() {
            self.rows[self.used] = row;
            self.used += 1;
        }
    }

    /// Makes it blank again.
    pub fn clear(&mut self)
        ensures kept { Kept self.old self.new }
        ensures blank { Held R.Record.BLANK self.new [] }
    {
        fill_blank(self.rows, R::BLANK);
        self.used = 0;
    }
}
