//! What a lexer keeps: a text, and how far it has come.
ghost use Rattle.std.specs.Prelude.{◌≤◌, length};

/// A lexer over the text of an entry. The token that it gave last is `text[first..end]`.
#[derive(Drop)]
pub struct Lexer<'a> {
    pub(crate) text: &'a [u8],
    pub(crate) entry: usize,
    pub(crate) first: usize,
    pub(crate) end: usize,
    ghost within: { end ≤ length text.now },
}
