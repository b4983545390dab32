//! The reserved words of the chip language.
ghost use Rattle.std.specs.Prelude.{◌≡◌, MatchOption};
ghost use Rattle.text.specs.Keywords.{Reserved, spelling};

#[derive(Clone, Copy, Debug)]
pub enum Keyword {
    Chip,
    In,
    Out,
    Parts,
    Builtin,
    Clocked,
    True,
    False,
}

impl Keyword {
    /// The reserved word that the bytes are, if they are one.
    // An Option and no `TryFrom`: bytes that are no reserved word are no error.
    pub fn of(bytes: &[u8]) -> Option<Keyword>
        ensures { MatchOption result (Reserved bytes.now → ⊥) (λ k. bytes.now ≡ spelling k) }
    {
        match bytes {
            b"CHIP" => Some(Keyword::Chip),
            b"IN" => Some(Keyword::In),
            b"OUT" => Some(Keyword::Out),
            b"PARTS" => Some(Keyword::Parts),
            b"BUILTIN" => Some(Keyword::Builtin),
            b"CLOCKED" => Some(Keyword::Clocked),
            b"true" => Some(Keyword::True),
            b"false" => Some(Keyword::False),
            _ => None,
        }
    }
}
