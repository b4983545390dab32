//! The tokens of the language, and their kinds.
ghost use Rattle.std.specs.Prelude.{◌≡◌, Decides};
ghost use Rattle.text.specs.Keywords.{spelling};
ghost use Rattle.lexer.specs.Kinds.{kind_of};
ghost use Rattle.lexer.specs.Tokens.{Spells};

use text::Keyword;

/// A token. A name is its part of the text, a number its value.
#[derive(Clone, Copy, Debug)]
pub enum Token<'a> {
    Name(&'a [u8]),
    Number(u16),
    Chip,
    In,
    Out,
    Parts,
    Builtin,
    Clocked,
    True,
    False,
    Dots,
    OpenBrace,
    CloseBrace,
    OpenParen,
    CloseParen,
    OpenBracket,
    CloseBracket,
    Comma,
    Semicolon,
    Colon,
    Equals,
}

/// What a token is, without what it holds.
// The rules of a text compare with kinds by name, and `std::mem::discriminant` has no such names; a token
// that held a kind would make each match on it two deep.
#[derive(Clone, Copy, Debug, PartialEq, Eq)]
pub enum Kind {
    Name,
    Number,
    Chip,
    In,
    Out,
    Parts,
    Builtin,
    Clocked,
    True,
    False,
    Dots,
    OpenBrace,
    CloseBrace,
    OpenParen,
    CloseParen,
    OpenBracket,
    CloseBracket,
    Comma,
    Semicolon,
    Colon,
    Equals,
}

impl From<Keyword> for Token<'_> {
    ghost from_gives = { λ k t. Spells (spelling k) t };

    /// The token of a reserved word.
    fn from(keyword: Keyword) -> Self {
        match keyword {
            Keyword::Chip => Token::Chip,
            Keyword::In => Token::In,
            Keyword::Out => Token::Out,
            Keyword::Parts => Token::Parts,
            Keyword::Builtin => Token::Builtin,
            Keyword::Clocked => Token::Clocked,
            Keyword::True => Token::True,
            Keyword::False => Token::False,
        }
    }
}

impl Kind {
    /// Whether it is this kind.
    // What a derive promises is not written: this says what `==` means.
    pub fn is(self, other: Kind) -> bool
        ensures { Decides result (self ≡ other) }
    {
        self == other
    }
}

impl Token<'_> {
    pub fn kind(self) -> Kind
        ensures { result ≡ kind_of self.entry }
    {
        match self {
            Token::Name(_) => Kind::Name,
            Token::Number(_) => Kind::Number,
            Token::Chip => Kind::Chip,
            Token::In => Kind::In,
            Token::Out => Kind::Out,
            Token::Parts => Kind::Parts,
            Token::Builtin => Kind::Builtin,
            Token::Clocked => Kind::Clocked,
            Token::True => Kind::True,
            Token::False => Kind::False,
            Token::Dots => Kind::Dots,
            Token::OpenBrace => Kind::OpenBrace,
            Token::CloseBrace => Kind::CloseBrace,
            Token::OpenParen => Kind::OpenParen,
            Token::CloseParen => Kind::CloseParen,
            Token::OpenBracket => Kind::OpenBracket,
            Token::CloseBracket => Kind::CloseBracket,
            Token::Comma => Kind::Comma,
            Token::Semicolon => Kind::Semicolon,
            Token::Colon => Kind::Colon,
            Token::Equals => Kind::Equals,
        }
    }
}
