//! Tokens of the chip language: a lexer over one text.
//!
//! Spaces, tabs, carriage returns, newlines and comments separate tokens. Where neither a token nor
//! a separator stands, the lexer refuses, and the refusal becomes a `Fault` by `?`.
#![tactic(auto)]

ghost use Rattle.std.specs.Prelude.{◌≡◌, ◌<◌, IfOk, OnSome};
ghost use Rattle.lexer.specs.Answers.{Answers};
ghost use Rattle.lexer.specs.Single.{OneAnswer};

use fault::Place;

mod cursor;
mod lex_fault;
mod scan;
#[cfg(test)]
mod tests;
mod tokens;

pub use cursor::Lexer;
pub use lex_fault::LexFault;
pub use tokens::{Kind, Token};

impl<'a> Lexer<'a> {
    /// A lexer at the front of the text of an entry.
    pub fn new(entry: usize, text: &'a [u8]) -> Self
        ensures over { (result.text.now ≡ text.now) × (result.entry ≡ entry) }
        ensures starts { (result.first ≡ 0) × (result.end ≡ 0) }
    {
        Lexer {
            text,
            entry,
            first: 0,
            end: 0,
        }
    }

    /// The first byte of the token that was given last; behind the last token, the text's end.
    pub fn place(&self) -> Place
        ensures { (result.entry ≡ self.now.entry) × (result.byte ≡ self.now.first) }
    {
        Place {
            entry: self.entry,
            byte: self.first,
        }
    }

    /// The next token, or `None` at the text's end. A refusal leaves the lexer as it was.
    // No `Iterator`: callers ask for the place between two tokens.
    pub fn next(&mut self) -> Result<Option<Token<'a>>, LexFault>
        ensures over { (self.new.text.now ≡ self.old.text.now)
            × (self.new.entry ≡ self.old.entry) }
        ensures forward { IfOk result (λ o. OnSome o (self.old.end < self.new.end)) }
        ensures step { Answers self.old result self.new }
    {
        let text = self.text;
        let first = scan::skip(text, self.end);
        if first == text.len() {
            self.first = first;
            self.end = first;
            return Ok(None);
        }
        let refusal = LexFault {
            place: Place {
                entry: self.entry,
                byte: first,
            },
        };
        let (token, len) = scan::token(&text[first..]).ok_or(refusal)?;
        self.first = first;
        self.end = first + len;
        Ok(Some(token))
    }
}

/// That the contract of `next` leaves one answer: a theorem, and no work.
pub fn answers_are_one() -> bool
    ensures { OneAnswer }
{
    true
}
