//! Reads one chip text, token by token, into records of the catalogue, or tells the first fault of
//! the text.
#![tactic(auto)]

ghost use Rattle.std.specs.Result.{MatchResult};
ghost use Rattle.catalogue.specs.Records.{Records};
ghost use Rattle.catalogue.specs.Holding.{Enough, Fills, Lent, Long, slices};
ghost use Rattle.parser.specs.Verdicts.{Accepted, Refused};

use crate::events::is_done;
use crate::reading::{Reading, Source};
use catalogue::Catalogue;
use lexer::Lexer;
use progress::State;

mod events;
mod read_fault;
mod reading;

pub use read_fault::ReadFault;

/// Reads the text of an entry, whose chip is to have the name, and puts its records behind those
/// that the catalogue has. What a refused text leaves there is not said.
pub fn read_text(
    entry: usize,
    expected: &[u8],
    text: &[u8],
    catalogue: &mut Catalogue<'_>,
) -> Result<(), ReadFault>
    ensures lent { Lent catalogue.old catalogue.new }
    ensures long { Long catalogue.old catalogue.new }
    ensures reads { (r : Records) → Enough (slices catalogue.old) → Fills catalogue.old r → MatchResult result
        (λ _. Accepted expected.now r text.now entry catalogue.new)
        (λ f. Refused expected.now r text.now entry f) }
{
    let counts = catalogue.counts();
    let source = Source {
        entry,
        name: expected,
        bytes: text,
        pins: counts.pins,
    };
    let mut reading = Reading {
        state: State::Start,
        bits: 0,
        line: counts.connections,
    };
    let mut lexer = Lexer::new(entry, text);
    while let Some(token) = lexer.next()? {
        reading = source.take(reading, token, lexer.place(), catalogue)?;
    }
    if is_done(reading.state) {
        Ok(())
    } else {
        Err(ReadFault::BrokenGrammar(lexer.place()))
    }
}
