//! The grammar of chip texts, as definitions and a theorem: `specs/Spelling.antt` says which lexemes
//! write a chip, and `specs/Progress.antt` how one is read lexeme by lexeme.
#![tactic(auto)]

ghost use Rattle.grammar.specs.Sentences.{ReadsGrammar};

/// That reading lexeme by lexeme accepts just the chips, reads each in one way, and stops at the
/// first lexeme behind which nothing makes a chip: a theorem, and no work.
pub fn reading_is_grammar() -> bool
    ensures { ReadsGrammar }
{
    true
}
