//! What holds of the records that reading gives: they stand in the order of the texts, parts and
//! connections go together, and pins fit their sides.
#![tactic(auto)]

ghost use Rattle.wellformed.specs.WellFormed.{ReadWellFormed};

/// That the records of every bundle that is read are well-formed: a theorem, and no work.
pub fn readings_are_well_formed() -> bool
    ensures { ReadWellFormed }
{
    true
}
