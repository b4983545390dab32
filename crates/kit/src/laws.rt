//! The laws are met, and a pair is its two kits.
ghost use Rattle.std.specs.Prelude.{ℕ, List};
ghost use Rattle.kit.specs.Models.{Model, Sound};
ghost use Rattle.kit.specs.Joins.{Joins};
ghost use Rattle.kit.specs.Atoms.{atoms};
ghost use Rattle.kit.specs.Roms.{rom};
ghost use Rattle.kit.specs.Pairs.{pair};

/// There are kits that meet the laws: the atoms, a ROM over any words, and the pairs of them.
pub fn laws_are_met()
    ensures atoms { Sound atoms }
    ensures rom { (words : List ℕ) → Sound (rom words) }
    ensures pairs { (words : List ℕ) → Sound (pair atoms (rom words)) × Sound (pair (rom words) atoms) }
{}

/// A pair answers of its kinds as the kit does that has them, and finds a name in the first kit
/// or else in the second.
#[tactic(auto, using(crate::proofs::Joining::pair_joins))]
pub fn pairs_join()
    ensures { (f s : Model) → Joins f s (pair f s) }
{}
