//! That no bundle has two verdicts.
ghost use Rattle.joiner.specs.Single.{OneVerdict};

/// That a bundle is joined or refused and not both, and refused for one fault at most: a theorem,
/// and no work.
pub fn verdicts_are_one() -> bool
    ensures { OneVerdict }
{
    true
}
