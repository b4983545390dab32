//! That no text and no bundle has two verdicts.
ghost use Rattle.reader.specs.Single.{OneVerdict};

/// That a text is at most one chip, has at most one first fault, and not both, and that a bundle is
/// read in at most one way, refused for at most one fault, and not both: a theorem, and no work.
pub fn verdicts_are_one() -> bool
    ensures { OneVerdict }
{
    true
}
