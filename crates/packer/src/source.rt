//! The texts to pack, and their order.
ghost use Rattle.std.specs.Prelude.{◌≡◌, IfOk, Decides, refl};
ghost use Rattle.std.specs.List.Sorted.{IsPermutation};
ghost use Rattle.text.specs.Orders.{order};
ghost use Rattle.packer.specs.Rules.{Sound};
ghost use Rattle.packer.specs.Written.{Writable};
ghost use Rattle.std.specs.Cmp.Rules.{comparing};
ghost use Rattle.std.proofs.Common.{rules};
ghost use Rattle.std.specs.Cmp.{on_total, partial_equiv_from_equiv, partial_order_from_agreeing_total};
ghost use Rattle.std.specs.Bool.{nat_eq};
ghost use Rattle.std.specs.Cmp.Lexicographic.{pointwise};
ghost use Rattle.std.specs.Ordering.{as_partial_cmp, on};
ghost use Rattle.text.proofs.Comparing.{order_ties, order_total};

use std::alloc::{AllocError, Global};
use std::cmp::Ordering;

/// A text to pack, and the name that it goes by.
#[derive(Clone, Copy)]
pub struct Source<'a> {
    pub name: &'a [u8],
    pub text: &'a [u8],
}

// Sources stand in the order of their names.

impl PartialEq for Source<'_> {
    ghost eq = { on (λ s. s.name.now) (pointwise nat_eq) };

    ghost laws = { partial_equiv_from_equiv (Prim.search (comparing, rules)) };

    fn eq(&self, other: &Source<'_>) -> bool
        ensures value { result ≡ on (λ s. s.name.now) (pointwise nat_eq) self.now other.now }
        ensures same { Decides result (self.now.name.now ≡ other.now.name.now) }
    {
        text::same(self.name, other.name)
    }
}

impl Eq for Source<'_> {
    ghost laws = { Prim.search (comparing, rules) };
}

impl PartialOrd for Source<'_> {
    ghost partial_cmp = { as_partial_cmp (on (λ s. s.name.now) order) };

    ghost laws = { partial_order_from_agreeing_total (on (λ s. s.name.now) order) (on_total (λ s. s.name.now) order_total) (λ _ _. refl) (λ a b. order_ties a.name.now b.name.now) };

    fn partial_cmp(&self, other: &Source<'_>) -> Option<Ordering> {
        Some(self.cmp(other))
    }
}

impl Ord for Source<'_> {
    ghost cmp = { on (λ s. s.name.now) order };

    ghost total = { on_total (λ s. s.name.now) order_total };

    ghost matches_partial_cmp = { λ _ _. refl };

    ghost matches_eq = { λ a b. order_ties a.name.now b.name.now };

    fn cmp(&self, other: &Source<'_>) -> Ordering {
        text::compare(self.name, other.name)
    }
}

/// The sources in the order of their names.
pub fn in_order<'a>(heap: Global, sources: &[Source<'a>]) -> Result<Vec<Source<'a>>, AllocError>
    requires { Sound sources.now }
    ensures { IfOk result (λ v. IsPermutation sources.now v.items × Writable v.items) }
{
    let mut sorted = Vec::from_slice(heap, sources)?;
    sorted.sort()?;
    Ok(sorted)
}
