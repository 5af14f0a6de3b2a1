// Items that stand in a total order.
ghost use Rattle.std.specs.Prelude.{◌≡◌, Bool, nat_lt};
ghost use Rattle.terms.specs.Lists.{TotalOrder, alike};
ghost use Rattle.std.proofs.Common.{rules};

/// A kind of item with a total order, which a list of such items can rise in.
pub trait Ordered: Copy {
    ghost precedes: { Self → Self → Bool };

    /// Whether the item stands before the other.
    fn before(&self, other: &Self) -> bool
        ensures { result ≡ precedes self.now other.now };

    /// Whether the two are one item: neither stands before the other.
    fn same(&self, other: &Self) -> bool
        ensures { result ≡ alike precedes self.now other.now }
    {
        !self.before(other) && !other.before(self)
    }

    ghost order: { TotalOrder precedes };
}

impl Ordered for u8 {
    ghost precedes = { nat_lt };

    ghost order = { Prim.search rules };

    fn before(&self, other: &u8) -> bool {
        *self < *other
    }
}
