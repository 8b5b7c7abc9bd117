// What an allocation rule is, and the laws that each keeps.
ghost use Rattle.std.specs.Prelude.{◌≡◌, ℕ, List, length};
ghost use Rattle.rules.specs.Domain.{Domain, Laws};

pub trait AllocationRule {
    // The share of each order, fixed by the orders' quantities and the quantity to give alone.
    ghost shares: { Self → List ℕ → ℕ → List ℕ };

    // Writes the share of each order into `out`.
    fn divide(&self, quantities: &[u32], give: u32, out: &mut [u32])
        requires domain { Domain quantities.now give }
        requires room { length out.old ≡ length quantities.now }
        ensures { out.new ≡ shares self.now quantities.now give };

    ghost lawful: { (r : Self) → Laws (shares r) };
}
