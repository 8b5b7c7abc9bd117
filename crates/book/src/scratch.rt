// Two lists to work in.
ghost use Rattle.std.specs.Prelude.{◌≡◌};
ghost use Rattle.rules.specs.Domain.{Domain};

use crate::orders::MOST_ORDERS;
use arrayvec::ArrayVec;
use rules::rule::AllocationRule;

// A level's quantities, and their shares. Two lists and no pairs, as `divide` takes two slices: docs/DECISIONS.md asks for it.
#[derive(Drop)]
pub(crate) struct Scratch {
    pub quantities: ArrayVec<u32, MOST_ORDERS>,
    pub shares: ArrayVec<u32, MOST_ORDERS>,
}

impl Scratch {
    pub(crate) fn new() -> Scratch {
        Scratch {
            quantities: ArrayVec::new(),
            shares: ArrayVec::new(),
        }
    }

    // Divides so much over the quantities, by the rule, which writes over as many shares.
    pub(crate) fn divide<R: AllocationRule>(&mut self, rule: &R, give: u32)
        requires { Domain self.old.quantities.items give }
        ensures quantities { self.new.quantities.items ≡ self.old.quantities.items }
        ensures shares { self.new.shares.items ≡ R.AllocationRule.shares rule.now self.old.quantities.items give }
    {
        // Into a vector in place, whose room is its type; no `clone`: it can fail just as this can, and moves all 256 places.
        self.shares.clear();
        self.shares
            .try_extend_from_slice(self.quantities.as_slice())
            .unwrap();
        rule.divide(self.quantities.as_slice(), give, self.shares.as_mut_slice());
    }
}
