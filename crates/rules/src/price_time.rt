// Price-time: each order in turn takes what it can of what is left.
ghost use Rattle.std.specs.Prelude.{◌≡◌, min};
ghost use Rattle.rules.specs.PriceTime.{price_time};
ghost use Rattle.rules.specs.PriceTimeLemmas.{price_time_count, price_time_within, price_time_sum};

use crate::rule::AllocationRule;

#[derive(Clone, Copy)]
pub struct PriceTime;

// What an order takes of what is left.
fn share_of(quantity: u32, left: u32) -> u32
    ensures { result ≡ min left quantity }
{
    left.min(quantity)
}

impl AllocationRule for PriceTime {
    ghost shares = { λ _ qs give. price_time qs give };

    ghost lawful = { λ r.
        record {
          count = λ qs give _. price_time_count qs give;
          within = λ qs give _. price_time_within qs give;
          sum = λ qs give _. price_time_sum qs give;
        } };

    // Pro rata has two loops of this shape; one for all would take the share from a closure that changes what is left, which is no plainer.
    fn divide(&self, quantities: &[u32], give: u32, out: &mut [u32]) {
        let mut left = give;
        // By index; tried: after a loop over a zip with `iter_mut` no proof knows the elements of `out`.
        for (i, q) in quantities.iter().enumerate() {
            let share = share_of(*q, left);
            out[i] = share;
            left -= share;
        }
    }
}
