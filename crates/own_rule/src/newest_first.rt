// Newest first: the last order in the book takes what it can, then the one before it.
ghost use Rattle.std.specs.Prelude.{◌≡◌, min};
ghost use Rattle.own_rule.specs.NewestFirst.{newest_first, newest_first_count, newest_first_within, newest_first_sum};

use rules::rule::AllocationRule;

#[derive(Clone, Copy)]
pub struct NewestFirst;

// What an order takes of what those behind it leave.
fn share_of(quantity: u32, left: u32) -> u32
    ensures { result ≡ min quantity left }
{
    quantity.min(left)
}

impl AllocationRule for NewestFirst {
    ghost shares = { λ _ qs give. newest_first qs give };

    ghost lawful = { λ r.
        record {
          count = λ qs give _. newest_first_count qs give;
          within = λ qs give _. newest_first_within qs give;
          sum = λ qs give _. newest_first_sum qs give;
        } };

    fn divide(&self, quantities: &[u32], give: u32, out: &mut [u32]) {
        let mut left = give;
        for i in (0..quantities.len()).rev() {
            let share = share_of(quantities[i], left);
            out[i] = share;
            left -= share;
        }
    }
}
