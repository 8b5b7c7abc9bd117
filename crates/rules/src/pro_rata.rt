// Pro rata: each order takes its part of what is given, rounded down, and what is left goes one each.
ghost use Rattle.std.specs.Prelude.{◌≡◌, ◌^◌, ◌<◌, length, sum};
ghost use Rattle.rules.specs.Domain.{Domain, total};
ghost use Rattle.rules.specs.ProRata.{parts, one_more, one_each, pro_rata};
ghost use Rattle.rules.specs.ProRataLemmas.{pro_rata_count, pro_rata_within, pro_rata_sum};

use crate::rule::AllocationRule;

#[derive(Clone, Copy)]
pub struct ProRata;

fn sum_of(quantities: &[u32]) -> u32
    requires { sum quantities.now < 2 ^ 32 }
    ensures { result ≡ total quantities.now }
{
    quantities.iter().sum()
}

// Writes each order's part of `give`, rounded down, and returns what the parts come to.
fn write_parts(quantities: &[u32], give: u32, sum: u32, out: &mut [u32]) -> u32
    requires domain { Domain quantities.now give }
    requires room { length out.old ≡ length quantities.now }
    requires summed { sum ≡ total quantities.now }
    requires short { give < sum }
    ensures after { out.new ≡ parts give sum quantities.now }
    ensures given { result ≡ total (parts give sum quantities.now) }
{
    let mut given = 0;
    // By index; tried: after a loop over a zip with `iter_mut` no proof knows the elements of `out`.
    for (i, q) in quantities.iter().enumerate() {
        let part = (*q as u64 * give as u64 / sum as u64) as u32;
        out[i] = part;
        given += part;
    }
    given
}

// One where something is left and the share is below its quantity, else none.
fn one_more(quantity: u32, share: u32, left: u32) -> u32
    ensures { result ≡ one_more quantity share left }
{
    if left > 0 && share < quantity { 1 } else { 0 }
}

// Adds one to each share that is below its quantity, in order, while something is left.
fn add_one_each(quantities: &[u32], mut left: u32, out: &mut [u32])
    requires { length out.old ≡ length quantities.now }
    ensures { out.new ≡ one_each quantities.now out.old left }
{
    // By index; tried: after a loop over a zip with `iter_mut` no proof knows the elements of `out`.
    for (i, q) in quantities.iter().enumerate() {
        let more = one_more(*q, out[i], left);
        out[i] += more;
        left -= more;
    }
}

impl AllocationRule for ProRata {
    ghost shares = { λ _ qs give. pro_rata qs give };

    ghost lawful = { λ r.
        record {
          count = λ qs give _. pro_rata_count qs give;
          within = λ qs give _. pro_rata_within qs give;
          sum = λ qs give _. pro_rata_sum qs give;
        } };

    fn divide(&self, quantities: &[u32], give: u32, out: &mut [u32]) {
        let sum = sum_of(quantities);
        if give < sum {
            let given = write_parts(quantities, give, sum, out);
            add_one_each(quantities, give - given, out);
        } else {
            out.copy_from_slice(quantities);
        }
    }
}
