// Orders taken out of the book all at once.
ghost use Rattle.std.specs.Prelude.{◌≡◌};
ghost use Rattle.market.specs.BookCalls.{leaves};

use market::order::Order;
use market::phase::Withdrawal;

// The market's rules name the three withdrawals, so this is a match and no closure.
pub(crate) fn leaves(which: Withdrawal, order: &Order) -> bool
    ensures { result ≡ leaves which order.now }
{
    match which {
        Withdrawal::Nothing => false,
        Withdrawal::Quotes => order.quote,
        Withdrawal::Everything => true,
    }
}
