// The sides of a quote, as they arrive where they are new. Their natural form is methods of `Quote`; these would be public in `market`, with a contract each.
ghost use Rattle.std.specs.Prelude.{◌≡◌};
ghost use Rattle.market.specs.Orders.{quote_side};
ghost use Rattle.market.specs.Quoting.{bid_of, offer_of};

use market::arrival::Arrival;
use market::call::Duration;
use market::quote::{Quote, QuoteSide};
use market::side::Side;

fn quote_side(participant: u32, side: Side, quoted: QuoteSide) -> Arrival
    ensures { result ≡ quote_side participant side quoted }
{
    Arrival {
        participant,
        side,
        lot: quoted.lot,
        price: quoted.price,
        duration: Duration::Day,
        quote: true,
    }
}

pub(crate) fn bid_of(quote: Quote) -> Arrival
    ensures { result ≡ bid_of quote }
{
    quote_side(quote.participant, Side::Buy, quote.bid)
}

pub(crate) fn offer_of(quote: Quote) -> Arrival
    ensures { result ≡ offer_of quote }
{
    quote_side(quote.participant, Side::Sell, quote.offer)
}
