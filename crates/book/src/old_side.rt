// The old sides of a quote.
ghost use Rattle.std.specs.Prelude.{◌≡◌};
ghost use Rattle.market.specs.Revisions.{absent};
ghost use Rattle.book.specs.Held.{held};
ghost use Rattle.book.specs.OldSides.{side_number, OldSettled, BothSettled};

use crate::lot::{lot_book, lot_size};
use crate::orders::Orders;
use crate::quote_sides::{bid_of, offer_of};
use crate::side_numbers::SideNumbers;
use crate::told::Told;
use market::arrival::Arrival;
use market::quote::Quote;

// With no old side in its place, a side is new; or it has the number 0, where nothing is wanted.
fn without_old(side: &Arrival) -> Option<u32>
    ensures { result ≡ side_number side.now absent }
{
    if lot_size(side.lot) > 0 {
        None
    } else {
        Some(0)
    }
}

impl Orders {
    // The old side of a quote keeps its place or is taken out; gives back the side's number, or nothing where the side is new.
    pub(crate) fn settle_old(&mut self, side: &Arrival, told: &mut Told<'_>) -> Option<u32>
        ensures { OldSettled side.now (held self.old) told.old result (held self.new) told.new }
    {
        let Some(i) = self.find_quote(side.participant, lot_book(side.lot), side.side) else {
            return without_old(side);
        };
        let number = self.as_slice()[i].number;
        match self.revise(i, lot_size(side.lot), side.price, told) {
            None => Some(number),
            Some(_) => without_old(side),
        }
    }

    // The old bid, and then the old offer; gives back the numbers of the sides that are not new.
    pub(crate) fn settle_both(&mut self, quote: Quote, told: &mut Told<'_>) -> SideNumbers
        ensures { BothSettled quote (held self.old) told.old result (held self.new) told.new }
    {
        let bid = self.settle_old(&bid_of(quote), told);
        let offer = self.settle_old(&offer_of(quote), told);
        SideNumbers { bid, offer }
    }
}
