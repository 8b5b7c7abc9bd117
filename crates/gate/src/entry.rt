// An order as an enter line asks for it.
ghost use Rattle.std.specs.Prelude.{◌≡◌};
ghost use Rattle.market.specs.declared.call.Call.TheVariants.{Enter};

use crate::lot::lot_of;
use market::arrival::Arrival;
use market::call::Duration;
use market::price::Price;
use market::side::Side;

// The book by its number, and a bare quantity: contracts or units, as the book has it.
#[derive(Clone, Copy)]
pub(crate) struct Entry {
    pub participant: u32,
    pub book: u32,
    pub side: Side,
    pub quantity: u32,
    pub price: Price,
    pub duration: Duration,
}

impl Entry {
    ghost use Rattle.gate.specs.Asked.{entry_call, arrival_of};

    // No literal, so that the call which it stands for is said once.
    pub(crate) fn new(
        participant: u32,
        book: u32,
        side: Side,
        quantity: u32,
        price: Price,
        duration: Duration,
    ) -> Entry
        ensures { entry_call result ≡ Enter participant book side quantity price duration }
    {
        Entry {
            participant,
            book,
            side,
            quantity,
            price,
            duration,
        }
    }

    // The order that arrives in the book.
    pub(crate) fn arrival(self) -> Arrival
        ensures { result ≡ arrival_of self }
    {
        Arrival {
            participant: self.participant,
            side: self.side,
            lot: lot_of(self.book, self.quantity),
            price: self.price,
            duration: self.duration,
            quote: false,
        }
    }
}
