// What a member can ask of a venue.
use crate::legs::Legs;
use crate::phase::Event;
use crate::price::Price;
use crate::side::Side;

// What becomes of what does not trade: it rests for the day, is cancelled, or the order trades whole or not at all.
#[derive(Clone, Copy)]
pub enum Duration {
    Day,
    Immediate,
    FillOrKill,
}

// One call, as read from a line: all numbers as they stand there, a book by its number alone; the gate judges them, and makes an Arrival, a Quote or an OrderId of them for the book.
#[derive(Clone, Copy)]
pub enum Call {
    Enter {
        participant: u32,
        book: u32,
        side: Side,
        quantity: u32,
        price: Price,
        duration: Duration,
    },
    Amend {
        participant: u32,
        number: u32,
        quantity: u32,
        price: Price,
    },
    Cancel {
        participant: u32,
        number: u32,
    },
    Quote {
        participant: u32,
        book: u32,
        bid_quantity: u32,
        bid: Price,
        offer_quantity: u32,
        offer: Price,
    },
    Define {
        participant: u32,
        legs: Legs,
    },
    Switch {
        event: Event,
    },
}
