// The phases of a day, and the events that turn one into another.

#[derive(Clone, Copy)]
pub enum Phase {
    PreOpen,
    Continuous,
    Halted,
    Closed,
}

#[derive(Clone, Copy)]
pub enum Event {
    Open,
    Halt,
    Resume,
    Close,
}

// What a change of phase takes out of the book; Nothing is a case, and no None, as each answers how many orders it took.
#[derive(Clone, Copy)]
pub enum Withdrawal {
    Nothing,
    Quotes,
    Everything,
}
