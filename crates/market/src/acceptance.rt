// What an accepted call answers.
ghost use Rattle.std.specs.Prelude.{◌≡◌};
ghost use Rattle.market.specs.Acceptances.{acceptance_numbers};

#[derive(Clone, Copy)]
pub enum Acceptance {
    // how many instruments
    Built { instruments: u32 },
    // the order's number, the new one where an amended order has one, and what it traded before the round
    Entered { number: u32, traded: u32 },
    // the numbers of the bid and of the offer, 0 where nothing is wanted
    Quoted { bid: u32, offer: u32 },
    // the order's number, and what it had open
    Cancelled { number: u32, quantity: u32 },
    // the combination's number, and whether the signs of the request were turned
    Defined { combination: u32, turned: bool },
    // how many orders were taken out
    Switched { orders: u32 },
}

// The two numbers of the answer.
impl From<Acceptance> for (u32, u32) {
    ghost from_gives = { λ accepted numbers. numbers ≡ acceptance_numbers accepted };

    fn from(accepted: Acceptance) -> (u32, u32) {
        let (first, second) = match accepted {
            Acceptance::Built { instruments } => (instruments, 0),
            Acceptance::Entered { number, traded } => (number, traded),
            Acceptance::Quoted { bid, offer } => (bid, offer),
            Acceptance::Cancelled { number, quantity } => (number, quantity),
            Acceptance::Defined {
                combination,
                turned,
            } => (combination, u32::from(turned)),
            Acceptance::Switched { orders } => (orders, 0),
        };
        (first, second)
    }
}
