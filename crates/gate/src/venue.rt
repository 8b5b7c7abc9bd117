// A venue: what it lists, its book, and the rule that divides there.
use crate::listing::Listing;
use book::book::Book;
use rules::rule::AllocationRule;

// In all calls: a refusal also blanks the report, so that `?` alone would not do where a call is refused.
mod amending;
mod calls;
mod entering;
mod quoting;

// The most instruments that a venue may have, and so the most bands.
pub const MOST_INSTRUMENTS: usize = 64;

// That a call keeps the rule is a fact of a call's two ends, which no field and no invariant can hold: each call says it.
#[derive(Drop)]
pub struct Venue<R: AllocationRule> {
    book: Book,
    rule: R,
    listing: Listing,
}
