// A venue that is called by lines alone: a line goes in, an answer and report rows come out.
use gate::venue::Venue;
use rules::rule::AllocationRule;

mod calls;

#[derive(Drop)]
pub struct Gateway<R: AllocationRule> {
    venue: Venue<R>,
}

// A venue just built, and the answer to the line that built it.
#[derive(Drop)]
pub struct Opening<R: AllocationRule> {
    pub gateway: Gateway<R>,
    pub answer: (u32, u32),
}
