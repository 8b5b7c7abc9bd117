// An order as its participant names it: by the participant's number and the order's.

#[derive(Clone, Copy)]
pub struct OrderId {
    pub participant: u32,
    pub number: u32,
}
