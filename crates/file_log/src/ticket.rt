/// A job's number among those that one side of a queue has put.
#[derive(Clone, Copy, Debug, PartialEq, Eq)]
pub struct Ticket {
    pub side: u8,
    pub number: u64,
}
