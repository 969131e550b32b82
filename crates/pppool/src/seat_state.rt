//! The plan of a desk, and the ghost state of a seat.
use std::collections::LinkedList;

/// The numbers of blocks and seats of a desk.
#[derive(Clone, Copy, PartialEq, Eq, Drop)]
pub struct Plan {
    pub blocks: u64,
    pub seats: u64,
}

/// The state of a seat in contracts; no value of it is ever created. It has the claimed blocks, how often no block was
/// left, the number of seats that are joined in it, and its desk's plan.
pub struct SeatState {
    pub claims: LinkedList<u64>,
    pub empty_claims: u64,
    pub seats: u64,
    pub plan: Plan,
}
