//! The rule of a block counter's atomic word, and the steps that keep it.
ghost use Rattle.std.specs.Prelude.{◌+◌, ◌-◌, [], ◌++◌};
ghost use Rattle.pppool.specs.Desk.{seat_state, ClaimInvariant, Claims};

use crate::seat_state::{Plan, SeatState};
use atomic_table::{Join, Play, Split, TableRule};

/// The rule: each block is claimed once.
pub struct ClaimProtocol;

impl TableRule<u8, SeatState, Plan> for ClaimProtocol {
    ghost holds = { ClaimInvariant };

    ghost first = { λ p. seat_state [] 0 p.seats p };
}

/// The step of a claim.
pub struct ClaimBlock;

impl Play<u8, SeatState> for ClaimBlock {
    ghost then = { Claims };
}

/// The step of splitting off one seat.
pub struct SplitSeat;

impl Split<SeatState> for SplitSeat {
    ghost left = { λ v. seat_state v.claims v.empty_claims (v.seats - 1) v.plan };

    ghost right = { λ v. seat_state [] 0 1 v.plan };
}

/// The step of joining two seats.
pub struct JoinSeats;

impl Join<SeatState> for JoinSeats {
    ghost both = { λ v w. seat_state (v.claims ++ w.claims) (v.empty_claims + w.empty_claims) (v.seats + w.seats) v.plan };

    ghost spent = { seat_state [] 0 0 (record { blocks = 0; seats = 0 }) };
}
