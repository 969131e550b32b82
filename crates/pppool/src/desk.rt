//! The desk: an atomic counter, at which workers claim blocks.
ghost use Rattle.std.specs.Prelude.{◌≡◌, ℕ, ◌<◌, ◌≤◌, ◌==◌, ◌&&◌, true, false, [], ◌∷◌, ◌++◌, length, All};
ghost use Rattle.std.specs.Prelude.{IfOk, IfSome, IfNone, IsTrue, if◌then◌else◌};
ghost use Rattle.ppshelf.specs.Events.{times};
ghost use Rattle.pppool.specs.Desk.{max_blocks, once_below, claims_of, any_empty, plan_of, new_seat};

use crate::claim_protocol::{ClaimBlock, ClaimProtocol, JoinSeats, SplitSeat};
use crate::seat_state::{Plan, SeatState};
use atomic_table::{Seat, Table};
use pptext::Memory;
use std::alloc::Global;
use std::marker::Model;

/// A counter of blocks, numbered from 0. The threads in 1 to 64 seats claim them, each block at most once. A claim is
/// one atomic addition.
#[derive(Drop)]
pub struct Desk {
    table: Table<u8, SeatState, Plan, ClaimProtocol, Global>,
    plan: Plan,
}

impl Model for Desk {
    ghost use Rattle.std.specs.Prelude.{◌≡◌};
    ghost use Rattle.pppool.specs.Desk.{DeskId};

    ghost Value = { DeskId };

    ghost view = { λ d. record { table = d.table.shared.table_id; plan = d.plan } };

    ghost invariant = { λ d. (d.table.shared.key ≡ d.plan) × (d.table.shared.table_id.words ≡ 1) × (d.table.shared.table_id.slots ≡ 0) };
}

/// A seat: the right of one thread to claim blocks of one desk.
#[derive(Drop)]
pub struct DeskSeat {
    seat: Seat<u8, SeatState>,
    found_empty: bool,
}

impl Model for DeskSeat {
    ghost use Rattle.std.specs.Prelude.{◌≡◌, [], if◌then◌else◌};
    ghost use Rattle.pppool.specs.Desk.{SeatView};

    ghost Value = { SeatView };

    ghost view = { λ s. record {
      desk = record { table = s.seat.table_id; plan = s.seat.me.0.plan };
      claims = s.seat.me.0.claims;
      found_empty = s.found_empty;
    } };

    ghost invariant = { λ s. (s.seat.me.1 ≡ []) × (s.seat.me.0.seats ≡ 1) × (s.seat.me.0.empty_claims ≡ (if s.found_empty then 1 else 0)) };
}

impl Desk {
    /// Creates a desk with `blocks` blocks, at most 65,535, and `seats` seats, 1 to 64, that have claimed nothing.
    /// Fails if an allocation fails.
    pub fn new(alloc: Global, blocks: u64, seats: usize) -> Result<(Desk, Vec<DeskSeat>), Memory>
        requires blocks { blocks ≤ max_blocks }
        requires seats { (1 ≤ seats) × (seats ≤ 64) }
        ensures plan { IfOk result (λ r. r.0.plan ≡ plan_of blocks seats) }
        ensures count { IfOk result (λ r. length r.1.items ≡ seats) }
        ensures fresh { IfOk result (λ r. All (λ s. s ≡ new_seat r.0) r.1.items) }
    {
        let plan = Plan {
            blocks,
            seats: seats as u64,
        };
        let (table, mut first) = Table::of_words(alloc, &[0], &plan)?;
        let mut all = Vec::with_capacity(alloc, seats)?;
        for _ in 0..seats {
            let seat = table.shared.split_seat::<SplitSeat>(&mut first);
            all.push(DeskSeat {
                seat,
                found_empty: false,
            })?;
        }
        Ok((Desk { table, plan }, all))
    }

    /// Claims the next block: no other seat claims it, and its number is above all claims of this seat. Returns nothing
    /// if no block is left, and then on every later call with this seat. Doesn't allocate.
    pub fn claim(&self, seat: &mut DeskSeat) -> Option<u64>
        requires { seat.old.desk ≡ self.now }
        ensures desk { seat.new.desk ≡ self.now }
        ensures some { IfSome result (λ b.
            (seat.old.found_empty ≡ false) × (b < self.now.plan.blocks) × All (λ c. c < b) seat.old.claims
            × (seat.new.claims ≡ seat.old.claims ++ b ∷ []) × (seat.new.found_empty ≡ false)) }
        ensures none { IfNone result ((seat.new.found_empty ≡ true) × (seat.new.claims ≡ seat.old.claims)) }
    {
        if seat.found_empty {
            return None;
        }
        let found = self
            .table
            .shared
            .fetch_add::<ClaimBlock>(&mut seat.seat, 0, 1);
        if found < self.plan.blocks {
            Some(found)
        } else {
            seat.found_empty = true;
            None
        }
    }

    /// Takes the seats back. Returns whether they are all seats of the desk and one of them found no block left; then
    /// they claimed each block, once. Otherwise, too, each claim is a block of the desk, and no block was claimed
    /// twice. Doesn't allocate.
    pub fn close(self, mut seats: Vec<DeskSeat>) -> bool
        requires { All (λ s. s.desk ≡ self) seats.items }
        ensures no_repeats { (x : ℕ) → times x (claims_of seats.items) ≤ 1 }
        ensures blocks { All (λ b. b < self.plan.blocks) (claims_of seats.items) }
        ensures value { result ≡ ((length seats.items == self.plan.seats) && any_empty seats.items) }
        ensures whole { IsTrue result → (x : ℕ) → times x (claims_of seats.items) ≡ once_below x self.plan.blocks }
    {
        let count = seats.len();
        let Some(one) = seats.pop() else {
            return false;
        };
        let (mut all, mut found_empty) = one.into_parts();
        while let Some(other) = seats.pop() {
            let (seat, empty) = other.into_parts();
            self.table.shared.join_seat::<JoinSeats>(&mut all, seat);
            found_empty = found_empty || empty;
        }
        let whole = found_empty && count as u64 == self.plan.seats;
        let Desk { table, plan: _ } = self;
        table.close_with(all).free();
        whole
    }
}

impl DeskSeat {
    /// Returns the seat of the table, and whether it found no block left.
    fn into_parts(self) -> (Seat<u8, SeatState>, bool)
        ensures desk { (result.0.table_id ≡ self.desk.table) × (result.0.me.0.plan ≡ self.desk.plan) }
        ensures seat { (result.0.me.1 ≡ []) × (result.0.me.0.seats ≡ 1) × (result.0.me.0.claims ≡ self.claims) }
        ensures found_empty { (result.1 ≡ self.found_empty) × (result.0.me.0.empty_claims ≡ (if result.1 then 1 else 0)) }
    {
        let DeskSeat { seat, found_empty } = self;
        (seat, found_empty)
    }
}
