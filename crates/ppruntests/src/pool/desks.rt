//! Tests of desks.
ghost use Rattle.std.specs.Prelude.{◌≡◌, All, IfOk};

use pppool::{Desk, DeskSeat};
use pptext::Memory;
use std::alloc::Global;
use std::process::Abort;
use std::test::Fail;
use std::thread;
use std::thread::Threads;

/// Returns what the seat at `place` claims, or nothing if there is no such seat.
fn claimed(desk: &Desk, seats: &mut Vec<DeskSeat>, place: usize) -> Option<u64>
    requires { All (λ s. s.desk ≡ desk.now) seats.old.items }
    ensures { All (λ s. s.desk ≡ desk.now) seats.new.items }
{
    if place >= seats.len() {
        return None;
    }
    desk.claim(&mut seats[place])
}

/// Asserts that seats claim these blocks in turn.
fn assert_claims(
    rt: &impl Abort,
    desk: &Desk,
    seats: &mut Vec<DeskSeat>,
    wanted: &[(usize, Option<u64>)],
)
    requires { All (λ s. s.desk ≡ desk.now) seats.old.items }
    ensures { All (λ s. s.desk ≡ desk.now) seats.new.items }
{
    for (place, block) in wanted {
        assert!(rt; claimed(desk, seats, *place) == *block, "{place}");
    }
}

/// Drops the last of a desk's seats, if one should be missing.
fn lose_one(desk: &Desk, seats: &mut Vec<DeskSeat>, missing: bool)
    requires { All (λ s. s.desk ≡ desk.now) seats.old.items }
    ensures { All (λ s. s.desk ≡ desk.now) seats.new.items }
{
    if missing {
        let _lost = seats.pop();
    }
}

/// A case: the numbers of blocks and seats, what seats claim in turn, whether one is missing then, and whether that
/// closes the desk.
type Claims<'c> = (u64, usize, &'c [(usize, Option<u64>)], bool, bool);

const CLAIMS: &[Claims] = &[
    (
        3,
        2,
        &[
            (0, Some(0)),
            (1, Some(1)),
            (0, Some(2)),
            (0, None),
            (0, None),
            (1, None),
        ],
        false,
        true,
    ),
    (0, 2, &[(0, None)], false, true),
    (
        3,
        2,
        &[
            (1, Some(0)),
            (1, Some(1)),
            (1, Some(2)),
            (1, None),
            (0, None),
        ],
        true,
        false,
    ),
    // A block may be left as long as no seat found none left.
    (2, 1, &[(0, Some(0)), (0, Some(1))], false, false),
];

fn assert_closes(rt: &impl Abort, alloc: Global, case: Claims) -> Result<(), Fail> {
    let (blocks, count, claims, missing, closes) = case;
    let (desk, mut seats) = Desk::new(alloc, blocks.min(65_535), count.clamp(1, 64))?;
    assert_claims(rt, &desk, &mut seats, claims);
    lose_one(&desk, &mut seats, missing);
    assert!(rt; desk.close(seats) == closes, "{blocks} blocks");
    Ok(())
}

#[test]
fn blocks_are_claimed_in_order(rt: HostRuntime) -> Result<(), Fail> {
    for &case in CLAIMS {
        assert_closes(&rt, rt.alloc(), case)?;
    }
    Ok(())
}

/// A seat that found no block left, and the number of blocks that it claimed.
#[derive(Drop)]
struct Drained {
    seat: DeskSeat,
    count: u64,
}

fn drain(desk: &Desk, mut seat: DeskSeat) -> Drained
    requires { seat.desk ≡ desk.now }
    ensures { result.seat.desk ≡ desk.now }
{
    let mut count: u64 = 0;
    while let Some(_) = desk.claim(&mut seat) {
        count = count.saturating_add(1);
    }
    Drained { seat, count }
}

/// Drains each seat in a thread.
fn drain_by_threads<R: Threads + Sync>(
    rt: &R,
    desk: &Desk,
    seats: Vec<DeskSeat>,
) -> Result<Vec<Drained>, Memory>
    requires { All (λ s. s.desk ≡ desk.now) seats.items }
    ensures { IfOk result (λ all. All (λ d. d.seat.desk ≡ desk.now) all.items) }
{
    let task = |seat: DeskSeat| -> Drained
        requires { seat.desk ≡ desk.now }
        ensures { result.seat.desk ≡ desk.entry.now }
    { drain(desk, seat) };
    Ok(thread::map_vec(rt, seats, &task)?)
}

/// Returns the number of blocks that all seats claimed, and whether these are all blocks.
fn counted(alloc: Global, desk: Desk, all: Vec<Drained>) -> Result<(u64, bool), Memory>
    requires { All (λ d. d.seat.desk ≡ desk) all.items }
{
    let mut seats = Vec::new(alloc);
    let mut total: u64 = 0;
    for Drained { seat, count } in all {
        total = total.saturating_add(count);
        seats.push(seat)?;
    }
    Ok((total, desk.close(seats)))
}

#[test]
fn threads_claim_each_block_once(rt: HostRuntime) -> Result<(), Fail> {
    let (desk, seats) = Desk::new(rt.alloc(), 10_000, 4)?;
    let all = drain_by_threads(&rt, &desk, seats)?;
    let (total, whole) = counted(rt.alloc(), desk, all)?;
    assert!(rt; total == 10_000 && whole);
    Ok(())
}
