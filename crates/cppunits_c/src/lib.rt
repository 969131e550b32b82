//! The exports of a static library for C: lists are run in memory, in the caller's thread.
//!
//! library/cppunits.c calls them, after it has refused null pointers and sizes that no block has. library/cppunits.h says what
//! a caller has to keep.
#![tactic(auto)]

ghost use Rattle.std.specs.Prelude.{◌≡◌, ◌↔◌, ◌≤◌, ◌<◌, None, length, true};
ghost use Rattle.ppserve.specs.Listing.{verdict_of, refused};
ghost use Rattle.cppunits_c.specs.Printing.{Prints, filled, mode_numbered, status_of};

mod key;

use key::{Key, hashing};
use ppserve::{Mode, Printed, RunFault, serve_in_memory};
use std::alloc::Global;

/// The status of a list whose units have no fault.
const OK: u32 = 0;

/// The status of a list of which a unit has a fault.
const FAULTS: u32 = 1;

/// The status of a list that is refused.
const REFUSED: u32 = 2;

/// The status of a call for which an allocation failed.
const MEMORY: u32 = 3;

/// The status of a call with a number that no mode has.
const MODE: u32 = 4;

/// What a call prints of each unit, and the key of its hash function.
#[repr(C)]
#[derive(Clone, Copy, Drop)]
pub struct Options {
    /// The number of the mode.
    pub mode: u32,
    /// The key, which affects how long the call takes and not its results.
    pub key: Key,
}

/// What a call gives back beside its status and the output.
#[repr(C)]
#[derive(Clone, Copy, Drop)]
pub struct Counts {
    /// The number of bytes of the whole output.
    pub length: usize,
    /// The number of the refusal, or 0.
    pub refusal: u32,
}

/// Returns the mode with this number.
fn mode_numbered(number: u32) -> Option<Mode>
    ensures { result ≡ mode_numbered number }
{
    match number {
        0 => Some(Mode::Dump),
        1 => Some(Mode::Deps),
        2 => Some(Mode::Text),
        3 => Some(Mode::Faults),
        _ => None,
    }
}

/// Writes a text to the beginning of a buffer that has room for it. Otherwise the buffer is unchanged.
fn fill(out: &mut [u8], text: &[u8])
    ensures { out.new ≡ filled text.now out.old }
{
    if text.len() <= out.len() {
        let (head, _) = out.split_at_mut(text.len());
        head.copy_from_slice(text);
    }
}

/// Gives back an output, and returns its status.
fn give(printed: &Printed, out: &mut [u8], counts: &mut Counts) -> u32
    ensures status { result ≡ status_of printed.now.any_fault }
    ensures out { out.new ≡ filled printed.now.text.items out.old }
    ensures length { counts.new.length ≡ length printed.now.text.items }
    ensures refusal { counts.new.refusal ≡ counts.old.refusal }
{
    let text = printed.text.as_slice();
    counts.length = text.len();
    fill(out, text);
    if printed.any_fault { FAULTS } else { OK }
}

/// Runs the units of a list that holds its files, and writes their output to the beginning of `out` if there is room for
/// the whole. The status is 0 if no unit has a fault, 1 if one has, 2 if the list is refused, 3 if an allocation fails, and 4
/// if no mode has the number.
#[unsafe(no_mangle)]
pub extern "C" fn cppunits_proved_print(
    alloc: Global,
    list: &[u8],
    options: &Options,
    out: &mut [u8],
    counts: &mut Counts,
) -> u32
    ensures statuses { result ≤ 4 }
    ensures printed { result ≤ 1 → Prints options.now.mode list.now result out.old out.new counts.new.length }
    ensures unrefused { result ≤ 1 → counts.new.refusal ≡ 0 }
    ensures refused { result ≡ 2 → verdict_of true list.now ≡ refused counts.new.refusal }
    ensures mode { (result ≡ 4) ↔ (mode_numbered options.now.mode ≡ None) }
    ensures unwritten { 1 < result → out.new ≡ out.old }
    ensures nothing { 1 < result → counts.new.length ≡ 0 }
{
    *counts = Counts {
        length: 0,
        refusal: 0,
    };
    let Some(mode) = mode_numbered(options.mode) else {
        return MODE;
    };
    match serve_in_memory(alloc, list, mode, hashing(options.key)) {
        Ok(printed) => give(&printed, out, counts),
        Err(RunFault::List(number)) => {
            counts.refusal = u32::from(number);
            REFUSED
        }
        Err(_) => MEMORY,
    }
}
