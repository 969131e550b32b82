//! Prints the include chain of a unit.
//!
//! The chain follows from the marks among the items: a file is open that is entered and not left. Each file that is entered
//! is looked for among the items after it, so that printing allocates nothing. Items within n files that are open are
//! passed n times, and n is at most 202.
ghost use Rattle.std.specs.Prelude.{◌≡◌, ◌==◌, ◌+◌, ◌<◌, ◌≤◌, ◌^◌, ◌++◌, ◌∷◌, [], Some, None, List, flat_map, IfSome, IfNone, if◌then◌else◌};
ghost use Rattle.ppunit.specs.BorrowedItems.{marks, slice_items};
ghost use Rattle.ppunit.specs.CommandFile.{command_file};
ghost use Rattle.ppunit.specs.Chain.{chain, leaves, open_after_sort, open_places, place_of_sort};
ghost use Rattle.ppunit.specs.declared.units.Item.{Item};
ghost use Rattle.ppserve.specs.Output.{in_line};
ghost use Rattle.ppserve.specs.code.Printing.{Puts};

use crate::out_buffer::OutBuffer;
use crate::output::put_place;
use crate::streams::Sink;
use ppshelf::MAX_ROWS;
use pptext::Place;
use ppunit::{ItemSlice, ItemSlices, Items, MarkSort};

/// Returns the number of files that are open within a file after a mark, given that number before it; `None` if the mark leaves
/// the file.
fn open_after_mark(depth: usize, sort: MarkSort) -> Option<usize>
    requires { depth + 1 < 2 ^ 64 }
    ensures after { result ≡ open_after_sort depth sort }
    ensures few { IfSome result (λ n. n ≤ depth + 1) }
{
    match sort {
        MarkSort::Enter(_) => Some(depth + 1),
        MarkSort::Leave => depth.checked_sub(1),
        MarkSort::Line => Some(depth),
    }
}

/// Returns the number of files that are open within a file after items, given that number before them; `None` if they leave the
/// file.
#[tactic(auto, using(crate::proofs::IncludeChain::leaves_after))]
fn open_after(depth: usize, items: ItemSlice) -> Option<usize>
    requires { depth + marks (slice_items items) < 2 ^ 64 }
    ensures after { (rest : List Item) → leaves (Some depth) (slice_items items.entry ++ rest) ≡ leaves result rest }
    ensures few { IfSome result (λ n. n ≤ depth + marks (slice_items items.entry)) }
{
    match items {
        ItemSlice::Tokens(_) => Some(depth),
        ItemSlice::Pragma(_, _) => Some(depth),
        ItemSlice::Mark(mark) => open_after_mark(depth, mark.sort),
    }
}

/// Returns whether the items leave the file that was entered before them.
fn is_left(items: ItemSlices) -> bool
    ensures { result ≡ leaves (Some 0) items.entry }
{
    // For proofs only: cites the bound of what is counted.
    let _most = items.most_marks();
    let mut rest = items;
    let mut depth = 0;
    while let Some(slice) = rest.next() {
        let Some(after) = open_after(depth, slice) else {
            return true;
        };
        depth = after;
    }
    false
}

/// Returns the location of a mark that enters a file, if none of the items after it leaves that file.
#[tactic(auto, using(crate::proofs::IncludeChain::no_places))]
fn open_mark(sort: MarkSort, rest: ItemSlices) -> Option<Place>
    ensures some { IfSome result (λ at. (if leaves (Some 0) rest.entry then [] else place_of_sort sort) ≡ at ∷ []) }
    ensures none { IfNone result ((if leaves (Some 0) rest.entry then [] else place_of_sort sort) ≡ []) }
{
    match sort {
        MarkSort::Enter(at) => { if is_left(rest) { None } else { Some(at) } }
        MarkSort::Leave => None,
        MarkSort::Line => None,
    }
}

/// Returns the location of the first of the items if it enters a file that none of those after them leaves.
#[tactic(auto, using(crate::proofs::IncludeChain::places_after))]
fn open_place(items: ItemSlice, rest: ItemSlices) -> Option<Place>
    ensures some { IfSome result (λ at. open_places (slice_items items.entry ++ rest.entry) ≡ at ∷ open_places rest.entry) }
    ensures none { IfNone result (open_places (slice_items items.entry ++ rest.entry) ≡ open_places rest.entry) }
{
    match items {
        ItemSlice::Tokens(_) => None,
        ItemSlice::Pragma(_, _) => None,
        ItemSlice::Mark(mark) => open_mark(mark.sort, rest),
    }
}

/// Returns the location of the next item that enters a file which no later item leaves, and moves past it.
fn next_open(rest: &mut ItemSlices) -> Option<Place>
    ensures some { IfSome result (λ at. open_places rest.old ≡ at ∷ open_places rest.new) }
    ensures none { IfNone result (open_places rest.old ≡ []) }
{
    while let Some(slice) = rest.next() {
        if let Some(at) = open_place(slice, rest.duplicate()) {
            return Some(at);
        }
    }
    None
}

/// Prints the line of an include line.
fn put_in<W: Sink>(buf: &mut OutBuffer, writer: &mut W, at: Place)
    ensures { Puts W.written W.has_failed writer.old writer.new buf.old buf.new (in_line at) }
{
    buf.put(writer, b"in ");
    put_place(buf, writer, at);
    buf.put(writer, b"\n");
}

/// Returns whether a location is in the definitions of a unit.
fn is_in_definitions(at: Place) -> bool
    ensures { result ≡ (at.file == command_file) }
{
    at.file as usize == MAX_ROWS
}

/// Prints the line of the outermost file, unless it is the unit's own.
fn put_outermost<W: Sink>(buf: &mut OutBuffer, writer: &mut W, at: Place)
    ensures { Puts W.written W.has_failed writer.old writer.new buf.old buf.new (flat_map in_line (if at.file == command_file then at ∷ [] else [])) }
{
    if is_in_definitions(at) {
        put_in(buf, writer, at);
    }
}

/// Prints the lines of the files that the items enter and don't leave.
fn put_ins<W: Sink>(buf: &mut OutBuffer, writer: &mut W, items: ItemSlices)
    ensures { Puts W.written W.has_failed writer.old writer.new buf.old buf.new (flat_map in_line (open_places items.entry)) }
{
    let mut rest = items;
    while let Some(at) = next_open(&mut rest) {
        put_in(buf, writer, at);
    }
}

/// Prints the lines of the include chain.
pub(crate) fn put_chain<W: Sink>(buf: &mut OutBuffer, writer: &mut W, items: &Items)
    ensures { Puts W.written W.has_failed writer.old writer.new buf.old buf.new (flat_map in_line (chain items.now)) }
{
    let mut rest = items.slices();
    let Some(outermost) = next_open(&mut rest) else {
        return;
    };
    put_outermost(buf, writer, outermost);
    put_ins(buf, writer, rest);
}
