//! Locations of bytes in a file.
ghost use Rattle.std.specs.Prelude.{◌≡◌, ◌≢◌, ◌+◌, ◌<◌, ◌^◌, ℕ, length, slice_index, false};
ghost use Rattle.pptext.specs.code.Steps.{place_after};

use crate::tokens::Place;
use memchr::memchr;

/// Returns the location after these bytes, if the first is at `start`. An LF ends a line.
pub(crate) fn place_after(start: Place, bytes: &[u8]) -> Place
    requires line { start.line + length bytes.now < 2 ^ 32 }
    requires col { start.col + length bytes.now < 2 ^ 32 }
    ensures { result ≡ place_after start bytes.now }
{
    let mut place = start;
    move_after(&mut place, bytes);
    place
}

/// Moves a location from the first of these bytes to after the last.
#[inline(always)]
#[tactic(auto, using(crate::proofs::Locations::no_line_passed))]
pub(crate) fn move_after(place: &mut Place, bytes: &[u8])
    requires line { place.old.line + length bytes.now < 2 ^ 32 }
    requires col { place.old.col + length bytes.now < 2 ^ 32 }
    ensures { place.new ≡ place_after place.old bytes.now }
{
    let rest = skip_newline(place, bytes);
    if has_newline(rest) {
        move_after_lines(place, rest);
    } else {
        place.col += rest.len() as u32;
    }
}

/// Moves the location of the first byte past it if that byte is an LF, and returns the remaining bytes. The last
/// location asked for in a line is that of its end, so the next token's is usually after an LF and a few bytes.
#[inline(always)]
fn skip_newline<'a>(place: &mut Place, bytes: &'a [u8]) -> &'a [u8]
    requires line { place.old.line + length bytes.now < 2 ^ 32 }
    requires col { place.old.col + length bytes.now < 2 ^ 32 }
    ensures line { place.new.line + length result.now < 2 ^ 32 }
    ensures col { place.new.col + length result.now < 2 ^ 32 }
    ensures after_newline { place_after place.new result.now ≡ place_after place.old bytes.now }
{
    match bytes {
        [b'\n', rest @ ..] => {
            place.line += 1;
            place.col = 1;
            rest
        }
        _ => bytes,
    }
}

/// Returns whether a line ends among the bytes.
#[inline(always)]
fn has_newline(bytes: &[u8]) -> bool
    ensures { result ≡ false → (k : ℕ) → k < length bytes.now → slice_index bytes.now k ≢ 10 }
{
    for byte in bytes {
        if *byte == b'\n' {
            return true;
        }
    }
    false
}

/// Moves a location past bytes among which lines end. This is rare: the bytes may hold a comment of many lines.
#[inline(never)]
fn move_after_lines(place: &mut Place, bytes: &[u8])
    requires line { place.old.line + length bytes.now < 2 ^ 32 }
    requires col { place.old.col + length bytes.now < 2 ^ 32 }
    ensures { place.new ≡ place_after place.old bytes.now }
{
    let mut line = place.line;
    let mut col = place.col;
    let mut from = 0;
    while let Some(len) = memchr(b'\n', &bytes[from..]) {
        line += 1;
        col = 1;
        from += len + 1;
    }
    place.line = line;
    place.col = col + (bytes.len() - from) as u32;
}
