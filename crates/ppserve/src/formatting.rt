//! Formats numbers and bytes into a slice, after its first `end` bytes. The functions return where the text ends.
ghost use Rattle.std.specs.Prelude.{◌≡◌, ◌+◌, ◌/◌, ◌%◌, ◌<◌, ◌≤◌, ◌∷◌, ◌++◌, [], decimal, length, take};
ghost use Rattle.ppserve.specs.code.LinePrefix.{PrintsAsIsBetween, first_set};

use std::marker::Model;
use std::simd::prelude::*;

/// Writes a byte.
#[inline(always)]
pub(crate) fn put_byte(bytes: &mut [u8], end: usize, byte: u8) -> usize
    requires { end < length bytes.old }
    ensures text { take result bytes.new ≡ take end bytes.old ++ byte ∷ [] }
    ensures end { result ≡ end + 1 }
{
    bytes[end] = byte;
    end + 1
}

/// Writes the first `len` bytes of a text. Copies all of its bytes, since a copy of constant length is faster.
#[inline(always)]
pub(crate) fn put_prefix<const N: usize>(
    bytes: &mut [u8],
    end: usize,
    text: &[u8; N],
    len: usize,
) -> usize
    requires capacity { end + N ≤ length bytes.old }
    requires len { len ≤ N }
    ensures text { take result bytes.new ≡ take end bytes.old ++ take len text.now }
    ensures end { result ≡ end + len }
{
    let text = *text;
    bytes[end..end + N].copy_from_slice(&text);
    end + len
}

/// The decimal digits of a number below 100, in the first `len` of two bytes. Both bytes are always written, since a
/// branch on the length is often mispredicted.
#[derive(Drop)]
pub(crate) struct Digits {
    first: u8,
    second: u8,
    len: usize,
}

impl Model for Digits {
    ghost use Rattle.std.specs.Prelude.{◌≤◌, ℕ, List, [], ◌∷◌, take};

    ghost Value = { List ℕ };

    ghost view = { λ d. take d.len (d.first ∷ (d.second ∷ [])) };

    ghost invariant = { λ d. d.len ≤ 2 };
}

impl Digits {
    /// Returns the digits of a number below 100.
    #[inline(always)]
    pub(crate) fn of(number: u32) -> Digits
        requires { number < 100 }
        ensures { result ≡ decimal number }
    {
        let (tens, ones) = (b'0' + (number / 10) as u8, b'0' + (number % 10) as u8);
        let (first, len) = if number < 10 { (ones, 1) } else { (tens, 2) };
        Digits {
            first,
            second: ones,
            len,
        }
    }

    /// Writes the digits.
    #[inline(always)]
    pub(crate) fn put(&self, bytes: &mut [u8], end: usize) -> usize
        requires { end + 2 ≤ length bytes.old }
        ensures text { take result bytes.new ≡ take end bytes.old ++ self.now }
        ensures end { result ≡ end + length self.now }
        ensures within { result ≤ end + 2 }
    {
        bytes[end] = self.first;
        bytes[end + 1] = self.second;
        end + self.len
    }
}

/// Writes the last two digits of a number.
#[inline(always)]
fn put_pair(bytes: &mut [u8], end: usize, number: u32) -> usize
    requires { end + 2 ≤ length bytes.old }
    ensures text { take result bytes.new ≡ take end bytes.old ++ (48 + number % 100 / 10) ∷ ((48 + number % 10) ∷ []) }
    ensures end { result ≡ end + 2 }
{
    let end = put_byte(bytes, end, b'0' + (number % 100 / 10) as u8);
    put_byte(bytes, end, b'0' + (number % 10) as u8)
}

/// Writes a number of at least 100 in decimal.
#[inline(never)]
fn put_large(bytes: &mut [u8], end: usize, number: u32) -> usize
    requires large { 100 ≤ number }
    requires capacity { end + length (decimal number) ≤ length bytes.old }
    ensures text { take result bytes.new ≡ take end bytes.old ++ decimal number }
    ensures end { result ≡ end + length (decimal number) }
{
    if number < 10_000 {
        let end = Digits::of(number / 100).put(bytes, end);
        return put_pair(bytes, end, number);
    }
    let end = put_large(bytes, end, number / 100);
    put_pair(bytes, end, number)
}

/// Writes a number in decimal. The slice must have capacity for ten digits.
#[inline(always)]
pub(crate) fn put_number(bytes: &mut [u8], end: usize, number: u32) -> usize
    requires { end + 10 ≤ length bytes.old }
    ensures text { take result bytes.new ≡ take end bytes.old ++ decimal number }
    ensures end { result ≡ end + length (decimal number) }
{
    if number < 100 {
        return Digits::of(number).put(bytes, end);
    }
    put_large(bytes, end, number)
}

/// Returns the length of the longest prefix of 14 bytes that is printed as it is, from two overlapping loads.
#[inline(always)]
pub(crate) fn as_is_prefix(inline: &[u8; 14]) -> usize
    ensures { PrintsAsIsBetween inline.now 0 result }
{
    let (first_run, second_run) = (as_is_run(inline, 0), as_is_run(inline, 6));
    if first_run < 8 {
        first_run
    } else {
        6 + second_run
    }
}

/// Returns how many of the eight bytes from `at` on are printed as they are, before the first that isn't.
#[inline(always)]
fn as_is_run(bytes: &[u8], at: usize) -> usize
    requires { at + 8 ≤ length bytes.now }
    ensures within { result ≤ 8 }
    ensures as_is { PrintsAsIsBetween bytes.now at (at + result) }
{
    let lanes = u8x8::from_slice(&bytes[at..]);
    let others = lanes.simd_lt(u8x8::splat(32))
        | lanes.simd_ge(u8x8::splat(127))
        | lanes.simd_eq(u8x8::splat(b'%'));
    first_set(others.to_bitmask())
}

/// Returns the index of the lowest bit of eight that is set, or 8.
#[inline(always)]
fn first_set(mask: u64) -> usize
    ensures { result ≡ first_set mask }
{
    if mask == 0 {
        8
    } else {
        mask.trailing_zeros() as usize
    }
}
