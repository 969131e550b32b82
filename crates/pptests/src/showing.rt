//! Helpers: tokens, locations and faults as text.
use pptext::{Fault, Kind, Place, Token};
use std::alloc::{AllocError, Global};
use std::process::Abort;

/// Asserts that a text is the expected one.
pub(crate) fn assert_shown(rt: &impl Abort, found: &[u8], wanted: &str) {
    assert!(rt; found == wanted.as_bytes(), "{found:?} for {wanted}");
}

/// Returns the letter of a kind.
fn letter(kind: Kind) -> u8 {
    match kind {
        Kind::Ident => b'i',
        Kind::Number => b'n',
        Kind::CharConst => b'c',
        Kind::Str => b's',
        Kind::Punct => b'p',
        Kind::Header => b'h',
        Kind::Other => b'o',
    }
}

/// Appends a location to a text, as `7:1:2`.
pub(crate) fn push_place(alloc: Global, text: &mut Vec<u8>, at: Place) -> Result<(), AllocError> {
    let place = format!(in alloc; "{}:{}:{}", at.file, at.line, at.col)?;
    text.extend_from_slice(place.as_bytes())
}

/// Appends a token's kind, `+` for a leading-space flag, its spelling, its spelling location and its expansion location to a
/// text, as `i+ a 7:1:2 7:1:2, `.
pub(crate) fn push_fields(
    alloc: Global,
    text: &mut Vec<u8>,
    (kind, space): (Kind, bool),
    spelling: &[u8],
    (at, used): (Place, Place),
) -> Result<(), AllocError> {
    text.push(letter(kind))?;
    text.extend_from_slice(if space { b"+ " } else { b"- " })?;
    text.extend_from_slice(spelling)?;
    text.push(b' ')?;
    push_place(alloc, text, at)?;
    text.push(b' ')?;
    push_place(alloc, text, used)?;
    text.extend_from_slice(b", ")
}

/// Appends a token to a text.
pub(crate) fn push_token(
    alloc: Global,
    text: &mut Vec<u8>,
    token: &Token,
) -> Result<(), AllocError> {
    let marks = (token.kind, token.space);
    let places = (token.at, token.used);
    push_fields(alloc, text, marks, token.text.as_bytes(), places)
}

/// Appends a fault's number, location and text to a text, as `3 7:1:2 endif`.
pub(crate) fn push_fault(
    alloc: Global,
    text: &mut Vec<u8>,
    fault: &Fault,
) -> Result<(), AllocError> {
    text.extend_from_slice(format!(in alloc; "{} ", fault.number)?.as_bytes())?;
    push_place(alloc, text, fault.at)?;
    text.push(b' ')?;
    text.extend_from_slice(fault.text.as_bytes())
}
