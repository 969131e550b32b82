//! Translation phases 1 and 2 one step at a time: what the remaining bytes of a file begin with.
ghost use Rattle.std.specs.Prelude.{◌≡◌, ◌<◌, MatchOption, length};
ghost use Rattle.pptext.specs.Clean.{trigraph, without_bom};
ghost use Rattle.pptext.specs.code.Steps.{Code, PlainPrefix, Removed, StopsAt, leading_newline, lacks_newline, step_of, leading_trigraph};

use crate::sources::Profile;
use memchr::memchr3;

/// What the remaining bytes of a file begin with.
#[derive(Clone, Copy)]
pub(crate) enum CharStep {
    /// A character: its code, and the number of bytes that spell it.
    Code(u8, usize),
    /// A number of bytes that phases 1 and 2 remove: a CR before an LF, or a backslash with its new-line.
    Removed(usize),
}

/// Returns the bytes after the byte order mark, if there is one.
pub(crate) fn without_bom(bytes: &[u8]) -> &[u8]
    ensures { result.now ≡ without_bom bytes.now }
{
    match bytes {
        [0xef, 0xbb, 0xbf, rest @ ..] => rest,
        _ => bytes,
    }
}

/// Returns whether the bytes end in a line without an LF.
pub(crate) fn lacks_newline(bytes: &[u8]) -> bool
    ensures { result ≡ lacks_newline bytes.now }
{
    match bytes {
        [] => false,
        [.., last] => *last != b'\n',
    }
}

/// Returns the character that replaces `??` and this one (5.2.1.1), or 0.
pub(crate) fn trigraph(code: u8) -> u8
    ensures { result ≡ trigraph code }
{
    match code {
        b'=' => b'#',
        b'(' => b'[',
        b'/' => b'\\',
        b')' => b']',
        b'\'' => b'^',
        b'<' => b'{',
        b'!' => b'|',
        b'>' => b'}',
        b'-' => b'~',
        _ => 0,
    }
}

/// Returns the index of the first byte that may be more than a character of its own: a backslash, `?` or CR.
pub(crate) fn first_special(rest: &[u8]) -> Option<usize>
    ensures { MatchOption result (PlainPrefix rest.now (length rest.now)) (λ at. StopsAt rest.now at) }
{
    memchr3(b'\\', b'?', b'\r', rest)
}

/// Returns the character of the trigraph that begins the bytes, or 0. GNU C replaces no trigraph.
fn leading_trigraph(rest: &[u8], profile: Profile) -> u8
    ensures { result ≡ leading_trigraph profile rest.now }
{
    if profile.is_gnu() {
        return 0;
    }
    match rest {
        [b'?', b'?', third, ..] => trigraph(*third),
        _ => 0,
    }
}

/// Returns the length in bytes of the new-line that begins the bytes. It is 0 at the end of a file whose last new-line
/// is supplied.
fn newline_len(rest: &[u8], supplied: bool) -> Option<usize>
    ensures { result ≡ leading_newline supplied rest.now }
{
    match rest {
        [] if supplied => Some(0),
        [b'\n', ..] => Some(1),
        [b'\r', b'\n', ..] => Some(2),
        _ => None,
    }
}

/// Returns what the remaining bytes begin with. `supplied` says whether the file's last new-line is missing and
/// supplied.
pub(crate) fn next_step(rest: &[u8], supplied: bool, profile: Profile) -> CharStep
    requires { 0 < length rest.now }
    ensures { (elim result [ CharStep.Code code n ↦ Code code n | CharStep.Removed n ↦ Removed n ]) ≡ step_of profile supplied rest.now }
{
    if let [b'\r', b'\n', ..] = rest {
        return CharStep::Removed(1);
    }
    let (code, len) = match leading_trigraph(rest, profile) {
        0 => (rest[0], 1),
        code => (code, 3),
    };
    if code == b'\\' {
        if let Some(n) = newline_len(&rest[len..], supplied) {
            return CharStep::Removed(len + n);
        }
    }
    CharStep::Code(code, len)
}
