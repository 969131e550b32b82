//! Names of files and directories.
ghost use Rattle.std.specs.Prelude.{◌≡◌};
ghost use Rattle.std.specs.List.{list_all};
ghost use Rattle.ppshelf.specs.Names as spec;
ghost use Rattle.ppshelf.specs.code.Paths as code;

/// The maximum length of a name, in bytes.
pub(crate) const LONGEST_NAME: usize = 1024;

/// Returns whether the text is a file's name in normal form: 1 to 1,024 bytes without control characters, in segments
/// between `/`, none of which is empty, `.` or `..`.
pub fn is_file_name(text: &[u8]) -> bool
    ensures { result ≡ spec.is_file_name text.now }
{
    text.len() <= LONGEST_NAME && has_name_bytes(text) && has_segments(text)
}

/// Returns whether the text is a directory: `.` for the root, or a name in normal form.
pub fn is_directory(text: &[u8]) -> bool
    ensures { result ≡ spec.is_directory text.now }
{
    text == b".".as_slice() || is_file_name(text)
}

/// Returns whether each byte is allowed in a name.
fn has_name_bytes(text: &[u8]) -> bool
    ensures { result ≡ list_all spec.is_name_byte text.now }
{
    text.iter().all(|byte| is_name_byte(*byte))
}

/// Returns whether each segment is allowed in a name.
fn has_segments(text: &[u8]) -> bool
    ensures { result ≡ list_all spec.is_segment (spec.segments text.now) }
{
    text.split(|byte| *byte == b'/')
        .all(|segment| is_segment(segment))
}

/// Returns whether the byte is allowed in a name: no control character of ASCII.
fn is_name_byte(byte: u8) -> bool
    ensures { result ≡ spec.is_name_byte byte }
{
    byte >= b' ' && byte != 127
}

/// Returns whether the segment is allowed in a name: not empty, `.` or `..`.
fn is_segment(segment: &[u8]) -> bool
    ensures { result ≡ spec.is_segment segment.now }
{
    !segment.is_empty() && segment != b".".as_slice() && segment != b"..".as_slice()
}

/// Returns whether each segment of the text has a first byte that is no `.`. If so, the text has no segment that is
/// dropped or leads up, so it spells its own path.
pub(crate) fn has_no_dot_segments(text: &[u8]) -> bool
    ensures { result ≡ list_all code.starts_without_dot (spec.segments text.now) }
{
    text.split(|byte| *byte == b'/')
        .all(|segment| starts_without_dot(segment))
}

/// Returns whether the segment has a first byte that is no `.`.
fn starts_without_dot(segment: &[u8]) -> bool
    ensures { result ≡ code.starts_without_dot segment.now }
{
    !segment.is_empty() && segment[0] != b'.'
}
