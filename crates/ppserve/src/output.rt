//! Prints the output of a list's units.
//!
//! Functions `put_..` append to a buffer, which is flushed whenever it is full. None of them returns an error: each
//! promises `Puts`, which says what reached the writer and what is still in the buffer, also after a failed write, and
//! `Puts` of one text and then of another is `Puts` of both. So a function of two lines needs no proof about failures,
//! and only `print` asks once, at the end, whether a write failed. The lines are read from a `LineCursor`, so that one
//! thread and several print the same records. The line of a token, most of the output, has a fast path.
ghost use Rattle.std.specs.Prelude.{◌≡◌, ◌++◌, ◌∷◌, [], ◌<◌, ◌≤◌};
ghost use Rattle.std.specs.Prelude.{IfOk, Some, codes, decimal, length, take, flat_map};
ghost use Rattle.ppserve.specs.Output.{percent_encoded, percent_encoded_byte, prints_as_is, hex_digit, place_text, item_lines, pragma_token_line};
ghost use Rattle.ppserve.specs.Output.{dep_line, fault_text, last_line, output_text, shows_items};
ghost use Rattle.ppserve.specs.code.Records.{Alike, record_lines, first_line, last_lines, chain_lines, records_of_lines, remaining_records, output_bytes};
ghost use Rattle.ppserve.specs.code.Printing.{Puts};
ghost use Rattle.ppserve.specs.declared.output.Mode.TheVariants.{Dump, Deps, Faults, Text};
ghost use Rattle.ppmacro.specs.Substituting.{tokens_of};
ghost use Rattle.ppexpand.specs.Slices.{slice_tokens};
ghost use Rattle.ppshelf.specs.Names.{name_in};
ghost use Rattle.ppunit.specs.declared.units.Item.TheVariants as item;
ghost use Rattle.ppserve.specs.code.LinePrefix.{before_spelling, token_line};

use crate::chain::put_chain;
use crate::line_cursor::{LineCursor, Lines};
use crate::line_prefix::LineFields;
use crate::list::List;
use crate::out_buffer::OutBuffer;
use crate::streams::{Sink, VecSink};
use crate::text_output::put_segment;
use itoa::Buffer;
use ppexpand::TokenSlice;
use ppmacro::Hidden;
use ppprint::SystemFiles;
use ppshelf::FileName;
use pptext::{Fault, Memory, Place, Spelling, Token};
use ppunit::{Unit, UnitOut};
use std::alloc::Global;

/// What is printed of each unit.
#[derive(Clone, Copy, Debug, PartialEq, Eq)]
pub enum Mode {
    /// Items, dependencies and the fault.
    Dump,
    /// Dependencies and the fault.
    Deps,
    /// The include chain of the fault, and the fault.
    Faults,
    /// The text that a compiler takes, dependencies and the fault.
    Text,
}

impl Mode {
    /// Returns whether this mode prints the units' items.
    pub(crate) fn shows_items(self) -> bool
        ensures { result ≡ shows_items self }
    {
        match self {
            Mode::Dump | Mode::Text => true,
            Mode::Deps | Mode::Faults => false,
        }
    }

    /// Returns the number of tokens that a worker prints in a round: as many as nearly fill its buffer of this size.
    /// The line of a token has about 35 bytes, and a token of a text about 8.
    pub(crate) fn tokens_in(self, size: usize) -> usize
        ensures { 40 ≤ size → 0 < result }
    {
        match self {
            Mode::Dump | Mode::Deps | Mode::Faults => size / 40,
            Mode::Text => size / 16,
        }
    }
}

/// Returns the output: for each unit a line with its name, one for each token, each pragma and each token of a pragma,
/// one for each dependency, and one with its fault or `ok`. Fails only if an allocation fails.
pub fn dump(alloc: Global, list: &List, outs: &[UnitOut]) -> Result<Vec<u8>, Memory>
    requires { length outs.now ≡ length list.now.units }
    ensures { IfOk result (λ text. text.items ≡ output_text Dump list.now outs.now) }
{
    print_to_vec(alloc, Mode::Dump, list, outs)
}

/// Returns the output without items: for each unit a line with its name, one for each dependency, and one with its
/// fault or `ok`. Fails only if an allocation fails.
pub fn deps(alloc: Global, list: &List, outs: &[UnitOut]) -> Result<Vec<u8>, Memory>
    requires { length outs.now ≡ length list.now.units }
    ensures { IfOk result (λ text. text.items ≡ output_text Deps list.now outs.now) }
{
    print_to_vec(alloc, Mode::Deps, list, outs)
}

/// Returns the output as text: for each unit a line with its name, the lines of the text that a compiler takes, each
/// after a `|`, one line for each dependency, and one with its fault or `ok`. Fails only if an allocation fails.
pub fn text(alloc: Global, list: &List, outs: &[UnitOut]) -> Result<Vec<u8>, Memory>
    requires { length outs.now ≡ length list.now.units }
    ensures { IfOk result (λ text. text.items ≡ output_text Text list.now outs.now) }
{
    print_to_vec(alloc, Mode::Text, list, outs)
}

/// Returns the output for faults: for each unit a line with its name, one for each include line of the chain of its fault,
/// and one with its fault or `ok`. Fails only if an allocation fails.
pub fn faults(alloc: Global, list: &List, outs: &[UnitOut]) -> Result<Vec<u8>, Memory>
    requires { length outs.now ≡ length list.now.units }
    ensures { IfOk result (λ text. text.items ≡ output_text Faults list.now outs.now) }
{
    print_to_vec(alloc, Mode::Faults, list, outs)
}

/// The output of units, in a mode.
#[derive(Clone, Copy)]
pub(crate) struct Output<'a> {
    pub mode: Mode,
    pub names: &'a [FileName],
    pub units: &'a [Unit],
    pub outs: &'a [UnitOut<'a>],
}

/// Returns the output in a mode.
fn print_to_vec(alloc: Global, mode: Mode, list: &List, outs: &[UnitOut]) -> Result<Vec<u8>, Memory>
    ensures { IfOk result (λ text. text.items ≡ output_text mode list.now outs.now) }
{
    let output = Output {
        mode,
        names: list.names.as_slice(),
        units: list.units.as_slice(),
        outs,
    };
    print_alone(alloc, output)
}

/// Returns the output of units. Fails only if an allocation fails.
pub(crate) fn print_alone(alloc: Global, output: Output) -> Result<Vec<u8>, Memory>
    ensures { IfOk result (λ text. text.items ≡ output_bytes output.entry) }
{
    let mut buf = OutBuffer::new(alloc)?;
    let mut text = VecSink::new(alloc);
    let mut cursor = LineCursor::new(alloc, output)?;
    put_through(&mut buf, &mut text, output.names, &mut cursor);
    if text.failed() {
        return Err(Memory);
    }
    Ok(text.into_bytes())
}

/// Prints all lines through an empty buffer, without allocating. After a failed write nothing more is formatted or
/// written.
///
/// The buffer and the writer are separate parameters. If one struct held both, this couldn't be proved: after the struct
/// is dropped, the last value of a generic writer isn't known.
pub(crate) fn put_through<W: Sink>(
    buf: &mut OutBuffer,
    writer: &mut W,
    names: &[FileName],
    cursor: &mut LineCursor,
)
    requires { buf.old ≡ [] }
    ensures { Puts W.written W.has_failed writer.old writer.new [] [] (flat_map (record_lines names.now) (remaining_records cursor.old)) }
{
    put_all(buf, writer, names, cursor);
    buf.flush(writer);
}

/// Prints all lines. After a failed write nothing more is formatted or written.
fn put_all<W: Sink>(
    buf: &mut OutBuffer,
    writer: &mut W,
    names: &[FileName],
    cursor: &mut LineCursor,
)
    ensures { Puts W.written W.has_failed writer.old writer.new buf.old buf.new (flat_map (record_lines names.now) (remaining_records cursor.old)) }
{
    while let Some(lines) = cursor.next(usize::MAX) {
        if writer.failed() {
            return;
        }
        put_lines(buf, writer, names, cursor.systems(), lines);
    }
}

/// Prints the next records, at most `count`. After a failed write nothing more is formatted or written.
pub(crate) fn put_next<W: Sink>(
    buf: &mut OutBuffer,
    writer: &mut W,
    names: &[FileName],
    cursor: &mut LineCursor,
    count: usize,
)
    ensures out { Puts W.written W.has_failed writer.old writer.new buf.old buf.new
        (flat_map (record_lines names.now) (take count (remaining_records cursor.old))) }
    ensures alike { Alike cursor.new cursor.old }
{
    let mut left = count;
    while left > 0 {
        let Some(lines) = cursor.next(left) else {
            return;
        };
        if writer.failed() {
            return;
        }
        let count = lines.count();
        put_lines(buf, writer, names, cursor.systems(), lines);
        left -= count;
    }
}

/// Prints consecutive lines.
fn put_lines<W: Sink>(
    buf: &mut OutBuffer,
    writer: &mut W,
    names: &[FileName],
    systems: &SystemFiles,
    lines: Lines,
)
    ensures { Puts W.written W.has_failed writer.old writer.new buf.old buf.new (flat_map (record_lines names.now) (records_of_lines systems.now lines.entry)) }
{
    match lines {
        Lines::First(index, unit) => put_first(buf, writer, names, index, unit),
        Lines::Tokens(tokens) => put_tokens(buf, writer, tokens),
        Lines::Pragma(at, tokens) => put_pragma(buf, writer, at, tokens),
        Lines::Mark(_) => {}
        Lines::Segment(segment) => put_segment(buf, writer, systems, &segment),
        Lines::Last(out) => put_last(buf, writer, names, out),
        Lines::Faulty(out) => put_faulty(buf, writer, out),
    }
}

/// Prints the first line of a unit.
fn put_first<W: Sink>(
    buf: &mut OutBuffer,
    writer: &mut W,
    names: &[FileName],
    index: usize,
    unit: &Unit,
)
    ensures { Puts W.written W.has_failed writer.old writer.new buf.old buf.new (first_line names.now index unit.now) }
{
    buf.put(writer, b"unit ");
    put_decimal(buf, writer, index as u64);
    buf.put(writer, b" ");
    put_name(buf, writer, names, unit.file);
    buf.put(writer, b"\n");
}

/// Prints the last lines of a unit: its dependencies, and its fault or `ok`.
fn put_last<W: Sink>(buf: &mut OutBuffer, writer: &mut W, names: &[FileName], out: &UnitOut)
    ensures { Puts W.written W.has_failed writer.old writer.new buf.old buf.new (last_lines names.now out.now) }
{
    put_deps(buf, writer, names, out.deps.as_slice());
    put_end(buf, writer, &out.fault);
}

/// Prints the last lines of a unit: its include chain, and its fault or `ok`.
fn put_faulty<W: Sink>(buf: &mut OutBuffer, writer: &mut W, out: &UnitOut)
    ensures { Puts W.written W.has_failed writer.old writer.new buf.old buf.new (chain_lines out.now) }
{
    put_chain(buf, writer, &out.items);
    put_end(buf, writer, &out.fault);
}

/// Prints the line of a pragma and the lines of its tokens.
fn put_pragma<W: Sink>(buf: &mut OutBuffer, writer: &mut W, at: Place, tokens: &[Token])
    ensures { Puts W.written W.has_failed writer.old writer.new buf.old buf.new (item_lines (item.Pragma at tokens.now)) }
{
    buf.put(writer, b"prag ");
    put_place(buf, writer, at);
    buf.put(writer, b"\n");
    put_pragma_tokens(buf, writer, tokens);
}

/// Prints the lines of tokens.
fn put_tokens<W: Sink>(buf: &mut OutBuffer, writer: &mut W, tokens: TokenSlice)
    ensures { Puts W.written W.has_failed writer.old writer.new buf.old buf.new (flat_map token_line (slice_tokens tokens.entry)) }
{
    match tokens {
        TokenSlice::InFile(tokens) => put_source_tokens(buf, writer, tokens),
        TokenSlice::Hidden(tokens) => put_hidden_tokens(buf, writer, tokens),
    }
}

/// Prints the lines of a file's tokens.
fn put_source_tokens<W: Sink>(buf: &mut OutBuffer, writer: &mut W, tokens: &[Token])
    ensures { Puts W.written W.has_failed writer.old writer.new buf.old buf.new (flat_map token_line tokens.now) }
{
    for token in tokens {
        put_token(buf, writer, token);
    }
}

/// Prints the lines of tokens with hide sets.
fn put_hidden_tokens<W: Sink>(buf: &mut OutBuffer, writer: &mut W, tokens: &[Hidden])
    ensures { Puts W.written W.has_failed writer.old writer.new buf.old buf.new (flat_map token_line (tokens_of tokens.now)) }
{
    for hidden in tokens {
        put_hidden(buf, writer, hidden);
    }
}

/// Prints the lines of a pragma's tokens.
fn put_pragma_tokens<W: Sink>(buf: &mut OutBuffer, writer: &mut W, tokens: &[Token])
    ensures { Puts W.written W.has_failed writer.old writer.new buf.old buf.new (flat_map pragma_token_line tokens.now) }
{
    for token in tokens {
        put_pragma_token(buf, writer, token);
    }
}

/// Prints the line of a pragma's token.
fn put_pragma_token<W: Sink>(buf: &mut OutBuffer, writer: &mut W, token: &Token)
    ensures { Puts W.written W.has_failed writer.old writer.new buf.old buf.new (pragma_token_line token.now) }
{
    buf.put(writer, b"p");
    put_token(buf, writer, token);
}

/// Prints the line of a token with hide sets.
#[inline(always)]
fn put_hidden<W: Sink>(buf: &mut OutBuffer, writer: &mut W, hidden: &Hidden)
    ensures { Puts W.written W.has_failed writer.old writer.new buf.old buf.new (token_line hidden.now.token) }
{
    let token = hidden.token();
    let fields = LineFields {
        at: token.at,
        used: hidden.used(),
        kind: token.kind,
        space: hidden.space(),
    };
    put_token_line(buf, writer, fields, &token.text);
}

/// Prints the line of a token of a file.
#[inline(always)]
fn put_token<W: Sink>(buf: &mut OutBuffer, writer: &mut W, token: &Token)
    ensures { Puts W.written W.has_failed writer.old writer.new buf.old buf.new (token_line token.now) }
{
    let fields = LineFields {
        at: token.at,
        used: token.used,
        kind: token.kind,
        space: token.space,
    };
    put_token_line(buf, writer, fields, &token.text);
}

/// Prints the line of a token. Fast path: most spellings are short and are printed as they are; then the line is
/// copied to the buffer after one look at its capacity.
#[inline(always)]
fn put_token_line<W: Sink>(
    buf: &mut OutBuffer,
    writer: &mut W,
    fields: LineFields,
    spelling: &Spelling,
)
    ensures { Puts W.written W.has_failed writer.old writer.new buf.old buf.new
        (codes "tok" ++ before_spelling fields.at fields.used fields.kind fields.space ++ percent_encoded spelling.now ++ (10 ∷ [])) }
{
    buf.ensure_capacity(writer);
    buf.add_line_prefix(fields);
    if let Some((inline, len)) = spelling.in_place() {
        if buf.add_short_spelling(inline, len) {
            return;
        }
    }
    put_spelling_and_newline(buf, writer, spelling.as_bytes());
}

/// Prints any spelling and a new-line.
#[inline(never)]
fn put_spelling_and_newline<W: Sink>(buf: &mut OutBuffer, writer: &mut W, spelling: &[u8])
    ensures { Puts W.written W.has_failed writer.old writer.new buf.old buf.new (percent_encoded spelling.now ++ (10 ∷ [])) }
{
    put_percent_encoded(buf, writer, spelling);
    buf.put(writer, b"\n");
}

/// Prints the lines of a unit's dependencies.
fn put_deps<W: Sink>(buf: &mut OutBuffer, writer: &mut W, names: &[FileName], rows: &[usize])
    ensures { Puts W.written W.has_failed writer.old writer.new buf.old buf.new (flat_map (dep_line names.now) rows.now) }
{
    for &row in rows {
        put_dep(buf, writer, names, row);
    }
}

/// Prints the line of a dependency.
fn put_dep<W: Sink>(buf: &mut OutBuffer, writer: &mut W, names: &[FileName], row: usize)
    ensures { Puts W.written W.has_failed writer.old writer.new buf.old buf.new (dep_line names.now row) }
{
    buf.put(writer, b"dep ");
    put_decimal(buf, writer, row as u64);
    buf.put(writer, b" ");
    put_name(buf, writer, names, row);
    buf.put(writer, b"\n");
}

/// Prints the name of the file at index `row`.
fn put_name<W: Sink>(buf: &mut OutBuffer, writer: &mut W, names: &[FileName], row: usize)
    ensures { Puts W.written W.has_failed writer.old writer.new buf.old buf.new (percent_encoded (name_in names.now row)) }
{
    let Some(name) = names.get(row) else {
        return;
    };
    put_percent_encoded(buf, writer, name.as_str().as_bytes());
}

/// Prints the last line of a unit: its fault or `ok`.
fn put_end<W: Sink>(buf: &mut OutBuffer, writer: &mut W, fault: &Option<Fault>)
    ensures { Puts W.written W.has_failed writer.old writer.new buf.old buf.new (last_line fault.now) }
{
    match fault {
        None => buf.put(writer, b"ok\n"),
        Some(fault) => put_fault(buf, writer, fault),
    }
}

/// Prints the line of a fault.
fn put_fault<W: Sink>(buf: &mut OutBuffer, writer: &mut W, fault: &Fault)
    ensures { Puts W.written W.has_failed writer.old writer.new buf.old buf.new (last_line (Some fault.now)) }
{
    buf.put(writer, b"fault ");
    put_decimal(buf, writer, u64::from(fault.number));
    buf.put(writer, b" ");
    put_place(buf, writer, fault.at);
    put_fault_text(buf, writer, fault.text.as_bytes());
    buf.put(writer, b"\n");
}

/// Prints the text of a fault after a space, if it has one.
fn put_fault_text<W: Sink>(buf: &mut OutBuffer, writer: &mut W, text: &[u8])
    ensures { Puts W.written W.has_failed writer.old writer.new buf.old buf.new (fault_text text.now) }
{
    if text.is_empty() {
        return;
    }
    buf.put(writer, b" ");
    put_percent_encoded(buf, writer, text);
}

/// Prints a location.
pub(crate) fn put_place<W: Sink>(buf: &mut OutBuffer, writer: &mut W, place: Place)
    ensures { Puts W.written W.has_failed writer.old writer.new buf.old buf.new (place_text place) }
{
    put_decimal(buf, writer, u64::from(place.file));
    buf.put(writer, b":");
    put_decimal(buf, writer, u64::from(place.line));
    buf.put(writer, b":");
    put_decimal(buf, writer, u64::from(place.col));
}

/// Prints a number in decimal.
pub(crate) fn put_wide_decimal<W: Sink>(buf: &mut OutBuffer, writer: &mut W, number: u128)
    ensures { Puts W.written W.has_failed writer.old writer.new buf.old buf.new (decimal number) }
{
    let mut buffer = Buffer::new();
    buf.put(writer, buffer.format(number).as_bytes());
}

/// Prints a number in decimal.
fn put_decimal<W: Sink>(buf: &mut OutBuffer, writer: &mut W, number: u64)
    ensures { Puts W.written W.has_failed writer.old writer.new buf.old buf.new (decimal number) }
{
    let mut buffer = Buffer::new();
    buf.put(writer, buffer.format(number).as_bytes());
}

/// Prints bytes percent-encoded: each byte that isn't printed as it is becomes `%` and two hexadecimal digits.
fn put_percent_encoded<W: Sink>(buf: &mut OutBuffer, writer: &mut W, bytes: &[u8])
    ensures { Puts W.written W.has_failed writer.old writer.new buf.old buf.new (percent_encoded bytes.now) }
{
    let mut rest = bytes;
    while !rest.is_empty() {
        let (as_is, others) = rest.split_at(as_is_len(rest));
        buf.put(writer, as_is);
        let Some((&byte, more)) = others.split_first() else {
            return;
        };
        put_percent_encoded_byte(buf, writer, byte);
        rest = more;
    }
}

/// Prints a byte as it is, or as `%` and two hexadecimal digits.
fn put_percent_encoded_byte<W: Sink>(buf: &mut OutBuffer, writer: &mut W, byte: u8)
    ensures { Puts W.written W.has_failed writer.old writer.new buf.old buf.new (percent_encoded_byte byte) }
{
    if prints_as_is(byte) {
        buf.put(writer, &[byte]);
    } else {
        buf.put(writer, &[b'%', hex(byte / 16), hex(byte % 16)]);
    }
}

/// Returns the length of the longest prefix whose bytes are printed as they are.
fn as_is_len(bytes: &[u8]) -> usize
    ensures within { result ≤ length bytes.now }
    ensures as_is { percent_encoded (take result bytes.now) ≡ take result bytes.now }
{
    for (count, &byte) in bytes.iter().enumerate() {
        if !prints_as_is(byte) {
            return count;
        }
    }
    bytes.len()
}

/// Returns whether a byte is printed as it is: 32 to 126 except `%`.
pub(crate) fn prints_as_is(byte: u8) -> bool
    ensures { result ≡ prints_as_is byte }
{
    byte >= 32 && byte <= 126 && byte != b'%'
}

/// Returns the hexadecimal digit of a number below 16.
fn hex(digit: u8) -> u8
    requires { digit < 16 }
    ensures { result ≡ hex_digit digit }
{
    if digit < 10 {
        b'0' + digit
    } else {
        b'A' + (digit - 10)
    }
}
