//! Prints the text of units, each line after a `|`.
//!
//! A text begins anew at each mark, so it is printed by segments: a mark, and the items up to the next one. What to print
//! for an item is decided by `ppprint`. The functions `put_..` are as those of `output.rt`. The line of a token on the
//! same line as the one before, most of the text, has a fast path.
ghost use Rattle.std.specs.Prelude.{◌≡◌, ◌<◌, ◌++◌, ◌∷◌, [], true, Some, None, IfSome, IfNone, length, map, codes, option_map, slice_get};
ghost use Rattle.ppmacro.specs.Substituting.{tokens_of};
ghost use Rattle.ppunit.specs.BorrowedItems.{slice_items};
ghost use Rattle.ppunit.specs.declared.units.Item.TheVariants as item;
ghost use Rattle.ppprint.specs.Located.{location, pragma_token};
ghost use Rattle.ppprint.specs.Operators.{left_to_compilers, tokens_after, with_operators};
ghost use Rattle.ppprint.specs.Shown.{Location, Renumbers, ShowsPragma, Turn};
ghost use Rattle.ppprint.specs.Text.{last_space, pragma_space, pragma_written, space_after, spaces, system_flag};
ghost use Rattle.ppprint.specs.code.Held.{are_parts, held_tokens, operator_tokens, optional_token};
ghost use Rattle.ppprint.specs.code.PragmaText.{printed_pragma_token};
ghost use Rattle.ppprint.specs.code.Steps.{IsMarker};
ghost use Rattle.ppprint.specs.code.Tokens.{printed_token};
ghost use Rattle.ppserve.specs.Output.{barred};
ghost use Rattle.ppserve.specs.code.Printing.{Puts};
ghost use Rattle.ppserve.specs.code.Records.{OfSegment, flags_after_slice, segments};
ghost use Rattle.ppserve.specs.code.Segments.{before_mark, first_segment, from_mark, segment_text};
ghost use Rattle.ppserve.specs.code.TextPieces.{bar, barred_way, empty_lines, ended, items_left, line_place, lines_down, marker_bytes, own_marker, place_in};
ghost use Rattle.ppserve.specs.code.TextPieces.{pragma_bytes, shown_tokens, text_left, token_bytes, with_bars, PutsItems, PutsShown};

use crate::out_buffer::OutBuffer;
use crate::output::put_wide_decimal;
use crate::streams::Sink;
use memchr::memchr;
use ppexpand::TokenSlice;
use ppmacro::Hidden;
use ppprint::{
    HeldTokens, Marker, Operator, OperatorText, PragmaLine, PragmaStep, Printer, SystemFiles,
    Taken, TextPragmaToken, TextToken, TokenStep, Way, is_own_pragma,
};
use pptext::{Place, Spelling, Token};
use ppunit::{ItemSlice, ItemSlices, Mark};

/// The end of a line and up to seven empty lines after it.
const NEW_LINES: &[u8] = b"\n|\n|\n|\n|\n|\n|\n|\n|\n";

/// The items of a unit from one mark up to the next.
#[derive(Drop)]
pub(crate) struct Segment<'a> {
    /// The items from the mark on, which go on after the segment.
    items: ItemSlices<'a, 'a>,
    /// The number of tokens, and 1 for each other item.
    weight: usize,
}

impl<'a> Segment<'a> {
    /// Takes the first segment from items. The mark at its beginning changes the system files.
    pub(crate) fn take(
        items: &mut ItemSlices<'a, 'a>,
        systems: &mut SystemFiles,
    ) -> Option<Segment<'a>>
        ensures none { IfNone result ((items.old ≡ []) × (items.new ≡ []) × (systems.new ≡ systems.old)) }
        ensures some { IfSome result (λ s. segments systems.old [] items.old ≡ OfSegment systems.new (first_segment s.items) ∷ segments systems.new [] items.new) }
        ensures flags { length systems.new ≡ length systems.old }
    {
        let start = items.duplicate();
        let first = items.next()?;
        pass_mark(systems, first);
        let weight = weight_of(first).saturating_add(skip_to_mark(items));
        Some(Segment {
            items: start,
            weight,
        })
    }

    /// Returns the number of tokens, and 1 for each other item.
    pub(crate) fn weight(&self) -> usize {
        self.weight
    }
}

/// Changes the system files as a mark says, if the slice is one.
fn pass_mark(systems: &mut SystemFiles, items: ItemSlice)
    ensures flags { systems.new ≡ flags_after_slice systems.old items.entry }
    ensures length { length systems.new ≡ length systems.old }
{
    match items {
        ItemSlice::Tokens(_) => {}
        ItemSlice::Pragma(_, _) => {}
        ItemSlice::Mark(mark) => {
            if mark.system {
                systems.insert(mark.row);
            }
        }
    }
}

/// Returns the number of tokens of a slice, or 1.
fn weight_of(slice: ItemSlice) -> usize {
    match slice {
        ItemSlice::Tokens(tokens) => tokens.len(),
        ItemSlice::Pragma(_, _) | ItemSlice::Mark(_) => 1,
    }
}

/// Moves over items up to the next mark. Returns their weight.
fn skip_to_mark(items: &mut ItemSlices) -> usize
    ensures { items.new ≡ from_mark items.old }
{
    let mut weight: usize = 0;
    while let Some(slice) = next_before_mark(items) {
        weight = weight.saturating_add(weight_of(slice));
    }
    weight
}

/// Returns the next slice, unless it is a mark, and moves over it.
fn next_before_mark<'r, 'a>(items: &mut ItemSlices<'r, 'a>) -> Option<ItemSlice<'r, 'a>>
    ensures none { IfNone result (before_mark items.old ≡ []) }
    ensures rest { IfNone result (items.new ≡ from_mark items.old) }
    ensures some { IfSome result (λ s. items.old ≡ slice_items s ++ items.new) }
    ensures shorter { IfSome result (λ s. length items.new < length items.old) }
    ensures unmarked { IfSome result (λ s. before_mark (slice_items s) ≡ slice_items s) }
{
    let mut rest = items.duplicate();
    let slice = rest.next()?;
    if let ItemSlice::Mark(_) = slice {
        return None;
    }
    *items = rest;
    Some(slice)
}

/// The text that was printed up to here, and tokens that may form an operator.
#[derive(Drop)]
struct Text<'a> {
    printer: Printer<'a>,
    held: HeldTokens<'a>,
}

/// Prints a segment. The system files are those after its mark.
pub(crate) fn put_segment<W: Sink>(
    buf: &mut OutBuffer,
    writer: &mut W,
    systems: &SystemFiles,
    segment: &Segment,
)
    ensures { Puts W.written W.has_failed writer.old writer.new buf.old buf.new (barred true (segment_text systems.now (first_segment segment.now.items))) }
{
    let mut text = Text {
        printer: Printer::new(systems),
        held: HeldTokens::Nothing,
    };
    let mut items = segment.items.duplicate();
    if let Some(mark) = take_mark(&mut items) {
        let step = text.printer.mark(mark);
        put_marker(buf, writer, step.ends, step.marker);
        put_to_mark(buf, writer, &mut text, items);
    } else {
        put_to_mark(buf, writer, &mut text, items);
    }
}

/// Takes the mark that begins items, if one does.
fn take_mark<'r, 'a>(items: &mut ItemSlices<'r, 'a>) -> Option<&'r Mark>
    ensures some { IfSome result (λ m. items.old ≡ item.Mark m.now ∷ items.new) }
    ensures none { IfNone result (items.new ≡ items.old) }
    ensures unmarked { IfNone result (first_segment items.old ≡ before_mark items.old) }
{
    let mut rest = items.duplicate();
    match rest.next()? {
        ItemSlice::Mark(mark) => {
            *items = rest;
            Some(mark)
        }
        _ => None,
    }
}

/// Prints the items up to the next mark, and ends the line.
fn put_to_mark<'a, W: Sink>(
    buf: &mut OutBuffer,
    writer: &mut W,
    text: &mut Text<'a>,
    items: ItemSlices<'a, 'a>,
)
    requires { are_parts 0 (held_tokens text.old.held) ≡ true }
    ensures { Puts W.written W.has_failed writer.old writer.new buf.old buf.new
        (text_left text.old.printer.line (items_left text.old.printer.numbering (held_tokens text.old.held) (before_mark items.entry))) }
{
    let mut items = items;
    while let Some(slice) = next_before_mark(&mut items) {
        put_items(buf, writer, text, slice);
    }
    put_held(buf, writer, text);
    put_end(buf, writer, text.printer.has_token());
}

/// Prints consecutive items, none of which is a mark.
fn put_items<'a, W: Sink>(
    buf: &mut OutBuffer,
    writer: &mut W,
    text: &mut Text<'a>,
    items: ItemSlice<'a, 'a>,
)
    requires held { are_parts 0 (held_tokens text.old.held) ≡ true }
    requires unmarked { before_mark (slice_items items) ≡ slice_items items }
    ensures held { are_parts 0 (held_tokens text.new.held) ≡ true }
    ensures items { PutsItems W.written W.has_failed writer.old writer.new buf.old buf.new
        text.old.printer (held_tokens text.old.held) (slice_items items.entry) text.new.printer (held_tokens text.new.held) }
{
    match items {
        ItemSlice::Tokens(TokenSlice::InFile(tokens)) => {
            put_source_tokens(buf, writer, text, tokens);
        }
        ItemSlice::Tokens(TokenSlice::Hidden(tokens)) => {
            put_hidden_tokens(buf, writer, text, tokens);
        }
        ItemSlice::Pragma(at, tokens) => {
            put_held(buf, writer, text);
            put_pragma(buf, writer, &mut text.printer, at, tokens);
        }
        ItemSlice::Mark(_) => {}
    }
}

/// Prints tokens of a file.
fn put_source_tokens<'a, W: Sink>(
    buf: &mut OutBuffer,
    writer: &mut W,
    text: &mut Text<'a>,
    tokens: &'a [Token],
)
    requires { are_parts 0 (held_tokens text.old.held) ≡ true }
    ensures held { are_parts 0 (held_tokens text.new.held) ≡ true }
    ensures items { PutsItems W.written W.has_failed writer.old writer.new buf.old buf.new
        text.old.printer (held_tokens text.old.held) (map item.Token tokens.entry.now) text.new.printer (held_tokens text.new.held) }
{
    for token in tokens {
        put_token(buf, writer, text, TextToken::of_file(token));
    }
}

/// Prints tokens with hide sets.
fn put_hidden_tokens<'a, W: Sink>(
    buf: &mut OutBuffer,
    writer: &mut W,
    text: &mut Text<'a>,
    tokens: &'a [Hidden<'a>],
)
    requires { are_parts 0 (held_tokens text.old.held) ≡ true }
    ensures held { are_parts 0 (held_tokens text.new.held) ≡ true }
    ensures items { PutsItems W.written W.has_failed writer.old writer.new buf.old buf.new
        text.old.printer (held_tokens text.old.held) (map item.Token (tokens_of tokens.entry.now)) text.new.printer (held_tokens text.new.held) }
{
    for token in tokens {
        put_token(buf, writer, text, TextToken::of_hidden(token));
    }
}

/// Prints a token, unless it may form an operator with tokens after it.
#[inline(always)]
fn put_token<'a, W: Sink>(
    buf: &mut OutBuffer,
    writer: &mut W,
    text: &mut Text<'a>,
    token: TextToken<'a>,
)
    requires { are_parts 0 (held_tokens text.old.held) ≡ true }
    ensures held { are_parts 0 (held_tokens text.new.held) ≡ true }
    ensures items { PutsItems W.written W.has_failed writer.old writer.new buf.old buf.new
        text.old.printer (held_tokens text.old.held) (item.Token (printed_token token.entry) ∷ []) text.new.printer (held_tokens text.new.held) }
{
    if text.held.passes(token) {
        put_located(buf, writer, &mut text.printer, token);
    } else {
        put_operator_part(buf, writer, text, token);
    }
}

/// Prints or holds a token that may belong to an operator.
#[inline(never)]
fn put_operator_part<'a, W: Sink>(
    buf: &mut OutBuffer,
    writer: &mut W,
    text: &mut Text<'a>,
    token: TextToken<'a>,
)
    requires { are_parts 0 (held_tokens text.old.held) ≡ true }
    ensures held { are_parts 0 (held_tokens text.new.held) ≡ true }
    ensures items { PutsItems W.written W.has_failed writer.old writer.new buf.old buf.new
        text.old.printer (held_tokens text.old.held) (item.Token (printed_token token.entry) ∷ []) text.new.printer (held_tokens text.new.held) }
{
    match text.held.take(token) {
        Taken::Held(held) => text.held = held,
        Taken::Operator(operator) => {
            text.held = HeldTokens::Nothing;
            put_operator(buf, writer, &mut text.printer, operator);
        }
        Taken::Broken => {
            put_held(buf, writer, text);
            put_first_part(buf, writer, text, token);
        }
    }
}

/// Prints a token where none is held, or holds it if it is the name of an operator.
fn put_first_part<'a, W: Sink>(
    buf: &mut OutBuffer,
    writer: &mut W,
    text: &mut Text<'a>,
    token: TextToken<'a>,
)
    requires { held_tokens text.old.held ≡ [] }
    ensures held { are_parts 0 (held_tokens text.new.held) ≡ true }
    ensures items { PutsItems W.written W.has_failed writer.old writer.new buf.old buf.new
        text.old.printer [] (item.Token (printed_token token.entry) ∷ []) text.new.printer (held_tokens text.new.held) }
{
    if text.held.passes(token) {
        put_located(buf, writer, &mut text.printer, token);
    } else {
        text.held = HeldTokens::Name(token);
    }
}

/// Prints the tokens that are held: they form no operator.
fn put_held<'a, W: Sink>(buf: &mut OutBuffer, writer: &mut W, text: &mut Text<'a>)
    ensures held { held_tokens text.new.held ≡ [] }
    ensures numbering { text.new.printer.numbering ≡ text.old.printer.numbering }
    ensures items { PutsShown W.written W.has_failed writer.old writer.new buf.old buf.new
        text.old.printer.line (shown_tokens text.old.printer.numbering (held_tokens text.old.held)) text.new.printer.line }
{
    let (name, open, literal) = text.held.tokens();
    text.held = HeldTokens::Nothing;
    put_optional(buf, writer, &mut text.printer, name);
    put_optional(buf, writer, &mut text.printer, open);
    put_optional(buf, writer, &mut text.printer, literal);
}

/// Prints a token, if there is one.
fn put_optional<'a, W: Sink>(
    buf: &mut OutBuffer,
    writer: &mut W,
    printer: &mut Printer<'a>,
    token: Option<TextToken<'a>>,
)
    ensures numbering { printer.new.numbering ≡ printer.old.numbering }
    ensures items { PutsShown W.written W.has_failed writer.old writer.new buf.old buf.new
        printer.old.line (shown_tokens printer.old.numbering (optional_token token.entry)) printer.new.line }
{
    if let Some(token) = token {
        put_located(buf, writer, printer, token);
    }
}

/// Prints a token at its location.
#[inline(always)]
fn put_located<'a, W: Sink>(
    buf: &mut OutBuffer,
    writer: &mut W,
    printer: &mut Printer<'a>,
    token: TextToken<'a>,
)
    ensures numbering { printer.new.numbering ≡ printer.old.numbering }
    ensures items { PutsShown W.written W.has_failed writer.old writer.new buf.old buf.new
        printer.old.line (shown_tokens printer.old.numbering (printed_token token.entry ∷ [])) printer.new.line }
{
    let step = printer.token(token);
    put_way(buf, writer, step.way, printer);
    put_spelling(buf, writer, step, token.text);
}

/// Prints what is before a token on its line, and the token. Fast path: few spaces and a short spelling.
#[inline(always)]
fn put_spelling<W: Sink>(buf: &mut OutBuffer, writer: &mut W, step: TokenStep, spelling: &Spelling)
    ensures { Puts W.written W.has_failed writer.old writer.new buf.old buf.new (token_bytes step.is_first step.spaces spelling.now) }
{
    buf.ensure_capacity(writer);
    if let Some((inline, len)) = spelling.in_place() {
        if buf.add_short_token(step.is_first, step.spaces, inline, len) {
            return;
        }
    }
    put_any_spelling(buf, writer, step, spelling.as_bytes());
}

/// Prints what is before a token on its line, and the token.
#[inline(never)]
fn put_any_spelling<W: Sink>(buf: &mut OutBuffer, writer: &mut W, step: TokenStep, spelling: &[u8])
    ensures { Puts W.written W.has_failed writer.old writer.new buf.old buf.new (token_bytes step.is_first step.spaces spelling.now) }
{
    put_bar(buf, writer, step.is_first);
    put_spaces(buf, writer, step.spaces);
    put_text(buf, writer, spelling);
    put_space_after(buf, writer, spelling);
}

/// Prints the `|` of a line that begins.
fn put_bar<W: Sink>(buf: &mut OutBuffer, writer: &mut W, begins: bool)
    ensures { Puts W.written W.has_failed writer.old writer.new buf.old buf.new (bar begins) }
{
    if begins {
        buf.put(writer, b"|");
    }
}

/// Prints the space after `\`, which would continue the line at its end.
fn put_space_after<W: Sink>(buf: &mut OutBuffer, writer: &mut W, spelling: &[u8])
    ensures { Puts W.written W.has_failed writer.old writer.new buf.old buf.new (spaces (space_after spelling.now)) }
{
    if matches!(spelling, [b'\\']) {
        buf.put(writer, b" ");
    }
}

/// Prints a text within a line: a `|` follows each new-line.
fn put_text<W: Sink>(buf: &mut OutBuffer, writer: &mut W, text: &[u8])
    ensures { Puts W.written W.has_failed writer.old writer.new buf.old buf.new (with_bars text.now) }
{
    let mut rest = text;
    while let Some(end) = memchr(b'\n', rest) {
        let (line, others) = rest.split_at(end);
        buf.put(writer, line);
        buf.put(writer, b"\n|");
        rest = &others[1..];
    }
    buf.put(writer, rest);
}

/// Prints spaces.
fn put_spaces<W: Sink>(buf: &mut OutBuffer, writer: &mut W, count: usize)
    ensures { Puts W.written W.has_failed writer.old writer.new buf.old buf.new (spaces count) }
{
    let spaces = [b' '; 64];
    let mut left = count;
    while left > 0 {
        let more = left.min(spaces.len());
        buf.put(writer, &spaces[..more]);
        left -= more;
    }
}

/// Prints the way to the location of the line.
#[inline(always)]
fn put_way<W: Sink>(buf: &mut OutBuffer, writer: &mut W, way: Way, printer: &Printer)
    ensures { Puts W.written W.has_failed writer.old writer.new buf.old buf.new (barred_way way (line_place printer.now)) }
{
    if !matches!(way, Way::Stay) {
        put_long_way(buf, writer, way, printer.marker());
    }
}

/// Prints the way to a location, where the line has this marker.
#[inline(never)]
fn put_long_way<W: Sink>(buf: &mut OutBuffer, writer: &mut W, way: Way, marker: Marker)
    ensures { (at : Location) → IsMarker Renumbers at marker.entry → Puts W.written W.has_failed writer.old writer.new buf.old buf.new (barred_way way at) }
{
    match way {
        Way::Stay => {}
        Way::Down { ends, lines } => put_down(buf, writer, ends, lines),
        Way::Jump { ends } => put_marker(buf, writer, ends, marker),
    }
}

/// Prints the new-lines that lead down a number of lines.
fn put_down<W: Sink>(buf: &mut OutBuffer, writer: &mut W, ends: bool, lines: usize)
    ensures { Puts W.written W.has_failed writer.old writer.new buf.old buf.new (lines_down ends lines) }
{
    if lines == 0 {
        return;
    }
    if ends {
        buf.put(writer, b"\n");
        put_empty_lines(buf, writer, lines - 1);
    } else {
        put_empty_lines(buf, writer, lines);
    }
}

/// Prints empty lines.
fn put_empty_lines<W: Sink>(buf: &mut OutBuffer, writer: &mut W, count: usize)
    ensures { Puts W.written W.has_failed writer.old writer.new buf.old buf.new (empty_lines count) }
{
    let mut left = count;
    while left > 0 {
        buf.put(writer, b"|\n");
        left -= 1;
    }
}

/// Prints the end of a line that has a token.
fn put_end<W: Sink>(buf: &mut OutBuffer, writer: &mut W, ends: bool)
    ensures { Puts W.written W.has_failed writer.old writer.new buf.old buf.new (ended ends) }
{
    if ends {
        buf.put(writer, b"\n");
    }
}

/// Prints the flag of a system header.
fn put_system_flag<W: Sink>(buf: &mut OutBuffer, writer: &mut W, system: bool)
    ensures { Puts W.written W.has_failed writer.old writer.new buf.old buf.new (system_flag system) }
{
    if system {
        buf.put(writer, b" 3");
    }
}

/// Prints a line marker, after the end of the line if there is a token on it.
fn put_marker<W: Sink>(buf: &mut OutBuffer, writer: &mut W, ends: bool, marker: Marker)
    ensures { (turn : Turn) → (at : Location) → IsMarker turn at marker.entry → Puts W.written W.has_failed writer.old writer.new buf.old buf.new (marker_bytes ends turn at) }
{
    put_end(buf, writer, ends);
    buf.put(writer, b"|# ");
    put_wide_decimal(buf, writer, marker.number);
    buf.put(writer, b" ");
    put_text(buf, writer, marker.name);
    buf.put(writer, marker.flag.as_bytes());
    put_system_flag(buf, writer, marker.system);
    buf.put(writer, b"\n");
}

/// Prints the way to a pragma, and the name of its directive.
fn put_pragma_start<W: Sink>(buf: &mut OutBuffer, writer: &mut W, step: PragmaStep)
    ensures { (at : Location) → IsMarker Renumbers at step.entry.marker → Puts W.written W.has_failed writer.old writer.new buf.old buf.new
        (barred_way step.entry.way at ++ own_marker step.entry.has_own_marker at ++ codes "|#pragma") }
{
    put_long_way(buf, writer, step.way, step.marker);
    put_own_marker(buf, writer, step.has_own_marker, step.marker);
    buf.put(writer, b"|#pragma");
}

/// Prints the marker of a pragma on the line of a token.
fn put_own_marker<W: Sink>(buf: &mut OutBuffer, writer: &mut W, needed: bool, marker: Marker)
    ensures { (at : Location) → IsMarker Renumbers at marker.entry → Puts W.written W.has_failed writer.old writer.new buf.old buf.new (own_marker needed at) }
{
    if needed {
        put_marker(buf, writer, true, marker);
    }
}

/// Prints a token of a pragma.
fn put_pragma_token<'t, W: Sink>(
    buf: &mut OutBuffer,
    writer: &mut W,
    line: &mut PragmaLine<'t>,
    token: TextPragmaToken<'t>,
)
    ensures out { let t = printed_pragma_token token.entry in Puts W.written W.has_failed writer.old writer.new buf.old buf.new (spaces (pragma_space line.old t) ++ with_bars t.text) }
    ensures last { line.new ≡ Some (pragma_written (printed_pragma_token token.entry)) }
{
    put_spaces(buf, writer, line.token(token));
    put_text(buf, writer, token.text);
}

/// Prints the end of a pragma's line.
fn put_pragma_end<W: Sink>(buf: &mut OutBuffer, writer: &mut W, line: &PragmaLine)
    ensures { Puts W.written W.has_failed writer.old writer.new buf.old buf.new (spaces (last_space line.now) ++ 10 ∷ []) }
{
    put_spaces(buf, writer, line.last_space());
    buf.put(writer, b"\n");
}

/// Returns the spelling of the token at an index.
fn spelling_at(tokens: &[Token], index: usize) -> Option<&[u8]>
    ensures { option_map (λ t. t.now) result ≡ option_map (λ t. t.text) (slice_get tokens.now index) }
{
    match tokens.get(index) {
        Some(token) => Some(token.text.as_bytes()),
        None => None,
    }
}

/// Prints a pragma, unless it is for the preprocessor alone.
fn put_pragma<W: Sink>(
    buf: &mut OutBuffer,
    writer: &mut W,
    printer: &mut Printer,
    at: Place,
    tokens: &[Token],
)
    ensures numbering { printer.new.numbering ≡ printer.old.numbering }
    ensures items { let n = printer.old.numbering in PutsShown W.written W.has_failed writer.old writer.new buf.old buf.new
        printer.old.line (left_to_compilers (ShowsPragma (location n at.line n.row) (map pragma_token tokens.now) ∷ [])) printer.new.line }
{
    if is_own_pragma(spelling_at(tokens, 0), spelling_at(tokens, 1)) {
        return;
    }
    let step = printer.pragma(at);
    put_pragma_start(buf, writer, step);
    put_pragma_tokens(buf, writer, tokens);
}

/// Prints the tokens of a pragma, and the end of its line.
fn put_pragma_tokens<W: Sink>(buf: &mut OutBuffer, writer: &mut W, tokens: &[Token])
    ensures { Puts W.written W.has_failed writer.old writer.new buf.old buf.new (pragma_bytes None (map pragma_token tokens.now)) }
{
    let mut line = PragmaLine::new();
    for token in tokens {
        let token = TextPragmaToken {
            kind: token.kind,
            text: token.text.as_bytes(),
            space: token.space,
        };
        put_pragma_token(buf, writer, &mut line, token);
    }
    put_pragma_end(buf, writer, &line);
}

/// Prints the pragma of an operator, or its tokens if its literal isn't the text of a pragma.
fn put_operator<'a, W: Sink>(
    buf: &mut OutBuffer,
    writer: &mut W,
    printer: &mut Printer<'a>,
    operator: Operator<'a>,
)
    requires { are_parts 0 (operator_tokens operator) ≡ true }
    ensures numbering { printer.new.numbering ≡ printer.old.numbering }
    ensures items { PutsShown W.written W.has_failed writer.old writer.new buf.old buf.new
        printer.old.line (left_to_compilers (with_operators 0 (shown_tokens printer.old.numbering (operator_tokens operator.entry)))) printer.new.line }
{
    let text = OperatorText::new(&operator);
    if text.is_pragma() {
        put_operator_pragma(buf, writer, printer, operator.name, &text);
        return;
    }
    put_located(buf, writer, printer, operator.name);
    put_located(buf, writer, printer, operator.open);
    put_located(buf, writer, printer, operator.literal);
    put_located(buf, writer, printer, operator.close);
}

/// Prints the pragma with this text, unless it is for the preprocessor alone, at the location of the operator's name.
fn put_operator_pragma<'a, W: Sink>(
    buf: &mut OutBuffer,
    writer: &mut W,
    printer: &mut Printer<'a>,
    name: TextToken<'a>,
    text: &OperatorText,
)
    ensures numbering { printer.new.numbering ≡ printer.old.numbering }
    ensures items { IfSome (tokens_after 0 true text.now) (λ ts. PutsShown W.written W.has_failed writer.old writer.new buf.old buf.new
        printer.old.line (left_to_compilers (ShowsPragma (place_in printer.old.numbering (printed_token name.entry)) ts ∷ [])) printer.new.line) }
{
    if text.is_own() {
        return;
    }
    let step = printer.operator(name);
    put_pragma_start(buf, writer, step);
    put_operator_tokens(buf, writer, text);
}

/// Prints the tokens of an operator's pragma, and the end of its line.
fn put_operator_tokens<W: Sink>(buf: &mut OutBuffer, writer: &mut W, text: &OperatorText)
    ensures { IfSome (tokens_after 0 true text.now) (λ ts. Puts W.written W.has_failed writer.old writer.new buf.old buf.new (pragma_bytes None ts)) }
{
    let mut line = PragmaLine::new();
    let mut tokens = text.tokens();
    while let Some(token) = tokens.next() {
        put_pragma_token(buf, writer, &mut line, token);
    }
    put_pragma_end(buf, writer, &line);
}
