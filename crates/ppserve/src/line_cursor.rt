//! Walks over the output. A *record* of the output is the first line of a unit, the lines of an item, or the last lines
//! of a unit.
ghost use Rattle.std.specs.Prelude.{◌≡◌, ◌<◌, [], ◌∷◌, List, Bool, Some, IfOk, length, drop, true, false};
ghost use Rattle.ppexpand.specs.Slices.{slice_tokens};
ghost use Rattle.ppserve.specs.code.Records.{Alike, IsOver, all_records, flags_of, last_record, records_of_lines, records_of_slices, remaining_records, TakesSegment, YieldsLines, YieldsItems};
ghost use Rattle.ppserve.specs.declared.output.Mode.TheVariants.{Dump, Text};

use crate::output::{Mode, Output};
use crate::text_output::Segment;
use ppexpand::TokenSlice;
use ppprint::SystemFiles;
use pptext::{Memory, Place, Token};
use ppunit::{ItemSlice, ItemSlices, Mark, Unit, UnitOut};
use std::alloc::Global;

/// Consecutive lines of the output.
#[derive(Drop)]
pub(crate) enum Lines<'a> {
    /// The first line of the unit at this index.
    First(usize, &'a Unit),
    /// The lines of tokens.
    Tokens(TokenSlice<'a, 'a>),
    /// The lines of a pragma at this location.
    Pragma(Place, &'a [Token]),
    /// A mark, which has no lines.
    Mark(&'a Mark),
    /// The text of a segment.
    Segment(Segment<'a>),
    /// The last lines of a unit: its dependencies, and its fault or `ok`.
    Last(&'a UnitOut<'a>),
    /// The last lines of a unit: its include chain, and its fault or `ok`.
    Faulty(&'a UnitOut<'a>),
}

impl<'a> Lines<'a> {
    /// Returns the number of records: one for each token, otherwise 1.
    pub(crate) fn count(&self) -> usize
        ensures { (systems : List Bool) → result ≡ length (records_of_lines systems self.now) }
    {
        match self {
            Lines::Tokens(tokens) => tokens.len(),
            _ => 1,
        }
    }

    /// Returns the number of tokens, or 1 if there are none.
    pub(crate) fn weight(&self) -> usize {
        match self {
            Lines::Tokens(tokens) => tokens.len(),
            Lines::Segment(segment) => segment.weight(),
            _ => 1,
        }
    }
}

/// Returns the last lines of a unit.
fn last_lines<'a>(mode: Mode, out: &'a UnitOut<'a>) -> Lines<'a>
    ensures { (systems : List Bool) → records_of_lines systems result ≡ last_record mode out.now ∷ [] }
{
    match mode {
        Mode::Dump | Mode::Deps | Mode::Text => Lines::Last(out),
        Mode::Faults => Lines::Faulty(out),
    }
}

/// Returns whether there are items.
fn has_any(items: &ItemSlices) -> bool
    ensures yes { result ≡ true → 0 < length items.now }
    ensures no { result ≡ false → items.now ≡ [] }
{
    match items.duplicate().next() {
        Some(_) => true,
        None => false,
    }
}

/// Returns the number of files whose flags are needed.
fn flags_of(mode: Mode, files: usize) -> usize
    ensures { result ≡ flags_of mode files }
{
    match mode {
        Mode::Dump | Mode::Deps | Mode::Faults => 0,
        Mode::Text => files,
    }
}

/// A position in the output.
#[derive(Drop)]
pub(crate) struct LineCursor<'a> {
    output: Output<'a>,
    /// The tokens that are printed next.
    tokens: TokenSlice<'a, 'a>,
    /// The items that are printed after `tokens`.
    items: Option<ItemSlices<'a, 'a>>,
    /// The unit whose last lines follow `items`.
    last: Option<&'a UnitOut<'a>>,
    /// The index of the next unit.
    next_unit: usize,
    /// The system files, by the marks up to here, if the output is text.
    systems: SystemFiles,
}

impl<'a> LineCursor<'a> {
    /// Returns the beginning of the output. Fails only if an allocation fails.
    pub(crate) fn new(alloc: Global, output: Output<'a>) -> Result<LineCursor<'a>, Memory>
        ensures records { IfOk result (λ c. remaining_records c ≡ all_records output.entry) }
        ensures over { IfOk result (λ c. IsOver output.entry c) }
    {
        let files = flags_of(output.mode, output.names.len());
        Ok(LineCursor {
            output,
            tokens: TokenSlice::InFile(Default::default()),
            items: None,
            last: None,
            next_unit: 0,
            systems: SystemFiles::new(alloc, files)?,
        })
    }

    /// Returns the system files of the segment that was returned last.
    pub(crate) fn systems(&self) -> &SystemFiles
        ensures { result.now ≡ self.now.systems }
    {
        &self.systems
    }

    /// Moves to the position of another cursor over the same output.
    pub(crate) fn move_to(&mut self, other: &LineCursor<'a>)
        requires { Alike self.old other.now }
        ensures records { remaining_records self.new ≡ remaining_records other.now }
        ensures alike { Alike self.new self.old }
    {
        self.tokens = other.tokens;
        self.items = match &other.items {
            Some(items) => Some(items.duplicate()),
            None => None,
        };
        self.last = other.last;
        self.next_unit = other.next_unit;
        self.systems.copy_from(&other.systems);
    }

    /// Returns whether the cursor is at the end.
    pub(crate) fn is_at_end(&self) -> bool
        ensures yes { result ≡ true → remaining_records self.now ≡ [] }
        ensures no { result ≡ false → 0 < length (remaining_records self.now) }
    {
        if !self.tokens.is_empty() || self.last.is_some() {
            return false;
        }
        if self.has_items() {
            return false;
        }
        self.output.units.get(self.next_unit).is_none()
            || self.output.outs.get(self.next_unit).is_none()
    }

    /// Returns whether items of the unit are left to print.
    fn has_items(&self) -> bool
        ensures yes { result ≡ true → 0 < length (records_of_slices self.now.output.mode self.now.systems self.now.items) }
        ensures no { result ≡ false → records_of_slices self.now.output.mode self.now.systems self.now.items ≡ [] }
    {
        if !self.output.mode.shows_items() {
            return false;
        }
        match &self.items {
            Some(items) => has_any(items),
            None => false,
        }
    }

    /// Moves over records until their weight is at least `weight`, or to the end. Returns their number.
    pub(crate) fn skip(&mut self, weight: usize) -> usize
        ensures rest { remaining_records self.new ≡ drop result (remaining_records self.old) }
        ensures some { 0 < weight → 0 < length (remaining_records self.old) → 0 < result }
        ensures alike { Alike self.new self.old }
    {
        let mut left = weight;
        let mut count = 0;
        while left > 0 {
            let Some(lines) = self.next(left) else {
                return count;
            };
            let more = lines.count();
            left = left.saturating_sub(lines.weight().max(more));
            count += more;
        }
        count
    }

    /// Returns the next lines, of at most `most` records, and moves past them. Returns `None` at the end.
    pub(crate) fn next(&mut self, most: usize) -> Option<Lines<'a>>
        requires { 0 < most }
        ensures yields { YieldsLines most self.old result self.new }
        ensures alike { Alike self.new self.old }
    {
        if !self.tokens.is_empty() {
            return Some(self.next_tokens(most));
        }
        match self.output.mode {
            Mode::Dump => self.next_dumped(most),
            Mode::Text => self.next_segment(),
            Mode::Deps => self.next_of_unit(),
            Mode::Faults => self.next_of_unit(),
        }
    }

    /// Returns the lines of the next items, or else the next lines of the unit, and moves past them.
    fn next_dumped(&mut self, most: usize) -> Option<Lines<'a>>
        requires most { 0 < most }
        requires mode { self.old.output.mode ≡ Dump }
        requires tokens { slice_tokens self.old.tokens ≡ [] }
        ensures yields { YieldsLines most self.old result self.new }
        ensures alike { Alike self.new self.old }
    {
        match self.next_items() {
            Some(ItemSlice::Tokens(tokens)) => {
                self.tokens = tokens;
                Some(self.next_tokens(most))
            }
            Some(ItemSlice::Pragma(at, tokens)) => Some(Lines::Pragma(at, tokens)),
            Some(ItemSlice::Mark(mark)) => Some(Lines::Mark(mark)),
            None => self.next_of_unit(),
        }
    }

    /// Returns the text of the next segment, or else the next lines of the unit, and moves past them.
    fn next_segment(&mut self) -> Option<Lines<'a>>
        requires mode { self.old.output.mode ≡ Text }
        requires tokens { slice_tokens self.old.tokens ≡ [] }
        ensures yields { YieldsLines 1 self.old result self.new }
        ensures alike { Alike self.new self.old }
    {
        match self.take_segment() {
            Some(segment) => Some(Lines::Segment(segment)),
            None => self.next_of_unit(),
        }
    }

    /// Takes the next segment of the unit.
    fn take_segment(&mut self) -> Option<Segment<'a>>
        ensures { TakesSegment self.old result self.new }
    {
        match &mut self.items {
            Some(items) => Segment::take(items, &mut self.systems),
            None => None,
        }
    }

    /// Returns the lines of the next tokens, at most `most`, and moves past them.
    fn next_tokens(&mut self, most: usize) -> Lines<'a>
        requires most { 0 < most }
        requires tokens { 0 < length (slice_tokens self.old.tokens) }
        ensures yields { YieldsLines most self.old (Some result) self.new }
        ensures alike { Alike self.new self.old }
    {
        let count = most.min(self.tokens.len());
        let (first, others) = self.tokens.split_at(count);
        self.tokens = others;
        Lines::Tokens(first)
    }

    /// Returns the next items of the unit, and moves past them.
    fn next_items(&mut self) -> Option<ItemSlice<'a, 'a>>
        ensures { YieldsItems self.old result self.new }
    {
        match &mut self.items {
            Some(items) => items.next(),
            None => None,
        }
    }

    /// Returns the last lines of the unit, or else the first line of the next one, and moves past them.
    fn next_of_unit(&mut self) -> Option<Lines<'a>>
        requires tokens { slice_tokens self.old.tokens ≡ [] }
        requires items { records_of_slices self.old.output.mode self.old.systems self.old.items ≡ [] }
        ensures yields { YieldsLines 1 self.old result self.new }
        ensures alike { Alike self.new self.old }
    {
        if let Some(out) = self.last {
            self.last = None;
            return Some(last_lines(self.output.mode, out));
        }
        let index = self.next_unit;
        let unit = self.output.units.get(index)?;
        let out = self.output.outs.get(index)?;
        self.items = if self.output.mode.shows_items() {
            Some(out.items.slices())
        } else {
            None
        };
        self.last = Some(out);
        self.next_unit = index + 1;
        self.systems.clear();
        Some(Lines::First(index, unit))
    }
}
