//! Paths of included files.
ghost use Rattle.std.specs.Prelude.{◌≡◌, ◌∷◌, [], if◌then◌else◌, ℕ, List, length, ◌<◌, IfOk, IfSome, OnOk, ◌++◌, Some, None, option_copied};
ghost use Rattle.std.specs.List.{join_with_byte};
ghost use Rattle.ppshelf.specs.Names.{segments};
ghost use Rattle.ppshelf.specs.Search as spec;
ghost use Rattle.ppshelf.specs.code.Paths.{segments_left};

use memchr::memchr;
use pptext::Memory;
use std::alloc::Global;
use std::marker::Model;

/// A capacity in bytes that is enough for nearly every name.
pub(crate) const USUAL_NAME_LEN: usize = 64;

/// A path from the root, which contracts see as the list of its segments.
#[derive(Drop)]
pub(crate) struct Path<'a> {
    segments: Vec<&'a [u8]>,
}

impl<'a> Model for Path<'a> {
    ghost use Rattle.std.specs.Prelude.{ℕ, List, map};

    ghost Value = { List (List ℕ) };

    ghost view = { λ p. map (λ s. s.now) p.segments.items };
}

/// Returns the bytes before the first `/`, and those after it.
fn first_segment(text: &[u8]) -> (&[u8], Option<&[u8]>)
    ensures segments { segments text.now ≡ result.0.now ∷ segments_left (option_copied result.1) }
    ensures shorter { IfSome result.1 (λ rest. length rest.now < length text.now) }
{
    match memchr(b'/', text) {
        Some(i) => (&text[..i], Some(&text[i + 1..])),
        None => (text, None),
    }
}

impl<'a> Path<'a> {
    /// Returns the path of the root.
    pub(crate) fn root(alloc: Global) -> Path<'a>
        ensures { result ≡ [] }
    {
        Path {
            segments: Vec::new(alloc),
        }
    }

    /// Follows the segments of a text. Returns false if a `..` would lead above the root.
    pub(crate) fn follow(&mut self, text: &'a [u8]) -> Result<bool, Memory>
        ensures { IfOk result (λ there. spec.follow (Some self.old) text.now ≡ (if there then Some self.new else None)) }
    {
        let mut rest = Some(text);
        while let Some(text) = rest {
            let (segment, more) = first_segment(text);
            if !self.follow_segment(segment)? {
                return Ok(false);
            }
            rest = more;
        }
        Ok(true)
    }

    /// Follows one segment. Returns false if it would lead above the root.
    fn follow_segment(&mut self, segment: &'a [u8]) -> Result<bool, Memory>
        ensures { IfOk result (λ there. spec.follow_segment self.old segment.now ≡ (if there then Some self.new else None)) }
    {
        if segment.is_empty() || segment == b".".as_slice() {
            return Ok(true);
        }
        if segment == b"..".as_slice() {
            return Ok(self.go_to_parent());
        }
        self.segments.push(segment)?;
        Ok(true)
    }

    /// Goes to the parent directory, unless this is the root. Returns whether it did.
    pub(crate) fn go_to_parent(&mut self) -> bool
        ensures { spec.parent self.old ≡ (if result then Some self.new else None) }
    {
        self.segments.pop().is_some()
    }

    /// Returns the name that the path spells.
    pub(crate) fn name(&self, alloc: Global) -> Result<Vec<u8>, Memory>
        ensures { IfOk result (λ name. name.items ≡ join_with_byte 47 self.now) }
    {
        let mut name = Vec::with_capacity(alloc, USUAL_NAME_LEN)?;
        for (i, segment) in self.segments.iter().enumerate() {
            if i > 0 {
                push_slash(&mut name)?;
            }
            name.extend_from_slice(segment)?;
        }
        Ok(name)
    }
}

/// Appends a `/`.
fn push_slash(name: &mut Vec<u8>) -> Result<(), Memory>
    ensures { OnOk result (name.new.items ≡ name.old.items ++ 47 ∷ []) }
{
    name.push(b'/')?;
    Ok(())
}
