//! The presumed names of files (6.10.4).
ghost use Rattle.std.specs.Prelude.{◌≡◌, ◌++◌, ◌==◌, ◌||◌, IfOk, OnOk};
ghost use Rattle.std.specs.List.{list_any};
ghost use Rattle.ppmacro.specs.Substitution.{escaped_literal};
ghost use Rattle.ppexpand.specs.FileNames.{literal};

use ppmacro::push_escaped;
use pptext::{Memory, Spelling};
use std::alloc::Global;
use std::marker::Model;

/// What a presumed name is kept as.
#[derive(Drop, Debug)]
enum Name<'x> {
    /// The name of a file, without quotes.
    OfFile(&'x [u8]),
    /// The literal that spells the name.
    Spelled(Spelling),
}

/// The presumed name of a file. Contracts see the string literal that spells it. Few files ask for it, so the literal of a file's own
/// name is made where it is asked for.
#[derive(Drop, Debug)]
pub struct FileName<'x> {
    name: Name<'x>,
}

impl<'x> Model for FileName<'x> {
    ghost use Rattle.std.specs.Prelude.{List, ℕ};
    ghost use Rattle.ppexpand.specs.declared.file_name.Name.TheVariants.{OfFile, Spelled};
    ghost use Rattle.ppexpand.specs.FileNames.{literal};

    ghost Value = { List ℕ };

    ghost view = { λ n. elim n.name [ OfFile bytes ↦ literal bytes.now | Spelled text ↦ text ] };
}

impl<'x> FileName<'x> {
    /// Returns the presumed name that is the name of a file.
    pub fn of_file(name: &'x [u8]) -> FileName<'x>
        ensures { result ≡ literal name.now }
    {
        FileName {
            name: Name::OfFile(name),
        }
    }

    /// Returns the presumed name that this string literal spells.
    pub fn spelled(text: Spelling) -> FileName<'x>
        ensures { result ≡ text }
    {
        FileName {
            name: Name::Spelled(text),
        }
    }

    /// Returns the string literal that spells the name.
    ///
    /// # Errors
    ///
    /// Returns `Memory` if an allocation fails.
    pub fn literal(&self, alloc: Global) -> Result<Vec<u8>, Memory>
        ensures { IfOk result (λ text. text.items ≡ self.now) }
    {
        match &self.name {
            Name::OfFile(name) => literal(alloc, name),
            Name::Spelled(text) => Vec::from_slice(alloc, text.as_bytes()),
        }
    }
}

/// Returns whether a string literal of this text has a `\` before one of its bytes.
fn needs_escape(text: &[u8]) -> bool
    ensures { result ≡ list_any (λ b. b == 34 || b == 92) text.now }
{
    text.iter().any(|byte| *byte == b'"' || *byte == b'\\')
}

/// Appends a name, with `\` before each `"` and `\`. Most names need none, and are copied at once.
fn push_name(text: &mut Vec<u8>, name: &[u8]) -> Result<(), Memory>
    ensures { OnOk result (text.new.items ≡ text.old.items ++ escaped_literal name.now) }
{
    if needs_escape(name) {
        return push_escaped(text, name);
    }
    text.extend_from_slice(name)
}

/// Returns a name as a string literal: between `"`, with `\` before each `"` and `\`.
///
/// # Errors
///
/// Returns `Memory` if an allocation fails.
pub fn literal(alloc: Global, name: &[u8]) -> Result<Vec<u8>, Memory>
    ensures { IfOk result (λ text. text.items ≡ literal name.now) }
{
    let mut text = Vec::with_capacity(alloc, name.len() + 2)?;
    text.push(b'"')?;
    push_name(&mut text, name)?;
    text.push(b'"')?;
    Ok(text)
}
