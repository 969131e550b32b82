//! The definitions of a unit, and the file that holds them.
ghost use Rattle.std.specs.Prelude.{◌≡◌, ◌≤◌, ◌++◌, IfOk, OnOk, length};
ghost use Rattle.std.specs.Bool.{OnTrue};
ghost use Rattle.pptext.specs.Sources.{Reads};
ghost use Rattle.ppshelf.specs.Content.{longest};
ghost use Rattle.ppunit.specs.Unit.{command_file, command_text, command_line};

use ppmacro::PreparedSource;
use ppshelf::MAX_ROWS;
use pptext::{Error, Fault, Hashing, Memory, OwnedText, OwnedTexts, Profile, read_source};
use std::alloc::Global;
use std::fmt;
use std::marker::Model;
use std::sync::Arc;

/// The index of the file that holds a unit's definitions. No file table has it.
pub(crate) const COMMAND_FILE: u32 = MAX_ROWS as u32;

/// Definitions, with the lines of the file that holds them or the fault of that file. Its model is the list of the
/// definitions' texts, and the profile that the file is read with.
#[derive(Drop)]
struct CommandFile {
    texts: OwnedTexts,
    profile: Profile,
    lines: Result<PreparedSource, Fault>,
}

impl Model for CommandFile {
    ghost use Rattle.pptext.specs.Sources.{Reads};
    ghost use Rattle.ppunit.specs.CommandFile.{CommandMacros, command_file, command_text};

    ghost Value = { CommandMacros };

    ghost view = { λ d. record { texts = d.texts; profile = d.profile } };

    ghost invariant = { λ d. Reads d.profile command_file (command_text d.texts) d.lines };
}

/// The definitions of a unit. Units with the same definitions share the lines of the file that holds them. Its model is
/// the list of the definitions' texts, and the profile that the file is read with.
#[derive(Drop)]
pub struct CommandMacros {
    file: Arc<CommandFile>,
}

impl Model for CommandMacros {
    ghost use Rattle.std.specs.Arc.{arc_value};
    ghost use Rattle.ppunit.specs.CommandFile.{CommandMacros};

    ghost Value = { CommandMacros };

    ghost view = { λ d. arc_value d.file };
}

impl fmt::Debug for CommandMacros {
    fn fmt<W: fmt::Write>(&self, f: &mut fmt::Formatter<W>) -> fmt::Result {
        fmt::Debug::fmt(self.texts(), f)
    }
}

impl CommandMacros {
    /// Reads the file that has, for each definition, a line of `#define `, the text, and a new-line. The file may have at most
    /// `LONGEST` bytes: see `fits_command`. Shares the lines of `before`, if that has the same definitions and profile. Many
    /// parameters of a macro are indexed with hash function `hashing`. Fails if an allocation fails.
    pub fn read(
        alloc: Global,
        before: Option<&CommandMacros>,
        texts: OwnedTexts,
        profile: Profile,
        hashing: Hashing,
    ) -> Result<CommandMacros, Memory>
        requires { length (command_text texts) ≤ longest }
        ensures { IfOk result (λ d. d ≡ record { texts = texts; profile = profile }) }
    {
        if let Some(before) = before {
            if before.is_of(&texts, profile) {
                return before.share();
            }
        }
        CommandMacros::read_file(alloc, texts, profile, hashing)
    }

    /// Reads the file of these definitions.
    fn read_file(
        alloc: Global,
        texts: OwnedTexts,
        profile: Profile,
        hashing: Hashing,
    ) -> Result<CommandMacros, Memory>
        requires { length (command_text texts) ≤ longest }
        ensures { IfOk result (λ d. d ≡ record { texts = texts; profile = profile }) }
    {
        let text = command_text(alloc, &texts)?;
        let lines = match read_source(alloc, text.as_slice(), COMMAND_FILE, profile) {
            Ok(source) => Ok(PreparedSource::new(alloc, source, profile, hashing)?),
            Err(Error::Fault(fault)) => Err(fault.into_fault()),
            Err(Error::Memory) => return Err(Memory),
        };
        let file = CommandFile {
            texts,
            profile,
            lines,
        };
        Ok(CommandMacros {
            file: Arc::new(alloc, file)?,
        })
    }

    /// Returns the same definitions, with one more owner of their file.
    fn share(&self) -> Result<CommandMacros, Memory>
        ensures { IfOk result (λ d. d ≡ self.now) }
    {
        let file = Arc::try_clone(&self.file)?;
        Ok(CommandMacros { file })
    }

    /// Returns whether they are these texts, read with this profile.
    fn is_of(&self, texts: &OwnedTexts, profile: Profile) -> bool
        ensures { OnTrue result (self.now ≡ record { texts = texts.now; profile = profile }) }
    {
        self.profile() == profile && are_same(self.texts().as_slice(), texts.as_slice())
    }

    /// Returns the texts of the definitions.
    pub fn texts(&self) -> &OwnedTexts
        ensures { result.now ≡ self.now.texts }
    {
        &self.file.texts
    }

    /// Returns the profile that the definitions are read with.
    pub fn profile(&self) -> Profile
        ensures { result ≡ self.now.profile }
    {
        self.file.profile
    }

    /// Returns the lines of the file that holds the definitions, or its fault.
    pub(crate) fn lines(&self) -> &Result<PreparedSource, Fault>
        ensures { Reads self.now.profile command_file (command_text self.now.texts) result.now }
    {
        &self.file.lines
    }
}

/// Returns whether both are the same text.
fn is_same(left: &OwnedText, right: &OwnedText) -> bool
    ensures { OnTrue result (left.now ≡ right.now) }
{
    left.as_str().as_bytes() == right.as_str().as_bytes()
}

/// Returns whether both have the same texts.
fn are_same(left: &[OwnedText], right: &[OwnedText]) -> bool
    ensures { OnTrue result (left.now ≡ right.now) }
{
    if left.len() != right.len() {
        return false;
    }
    for index in 0..left.len() {
        if !is_same(&left[index], &right[index]) {
            return false;
        }
    }
    true
}

/// Appends the line of a definition.
fn push_definition(text: &mut Vec<u8>, definition: &str) -> Result<(), Memory>
    ensures { OnOk result (text.new.items ≡ text.old.items ++ command_line definition.now) }
{
    text.extend_from_slice(b"#define ")?;
    text.extend_from_slice(definition.as_bytes())?;
    text.push(b'\n')?;
    Ok(())
}

/// Returns the bytes of the file that holds the definitions: a line for each.
fn command_text(alloc: Global, defines: &OwnedTexts) -> Result<Vec<u8>, Memory>
    ensures { IfOk result (λ text. text.items ≡ command_text defines.now) }
{
    let mut text = Vec::new(alloc);
    for definition in defines.as_slice() {
        push_definition(&mut text, definition.as_str())?;
    }
    Ok(text)
}
