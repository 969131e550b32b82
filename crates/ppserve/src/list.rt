//! Reads the list of translation units from JSON.
ghost use Rattle.std.specs.Prelude.{◌≡◌, ◌≤◌, ℕ, Some, None, IfOk, IfErr, IsErrOf, true, length};
ghost use Rattle.serde_json.specs.View.{view};
ghost use Rattle.ppserve.specs.code.Refusals.{RefusedFor};
ghost use Rattle.ppserve.specs.Listing.{IsRunnable, json_value, verdict_of, validated, accepted, refused, max_input};
ghost use Rattle.ppserve.specs.declared.list.ListFault.TheVariants.{Bad, Memory as OutOfMemory};

mod drafts;
mod validation;

use crate::list::drafts::{Draft, draft_of};
use crate::list::validation::validate;
use ppshelf::{Contents, FileNames};
use pptext::{Hashing, Sequence};
use ppunit::{Setting, Unit};
use serde_json::{Category, Value};
use std::alloc::{AllocError, AllocFailed, Global};
use std::marker::Model;
use thiserror::Error;

/// The units of a list. Its model is their list.
pub type Units = Sequence<Unit>;

/// A list of translation units with its files. The index of a file is that of its name, and of its content. Contracts
/// don't see by which hash function the names are hashed.
#[derive(Drop, Debug)]
pub struct List {
    pub setting: Setting,
    pub names: FileNames,
    pub contents: Contents,
    pub units: Units,
}

impl Model for List {
    ghost use Rattle.ppserve.specs.CompilationList.{CompilationList};

    ghost Value = { CompilationList };

    ghost view = { λ l. record {
      setting = l.setting;
      names = l.names.names;
      contents = l.contents;
      units = l.units;
    } };
}

/// The error of reading a list.
#[derive(Debug, Drop, Error)]
pub enum ListFault {
    /// The bytes are refused, with the lowest refusal number that applies.
    #[error("list refused L{0}")]
    Bad(u8),
    /// An allocation failed.
    #[error("out of memory")]
    Memory,
}

impl From<AllocError> for ListFault {
    ghost from_gives = { λ _ e. e ≡ OutOfMemory };

    fn from(_error: AllocError) -> ListFault {
        ListFault::Memory
    }
}

impl<T: Drop> From<AllocFailed<T>> for ListFault {
    ghost from_gives = { λ _ e. e ≡ OutOfMemory };

    fn from(_error: AllocFailed<T>) -> ListFault {
        ListFault::Memory
    }
}

/// The largest number of bytes in a list.
pub(crate) const MAX_INPUT: usize = 268_435_456;

/// Reads a list from JSON. If `inline` is false, its files have only names, and it holds no contents. Names are hashed
/// by `hashing`.
///
/// # Errors
///
/// `Bad` with the least number that applies: 1 for more than 268,435,456 bytes or invalid JSON, 2 for a member that is
/// missing, unknown or of the wrong type, 3 for a file name that isn't in normal form or occurs twice, 4 for more than
/// 65,535 files or units, or a content or a unit's definitions of more than 16,777,216 bytes, 5 for a unit's file, or one
/// that is read first, that isn't among the names, 6 for a wrong date or time, 7 for a definition of more than one line, 8 for
/// a search path that isn't a directory name, 9 for an unknown profile, 10 for a budget that isn't an integer from 0 to
/// 4,294,967,295, 11 for a shown name with a control character, or of no byte or more than 4,096; and `Memory`.
pub fn read_list(
    alloc: Global,
    bytes: &[u8],
    inline: bool,
    hashing: Hashing,
) -> Result<List, ListFault>
    ensures ok { IfOk result (λ l. verdict_of inline bytes.now ≡ accepted l) }
    ensures runnable { IfOk result (λ l. IsRunnable l) }
    ensures contents { inline ≡ true → IfOk result (λ l. length l.contents ≡ length l.names) }
    ensures bad { (n : ℕ) → IsErrOf result (Bad n) → verdict_of inline bytes.now ≡ refused n }
{
    if bytes.len() > MAX_INPUT {
        return Err(ListFault::Bad(1));
    }
    let draft = draft_from(alloc, bytes, inline)?;
    validate(alloc, draft, inline, hashing)
}

/// Reads a draft of the list. The JSON value is freed before the list is validated.
fn draft_from(alloc: Global, bytes: &[u8], inline: bool) -> Result<Draft, ListFault>
    requires { length bytes.now ≤ max_input }
    ensures ok { IfOk result (λ d. verdict_of inline bytes.now ≡ validated inline d) }
    ensures bad { (n : ℕ) → IsErrOf result (Bad n) → verdict_of inline bytes.now ≡ refused n }
{
    let value = json_of(alloc, bytes)?;
    draft_of(alloc, &value, inline)
}

/// Parses JSON.
fn json_of(alloc: Global, bytes: &[u8]) -> Result<Value, ListFault>
    ensures ok { IfOk result (λ v. json_value bytes.now ≡ Some (view v)) }
    ensures err { IfErr result (RefusedFor 1 (json_value bytes.now ≡ None)) }
{
    match Value::from_slice(alloc, bytes) {
        Ok(value) => Ok(value),
        Err(error) => match error.classify() {
            Category::Memory => Err(ListFault::Memory),
            _ => Err(ListFault::Bad(1)),
        },
    }
}
