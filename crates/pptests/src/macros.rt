//! Tests of the macro library, with helpers that read lines and print tokens. `rt try --test --fail-alloc N` lets the Nth
//! allocation of each test fail. If a tested call fails, the test checks what the call left, and calls again.
mod definitions;
mod hide_sets;
mod keys;
mod parts;
mod pushed;
mod replacement_lists;
mod substitution;
mod two_sets;

use crate::defining::{directed, source_of};
use ppmacro::{Hidden, HideSets, MacroKind, PreparedMacro, Set, Table, Variadic};
use pptext::{Memory, Place, Source, Token};
use std::alloc::{AllocError, Global};
use std::process::Abort;
use std::test::Fail;

/// The location of the `#` of a line.
const HASH: Place = Place {
    file: 1,
    line: 1,
    col: 1,
};

/// Reads each text as a source file.
fn sources_of(rt: &impl Abort, alloc: Global, texts: &[&str]) -> Result<Vec<Source>, Fail> {
    let mut sources = Vec::new(alloc);
    for text in texts {
        sources.push(source_of(rt, alloc, text.as_bytes())?)?;
    }
    Ok(sources)
}

/// Returns the table after the lines of a file.
fn table_of<'a>(rt: &impl Abort, alloc: Global, source: &'a Source) -> Result<Table<'a>, Memory> {
    let mut table = Table::new(alloc)?;
    let _behind = directed(rt, alloc, &mut table, source)?;
    Ok(table)
}

/// Returns the macro that a `#define` line names.
fn macro_of<'t, 'a>(table: &'t Table<'a>, line: &[Token]) -> Option<&'t PreparedMacro<'a>> {
    let name = line.get(2)?;
    table.get(name.text.as_bytes())
}

/// Returns a hide set with one more name.
fn more(rt: &impl Abort, sets: &mut HideSets, set: Set, name: &[u8]) -> Result<Set, Memory> {
    assert!(rt; sets.knows(set));
    sets.with(set, name)
}

/// Returns the set of these one-letter names.
fn set_of(rt: &impl Abort, sets: &mut HideSets, names: &[u8]) -> Result<Set, Memory> {
    let mut set = sets.empty();
    for name in names {
        set = more(rt, sets, set, &[*name])?;
    }
    Ok(set)
}

/// Returns whether a hide set contains a name.
fn has(rt: &impl Abort, sets: &HideSets, set: Set, name: &[u8]) -> bool {
    assert!(rt; sets.knows(set));
    sets.has(set, name)
}

/// Asserts which of the names `a`, `b` and `c` a set contains.
fn assert_names(rt: &impl Abort, sets: &HideSets, set: Set, names: &[u8]) {
    for name in b"abc" {
        let is_wanted = names.contains(name);
        assert!(rt;
            has(rt, sets, set, &[*name]) == is_wanted,
            "{name} of {names:?}"
        );
    }
}

/// Returns whether a name is in the hide set of a token.
fn is_hidden_by(rt: &impl Abort, sets: &HideSets, hidden: &Hidden, name: &[u8]) -> bool {
    if has(rt, sets, hidden.hide(), name) {
        return true;
    }
    match hidden.extra() {
        Some(extra) => has(rt, sets, extra, name),
        None => false,
    }
}

/// Appends a token's spelling to a text, after a space if the token has a leading-space flag.
fn push_spelled(text: &mut Vec<u8>, token: &Token) -> Result<(), AllocError> {
    if token.space {
        text.push(b' ')?;
    }
    text.extend_from_slice(token.text.as_bytes())
}

/// Appends a parameter list to a text.
fn push_parameters(text: &mut Vec<u8>, kind: &MacroKind) -> Result<(), AllocError> {
    let MacroKind::FunctionLike {
        parameters,
        variadic,
    } = kind
    else {
        return Ok(());
    };
    text.push(b'(')?;
    for name in parameters.as_slice() {
        text.extend_from_slice(name.as_bytes())?;
        text.push(b',')?;
    }
    text.extend_from_slice(match variadic {
        Variadic::No => b")".as_slice(),
        Variadic::Strict => b"...)",
        Variadic::Lenient => b"...?)",
    })
}

/// Returns the definition of a name as text: ` 1`, or `(a,b,...) a` with a comma after each parameter. `...?` means that the
/// variable argument may be absent, and `none` that there is no definition.
fn shown(alloc: Global, table: &Table, name: &str) -> Result<Vec<u8>, AllocError> {
    let mut text = Vec::new(alloc);
    let Some(definition) = table.get(name.as_bytes()) else {
        text.extend_from_slice(b"none")?;
        return Ok(text);
    };
    if matches!(definition.kind(), MacroKind::Predefined(_)) {
        text.extend_from_slice(b"predefined")?;
    }
    push_parameters(&mut text, definition.kind())?;
    for token in definition.body() {
        push_spelled(&mut text, token)?;
    }
    Ok(text)
}
