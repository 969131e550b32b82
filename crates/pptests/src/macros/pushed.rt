//! Tests of macros that are pushed and popped.
use super::{shown, sources_of, table_of};
use ppmacro::{PushedMacros, Table};
use pptext::{Memory, Source};
use std::alloc::Global;
use std::process::Abort;
use std::test::Fail;

/// The lines of two tables.
const LINES: &[&str] = &["#define X 1\n#define f(a,...) #a", "#define X 2\n#define f"];

/// Names, with their definitions in the two tables.
const NAMES: &[(&str, &str, &str)] = &[
    ("X", " 1", " 2"),
    ("f", "(a,__VA_ARGS__,...) #a", ""),
    ("__LINE__", "predefined", "predefined"),
    ("Y", "none", "none"),
];

/// Asserts the definition of a name after a pop.
fn assert_popped<'a>(
    rt: &impl Abort,
    alloc: Global,
    (pushed, table): (&mut PushedMacros<'a>, &mut Table<'a>),
    name: &'a str,
    wanted: &str,
) -> Result<(), Memory> {
    pushed.pop(table, name.as_bytes())?;
    assert!(rt;
        shown(alloc, table, name)?.as_slice() == wanted.as_bytes(),
        "{name}"
    );
    Ok(())
}

/// Pushes a name of the first table, and then of the second. Asserts that the pops bring them back in reverse order, and that a
/// third pop changes nothing.
fn assert_last_first<'a>(
    rt: &impl Abort,
    alloc: Global,
    (first, second): (&'a Source, &'a Source),
    (name, before, after): (&'a str, &str, &str),
) -> Result<(), Memory> {
    let mut pushed = PushedMacros::new(alloc);
    let mut table = table_of(rt, alloc, first)?;
    pushed.push(&table, name.as_bytes())?;
    pushed.push(&table, b"Z")?;
    let other = table_of(rt, alloc, second)?;
    pushed.push(&other, name.as_bytes())?;
    for wanted in [after, before, before] {
        assert_popped(rt, alloc, (&mut pushed, &mut table), name, wanted)?;
    }
    Ok(())
}

#[test]
fn pops_what_was_pushed_last(rt: HostRuntime) -> Result<(), Fail> {
    let sources = sources_of(&rt, rt.alloc(), LINES)?;
    let [first, second] = sources.as_slice() else {
        return Err(Fail::new("two texts"));
    };
    for &case in NAMES {
        assert_last_first(&rt, rt.alloc(), (first, second), case)?;
    }
    Ok(())
}
