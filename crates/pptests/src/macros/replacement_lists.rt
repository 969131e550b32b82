//! Tests of what is read of a replacement list with its definition.
use super::{macro_of, table_of};
use crate::defining::source_of;
use ppmacro::Pattern;
use pptext::{Profile, Source};
use std::alloc::Global;
use std::process::Abort;
use std::test::Fail;

/// Returns the number of tokens in a macro's list, if the list replaces the name unchanged, and whether the macro's pattern has
/// chains.
fn list_and_chains(
    rt: &impl Abort,
    alloc: Global,
    line: &Source,
) -> Result<(Option<usize>, bool), Fail> {
    let table = table_of(rt, alloc, line)?;
    let named = macro_of(&table, line.tokens()).ok_or("no macro")?;
    let pattern = named.pattern();
    let lone = match named.lone_tokens() {
        Some(body) => Some(body.len()),
        None => None,
    };
    Ok((lone, matches!(&pattern, Pattern::Pasted(_))))
}

/// Macros, the number of tokens in the list if it replaces the name unchanged, and whether the pattern has chains.
const LISTED: &[(&str, Option<usize>, bool)] = &[
    ("#define O (1-1)", Some(5), false),
    ("#define H # x", Some(2), false),
    ("#define E", Some(0), false),
    ("#define P a ## b", None, true),
    ("#define D a %:%: b", None, true),
    ("#define F() a", None, false),
    ("#define G(x) x", None, false),
    ("#define I(x) x", None, false),
    ("#define D(x, y) y(x, y) x", None, false),
    ("#define N(x) 0", None, false),
    ("#define E(x)", None, false),
    ("#define M(x) - x -", None, false),
    ("#define L(x) x", None, false),
    ("#define V(x, ...) x __VA_ARGS__", None, false),
    ("#define P(x) x ## 1", None, true),
    ("#define S(x) %: x", None, true),
    ("#define R(x, ...) x, ## __VA_ARGS__", None, true),
];

/// The list of an object-like macro without `##` replaces the name unchanged. A list without `#` and `##` needs no chains.
#[test]
fn makes_chains_where_tokens_are_made(rt: HostRuntime) -> Result<(), Fail> {
    for &(line, lone, joined) in LISTED {
        let source = source_of(&rt, rt.alloc(), line.as_bytes())?;
        assert!(rt;
            list_and_chains(&rt, rt.alloc(), &source)? == (lone, joined),
            "{line}"
        );
    }
    Ok(())
}

/// Macros, their number of parameters, and the parameters whose arguments are expanded, in the order of the profile.
const EXPANDED: &[(&str, Profile, usize, &[usize])] = &[
    ("#define O x", Profile::Gnu, 0, &[]),
    ("#define D(x, y) y", Profile::C11, 2, &[1]),
    ("#define S(x, y) #x y", Profile::C11, 2, &[1]),
    ("#define P(x, y) x ## y", Profile::Gnu, 2, &[]),
    ("#define V(x, ...) x __VA_ARGS__", Profile::C11, 2, &[0, 1]),
    ("#define W(x, y) y x y", Profile::C11, 2, &[0, 1]),
    ("#define W(x, y) y x y", Profile::Later, 2, &[0, 1]),
    ("#define W(x, y) y x y", Profile::Gnu, 2, &[1, 0]),
    ("#define B(x, y, z) #x z y x", Profile::Gnu, 3, &[2, 1, 0]),
];

/// Returns whether a macro has this number of parameters, and the arguments of these are expanded, in this order, and no others.
fn expands(
    rt: &impl Abort,
    alloc: Global,
    line: &Source,
    profile: Profile,
    (count, wanted): (usize, &[usize]),
) -> Result<bool, Fail> {
    let table = table_of(rt, alloc, line)?;
    let named = macro_of(&table, line.tokens()).ok_or("no macro")?;
    Ok(named.parameter_count() == count && named.expansion_order(profile) == wanted)
}

#[test]
fn tells_which_arguments_are_expanded(rt: HostRuntime) -> Result<(), Fail> {
    for &(line, profile, count, wanted) in EXPANDED {
        let source = source_of(&rt, rt.alloc(), line.as_bytes())?;
        assert!(rt;
            expands(&rt, rt.alloc(), &source, profile, (count, wanted))?,
            "{line}"
        );
    }
    Ok(())
}
