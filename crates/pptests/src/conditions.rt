//! Tests of `evaluate`: conditions, and the rest of a budget, also after a fault. More conditions and faults are in
//! tests/row_tests.py, which compares the program's output.
use crate::defining::{directed, env, source_of};
use ppexpand::{Meter, Scratch};
use ppexpr::evaluate;
use ppmacro::Table;
use pptext::{Error, Place, Source};
use std::alloc::Global;
use std::process::Abort;
use std::test::Fail;

/// The location of the `#` of the `#if` line.
const HASH: Place = Place {
    file: 1,
    line: 9,
    col: 1,
};

/// Returns the condition in the tokens after a file's definitions, or its fault.
fn condition_of(
    rt: &impl Abort,
    alloc: Global,
    meter: &mut Meter,
    source: &Source,
) -> Result<bool, Error> {
    let mut table = Table::new(alloc)?;
    let tokens = directed(rt, alloc, &mut table, source)?;
    let mut scratch = Scratch::new(alloc, table.hashing())?;
    evaluate(&table, &env(0), meter, HASH, tokens, &mut scratch)
}

/// Returns whether a result is this condition, or a fault with this number.
fn is_wanted(found: Result<bool, Error>, wanted: Result<bool, u8>) -> bool {
    match (found, wanted) {
        (Ok(found), Ok(wanted)) => found == wanted,
        (Err(Error::Fault(fault)), Err(number)) => fault.into_fault().number == number,
        _ => false,
    }
}

/// The macros that the expressions use.
const MACROS: &str = "#define ONE 1\n#define SAME(x) x\n";

/// Expressions and budgets, each with its condition or the number of its fault, and the rest of the budget.
const LEFT: &[(&str, Option<u64>, Result<bool, u8>, Option<u64>)] = &[
    ("1", None, Ok(true), None),
    ("!x && defined ONE", Some(0), Ok(true), Some(0)),
    ("ONE == 2", Some(1), Ok(false), Some(0)),
    ("SAME(ONE) && __STDC__", Some(1003), Ok(true), Some(1000)),
    ("ONE 1x", Some(2), Err(24), Some(1)),
    ("ONE + SAME(", Some(2), Err(17), Some(0)),
    ("ONE defined", Some(2), Err(22), Some(2)),
    ("ONE", Some(0), Err(35), Some(0)),
    ("SAME(1)", Some(0), Err(35), Some(0)),
    ("SAME(", Some(0), Err(35), Some(0)),
    ("1 + ONE", Some(0), Err(35), Some(0)),
    ("ONE + ONE", Some(1), Err(35), Some(0)),
    ("SAME(ONE)", Some(1), Err(35), Some(0)),
    ("1x ONE", Some(0), Err(35), Some(0)),
    ("defined ONE ? ONE : ONE", Some(1), Err(35), Some(0)),
    ("0 && ONE", Some(0), Err(35), Some(0)),
];

#[test]
fn leaves_what_a_condition_does_not_spend(rt: HostRuntime) -> Result<(), Fail> {
    for &(expression, budget, wanted, remaining) in LEFT {
        let text = format!(in rt.alloc(); "{}{expression}", MACROS)?;
        let source = source_of(&rt, rt.alloc(), text.as_bytes())?;
        let mut meter = Meter::new(budget);
        let found = condition_of(&rt, rt.alloc(), &mut meter, &source);
        assert!(rt;
            is_wanted(found, wanted) && meter.remaining == remaining,
            "{expression}"
        );
    }
    Ok(())
}
