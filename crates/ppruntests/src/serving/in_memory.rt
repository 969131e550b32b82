//! Tests of a list that is run in memory, without streams and threads.
use super::streams::{EXAMPLE, EXAMPLE_OUTPUT};
use ppserve::{Mode, Printed, RunFault, serve_in_memory};
use pptext::{Hashing, Memory};
use std::alloc::Global;
use std::test::Fail;

/// The output of the example in three modes.
const OUTPUTS: &[(Mode, &str)] = &[
    (Mode::Dump, EXAMPLE_OUTPUT),
    (Mode::Deps, "unit 0 a.c\ndep 0 a.c\nok\n"),
    (Mode::Faults, "unit 0 a.c\nok\n"),
];

/// Returns the output of a list. A failed allocation is an error of the test.
fn output_of(alloc: Global, list: &str, mode: Mode) -> Result<Result<Printed, RunFault>, Fail> {
    match serve_in_memory(alloc, list.as_bytes(), mode, Hashing::fixed()) {
        Err(RunFault::Memory) => Err(Fail::from(Memory)),
        outcome => Ok(outcome),
    }
}

#[test]
fn returns_the_output_in_each_mode(rt: HostRuntime) -> Result<(), Fail> {
    for &(mode, want) in OUTPUTS {
        let Ok(run) = output_of(rt.alloc(), EXAMPLE, mode)? else {
            return Err(Fail::new("the example is refused"));
        };
        assert!(rt; run.text.as_slice() == want.as_bytes() && !run.any_fault);
    }
    Ok(())
}

#[test]
fn says_that_a_unit_has_a_fault(rt: HostRuntime) -> Result<(), Fail> {
    let list = EXAMPLE.replace(rt.alloc(), "a+b/**/c", "#error")?;
    let Ok(run) = output_of(rt.alloc(), list.as_str(), Mode::Faults)? else {
        return Err(Fail::new("the list is refused"));
    };
    assert!(rt; run.text.as_slice() == b"unit 0 a.c\nfault 34 0:1:1\n".as_slice() && run.any_fault);
    Ok(())
}

#[test]
fn refuses_a_list(rt: HostRuntime) -> Result<(), Fail> {
    let outcome = output_of(rt.alloc(), "{}", Mode::Dump)?;
    assert!(rt; matches!(outcome, Err(RunFault::List(2))));
    Ok(())
}
