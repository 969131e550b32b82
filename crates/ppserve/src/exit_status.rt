//! Exit statuses and error messages.
ghost use Rattle.std.specs.Prelude.{◌≡◌};
ghost use Rattle.ppserve.specs.ExitStatus.{status_of, words_of};
ghost use Rattle.ppserve.specs.declared.serving.RunFault.TheVariants.{List as Refused};

use crate::serving::RunFault;

/// Returns the exit status: 0 if no unit has a fault, 1 if one has, 3 if the list is refused, 4 if an allocation
/// failed or the disk lacked memory, 5 if the reader or the writer failed.
pub fn status(outcome: &Result<bool, RunFault>) -> u8
    ensures { result ≡ status_of outcome.now }
{
    match outcome {
        Ok(false) => 0,
        Ok(true) => 1,
        Err(RunFault::List(_)) => 3,
        Err(RunFault::Memory) => 4,
        Err(RunFault::Read | RunFault::Write) => 5,
    }
}

/// Returns the error message of a run that failed, without a new-line.
pub fn words(fault: &RunFault) -> &'static str
    ensures { result.now ≡ words_of fault.now }
{
    match fault {
        RunFault::List(number) => refusal_words(*number),
        RunFault::Memory => "cppunits: out of memory",
        RunFault::Read => "cppunits: read failed",
        RunFault::Write => "cppunits: write failed",
    }
}

/// Returns the error message of a list that is refused with this number.
fn refusal_words(number: u8) -> &'static str
    ensures { result.now ≡ words_of (Refused number) }
{
    match number {
        1 => "cppunits: list refused L1",
        2 => "cppunits: list refused L2",
        3 => "cppunits: list refused L3",
        4 => "cppunits: list refused L4",
        5 => "cppunits: list refused L5",
        6 => "cppunits: list refused L6",
        7 => "cppunits: list refused L7",
        8 => "cppunits: list refused L8",
        9 => "cppunits: list refused L9",
        10 => "cppunits: list refused L10",
        11 => "cppunits: list refused L11",
        _ => "cppunits: list refused",
    }
}
