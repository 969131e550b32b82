//! Theorems about runs: functions that do nothing, whose contracts state the theorems. They call the theorems that they
//! rest on.
ghost use Rattle.ppserve.specs.Contents.{ArePermitted};
ghost use Rattle.ppserve.specs.Drafting.{ShapeDecides};
ghost use Rattle.ppserve.specs.Laws.{OneOutput, OneOutputOfContents, SomeOutput, RefusesByTheLeast, AcceptsTheRest};
ghost use Rattle.ppserve.specs.Serving.{KnownBytesDecide};

use pppool::{list_growth, some_values};
use ppshelf::Disk;
use ppunit::one_value;

/// Theorem: a JSON value gives a draft exactly if it has the members of a list with that draft (`IsDraft`).
pub fn shape_decides()
    ensures { ShapeDecides }
{}

/// Theorem: bytes are refused with the least number of a refusal that applies to them, and accepted as a list exactly if
/// none applies.
pub fn refuses_by_the_least()
    ensures refused { RefusesByTheLeast }
    ensures accepted { AcceptsTheRest }
{}

/// Theorem: if all bytes of a reader are known, the bytes that were read have the same outcome (a list or a
/// refusal) as all of them.
pub fn known_bytes_decide()
    ensures { KnownBytesDecide }
{}

/// Theorem: two runs of one list over files that agree have the same output and the same result, whatever the workers,
/// the blocks and the hash key. Runs of a list that holds its files need no such condition.
pub fn one_output<D: Disk>()
    ensures files { OneOutput (ArePermitted D.may) }
    ensures contents { OneOutputOfContents }
{
    one_value();
    list_growth();
}

/// Theorem: a list that is accepted with its contents has an output, in each mode.
pub fn some_output()
    ensures { SomeOutput }
{
    some_values();
}
