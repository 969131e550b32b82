//! Tests of lists of units that several workers run, over disks that hold files, fail or change, and again after a
//! failed allocation.
ghost use Rattle.std.specs.Prelude.{◌≡◌, ◌≤◌, All, length};
ghost use Rattle.pptext.specs.declared.sources.Profile.TheVariants.{C11};
ghost use Rattle.ppshelf.specs.Files.{max_rows};
ghost use Rattle.ppunit.specs.Unit.{IsUnitOf};

use super::lists::{as_text, setting_of, shelf_of, units_of};
use super::stage::{Change, Meeting, Scene, Stage};
use pppool::{Batch, Block, Retain, Workers, run, run_retaining};
use ppshelf::{Pass, ReadFault, Shelf};
use pptext::Memory;
use ppunit::UnitOut;
use std::alloc::Global;
use std::process::Abort;
use std::sync::atomic::Ordering::SeqCst;
use std::test::Fail;
use std::thread::Threads;

/// The number of workers, the size of their blocks, and what is kept of the outputs.
#[derive(Clone, Copy)]
struct Parallelism {
    workers: usize,
    block: usize,
    retain: Retain,
}

impl Parallelism {
    /// Returns the number of workers and the size of their blocks, if they are within their bounds.
    fn limits(self) -> Option<(Workers, Block)> {
        Some((Workers::new(self.workers)?, Block::new(self.block)?))
    }
}

/// A case: names, the scene that has files of these names, units with the indices of their files and their definitions,
/// and the text of their outputs.
#[derive(Clone, Copy)]
pub(crate) struct Case {
    pub names: &'static [&'static str],
    pub scene: Scene,
    pub units: &'static [(usize, &'static [&'static str])],
    pub as_text: &'static str,
}

/// Runs units, by `run` if everything is kept, and otherwise by `run_retaining`.
fn run_once<'a, R: Threads + Sync>(
    rt: &R,
    alloc: Global,
    pass: &mut Pass<'a, Stage>,
    batch: &Batch<'a, '_, Stage, Stage>,
    retain: Retain,
) -> Result<Vec<UnitOut<'a>>, Memory>
    requires pass { pass.old.shelf ≡ batch.now.shelf.now }
    requires count { length batch.now.units.now ≤ max_rows }
    requires profile { batch.now.shelf.now.profile ≡ batch.now.setting.now.profile }
    requires rows { All (IsUnitOf (length batch.now.shelf.now.names) batch.now.setting.now.profile) batch.now.units.now }
    ensures { pass.new.shelf ≡ batch.now.shelf.now }
{
    match retain {
        Retain::Everything => run(rt, alloc, pass, batch),
        Retain::WithoutItems => run_retaining(rt, alloc, pass, batch, Retain::WithoutItems),
    }
}

/// Runs units with a pass that knows nothing. If an allocation fails, on a disk whose reads may fail so, runs them
/// again over the same file table and pass.
fn run_over<'a, R: Threads + Sync + Abort>(
    rt: &R,
    alloc: Global,
    batch: &Batch<'a, '_, Stage, Stage>,
    retain: Retain,
) -> Result<Vec<UnitOut<'a>>, Memory>
    requires count { length batch.now.units.now ≤ max_rows }
    requires profile { batch.now.shelf.now.profile ≡ batch.now.setting.now.profile }
    requires rows { All (IsUnitOf (length batch.now.shelf.now.names) batch.now.setting.now.profile) batch.now.units.now }
{
    let mut pass = batch.shelf.pass()?;
    let first = run_once(rt, alloc, &mut pass, batch, retain);
    let disk = batch.disk;
    if first.is_ok() || disk.fault == ReadFault::Unreadable {
        // A run fails if one of its reads has no memory.
        assert!(rt;
            disk.fault == ReadFault::Unreadable || disk.failing == 0,
            "read {}",
            disk.failing
        );
        return first;
    }
    run_once(rt, alloc, &mut pass, batch, retain)
}

/// Runs the units with these files and definitions, and returns the text of their outputs.
fn text_by<R: Threads + Sync + Abort>(
    rt: &R,
    alloc: Global,
    shelf: &Shelf<Stage>,
    disk: &Stage,
    rows: &[(usize, &[&str])],
    parallelism: Parallelism,
) -> Result<Vec<u8>, Fail>
    requires { shelf.now.profile ≡ C11 }
{
    let setting = setting_of(alloc)?;
    let units = units_of(alloc, shelf, rows)?;
    let Some((workers, block)) = parallelism.limits() else {
        return Err(Fail::new("too many workers, or too large a block"));
    };
    let batch = Batch {
        shelf,
        disk,
        gate: disk,
        setting: &setting,
        units: units.as_slice(),
        workers,
        block,
    };
    let outs = run_over(rt, alloc, &batch, parallelism.retain)?;
    Ok(as_text(alloc, outs.as_slice())?)
}

/// Runs a case over a new file table, and returns the text of its outputs.
fn given<R: Threads + Sync + Abort>(
    rt: &R,
    alloc: Global,
    case: &Case,
    disk: &Stage,
    parallelism: Parallelism,
) -> Result<Vec<u8>, Fail> {
    let shelf = shelf_of(alloc, case.names)?;
    text_by(rt, alloc, &shelf, disk, case.units, parallelism)
}

/// Asserts the outputs of a case.
fn assert_gives<R: Threads + Sync + Abort>(
    rt: &R,
    alloc: Global,
    case: &Case,
    disk: &Stage,
    parallelism: Parallelism,
) -> Result<(), Fail> {
    let text = given(rt, alloc, case, disk, parallelism)?;
    let (found, wanted) = (text.as_slice(), case.as_text);
    assert!(rt; found == wanted.as_bytes(), "{found:?} for {wanted}");
    Ok(())
}

/// A unit for each of seven files, the last of which can't be read.
const SEVEN: Case = Case {
    names: &["u0.c", "u1.c", "u2.c", "u3.c", "u4.c", "u5.c", "u6.c"],
    scene: Scene::Seven,
    units: &[
        (0, &[]),
        (1, &[]),
        (2, &[]),
        (3, &[]),
        (4, &[]),
        (5, &[]),
        (6, &[]),
    ],
    as_text: "0 | 0 | ok; 1 | 1 | ok; 2 | 2 | ok; 3 | 3 | ok; 4 | 4 | ok; 5 | 5 | ok; | 6 | 6 6:1:1 u6.c; ",
};

/// The case `SEVEN` without items.
const BARE: Case = Case {
    as_text: "| 0 | ok; | 1 | ok; | 2 | ok; | 3 | ok; | 4 | ok; | 5 | ok; | 6 | 6 6:1:1 u6.c; ",
    ..SEVEN
};

/// Numbers of workers, block sizes, and what is kept.
const CREWS: &[(usize, usize, Retain, Case)] = &[
    (1, 1, Retain::Everything, SEVEN),
    (1, 3, Retain::Everything, SEVEN),
    (1, 1024, Retain::Everything, SEVEN),
    (2, 1, Retain::Everything, SEVEN),
    (2, 3, Retain::Everything, SEVEN),
    (2, 1024, Retain::Everything, SEVEN),
    (7, 1, Retain::Everything, SEVEN),
    (7, 3, Retain::Everything, SEVEN),
    (7, 1024, Retain::Everything, SEVEN),
    (2, 3, Retain::WithoutItems, BARE),
];

#[test]
fn answers_come_in_the_lists_order(rt: HostRuntime) -> Result<(), Fail> {
    for &(workers, block, retain, case) in CREWS {
        let parallelism = Parallelism {
            workers,
            block,
            retain,
        };
        assert_gives(&rt, rt.alloc(), &case, &Stage::new(case.scene), parallelism)?;
    }
    Ok(())
}

/// Numbers of units and workers, a block, and the block that fits them: each worker claims about 16 times.
const FITTED: &[(usize, usize, usize, usize)] = &[
    (0, 4, 8, 1),
    (64, 4, 8, 1),
    (65, 4, 8, 2),
    (10_000, 4, 8, 8),
    (10_000, 64, 1024, 10),
    (65_535, 1, 1024, 1024),
];

#[test]
fn blocks_are_small_for_short_lists(rt: HostRuntime) -> Result<(), Fail> {
    for &(units, workers, block, fitted) in FITTED {
        let (Some(workers), Some(block)) = (Workers::new(workers), Block::new(block)) else {
            return Err(Fail::new("too many workers, or too large a block"));
        };
        assert!(rt;
            block.fitted(units, workers).get() == fitted,
            "{units} units"
        );
    }
    Ok(())
}

/// The entries of seven units: a hexadecimal digit for each, which is 1.
const EACH_ONCE: u64 = 0x111_1111;

#[test]
fn each_unit_enters_the_gate_once(rt: HostRuntime) -> Result<(), Fail> {
    for &(workers, block, retain, case) in CREWS {
        let parallelism = Parallelism {
            workers,
            block,
            retain,
        };
        let disk = Stage::new(case.scene);
        assert_gives(&rt, rt.alloc(), &case, &disk, parallelism)?;
        let entries = disk.entries.load(SeqCst);
        assert!(rt; entries == EACH_ONCE, "{entries:x} by {workers}");
    }
    Ok(())
}

/// Two workers with blocks of one unit.
const TWO: Parallelism = Parallelism {
    workers: 2,
    block: 1,
    retain: Retain::Everything,
};

/// Returns whether two workers meet at a place.
fn two_meet<R: Threads + Sync + Abort>(
    rt: &R,
    alloc: Global,
    meeting: Meeting,
) -> Result<bool, Fail> {
    let mut disk = Stage::new(SEVEN.scene);
    disk.meeting = meeting;
    assert_gives(rt, alloc, &SEVEN, &disk, TWO)?;
    Ok(disk.met.load(SeqCst) == 2)
}

/// Two workers work at once, and read at once; and if one waits at the first unit, the other takes all blocks up to the
/// last one.
const MEETINGS: &[(&str, Meeting)] = &[
    ("work at once", Meeting::AtUnits(1)),
    ("read at once", Meeting::AtReads),
    ("take what the other leaves", Meeting::AtUnits(6)),
];

/// Each has two runs: if a thread gets no memory, the workers run one after the other and don't meet.
#[test]
fn two_workers_meet(rt: HostRuntime) -> Result<(), Fail> {
    for &(what, meeting) in MEETINGS {
        let met = two_meet(&rt, rt.alloc(), meeting)? || two_meet(&rt, rt.alloc(), meeting)?;
        assert!(rt; met, "{what}");
    }
    Ok(())
}

/// Two units that both output what is in the third file, where disks change.
pub(crate) const OVER_ONE_HEADER: Case = Case {
    names: &["a.c", "b.c", "h.h"],
    scene: Scene::OneHeader,
    units: &[(0, &[]), (1, &[])],
    as_text: "1 | 0 2 | ok; 1 | 1 2 | ok; ",
};

#[test]
fn workers_find_one_content(rt: HostRuntime) -> Result<(), Fail> {
    let mut disk = Stage::new(OVER_ONE_HEADER.scene);
    (disk.change, disk.meeting) = (Change::Header, Meeting::AtUnits(1));
    let text = given(&rt, rt.alloc(), &OVER_ONE_HEADER, &disk, TWO)?;
    // Both units have one content of the header, either one.
    assert!(rt; text.len() == 28 && text[0] == text[14]);
    Ok(())
}

/// Two units of the first file, one with no definition and one with `H`.
const TWICE: &[(usize, &[&str])] = &[(0, &[]), (0, &["H"])];

const GUARDED_TEXT: &str = "int a ; | 0 1 | ok; | 0 1 | ok; ";

/// A file that includes a guarded header twice.
const GUARDED: Case = Case {
    names: &["a.c", "h.h"],
    scene: Scene::Guarded,
    units: TWICE,
    as_text: GUARDED_TEXT,
};

/// Reads that fail, the number of reads, and the outputs of the two units. A file that was read keeps its content. A
/// read that fails for lack of memory is repeated.
const FAILING: &[(u64, ReadFault, u64, &str)] = &[
    (
        1,
        ReadFault::Unreadable,
        1,
        "| 0 | 6 0:1:1 a.c; | 0 | 6 0:1:1 a.c; ",
    ),
    (
        2,
        ReadFault::Unreadable,
        2,
        "| 0 1 | 6 0:1:1 h.h; | 0 1 | 6 0:1:1 h.h; ",
    ),
    (3, ReadFault::Unreadable, 2, GUARDED_TEXT),
    (1, ReadFault::Memory, 3, GUARDED_TEXT),
    (2, ReadFault::Memory, 3, GUARDED_TEXT),
];

#[test]
fn a_read_fails(rt: HostRuntime) -> Result<(), Fail> {
    let alloc = rt.alloc();
    for &(failing, fault, reads, as_text) in FAILING {
        let mut disk = Stage::new(GUARDED.scene);
        (disk.failing, disk.fault) = (failing, fault);
        let parallelism = Parallelism { workers: 1, ..TWO };
        assert_gives(&rt, alloc, &Case { as_text, ..GUARDED }, &disk, parallelism)?;
        assert!(rt; disk.reads.load(SeqCst) == reads, "read {failing}");
    }
    Ok(())
}

/// Two units of one token, of an invocation that extends past its replacement, of a guarded header, and of headers that
/// are searched for next to a file, in the directory `inc`, and without success.
const AGAIN: &[Case] = &[
    Case {
        names: &["a.c"],
        scene: Scene::OneToken,
        units: TWICE,
        as_text: "x | 0 | ok; x | 0 | ok; ",
    },
    Case {
        names: &["a.c"],
        scene: Scene::Invocation,
        units: TWICE,
        as_text: "2 * 9 * g | 0 | ok; 2 * 9 * g | 0 | ok; ",
    },
    GUARDED,
    Case {
        names: &["src/a.c", "src/x.h", "inc/x.h"],
        scene: Scene::Searched,
        units: TWICE,
        as_text: "1 2 2 | 0 1 2 | 31 0:4:1 y.h; 1 2 2 | 0 1 2 | 31 0:4:1 y.h; ",
    },
];

#[test]
fn a_run_is_repeated_after_out_of_memory(rt: HostRuntime) -> Result<(), Fail> {
    for case in AGAIN {
        for workers in 1..=2 {
            let mut disk = Stage::new(case.scene);
            disk.fault = ReadFault::Memory;
            assert_gives(&rt, rt.alloc(), case, &disk, Parallelism { workers, ..TWO })?;
        }
    }
    Ok(())
}
