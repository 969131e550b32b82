//! A stage for tests: a disk and a gate that wait, fail and change as a test requires.
use pppool::Gate;
use ppshelf::{Disk, ReadFault};
use std::alloc::Global;
use std::sync::atomic::AtomicU64;
use std::sync::atomic::Ordering::SeqCst;

/// How often a waiting worker checks for the other before it gives up.
const MAX_LOADS: u64 = 1_000_000_000;

/// Where two workers wait for each other.
#[derive(Clone, Copy)]
pub(crate) enum Meeting {
    Nowhere,
    /// At the gate, before unit 0 and this one.
    AtUnits(usize),
    /// At the reads of `u0.c` and `u1.c`.
    AtReads,
}

/// What a disk changes from read to read.
#[derive(Clone, Copy)]
pub(crate) enum Change {
    Nothing,
    /// `h.h` is `1` at its first read, `2` at the next, and so on.
    Header,
    /// Each file ends with one more line: `a` at the first read of any, `b` at the next, and so on.
    EachRead,
}

/// The files of a stage.
#[derive(Clone, Copy)]
pub(crate) enum Scene {
    /// Six files of one number, and no seventh.
    Seven,
    /// Two files that include a third one, which is empty except for what changes.
    OneHeader,
    /// A file that includes a guarded header twice.
    Guarded,
    /// A file of one token.
    OneToken,
    /// An invocation that extends past its replacement.
    Invocation,
    /// Headers that are searched for next to a file, in the directory `inc`, and without success.
    Searched,
}

/// Returns names and texts of the files.
fn files_of(scene: Scene) -> &'static [(&'static str, &'static str)] {
    match scene {
        Scene::Seven => SEVEN,
        Scene::OneHeader => ONE_HEADER,
        Scene::Guarded => GUARDED,
        Scene::OneToken => ONE_TOKEN,
        Scene::Invocation => INVOCATION,
        Scene::Searched => SEARCHED,
    }
}

const SEVEN: &[(&str, &str)] = &[
    ("u0.c", "0\n"),
    ("u1.c", "1\n"),
    ("u2.c", "2\n"),
    ("u3.c", "3\n"),
    ("u4.c", "4\n"),
    ("u5.c", "5\n"),
];

const ONE_HEADER: &[(&str, &str)] = &[
    ("a.c", "#include \"h.h\"\n"),
    ("b.c", "#include \"h.h\"\n"),
    ("h.h", ""),
];

const GUARDED: &[(&str, &str)] = &[
    ("a.c", "#include \"h.h\"\n#include \"h.h\"\n"),
    ("h.h", "#ifndef H\n#define H\nint a;\n#endif\n"),
];

const ONE_TOKEN: &[(&str, &str)] = &[("a.c", "x\n")];

const INVOCATION: &[(&str, &str)] = &[("a.c", "#define f(a) a*g\n#define g(a) f(a)\nf(2)(9)\n")];

const SEARCHED: &[(&str, &str)] = &[
    (
        "src/a.c",
        "#include \"x.h\"\n#include <x.h>\n#include \"../inc/x.h\"\n#include <y.h>\n",
    ),
    ("src/x.h", "1"),
    ("inc/x.h", "2"),
];

#[derive(Drop)]
pub(crate) struct Stage {
    pub scene: Scene,
    /// The number of the read that fails, from 1, and how it fails.
    pub failing: u64,
    pub fault: ReadFault,
    pub reads: AtomicU64,
    pub change: Change,
    pub headers: AtomicU64,
    /// How often units entered the gate: a hexadecimal digit for each of the first 16 units, unit 0's the last.
    pub entries: AtomicU64,
    pub meeting: Meeting,
    pub came: AtomicU64,
    pub met: AtomicU64,
}

impl Stage {
    /// Creates a stage for a scene that never waits, fails or changes.
    pub(crate) fn new(scene: Scene) -> Stage {
        Stage {
            scene,
            failing: 0,
            fault: ReadFault::Unreadable,
            reads: AtomicU64::new(0),
            change: Change::Nothing,
            headers: AtomicU64::new(0),
            entries: AtomicU64::new(0),
            meeting: Meeting::Nowhere,
            came: AtomicU64::new(0),
            met: AtomicU64::new(0),
        }
    }

    /// Returns the content of a file.
    fn text_of(&self, alloc: Global, wanted: &str) -> Result<Vec<u8>, ReadFault> {
        for &(name, text) in files_of(self.scene) {
            if name == wanted {
                return copied(alloc, text);
            }
        }
        Err(ReadFault::Unreadable)
    }

    /// Waits until two workers have come, but not forever.
    fn wait(&self) {
        let _before = self.came.fetch_add(1, SeqCst);
        for _ in 0..MAX_LOADS {
            if self.came.load(SeqCst) >= 2 {
                let _before = self.met.fetch_add(1, SeqCst);
                return;
            }
        }
    }
}

impl Gate for Stage {
    fn enter(&self, unit: usize) {
        if unit < 16 {
            let _before = self.entries.fetch_add(1 << (4 * unit), SeqCst);
        }
        if let Meeting::AtUnits(other) = self.meeting {
            if unit == 0 || unit == other {
                self.wait();
            }
        }
    }
}

impl Disk for Stage {
    ghost may = { λ name c. Unit {0} };

    ghost may_return = { λ disk name c. Unit {0} };

    ghost may_return_by_type = { λ disk name c h. tt };

    fn read(&self, alloc: Global, name: &str) -> Result<Vec<u8>, ReadFault> {
        let before = self.reads.fetch_add(1, SeqCst);
        if before.saturating_add(1) == self.failing {
            return Err(self.fault);
        }
        if matches!(self.meeting, Meeting::AtReads) && (name == "u0.c" || name == "u1.c") {
            self.wait();
        }
        match self.change {
            Change::Header if name == "h.h" => numbered(
                alloc,
                self.headers.fetch_add(1, SeqCst).saturating_add(1),
            ),
            Change::EachRead => lettered(self.text_of(alloc, name)?, before),
            Change::Nothing | Change::Header => self.text_of(alloc, name),
        }
    }
}

/// Returns a number on a line.
fn numbered(alloc: Global, number: u64) -> Result<Vec<u8>, ReadFault> {
    let Ok(text) = format!(in alloc; "{number}\n") else {
        return Err(ReadFault::Memory);
    };
    Ok(text.into_bytes())
}

/// Appends a letter on a line, which depends on the number of earlier reads.
fn lettered(mut text: Vec<u8>, before: u64) -> Result<Vec<u8>, ReadFault> {
    let letter = b'a'.saturating_add((before % 26) as u8);
    let Ok(()) = text.extend_from_slice(&[letter, b'\n']) else {
        return Err(ReadFault::Memory);
    };
    Ok(text)
}

fn copied(alloc: Global, text: &str) -> Result<Vec<u8>, ReadFault> {
    let Ok(bytes) = Vec::from_slice(alloc, text.as_bytes()) else {
        return Err(ReadFault::Memory);
    };
    Ok(bytes)
}
