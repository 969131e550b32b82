//! Runs cppunits: reads the bytes of a list and writes the bytes of its output.
//!
//! `serve` is all that the program does between its command line and its exit status. It is generic in its reader and its
//! writer, since only there the bytes can be named: of the system's standard streams no contract can say what they gave
//! or took. So what `Serves` says of bytes holds of the program as far as the system's reads and writes do what
//! `ReaderFeed` and `WriterSink` ask of them. The promises are two, by the disk: without one the output is that of the
//! list's own files, and with one that of some contents which the disk may return.
ghost use Rattle.std.specs.Prelude.{◌≡◌, ◌⊎◌, ◌≢◌, ℕ, IfOk, IfErr, IsErrOf, length, true, false};
ghost use Rattle.ppserve.specs.Listing.{IsRunnable};
ghost use Rattle.ppserve.specs.declared.serving.RunFault.TheVariants.{List as ListRefused, Memory as OutOfMemory};
ghost use Rattle.ppserve.specs.declared.serving.RunFault.TheVariants.{Read as ReadFailed, Write as WriteFailed};
ghost use Rattle.ppserve.specs.Serving.{Received, ReadsList, Serves, ServesPrefix, Refuses, holds_files, allowed_files};

use crate::list::{List, ListFault, MAX_INPUT, read_list};
use crate::run_list::{RunOptions, run_with_contents, run_with_disk};
use crate::streams::{Feed, Sink};
use ppshelf::Disk;
use pptext::Hashing;
use std::alloc::{AllocError, Global};
use std::thread::Threads;
use thiserror::Error;

/// The error of a run: no output was written, or only a prefix of it.
///
/// `words` states these messages again: it gives a text that lies in the program, so that printing it needs no memory,
/// and its contract says which. What `Display` writes depends on its formatter, and no contract can name it.
#[derive(Debug, Drop, Error)]
pub enum RunFault {
    /// The list is refused, with the lowest refusal number that applies.
    #[error("list refused L{0}")]
    List(u8),
    /// An allocation failed, or the disk lacked memory.
    #[error("out of memory")]
    Memory,
    /// The reader failed.
    #[error("read failed")]
    Read,
    /// The writer failed.
    #[error("write failed")]
    Write,
}

impl From<AllocError> for RunFault {
    ghost from_gives = { λ _ e. e ≡ OutOfMemory };

    fn from(_error: AllocError) -> RunFault {
        RunFault::Memory
    }
}

impl From<ListFault> for RunFault {
    ghost use Rattle.ppserve.specs.Serving.{run_fault_of};

    ghost from_gives = { λ f e. e ≡ run_fault_of f };

    fn from(fault: ListFault) -> RunFault {
        match fault {
            ListFault::Bad(number) => RunFault::List(number),
            ListFault::Memory => RunFault::Memory,
        }
    }
}

/// The maximum number of bytes that one read returns.
const CHUNK: usize = 65_536;

/// Reads a list, runs translation phases 1 to 4 (5.1.1.2) of its units, and writes their output once all are done.
/// Returns whether any unit has a fault. If the list has a budget, a unit's tokens, pragmas and dependencies are
/// prefixes of those without one, and a unit for which it doesn't suffice ends in fault 35.
///
/// Without a disk the list holds its files. With one it only names them: workers read a file from the disk when it is
/// first needed, and the content that is cached first is the file's content for all units.
///
/// # Errors
///
/// `List` with the lowest refusal number that applies, `Read` if the reader fails, and `Memory` if an allocation fails
/// or the disk answers `Memory`: nothing was written. `Write` if the writer fails: a prefix of the output was written.
pub fn serve<T: Threads + Sync, R: Feed, W: Sink, D: Disk + Send + Sync>(
    threads: &T,
    alloc: Global,
    reader: &mut R,
    writer: &mut W,
    disk: Option<&D>,
    options: RunOptions,
) -> Result<bool, RunFault>
    requires reader { R.has_failed reader.old ≡ false }
    requires writer { W.has_failed writer.old ≡ false }
    ensures ok { IfOk result (λ any. Serves (holds_files disk.entry) (allowed_files D.may disk.entry) options.mode
        (record { before = R.rest reader.old; after = R.rest reader.new })
        (record { before = W.written writer.old; after = W.written writer.new }) any) }
    ensures refused { (n : ℕ) → IsErrOf result (ListRefused n)
        → Refuses (holds_files disk.entry) (record { before = R.rest reader.old; after = R.rest reader.new }) n }
    ensures read { IsErrOf result ReadFailed → R.has_failed reader.new ≡ true }
    ensures write { IsErrOf result WriteFailed → W.has_failed writer.new ≡ true }
    ensures prefix { IsErrOf result WriteFailed → ServesPrefix (holds_files disk.entry) (allowed_files D.may disk.entry) options.mode
        (record { before = R.rest reader.old; after = R.rest reader.new })
        (record { before = W.written writer.old; after = W.written writer.new }) }
    ensures untouched { IfErr result (λ fault. fault ≢ WriteFailed → writer.new ≡ writer.old) }
{
    match disk {
        None => {
            let list = receive(alloc, reader, true, options.hashing)?;
            run_with_contents(threads, alloc, writer, list, options)
        }
        Some(disk) => {
            let list = receive(alloc, reader, false, options.hashing)?;
            run_with_disk(threads, alloc, writer, disk, list, options)
        }
    }
}

/// Reads a list, which holds its files if `inline`, and otherwise only their names. Frees its bytes.
fn receive<R: Feed>(
    alloc: Global,
    reader: &mut R,
    inline: bool,
    hashing: Hashing,
) -> Result<List, RunFault>
    ensures ok { IfOk result (λ l. ReadsList inline (record { before = R.rest reader.old; after = R.rest reader.new }) l) }
    ensures runnable { IfOk result (λ l. IsRunnable l) }
    ensures contents { inline ≡ true → IfOk result (λ l. length l.contents ≡ length l.names) }
    ensures refused { (n : ℕ) → IsErrOf result (ListRefused n) → Refuses inline (record { before = R.rest reader.old; after = R.rest reader.new }) n }
    ensures read { IsErrOf result ReadFailed → R.has_failed reader.new ≡ true }
    ensures unwritten { IfErr result (λ fault. fault ≢ WriteFailed) }
{
    let bytes = read_all(alloc, reader)?;
    Ok(read_list(alloc, bytes.as_slice(), inline, hashing)?)
}

/// Reads to the end, or until there are more bytes than a list may have.
fn read_all<R: Feed>(alloc: Global, reader: &mut R) -> Result<Vec<u8>, RunFault>
    ensures ok { IfOk result (λ bytes. Received (record { before = R.rest reader.old; after = R.rest reader.new }) bytes.items) }
    ensures err { IfErr result (λ fault. (fault ≡ OutOfMemory) ⊎ ((fault ≡ ReadFailed) × (R.has_failed reader.new ≡ true))) }
{
    let mut chunk = [0u8; CHUNK];
    let mut bytes = Vec::new(alloc);
    while bytes.len() <= MAX_INPUT {
        let Ok(count) = reader.read(&mut chunk) else {
            return Err(RunFault::Read);
        };
        if count == 0 {
            return Ok(bytes);
        }
        bytes.extend_from_slice(&chunk[..count])?;
    }
    Ok(bytes)
}
