//! Prints the output of a run, and says how that ended.
ghost use Rattle.std.specs.Prelude.{◌≡◌, [], false, OnOk, OnErr};
ghost use Rattle.ppserve.specs.Serving.{any_fault};
ghost use Rattle.ppserve.specs.code.Printing.{Puts};
ghost use Rattle.ppserve.specs.code.Records.{output_bytes};
ghost use Rattle.ppserve.specs.code.Runs.{Delivers, IsOutputOf};

use crate::line_cursor::LineCursor;
use crate::out_buffer::OutBuffer;
use crate::output::{Output, put_through};
use crate::rounds::{new_pages, put_in_rounds};
use crate::serving::RunFault;
use crate::streams::Sink;
use pppool::Workers;
use pptext::Memory;
use ppunit::UnitOut;
use std::alloc::Global;
use std::thread::Threads;

/// Prints the output of units. Returns whether a unit has a fault.
pub(crate) fn print<T: Threads + Sync, W: Sink>(
    threads: &T,
    alloc: Global,
    writer: &mut W,
    workers: Workers,
    output: Output,
) -> Result<bool, RunFault>
    requires { W.has_failed writer.old ≡ false }
    ensures { Delivers W.written W.has_failed (IsOutputOf output.entry) writer.old writer.new result }
{
    put_by_workers(threads, alloc, writer, workers, output)?;
    if writer.failed() {
        return Err(RunFault::Write);
    }
    Ok(any_fault(output.outs))
}

/// Prints all lines by one worker or several. A mode without items prints few lines, which one worker prints. Fails only
/// if an allocation fails, and then nothing was written. After a failed write nothing more is written.
fn put_by_workers<T: Threads + Sync, W: Sink>(
    threads: &T,
    alloc: Global,
    writer: &mut W,
    workers: Workers,
    output: Output,
) -> Result<(), Memory>
    ensures ok { OnOk result (Puts W.written W.has_failed writer.old writer.new [] [] (output_bytes output.entry)) }
    ensures err { OnErr result (writer.new ≡ writer.old) }
{
    let count = workers.get();
    if count == 1 || !output.mode.shows_items() {
        let mut buf = OutBuffer::new(alloc)?;
        let mut cursor = LineCursor::new(alloc, output)?;
        put_through(&mut buf, writer, output.names, &mut cursor);
        return Ok(());
    }
    let mut pages = new_pages(alloc, output, count)?;
    let mut cursor = LineCursor::new(alloc, output)?;
    put_in_rounds(threads, pages.as_mut_slice(), writer, output, &mut cursor);
    Ok(())
}

/// Returns whether a unit has a fault.
pub(crate) fn any_fault(outs: &[UnitOut]) -> bool
    ensures { result ≡ any_fault outs.now }
{
    for out in outs {
        if out.fault.is_some() {
            return true;
        }
    }
    false
}
