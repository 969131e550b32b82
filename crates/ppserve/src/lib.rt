//! Runs a list of translation units: from the bytes of the list to the bytes of its output.
#![tactic(auto)]

mod chain;
mod exit_status;
mod formatting;
mod in_memory;
mod laws;
mod line_cursor;
mod line_prefix;
mod list;
mod out_buffer;
mod output;
mod printing;
mod rounds;
mod run_list;
mod serving;
mod streams;
mod text_output;

pub use exit_status::{status, words};
pub use in_memory::{Printed, serve_in_memory};
pub use laws::{known_bytes_decide, one_output, refuses_by_the_least, shape_decides, some_output};
pub use list::{List, ListFault, Units, read_list};
pub use output::{Mode, deps, dump, faults, text};
pub use pppool::{Block, Workers};
pub use ppshelf::Contents;
pub use run_list::{AtEnd, RunOptions};
pub use serving::{RunFault, serve};
pub use streams::{Failed, Feed, ReaderFeed, Sink, SliceFeed, VecSink, WriterSink};
