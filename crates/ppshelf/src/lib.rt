//! The file table: the source files of a list, numbered by rows, each with one content for all units and threads, without a lock; and the
//! search for included files.
#![tactic(auto)]

mod dir_disk;
mod disk;
mod file_name;
mod file_names;
mod laws;
mod loaded;
mod memory_disk;
mod names;
mod path;
mod row;
mod search;
mod search_cache;
mod shelf;

pub use dir_disk::DirDisk;
pub use disk::{Disk, ReadFault};
pub use file_name::FileName;
pub use file_names::FileNames;
pub use laws::{
    callers_agree, each_block_once, names_decide, next_advances, next_ends_search, observed_stays,
    one_row, some_row,
};
pub use loaded::Loaded;
pub use memory_disk::{File, MemoryDisk};
pub use names::{is_directory, is_file_name};
pub use pptext::LONGEST;
pub use search::{Directories, Form, resolve, resolve_next};
pub use shelf::{Contents, MAX_ROWS, Pass, Shelf, ShelfFault};
