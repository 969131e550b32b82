//! Files in a directory of the system.
ghost use Rattle.std.specs.Prelude.{◌≡◌, ◌≤◌, ◌↔◌, ◌++◌, ◌∷◌, suc, take, IfOk, IfSome};
ghost use Rattle.std.specs.String.{string_bytes};
ghost use Rattle.ppshelf.specs.Content.{longest};
ghost use Rattle.ppshelf.specs.code.Shortage.{IsShortage};
ghost use Rattle.ppshelf.specs.declared.disk.ReadFault.TheVariants.{Memory as OutOfMemory};

use crate::disk::{Disk, ReadFault};
use pptext::{LONGEST, Memory};
use std::alloc::Global;
use std::io::{ErrorKind, Read};
use std::rt::Files;
use std::{fs, io};

/// The files below a directory. The path of a file is the directory, `/` and the file's name.
///
/// Regular files are read, also through links. Everything else is unreadable. Files may change at any time, and no
/// contract can say what the system's files hold. So every content is one that a read may return: what is proved of
/// permitted contents says nothing about this disk.
pub struct DirDisk<'a, R: Files> {
    /// The file system.
    pub files: &'a R,
    /// The path of the directory.
    pub directory: &'a str,
}

impl<R: Files> Drop for DirDisk<'_, R> {
    fn drop(self) {
        let DirDisk {
            files: _,
            directory: _,
        } = self;
    }
}

impl<R: Files> Disk for DirDisk<'_, R> {
    ghost may = { λ name c. Unit {0} };

    ghost may_return = { λ disk name c. Unit {0} };

    ghost may_return_by_type = { λ disk name c h. tt };

    fn read(&self, alloc: Global, name: &str) -> Result<Vec<u8>, ReadFault> {
        let Ok(path) = path_in_directory(alloc, self.directory, name) else {
            return Err(ReadFault::Memory);
        };
        let (file, len) = open_regular(self.files, path.as_str())?;
        read_up_to_limit(alloc, file, len)
    }
}

/// Opens a regular file, or one to which a link leads, and returns its current length in bytes, at most `LONGEST`.
/// Opens nothing else: opening a named pipe would wait until another process writes to it.
fn open_regular<R: Files>(files: &R, path: &str) -> Result<(R::File, usize), ReadFault>
    ensures { IfOk result (λ r. r.1 ≤ longest) }
{
    let len = match fs::metadata(files, path) {
        Ok(found) if found.is_file() => found.len().min(LONGEST as u64) as usize,
        Ok(_) => return Err(ReadFault::Unreadable),
        Err(error) => return Err(fault_of(&error)),
    };
    match fs::open(files, path) {
        Ok(file) => Ok((file, len)),
        Err(error) => Err(fault_of(&error)),
    }
}

/// Returns the path of the file of a name.
fn path_in_directory(alloc: Global, directory: &str, name: &str) -> Result<String, Memory>
    ensures { IfOk result (λ path. string_bytes path ≡ directory.now ++ 47 ∷ name.now) }
{
    let mut path = String::from_str(alloc, directory)?;
    path.push_str("/")?;
    path.push_str(name)?;
    Ok(path)
}

/// Reads a file up to one byte above `LONGEST`, which shows that it is too long. Allocates capacity for `len` bytes and
/// one more, with which a read finds the end.
fn read_up_to_limit<F: Read + Drop>(
    alloc: Global,
    file: F,
    len: usize,
) -> Result<Vec<u8>, ReadFault>
    requires { len ≤ longest }
    ensures { IfOk result (λ bytes. IfSome (F.remaining file) (λ all. bytes.items ≡ take (suc longest) all)) }
{
    let Ok(mut bytes) = Vec::with_capacity(alloc, len + 1) else {
        return Err(ReadFault::Memory);
    };
    match file.take(LONGEST as u64 + 1).read_to_end(&mut bytes) {
        Ok(_) => Ok(bytes),
        Err(error) => Err(fault_of(&error)),
    }
}

/// Linux's error number if no file descriptor is left in the whole system. `ErrorKind` has none for it.
const ENFILE: i32 = 23;

/// Linux's error number if no file descriptor is left in this process.
const EMFILE: i32 = 24;

/// Returns the fault of a system error. A lack of memory or file descriptors says nothing about the file.
fn fault_of(error: &io::Error) -> ReadFault
    ensures { (result ≡ OutOfMemory) ↔ IsShortage error.now }
{
    match (error.kind(), error.raw_os_error()) {
        (ErrorKind::OutOfMemory, _) | (_, Some(ENFILE | EMFILE)) => ReadFault::Memory,
        _ => ReadFault::Unreadable,
    }
}
