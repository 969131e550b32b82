//! The error of a step: a fault of the source, or a failed allocation.
//!
//! Every step that may find a fault returns `Result<_, Error>`, from phase 2 to the end of a unit, so that `?` carries a
//! fault out unchanged. A fault has about 40 bytes, and few steps have one. So an error holds it on the heap, and a
//! result is about as small as its value: results lie on the stack once for each level of nested arguments.
ghost use Rattle.std.specs.Prelude.{◌≡◌, []};
ghost use Rattle.pptext.specs.Errors.{Raises, split_memory};
ghost use Rattle.pptext.specs.Tokens.{fault};
ghost use Rattle.pptext.specs.declared.error.Error.TheVariants.{Memory as OutOfMemory};

use crate::tokens::{Fault, Place, Token};
use std::alloc::{AllocFailed, Global};
use std::marker::Model;

/// A failed allocation.
pub use std::alloc::AllocError as Memory;

/// A fault on the heap. Contracts see the fault.
#[derive(Drop, Debug)]
pub struct BoxedFault {
    fault: Box<Fault>,
}

impl Model for BoxedFault {
    ghost use Rattle.pptext.specs.declared.tokens.Fault.{Fault};

    ghost Value = { Fault };

    ghost view = { λ b. b.fault.value };
}

impl BoxedFault {
    /// Returns the fault.
    pub fn into_fault(self) -> Fault
        ensures { result ≡ self }
    {
        let BoxedFault { fault } = self;
        Box::into_inner(fault)
    }
}

/// The reason why a step has no value: a fault of the source, or a failed allocation.
#[derive(Drop, Debug)]
pub enum Error {
    /// A fault of the source.
    Fault(BoxedFault),
    /// An allocation fails.
    Memory,
}

impl Error {
    /// Returns the error of this fault, or `Memory` if an allocation fails.
    pub fn of(alloc: Global, fault: Fault) -> Error
        ensures { Raises result fault }
    {
        match Box::new(alloc, fault) {
            Ok(fault) => Error::Fault(BoxedFault { fault }),
            Err(_) => Error::Memory,
        }
    }

    /// Returns the error of the fault with this number, location and text, or `Memory` if an allocation fails.
    #[cold]
    pub fn new(alloc: Global, number: u8, at: Place, text: &[u8]) -> Error
        ensures { Raises result (fault number at text.now) }
    {
        match Fault::new(alloc, number, at, text) {
            Ok(fault) => Error::of(alloc, fault),
            Err(_) => Error::Memory,
        }
    }

    /// Returns the error of the fault with this number and location and an empty text, or `Memory` if an allocation
    /// fails.
    #[cold]
    pub fn bare(alloc: Global, number: u8, at: Place) -> Error
        ensures { Raises result (fault number at []) }
    {
        Error::of(alloc, Fault::bare(number, at))
    }

    /// Returns the error of the fault with this number and location whose text is the spelling of a token, or `Memory`
    /// if an allocation fails.
    #[cold]
    pub fn of_token(alloc: Global, number: u8, at: Place, token: &Token) -> Error
        ensures { Raises result (fault number at token.now.text) }
    {
        match Fault::of_token(number, at, token) {
            Ok(fault) => Error::of(alloc, fault),
            Err(_) => Error::Memory,
        }
    }
}

impl From<Memory> for Error {
    ghost from_gives = { λ _ e. e ≡ OutOfMemory };

    fn from(_error: Memory) -> Error {
        Error::Memory
    }
}

impl<T: Drop> From<AllocFailed<T>> for Error {
    ghost from_gives = { λ _ e. e ≡ OutOfMemory };

    fn from(_error: AllocFailed<T>) -> Error {
        Error::Memory
    }
}

/// Moves a fault from the error to the value, so that a failed allocation is the only error.
pub fn split_memory<T>(outcome: Result<T, Error>) -> Result<Result<T, Fault>, Memory>
    ensures { result ≡ split_memory outcome }
{
    match outcome {
        Ok(value) => Ok(Ok(value)),
        Err(Error::Fault(fault)) => Ok(Err(fault.into_fault())),
        Err(Error::Memory) => Err(Memory),
    }
}
