//! The stack of include files (6.10.2).
ghost use Rattle.std.specs.Prelude.{◌≡◌, ◌≤◌, ◌∷◌, [], Some, length, IfOk, MatchOption, OnOk};
ghost use Rattle.ppunit.specs.code.Walk.{next_file, next_suspended, contexts_restored};

use crate::open_file::{Entered, OpenFile};
use crate::states::{FileContext, Resumption, State};
use pptext::Memory;
use std::alloc::Global;
use std::marker::Model;

/// A suspended file, which includes the next file on the stack or the file that is being processed, its context, and the line at
/// which it goes on.
#[derive(Drop)]
pub(crate) struct SuspendedFile<'a> {
    pub file: OpenFile<'a>,
    pub file_context: FileContext<'a>,
    pub resumption: Option<Resumption>,
}

impl<'a> Model for SuspendedFile<'a> {
    ghost use Rattle.ppunit.specs.code.Walk.{SuspendedFile};

    ghost Value = { SuspendedFile };

    ghost view = { λ w. record { file = w.file; file_context = w.file_context; resumption = w.resumption } };
}

/// The suspended files, each included by the one before it. Its model is their list in reverse order, the innermost first.
#[derive(Drop)]
pub(crate) struct Stack<'a> {
    files: Vec<SuspendedFile<'a>>,
}

impl<'a> Model for Stack<'a> {
    ghost use Rattle.std.specs.Prelude.{List, reverse};
    ghost use Rattle.ppunit.specs.code.Walk.{SuspendedFile};

    ghost Value = { List SuspendedFile };

    ghost view = { λ s. reverse s.files.items };
}

impl<'a> Stack<'a> {
    /// Creates an empty stack.
    pub(crate) fn new(alloc: Global) -> Stack<'a>
        ensures { result ≡ [] }
    {
        Stack {
            files: Vec::new(alloc),
        }
    }

    /// Returns the number of suspended files: the include depth of the file that is being processed.
    pub(crate) fn depth(&self) -> u32
        requires { length self.now ≤ 200 }
        ensures { result ≡ length self.now }
    {
        self.files.len() as u32
    }

    /// Suspends a file, and returns the file that it includes.
    pub(crate) fn enter(
        &mut self,
        file: OpenFile<'a>,
        entered: Entered<'a>,
    ) -> Result<OpenFile<'a>, Memory>
        ensures file { IfOk result (λ next. next ≡ next_file file.entry (Some entered.entry)) }
        ensures suspended { OnOk result (self.new ≡ next_suspended file.entry (Some entered.entry) self.old) }
    {
        let parts = entered.into_parts();
        let file_context = parts.outer;
        let resumption = parts.resumption;
        self.files.push(SuspendedFile {
            file,
            file_context,
            resumption,
        })?;
        Ok(parts.file)
    }

    /// Takes the last suspended file out.
    pub(crate) fn pop(&mut self) -> Option<SuspendedFile<'a>>
        ensures { MatchOption result ((self.old ≡ []) × (self.new ≡ [])) (λ w. self.old ≡ w ∷ self.new) }
    {
        self.files.pop()
    }

    /// Drops all files, and restores the context of each, from the last one on. None of them goes on.
    pub(crate) fn unwind(self, state: &mut State<'a>)
        ensures { state.new ≡ contexts_restored self.entry state.old }
    {
        let mut files = self;
        while let Some(suspended) = files.pop() {
            state.restore_context(suspended.file_context);
        }
    }
}
