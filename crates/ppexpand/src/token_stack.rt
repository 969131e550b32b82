//! The stack of tokens that are still to be expanded.
ghost use Rattle.std.specs.Prelude.{◌≡◌, ◌∷◌, [], ◌++◌, map, true, Some, MatchOption, IfOk, OnOk};
ghost use Rattle.std.specs.Option.{option_copied};
ghost use Rattle.ppmacro.specs.Substituting.{tokens_of};
ghost use Rattle.ppexpand.specs.code.Lists.{spaced, with_set, never_expands, next_macro, NeverExpand};

use crate::expand_step::macro_at;
use crate::lists::put_clones;
use crate::token_span::TokenSpan;
use ppmacro::{Hidden, PreparedMacro, Set, Table};
use pptext::{Memory, Token, push};
use std::marker::Model;

/// The tokens that are still to be expanded. Contracts see them as a list that begins with the next token.
///
/// `pushed` holds the tokens that replacements pushed, in reverse order: to pop a token takes constant time, and to push tokens takes time
/// linear in their number. `below` holds the tokens of a file that follow them. If `pending` is set, the first of these has a leading space.
#[derive(Drop)]
pub(crate) struct TokenStack<'a> {
    pushed: Vec<Hidden<'a>>,
    below: TokenSpan<'a>,
    pending: bool,
}

impl<'a> Model for TokenStack<'a> {
    ghost use Rattle.std.specs.Prelude.{List, reverse, ◌++◌};
    ghost use Rattle.ppmacro.specs.declared.hidden_token.Hidden.{Hidden};

    ghost Value = { List Hidden };

    ghost use Rattle.ppexpand.specs.code.Lists.{spaced};

    ghost view = { λ c. reverse c.pushed.items ++ spaced c.pending c.below };
}

/// The next token of a stack, classified without its hide set.
#[derive(Drop)]
pub(crate) enum Lookahead<'t, 'x, 'a> {
    /// A token that is emitted unchanged. It is popped.
    Emits(Hidden<'x>),
    /// A token that names this macro.
    Names(&'t PreparedMacro<'a>),
    /// Not known: the token comes from the file, or it is an unmatched quote.
    Unknown,
}

/// Gives each token this hide set alone.
fn set_hide(tokens: &mut [Hidden], hide: Set)
    ensures { tokens.new ≡ map (with_set hide) (tokens_of tokens.old) }
{
    for hidden in tokens.iter_mut() {
        let used = hidden.used();
        hidden.set_use(used, hide);
    }
}

impl<'a> TokenStack<'a> {
    /// Creates a stack of these tokens and then tokens of a file, each with this hide set alone.
    pub(crate) fn over(first: Vec<Hidden<'a>>, tokens: &'a [Token], hide: Set) -> TokenStack<'a>
        ensures { result ≡ map (with_set hide) (tokens_of first.entry.items ++ tokens.now) }
    {
        let mut pushed = first;
        set_hide(pushed.as_mut_slice(), hide);
        pushed.reverse();
        TokenStack {
            pushed,
            below: TokenSpan::new(tokens, hide),
            pending: false,
        }
    }

    /// Creates a stack of copies of these tokens, without tokens of a file. It uses the memory of the vector. `hide` has no effect.
    #[inline(never)]
    pub(crate) fn of_clones(
        pushed: Vec<Hidden<'a>>,
        tokens: &[Hidden<'a>],
        hide: Set,
    ) -> Result<TokenStack<'a>, Memory>
        ensures { IfOk result (λ list. list ≡ tokens.now) }
    {
        let mut pushed = pushed;
        pushed.clear();
        put_clones(&mut pushed, tokens)?;
        pushed.reverse();
        Ok(TokenStack {
            pushed,
            below: TokenSpan::new(Default::default(), hide),
            pending: false,
        })
    }

    /// Returns the vector of the pushed tokens.
    pub(crate) fn into_pushed(self) -> Vec<Hidden<'a>> {
        self.pushed
    }

    /// Returns true only if there are no tokens.
    pub(crate) fn is_empty(&self) -> bool
        ensures { result ≡ true → self.now ≡ [] }
    {
        self.pushed.is_empty() && self.below.is_empty()
    }

    /// Pops the next token.
    pub(crate) fn next(&mut self) -> Option<Hidden<'a>>
        ensures { MatchOption result ((self.old ≡ []) × (self.new ≡ [])) (λ h. self.old ≡ h ∷ self.new) }
    {
        if let Some(hidden) = self.pushed.pop() {
            return Some(hidden);
        }
        let Some(mut hidden) = self.below.next() else {
            return None;
        };
        if self.pending {
            hidden.set_space(true);
        }
        self.pending = false;
        Some(hidden)
    }

    /// Pushes a token.
    pub(crate) fn push(&mut self, hidden: Hidden<'a>) -> Result<(), Memory>
        ensures { OnOk result (self.new ≡ hidden.entry ∷ self.old) }
    {
        push(&mut self.pushed, hidden)
    }

    /// Pushes the tokens of a vector, the last one first.
    pub(crate) fn push_all(&mut self, tokens: &mut Vec<Hidden<'a>>) -> Result<(), Memory>
        ensures { OnOk result (self.new ≡ tokens.old.items ++ self.old) }
    {
        tokens.reverse();
        self.pushed.append(tokens)?;
        Ok(())
    }

    /// Sets the leading-space flag of the next token, if there is one and a space is pending.
    pub(crate) fn space_next(&mut self, pending: bool)
        ensures { self.new ≡ spaced pending self.old }
    {
        if !pending {
            return;
        }
        if let Some(last) = self.pushed.last_mut() {
            last.set_space(true);
            return;
        }
        self.pending = true;
    }

    /// Pops the next token if a replacement pushed it and it is emitted unchanged; or returns the macro that it names.
    pub(crate) fn next_unexpanded<'t, 'b>(&mut self, table: &'t Table<'b>) -> Lookahead<'t, 'a, 'b>
        ensures { elim result [
          | Lookahead.Emits h ↦ (self.old ≡ h ∷ self.new) × (never_expands table.now.macros h.token ≡ true)
          | Lookahead.Names m ↦ (self.new ≡ self.old) × (next_macro table.now.macros (tokens_of self.old) ≡ Some m.now)
          | Lookahead.Unknown ↦ self.new ≡ self.old
        ] }
    {
        let Some(last) = self.pushed.last() else {
            return Lookahead::Unknown;
        };
        let token = last.token();
        if let Some(named) = macro_at(table, token) {
            return Lookahead::Names(named);
        }
        if token.is_unmatched_quote() {
            return Lookahead::Unknown;
        }
        match self.pushed.pop() {
            Some(hidden) => Lookahead::Emits(hidden),
            None => Lookahead::Unknown,
        }
    }

    /// Pops the tokens of the file that are emitted unchanged, if they are next. Also returns the macro that the token after them names.
    pub(crate) fn take_unexpanded<'t, 'b>(
        &mut self,
        table: &'t Table<'b>,
    ) -> (TokenSpan<'a>, Option<&'t PreparedMacro<'b>>)
        ensures laid_out { self.old ≡ result.0 ++ self.new }
        ensures unexpanded { NeverExpand table.now.macros result.0 }
        ensures named { option_copied result.1 ≡ next_macro table.now.macros (tokens_of self.new) }
    {
        if let Some(last) = self.pushed.last() {
            return (self.below.none(), macro_at(table, last.token()));
        }
        if self.pending || self.below.is_empty() {
            return (self.below.none(), self.below.next_macro(table));
        }
        self.below.take_unexpanded(table)
    }
}
