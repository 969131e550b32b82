//! The hide set of a token that has one set or two.
ghost use Rattle.std.specs.Prelude.{◌≡◌, IfOk};
ghost use Rattle.std.specs.FinSet as set;
ghost use Rattle.ppmacro.specs.HideSets.{set_at, IsKnown, HasSets, KeepsSets, hide_of};

use crate::hidden_token::Hidden;
use crate::hide_sets::{HideSets, Set};
use pptext::Memory;

impl HideSets {
    /// Returns whether a token's spelling is in its hide set.
    pub fn hides(&self, hidden: &Hidden) -> bool
        requires { HasSets self.now hidden.now }
        ensures { result ≡ set.contains (hide_of self.now hidden.now) hidden.now.token.text }
    {
        if self.has(hidden.hide(), hidden.text()) {
            return true;
        }
        match hidden.extra() {
            Some(extra) => self.has(extra, hidden.text()),
            None => false,
        }
    }

    /// Returns the hide set of a token. Computes the union if it has two sets.
    pub fn hide_set_of(&mut self, hidden: &Hidden) -> Result<Set, Memory>
        requires { HasSets self.old hidden.now }
        ensures set { IfOk result (λ s. set_at self.new s ≡ hide_of self.old hidden.now) }
        ensures known { IfOk result (λ s. IsKnown self.new s) }
        ensures keeps { KeepsSets self.old self.new }
    {
        match hidden.extra() {
            Some(extra) => self.union(hidden.hide(), extra),
            None => Ok(hidden.hide()),
        }
    }

    /// Returns the hide set of a token with the token's spelling added.
    pub fn with_own_name(&mut self, hidden: &Hidden) -> Result<Set, Memory>
        requires { HasSets self.old hidden.now }
        ensures set { IfOk result (λ s. set_at self.new s ≡ set.insert (hide_of self.old hidden.now) hidden.now.token.text) }
        ensures known { IfOk result (λ s. IsKnown self.new s) }
        ensures keeps { KeepsSets self.old self.new }
    {
        let base = self.hide_set_of(hidden)?;
        let more = self.with(base, hidden.text())?;
        Ok(more)
    }

    /// Returns the intersection of the hide sets of two tokens.
    pub fn common_hide_set(&mut self, left: &Hidden, right: &Hidden) -> Result<Set, Memory>
        requires left { HasSets self.old left.now }
        requires right { HasSets self.old right.now }
        ensures set { IfOk result (λ s. set_at self.new s ≡ set.intersection (hide_of self.old left.now) (hide_of self.old right.now)) }
        ensures known { IfOk result (λ s. IsKnown self.new s) }
        ensures keeps { KeepsSets self.old self.new }
    {
        let one = self.hide_set_of(left)?;
        let two = self.hide_set_of(right)?;
        let both = self.meet(one, two)?;
        Ok(both)
    }
}
