//! Tokens with their hide sets. Source tokens are borrowed from their file and not copied.
//!
//! A token has one hide set or two, and a macro whose name is in either may not replace it. The tokens of an argument go through
//! many replacements. Each adds the names that the one before added, and one more. So the second set is replaced by its larger
//! successor without a union, and the first keeps the token's other names. The union is computed when a third set is added, or
//! when the token is replaced or pasted.
//!
//! What differs between two uses of a source token stands beside the reference to it: the leading-space flag, the expansion
//! location and the hide sets. Only the tokens that `#`, `##` and predefined names make are on the heap.
ghost use Rattle.std.specs.Prelude.{◌≡◌, ◌++◌, IfOk, if◌then◌else◌, Some, None};
ghost use Rattle.ppmacro.specs.HiddenView.{used_at, extended, extra_set};

use crate::hide_sets::Set;
use pptext::{Kind, Memory, Place, Spelling, Token};
use std::alloc::Global;
use std::marker::Model;

/// A source token or a synthesized one, with its own leading-space flag and its second hide set, if it has two. The flags are
/// fields of the variants because a struct around the enum would be a quarter larger.
#[derive(Drop)]
pub(crate) enum TokenStorage<'a> {
    Source {
        space: bool,
        has_extra: bool,
        extra: Set,
        token: &'a Token,
    },
    Synthesized {
        space: bool,
        has_extra: bool,
        extra: Set,
        token: Box<Token>,
    },
}

/// A token with its leading-space flag and its second hide set. Contracts see these three.
#[derive(Drop)]
pub(crate) struct StoredToken<'a> {
    storage: TokenStorage<'a>,
}

impl<'a> Model for StoredToken<'a> {
    ghost use Rattle.std.specs.Prelude.{ℕ, Bool, Option};
    ghost use Rattle.ppmacro.specs.HiddenView.{extra_set};
    ghost use Rattle.pptext.specs.declared.tokens.Token.{Token};
    ghost use Rattle.ppmacro.specs.declared.hidden_token.TokenStorage.TheVariants.{Source, Synthesized};

    ghost Value = { Token × Bool × Option ℕ };

    ghost view = { λ w. elim w.storage [ Source s two m t ↦ (t.now, s, extra_set two m) | Synthesized s two m t ↦ (t.value, s, extra_set two m) ] };
}

impl<'a> StoredToken<'a> {
    /// Returns the token. Its own leading-space flag doesn't count.
    fn token(&self) -> &Token
        ensures { result.now ≡ self.now.0 }
    {
        match &self.storage {
            TokenStorage::Source { token, .. } => token,
            TokenStorage::Synthesized { token, .. } => token,
        }
    }

    /// Returns the leading-space flag.
    fn space(&self) -> bool
        ensures { result ≡ self.now.1 }
    {
        match &self.storage {
            TokenStorage::Source { space, .. } => *space,
            TokenStorage::Synthesized { space, .. } => *space,
        }
    }

    /// Returns the second hide set.
    fn extra(&self) -> Option<Set>
        ensures { result ≡ self.now.2 }
    {
        let (has_extra, extra) = match &self.storage {
            TokenStorage::Source {
                has_extra,
                extra,
                ..
            } => (*has_extra, *extra),
            TokenStorage::Synthesized {
                has_extra,
                extra,
                ..
            } => (*has_extra, *extra),
        };
        if has_extra { Some(extra) } else { None }
    }

    /// Sets the second hide set if `two`, and otherwise removes it.
    fn set_extra(&mut self, two: bool, set: Set)
        ensures { self.new ≡ (self.old.0, self.old.1, extra_set two set) }
    {
        match &mut self.storage {
            TokenStorage::Source {
                has_extra,
                extra,
                ..
            } => {
                *has_extra = two;
                *extra = set;
            }
            TokenStorage::Synthesized {
                has_extra,
                extra,
                ..
            } => {
                *has_extra = two;
                *extra = set;
            }
        }
    }

    /// Sets the leading-space flag.
    fn set_space(&mut self, leading: bool)
        ensures { self.new ≡ (self.old.0, leading, self.old.2) }
    {
        match &mut self.storage {
            TokenStorage::Source { space, .. } => *space = leading,
            TokenStorage::Synthesized { space, .. } => *space = leading,
        }
    }

    /// Appends bytes to the spelling of a synthesized token. Returns `false` for a source token, which is unchanged.
    fn extend(&mut self, alloc: Global, more: &[u8]) -> Result<bool, Memory>
        ensures { IfOk result (λ synthesized. self.new ≡ (if synthesized then (record self.old.0 { text = self.old.0.text ++ more.now }, self.old.1, self.old.2) else self.old)) }
    {
        match &mut self.storage {
            TokenStorage::Source { .. } => Ok(false),
            TokenStorage::Synthesized { token, .. } => {
                token.text.extend(alloc, more)?;
                Ok(true)
            }
        }
    }
}

/// A token with one hide set or two; a macro whose name is in either may not replace it. Carrying two sets costs less than computing their
/// union, which is needed for few tokens.
#[derive(Drop)]
pub struct Hidden<'a> {
    token: StoredToken<'a>,
    used: Place,
    hide: Set,
}

/// The expansion of an argument.
#[derive(Drop)]
pub enum ArgumentExpansion<'a> {
    /// It isn't computed: the parameter isn't used, or only next to `#` and `##`.
    Unused,
    /// It is the argument itself.
    AsGiven,
    /// It is these tokens.
    Owned(Vec<Hidden<'a>>),
}

impl<'a> Model for Hidden<'a> {
    ghost use Rattle.ppmacro.specs.HiddenView.{HiddenView, used_at};

    ghost Value = { HiddenView };

    ghost view = { λ h. record { token = used_at h.token.0 h.used h.token.1; hide = h.hide; extra = h.token.2 } };
}

impl<'a> Hidden<'a> {
    /// Wraps a source token.
    pub fn new(token: &'a Token, hide: Set) -> Hidden<'a>
        ensures { result ≡ record { token = token.now; hide = hide; extra = None } }
    {
        Hidden {
            token: StoredToken {
                storage: TokenStorage::Source {
                    space: token.space,
                    has_extra: false,
                    extra: hide,
                    token,
                },
            },
            used: token.used,
            hide,
        }
    }

    /// Wraps a synthesized token.
    pub fn synthesized(alloc: Global, token: Token, hide: Set) -> Result<Hidden<'a>, Memory>
        ensures { IfOk result (λ h. h ≡ record { token = token; hide = hide; extra = None }) }
    {
        let used = token.used;
        let space = token.space;
        Ok(Hidden {
            token: StoredToken {
                storage: TokenStorage::Synthesized {
                    space,
                    has_extra: false,
                    extra: hide,
                    token: Box::new(alloc, token)?,
                },
            },
            used,
            hide,
        })
    }

    /// Returns the token. Its expansion location and its leading-space flag may differ from this token's.
    pub fn token(&self) -> &Token
        ensures { self.now.token ≡ used_at result.now self.now.token.used self.now.token.space }
    {
        self.token.token()
    }

    /// Returns the kind.
    pub fn kind(&self) -> Kind
        ensures { result ≡ self.now.token.kind }
    {
        self.token.token().kind
    }

    /// Returns the spelling.
    pub fn text(&self) -> &[u8]
        ensures { result.now ≡ self.now.token.text }
    {
        self.token.token().text.as_bytes()
    }

    /// Returns a copy of the spelling.
    pub fn spelling(&self) -> Result<Spelling, Memory>
        ensures { IfOk result (λ s. s ≡ self.now.token.text) }
    {
        self.token.token().text.clone()
    }

    /// Returns a copy of the token.
    pub fn to_token(&self) -> Result<Token, Memory>
        ensures { IfOk result (λ t. t ≡ self.now.token) }
    {
        Ok(Token {
            kind: self.kind(),
            text: self.spelling()?,
            space: self.space(),
            at: self.at(),
            used: self.used,
        })
    }

    /// Returns the spelling location.
    pub fn at(&self) -> Place
        ensures { result ≡ self.now.token.at }
    {
        self.token.token().at
    }

    /// Returns the expansion location.
    pub fn used(&self) -> Place
        ensures { result ≡ self.now.token.used }
    {
        self.used
    }

    /// Returns the leading-space flag.
    pub fn space(&self) -> bool
        ensures { result ≡ self.now.token.space }
    {
        self.token.space()
    }

    /// Returns the hide set, or the first of two. See `HideSets::hide_set_of` for their union.
    pub fn hide(&self) -> Set
        ensures { result ≡ self.now.hide }
    {
        self.hide
    }

    /// Returns the second of two hide sets.
    pub fn extra(&self) -> Option<Set>
        ensures { result ≡ self.now.extra }
    {
        self.token.extra()
    }

    /// Appends bytes to the spelling of a synthesized token. Returns `false` for a source token, which is unchanged.
    pub(crate) fn extend(&mut self, alloc: Global, more: &[u8]) -> Result<bool, Memory>
        ensures { IfOk result (λ synthesized. self.new ≡ (if synthesized then extended self.old more.now else self.old)) }
    {
        self.token.extend(alloc, more)
    }

    /// Sets the leading-space flag.
    pub fn set_space(&mut self, space: bool)
        ensures { self.new ≡ record self.old { token = record self.old.token { space = space } } }
    {
        self.token.set_space(space);
    }

    /// Sets the expansion location and the hide set.
    pub fn set_use(&mut self, used: Place, hide: Set)
        ensures { self.new ≡ record { token = record self.old.token { used = used }; hide = hide; extra = None } }
    {
        self.used = used;
        self.hide = hide;
        self.token.set_extra(false, hide);
    }

    /// Sets the expansion location and two hide sets.
    pub fn set_use_with_extra(&mut self, used: Place, hide: Set, extra: Set)
        ensures { self.new ≡ record { token = record self.old.token { used = used }; hide = hide; extra = Some extra } }
    {
        self.used = used;
        self.hide = hide;
        self.token.set_extra(true, extra);
    }
}

impl<'a> Clone for StoredToken<'a> {
    ghost use Rattle.std.specs.Prelude.{◌≡◌};

    ghost is_clone = { λ a b. b ≡ a };

    #[inline(always)]
    fn clone(&self) -> Result<StoredToken<'a>, Memory> {
        match &self.storage {
            TokenStorage::Source {
                space,
                has_extra,
                extra,
                token,
            } => Ok(StoredToken {
                storage: TokenStorage::Source {
                    space: *space,
                    has_extra: *has_extra,
                    extra: *extra,
                    token: *token,
                },
            }),
            TokenStorage::Synthesized {
                space,
                has_extra,
                extra,
                token,
            } => Ok(StoredToken {
                storage: TokenStorage::Synthesized {
                    space: *space,
                    has_extra: *has_extra,
                    extra: *extra,
                    token: token.clone()?,
                },
            }),
        }
    }
}

impl<'a> Clone for Hidden<'a> {
    ghost use Rattle.std.specs.Prelude.{◌≡◌};

    ghost is_clone = { λ a b. b ≡ a };

    #[inline(always)]
    fn clone(&self) -> Result<Hidden<'a>, Memory> {
        let token = self.token.clone()?;
        Ok(Hidden {
            token,
            used: self.used,
            hide: self.hide,
        })
    }
}
