//! Replacement lists in the form that substitution reads. Most contain neither `#` nor `##` and need no chains. Both forms are borrowed
//! from the definition.
ghost use Rattle.std.specs.Prelude.{◌≡◌, ◌<◌, None, length, get_or, slice_get, slice_index_or, unwrap_or};
ghost use Rattle.std.specs.List.{list_any};
ghost use Rattle.ppmacro.specs.Entries.{entries_at, is_operator};
ghost use Rattle.ppmacro.specs.code.KeptChains.{chains_at};
ghost use Rattle.ppmacro.specs.declared.patterns.Entry as spec;
ghost use Rattle.ppmacro.specs.declared.macros.Chain as pasted;

use crate::hash_operators::{is_hash, is_paste};
use crate::kept_chains::KeptChain;
use crate::macros::{Chain, Operands};
use crate::replacement_list::BodyToken;
use crate::va_opt_chains::VaOptList;
use pptext::{Kind, Token};
use std::marker::Model;

/// A token or a parameter of a replacement list without `#` and `##`.
#[derive(Drop)]
pub enum Entry<'a> {
    /// A token of the replacement list.
    Tok(BodyToken<'a>),
    /// A parameter: the leading-space flag of its token, and its index.
    Param(bool, usize),
}

/// A replacement list without `#` and `##`: its tokens, and the parameter that each names. Contracts see the entries.
#[derive(Drop)]
pub struct PlainList<'p, 'a> {
    uses: &'p [Option<usize>],
    body: &'a [Token],
}

impl<'p, 'a> Model for PlainList<'p, 'a> {
    ghost use Rattle.std.specs.Prelude.{List};
    ghost use Rattle.ppmacro.specs.declared.patterns.Entry.{Entry};
    ghost use Rattle.ppmacro.specs.Entries.{entries_at};

    ghost Value = { List Entry };

    ghost view = { λ l. entries_at l.uses.now l.body.now };
}

/// Returns the parameter that the token at an index names. A token past the end of `uses` names none.
fn use_at(uses: &[Option<usize>], index: usize) -> Option<usize>
    ensures { result ≡ unwrap_or (slice_get uses.now index) None }
{
    match uses.get(index) {
        Some(used) => *used,
        None => None,
    }
}

impl<'p, 'a> PlainList<'p, 'a> {
    /// Bundles the tokens of a replacement list with the parameter that each names. A token past the end of `uses` names none.
    pub(crate) fn new(uses: &'p [Option<usize>], body: &'a [Token]) -> PlainList<'p, 'a>
        ensures { result ≡ entries_at uses.now body.now }
    {
        PlainList { uses, body }
    }

    /// Returns the number of entries.
    pub(crate) fn len(&self) -> usize
        ensures { result ≡ length self.now }
    {
        self.body.len()
    }

    /// Returns the entry at an index.
    pub(crate) fn at(&self, index: usize) -> Entry<'a>
        requires { index < length self.now }
        ensures { (default : spec.Entry) → result ≡ slice_index_or self.now index default }
    {
        let (uses, body) = (self.uses, self.body);
        let token = &body[index];
        match use_at(uses, index) {
            Some(parameter) => Entry::Param(token.space, parameter),
            None => Entry::Tok(BodyToken::new(token)),
        }
    }
}

/// Another replacement list: the chains that its definition keeps, and its tokens. Contracts see the chains.
#[derive(Drop)]
pub struct PastedList<'p, 'a> {
    chains: &'p [KeptChain],
    body: &'a [Token],
}

impl<'p, 'a> Model for PastedList<'p, 'a> {
    ghost use Rattle.std.specs.Prelude.{List};
    ghost use Rattle.ppmacro.specs.declared.macros.Chain.{Chain};
    ghost use Rattle.ppmacro.specs.code.KeptChains.{chains_at};

    ghost Value = { List Chain };

    ghost view = { λ l. chains_at l.body.now l.chains.now };
}

impl<'p, 'a> PastedList<'p, 'a> {
    /// Bundles the chains of a replacement list with its tokens.
    pub(crate) fn new(chains: &'p [KeptChain], body: &'a [Token]) -> PastedList<'p, 'a>
        ensures { result ≡ chains_at body.now chains.now }
    {
        PastedList { chains, body }
    }

    /// Returns the number of chains.
    pub fn len(&self) -> usize
        ensures { result ≡ length self.now }
    {
        self.chains.len()
    }

    /// Returns the chain at an index.
    pub fn at(&self, index: usize) -> Chain<'p, 'a>
        requires { index < length self.now }
        ensures { (default : pasted.Chain) → result ≡ get_or self.now index default }
    {
        let (chains, body) = (self.chains, self.body);
        let chain = &chains[index];
        Chain {
            space: chain.space,
            operands: Operands::new(chain.operands.as_slice(), body),
        }
    }
}

/// A replacement list.
#[derive(Drop)]
pub enum Pattern<'p, 'a> {
    /// A list without `#` and `##`.
    Plain(PlainList<'p, 'a>),
    /// Another list without `__VA_OPT__`.
    Pasted(PastedList<'p, 'a>),
    /// A list with `__VA_OPT__`.
    VaOpt(VaOptList<'p, 'a>),
}

/// Returns whether a token is `#` or `##`.
fn is_operator(token: &Token) -> bool
    ensures { result ≡ is_operator token.now }
{
    // Few tokens have a spelling of this length; the others aren't compared with each of the four operators.
    let Kind::Punct = token.kind else {
        return false;
    };
    match token.text.as_bytes() {
        [first] => *first == b'#',
        [_, _] | [_, _, _, _] => is_paste(token) || is_hash(token),
        _ => false,
    }
}

/// Returns whether the tokens contain `#` or `##`.
pub(crate) fn has_operator(tokens: &[Token]) -> bool
    ensures { result ≡ list_any is_operator tokens.now }
{
    tokens.iter().any(|token| is_operator(token))
}
