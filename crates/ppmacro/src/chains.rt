//! The chains of a replacement list: sequences of operands that `##` joins (6.10.3.2, 6.10.3.3).
//!
//! A list is read once, when its definition is read, from left to right, as parts: an operand, which is a token, a parameter, or `#`
//! with a parameter; or `##`. An operand after `##` goes to the last chain, and another begins a chain. In GNU C the last operand of a chain may then become
//! a variable argument after a comma.
//!
//! A macro may have many parameters, and a list may use them often. If there are many of both, the names are indexed. The index
//! lives only while a list is read, and hashes with the key that the caller gives.
ghost use Rattle.std.specs.Prelude.{◌≡◌, IfOk, OnOk, Some, None, List, [], ◌∷◌, ◌++◌, map, false, position, slice_get};
ghost use Rattle.std.specs.Str.{bytes_eq};
ghost use Rattle.std.specs.Option.{option_map};
ghost use Rattle.ppmacro.specs.Chains as specification;
ghost use Rattle.ppmacro.specs.Chains.{parameter_names, parameter_named, parameter_of, is_function_like, is_operator_hash, plain_part, stringized_part, parts_after, group_parts, lenient_parameter, ending_in_variadic, with_variadic, chains_of};
ghost use Rattle.ppmacro.specs.code.ChainParts.{with_first_part, append_parts};
ghost use Rattle.ppmacro.specs.code.KeptOperands.{operand_at, operands_at};
ghost use Rattle.ppmacro.specs.code.KeptChains.{chains_at, part_at};
ghost use Rattle.ppmacro.specs.code.VaOptLists.{tokens_at};
ghost use Rattle.pptext.specs.declared.tokens.Token.{Token};

use crate::hash_operators::{is_hash, is_paste};
use crate::kept_chains::{KeptChain, KeptOperand, operand_at};
use crate::macros::{MacroKind, Variadic, is_variadic};
use crate::name_key::NameKey;
use crate::parameter_index::{MAX_SCANNED, index_names};
use indexmap::IndexSet;
use pptext::{Hashing, Memory, Place, Spelling, Token};
use std::alloc::Global;
use std::marker::Model;

/// The leading-space flag and the location of a `#` operator.
#[derive(Clone, Copy)]
pub(crate) struct HashSign {
    space: bool,
    at: Place,
}

impl Model for HashSign {
    ghost use Rattle.ppmacro.specs.Chains.{HashSign};

    ghost Value = { HashSign };

    ghost view = { λ h. record { space = h.space; at = h.at } };

    ghost inverse = { λ h. record { space = h.space; at = h.at } };
}

/// A part of a replacement list: an operand with the leading-space flag of its first token, or `##`.
#[derive(Drop)]
pub(crate) enum ChainPart {
    OperandPart(bool, KeptOperand),
    PastePart,
}

/// The kind of a macro, with an index of its parameters if there are many. Contracts see the kind, and how the index hashes names.
#[derive(Drop)]
pub(crate) struct Parameters<'p> {
    kind: &'p MacroKind,
    hashing: Hashing,
    index: Option<IndexSet<NameKey<'p>, Hashing>>,
}

impl<'p> Model for Parameters<'p> {
    ghost use Rattle.std.specs.Prelude.{◌≡◌};
    ghost use Rattle.std.specs.Option.{IfSome};
    ghost use Rattle.std.specs.HashSet.{hasher_of};
    ghost use Rattle.ppmacro.specs.Chains.{parameter_names};
    ghost use Rattle.ppmacro.specs.code.Hashed.{HashedParameters};

    ghost Value = { HashedParameters };

    ghost view = { λ p. record { kind = p.kind.now; hashing = p.hashing } };

    ghost invariant = { λ p. IfSome p.index (λ s. (s.keys ≡ parameter_names p.kind.now) × (hasher_of s ≡ p.hashing)) };
}

/// Returns the names of the parameters. The name of the variable argument is the last.
pub(crate) fn parameter_names(kind: &MacroKind) -> &[Spelling]
    ensures { result.now ≡ parameter_names kind.now }
{
    match kind {
        MacroKind::FunctionLike { parameters, .. } => parameters.as_slice(),
        _ => &[],
    }
}

impl<'p> Parameters<'p> {
    /// Creates the parameters of a macro of kind `kind`. `token_count` is the number of tokens that are going to be looked up. The
    /// names are indexed, with hash function `hashing`, only if there are many names and many tokens.
    pub(crate) fn new(
        alloc: Global,
        kind: &'p MacroKind,
        token_count: usize,
        hashing: Hashing,
    ) -> Result<Parameters<'p>, Memory>
        ensures kind { IfOk result (λ p. p.kind ≡ kind.now) }
        ensures hashing { IfOk result (λ p. p.hashing ≡ hashing) }
    {
        let names = parameter_names(kind);
        if names.len() <= MAX_SCANNED || token_count <= MAX_SCANNED {
            return Ok(Parameters {
                kind,
                hashing,
                index: None,
            });
        }
        let index = index_names(alloc, names, hashing)?;
        Ok(Parameters {
            kind,
            hashing,
            index,
        })
    }

    /// Returns the index of the parameter with this name.
    fn index_of(&self, name: &[u8]) -> Option<usize>
        ensures { result ≡ position (λ n. bytes_eq n name.now) (parameter_names self.now.kind) }
    {
        match &self.index {
            Some(index) => index.get_index_of(&NameKey { bytes: name }),
            None => parameter_names(self.kind)
                .iter()
                .position(|n| n.as_bytes() == name),
        }
    }
}

/// Returns the index of the parameter with this name. Only identifiers need the call.
#[inline(never)]
fn parameter_named(kind: &Parameters, name: &[u8]) -> Option<usize>
    ensures { result ≡ parameter_named kind.now.kind name.now }
{
    kind.index_of(name)
}

/// Returns the index of the parameter that a token names.
#[inline(always)]
pub(crate) fn parameter_of(kind: &Parameters, token: &Token) -> Option<usize>
    ensures { result ≡ parameter_of kind.now.kind token.now }
{
    if token.is_identifier() {
        parameter_named(kind, token.text.as_bytes())
    } else {
        None
    }
}

/// Returns whether a macro is function-like.
pub(crate) fn is_function_like(kind: &MacroKind) -> bool
    ensures { result ≡ is_function_like kind.now }
{
    matches!(kind, MacroKind::FunctionLike { .. })
}

/// Returns whether a token is the operator `#`. In an object-like macro `#` is no operator.
pub(crate) fn is_operator_hash(kind: &Parameters, token: &Token) -> bool
    ensures { result ≡ is_operator_hash kind.now.kind token.now }
{
    is_function_like(kind.kind) && is_hash(token)
}

/// Returns a token as an operand, with its leading-space flag. `index` is that of the token in the replacement list.
fn plain_operand(kind: &Parameters, index: usize, token: &Token) -> (bool, KeptOperand)
    ensures { (body : List Token) → slice_get body index ≡ Some token.now
        → specification.OperandPart result.0 (operand_at body result.1) ≡ plain_part (parameter_of kind.now.kind token.now) token.now }
{
    let Some(parameter) = parameter_of(kind, token) else {
        return (token.space, KeptOperand::Tok(index));
    };
    (token.space, KeptOperand::Param(parameter))
}

/// Returns the token after a `#` as an operand, with the leading-space flag of the `#`. `index` is that of the token in the
/// replacement list.
fn stringized_operand(
    kind: &Parameters,
    hash: HashSign,
    index: usize,
    token: &Token,
) -> (bool, KeptOperand)
    ensures { (body : List Token) → slice_get body index ≡ Some token.now
        → specification.OperandPart result.0 (operand_at body result.1) ≡ stringized_part (parameter_of kind.now.kind token.now) hash token.now }
{
    let Some(parameter) = parameter_of(kind, token) else {
        return (token.space, KeptOperand::Tok(index));
    };
    (hash.space, KeptOperand::Str(parameter, hash.at))
}

/// Returns the next part. There is none at a `#`: it belongs to the token after it. `index` is that of the token in the
/// replacement list.
fn next_part(
    kind: &Parameters,
    hash: Option<HashSign>,
    index: usize,
    token: &Token,
) -> Option<ChainPart>
    ensures { (body ts : List Token) → slice_get body index ≡ Some token.now
        → parts_after kind.now.kind hash (token.now ∷ ts) ≡ with_first_part kind.now.kind token.now (option_map (part_at body) result) ts }
{
    if let Some(sign) = hash {
        let (space, operand) = stringized_operand(kind, sign, index, token);
        return Some(ChainPart::OperandPart(space, operand));
    }
    if is_paste(token) {
        return Some(ChainPart::PastePart);
    }
    if is_operator_hash(kind, token) {
        return None;
    }
    let (space, operand) = plain_operand(kind, index, token);
    Some(ChainPart::OperandPart(space, operand))
}

/// Appends a chain of one operand.
fn begin_chain(chains: &mut Vec<KeptChain>, space: bool, operand: KeptOperand) -> Result<(), Memory>
    ensures { OnOk result ((body : List Token) → chains_at body chains.new.items ≡ chains_at body chains.old.items ++ record { space = space; operands = operand_at body operand ∷ [] } ∷ []) }
{
    let operands = Vec::from_array(*chains.allocator(), [operand])?;
    chains.push(KeptChain { space, operands })?;
    Ok(())
}

/// Appends an operand to the last chain if `joined`, and otherwise as a new chain.
fn put(
    chains: &mut Vec<KeptChain>,
    joined: bool,
    space: bool,
    operand: KeptOperand,
) -> Result<(), Memory>
    ensures { OnOk result ((body : List Token) (ps : List specification.ChainPart) →
        append_parts false (chains_at body chains.new.items) ps ≡ append_parts joined (chains_at body chains.old.items) (specification.OperandPart space (operand_at body operand) ∷ ps)) }
{
    if !joined {
        return begin_chain(chains, space, operand);
    }
    let Some(last) = chains.len().checked_sub(1) else {
        return begin_chain(chains, space, operand);
    };
    let chain = &mut chains[last];
    chain.operands.push(operand)?;
    Ok(())
}

/// Appends a part to the chains. Returns whether the part is `##`, so that the next operand is joined.
fn put_part(chains: &mut Vec<KeptChain>, joined: bool, item: ChainPart) -> Result<bool, Memory>
    ensures { IfOk result (λ j. (body : List Token) (ps : List specification.ChainPart) →
        append_parts j (chains_at body chains.new.items) ps ≡ append_parts joined (chains_at body chains.old.items) (part_at body item ∷ ps)) }
{
    let ChainPart::OperandPart(space, operand) = item else {
        return Ok(true);
    };
    put(chains, joined, space, operand)?;
    Ok(false)
}

/// Returns the chains of a replacement list, before `end_in_variadic`. The parameters are indexed with `_hashing`, which only the
/// contract reads.
fn chains_in(
    alloc: Global,
    kind: &Parameters,
    _hashing: Hashing,
    body: &[Token],
) -> Result<Vec<KeptChain>, Memory>
    requires { kind.now.hashing ≡ _hashing }
    ensures { IfOk result (λ v. chains_at body.now v.items ≡ group_parts (parts_after kind.now.kind None body.now)) }
{
    let mut chains = Vec::with_capacity(alloc, body.len())?;
    let mut joined = false;
    let mut hash = None;
    for index in 0..body.len() {
        let token = &body[index];
        let Some(item) = next_part(kind, hash, index, token) else {
            hash = Some(HashSign {
                space: token.space,
                at: token.at,
            });
            continue;
        };
        hash = None;
        joined = put_part(&mut chains, joined, item)?;
    }
    Ok(chains)
}

/// Returns the parts of the tokens with these indices in a replacement list. The parameters are indexed with `_hashing`, which only the contract
/// reads.
pub(crate) fn parts_of(
    alloc: Global,
    kind: &Parameters,
    _hashing: Hashing,
    body: &[Token],
    indices: &[usize],
) -> Result<Vec<ChainPart>, Memory>
    requires { kind.now.hashing ≡ _hashing }
    ensures { IfOk result (λ v. map (part_at body.now) v.items ≡ parts_after kind.now.kind None (tokens_at body.now indices.now)) }
{
    let mut parts = Vec::with_capacity(alloc, indices.len())?;
    let mut hash = None;
    for &index in indices {
        let Some(token) = body.get(index) else {
            continue;
        };
        let Some(part) = next_part(kind, hash, index, token) else {
            hash = Some(HashSign {
                space: token.space,
                at: token.at,
            });
            continue;
        };
        hash = None;
        parts.push(part)?;
    }
    Ok(parts)
}

/// Returns the chains of these parts, before `end_in_variadic`.
pub(crate) fn group_parts(alloc: Global, parts: Vec<ChainPart>) -> Result<Vec<KeptChain>, Memory>
    ensures { IfOk result (λ v. (body : List Token) → chains_at body v.items ≡ group_parts (map (part_at body) parts.items)) }
{
    let mut chains = Vec::with_capacity(alloc, parts.len())?;
    let mut joined = false;
    for part in parts {
        joined = put_part(&mut chains, joined, part)?;
    }
    Ok(chains)
}

/// Returns the index of the parameter whose argument may be absent.
fn lenient_parameter(kind: &MacroKind) -> Option<usize>
    ensures { result ≡ lenient_parameter kind.now }
{
    match kind {
        MacroKind::FunctionLike {
            parameters,
            variadic: Variadic::Lenient,
        } => Some(parameters.as_slice().len().saturating_sub(1)),
        _ => None,
    }
}

/// Turns the last operand of a chain into `VariadicAfterComma`, if it is the parameter with this index and follows a comma.
fn end_chain_in_variadic(body: &[Token], operands: &mut Vec<KeptOperand>, index: usize)
    ensures { operands_at body.now operands.new.items ≡ ending_in_variadic index (operands_at body.now operands.old.items) }
{
    let count = operands.len();
    if count < 2 {
        return;
    }
    let before = operand_at(body, &operands[count - 2]);
    let last = operand_at(body, &operands[count - 1]);
    if is_variadic(&before, &last, index) {
        operands[count - 1] = KeptOperand::VariadicAfterComma(index);
    }
}

/// Turns the last operand of each chain into `VariadicAfterComma`, if it is the parameter that may be absent and follows a comma.
pub(crate) fn end_in_variadic(kind: &MacroKind, body: &[Token], chains: &mut [KeptChain])
    ensures { chains_at body.now chains.new ≡ map (with_variadic (lenient_parameter kind.now)) (chains_at body.now chains.old) }
{
    let Some(index) = lenient_parameter(kind) else {
        return;
    };
    for chain in chains.iter_mut() {
        end_chain_in_variadic(body, &mut chain.operands, index);
    }
}

/// Returns the chains of a replacement list of a macro of this kind. Many parameters are indexed with hash function `hashing`.
pub(crate) fn chains_of(
    alloc: Global,
    kind: &MacroKind,
    body: &[Token],
    hashing: Hashing,
) -> Result<Vec<KeptChain>, Memory>
    ensures { IfOk result (λ v. chains_at body.now v.items ≡ chains_of (record { kind = kind.now; body = body.now })) }
{
    let parameters = Parameters::new(alloc, kind, body.len(), hashing)?;
    let mut chains = chains_in(alloc, &parameters, hashing, body)?;
    end_in_variadic(kind, body, chains.as_mut_slice());
    Ok(chains)
}
