//! The chains of a replacement list with `__VA_OPT__` (C23, 6.10.5.2).
//!
//! They are found when the definition is read: those for an invocation whose variable argument has no tokens, those for another one, and the
//! chains of the contents, whose tokens are arguments of the latter.

ghost use Rattle.std.specs.Prelude.{◌≡◌, ◌+◌, ◌-◌, ◌<◌, ◌≤◌, ◌++◌, ◌∷◌, ◌^◌, ℕ, suc, IfOk, OnOk, Some, None, [], List, Option, length, map, replicate, get_or};
ghost use Rattle.std.specs.List.{fold};
ghost use Rattle.pptext.specs.declared.tokens.Token.{Token};
ghost use Rattle.ppmacro.specs.Chains as specification;
ghost use Rattle.ppmacro.specs.Chains.{parts_after, chains_of, parameter_names};
ghost use Rattle.ppmacro.specs.VaOptChains.{with_va_opt, operand_parameter, is_va_opt_part, content_operand, content_parts, with_first_space, argument_chains, parts_for, parts_with, arguments_with, chains_from, va_opt_chains};
ghost use Rattle.ppmacro.specs.PreExpansion.{lone_parameters, own_use, uses_of_operand, uses_of_chain, after_own, va_opt_uses, with_use};
ghost use Rattle.ppmacro.specs.Substitution.{argument_at};
ghost use Rattle.ppmacro.specs.declared.macros.Operand.TheVariants as spec;
ghost use Rattle.ppmacro.specs.code.KeptOperands.{operand_at, operands_at};
ghost use Rattle.ppmacro.specs.code.KeptChains.{chain_at, chains_at, part_at};
ghost use Rattle.ppmacro.specs.code.VaOptLists.{tokens_at, separated_at, arguments_at, form_va_opt_chains};
ghost use Rattle.ppmacro.specs.code.PreparedDefinitions.{uses_of};

use crate::chains::{
    ChainPart, Parameters, end_in_variadic, group_parts, parameter_names, parts_of,
};
use crate::kept_chains::{KeptChain, KeptOperand, operand_at};
use crate::macros::{MacroKind, Names, Operand};
use crate::patterns::PastedList;
use crate::pre_expansion::{UsedParameters, lone_parameter};
use crate::va_opt::SeparatedList;
use pptext::{Hashing, Memory, Place, Spelling, Token};
use std::alloc::Global;
use std::marker::Model;
use std::mem;

/// The chains of a replacement list with `__VA_OPT__`.
#[derive(Drop)]
pub struct VaOptForm {
    /// The number of parameters. `__VA_OPT__` is the parameter with this index, and the contents are those after it.
    parameters: usize,
    /// The chains if the variable argument has no tokens.
    if_empty: Vec<KeptChain>,
    /// The chains if it has tokens.
    if_filled: Vec<KeptChain>,
    /// The chains whose tokens are then the arguments of the parameters after `__VA_OPT__`.
    contents: Vec<Vec<KeptChain>>,
}

/// Returns the kind with the parameter `__VA_OPT__` after the others.
pub(crate) fn with_va_opt(alloc: Global, kind: &MacroKind) -> Result<MacroKind, Memory>
    ensures { IfOk result (λ k. k ≡ with_va_opt kind.now) }
{
    let MacroKind::FunctionLike {
        parameters,
        variadic,
    } = kind
    else {
        return kind.duplicate();
    };
    let mut names = parameters.clone()?.into_vec();
    names.push(Spelling::from_slice(alloc, b"__VA_OPT__")?)?;
    Ok(MacroKind::FunctionLike {
        parameters: Names::new(names),
        variadic: *variadic,
    })
}

/// Returns the operand for a chain of one operand of a content: this parameter, or the token if the operand is one.
fn token_or(body: &[Token], parameter: usize, operand: &KeptOperand) -> KeptOperand
    ensures { operand_at body.now result ≡ content_operand parameter (operand_at body.now operand.now ∷ []) }
{
    let KeptOperand::Tok(index) = operand else {
        return KeptOperand::Param(parameter);
    };
    match body.get(*index) {
        Some(_) => KeptOperand::Tok(*index),
        None => KeptOperand::Param(parameter),
    }
}

/// Returns the operand for a chain of a content: this parameter, or the token if the chain is one token.
fn content_operand(body: &[Token], parameter: usize, operands: &[KeptOperand]) -> KeptOperand
    ensures { operand_at body.now result ≡ content_operand parameter (operands_at body.now operands.now) }
{
    let [operand] = operands else {
        return KeptOperand::Param(parameter);
    };
    token_or(body, parameter, operand)
}

/// The parts of a replacement list with the contents in the places of the `__VA_OPT__`, and the chains whose tokens are arguments.
#[derive(Drop)]
struct Filled {
    /// The number of parameters with `__VA_OPT__`.
    parameters: usize,
    parts: Vec<ChainPart>,
    arguments: Vec<Vec<KeptChain>>,
}

impl Filled {
    /// Appends a chain of a content, which has this leading-space flag.
    fn put_chain(&mut self, body: &[Token], space: bool, chain: KeptChain) -> Result<(), Memory>
        requires { self.old.parameters ≤ 2 ^ 63 }
        ensures parts { OnOk result (map (part_at body.now) self.new.parts.items ≡ map (part_at body.now) self.old.parts.items
            ++ specification.OperandPart space (content_operand (self.old.parameters + length self.old.arguments.items) (operands_at body.now chain.operands.items)) ∷ []) }
        ensures arguments { OnOk result (arguments_at body.now self.new.arguments.items ≡ arguments_at body.now self.old.arguments.items ++ (chain_at body.now chain ∷ []) ∷ []) }
        ensures parameters { self.new.parameters ≡ self.old.parameters }
    {
        let parameter = self.parameters + self.arguments.len();
        let operand = content_operand(body, parameter, chain.operands.as_slice());
        self.parts.push(ChainPart::OperandPart(space, operand))?;
        let argument = Vec::from_array(*self.arguments.allocator(), [chain])?;
        self.arguments.push(argument)?;
        Ok(())
    }

    /// Appends the chains of a content. `space` is the leading-space flag of the `__VA_OPT__`, which the first of them gets.
    fn put_chains(
        &mut self,
        body: &[Token],
        space: bool,
        content: Vec<KeptChain>,
    ) -> Result<(), Memory>
        requires { self.old.parameters ≤ 2 ^ 63 }
        ensures parts { OnOk result (map (part_at body.now) self.new.parts.items ≡ map (part_at body.now) self.old.parts.items
            ++ content_parts (self.old.parameters + length self.old.arguments.items) (with_first_space space (chains_at body.now content.items))) }
        ensures arguments { OnOk result (arguments_at body.now self.new.arguments.items
            ≡ arguments_at body.now self.old.arguments.items ++ map (λ c. c ∷ []) (chains_at body.now content.items)) }
        ensures parameters { self.new.parameters ≡ self.old.parameters }
    {
        let mut first = true;
        for chain in content {
            let leading = if first { space } else { chain.space };
            self.put_chain(body, leading, chain)?;
            first = false;
        }
        Ok(())
    }

    /// Appends a `#` with `__VA_OPT__`.
    fn put_literal(&mut self, space: bool, at: Place, content: Vec<KeptChain>) -> Result<(), Memory>
        requires { self.old.parameters ≤ 2 ^ 63 }
        ensures parts { OnOk result ((body : List Token) → map (part_at body) self.new.parts.items ≡ map (part_at body) self.old.parts.items
            ++ specification.OperandPart space (spec.Str (self.old.parameters + length self.old.arguments.items) at) ∷ []) }
        ensures arguments { OnOk result ((body : List Token) → arguments_at body self.new.arguments.items ≡ arguments_at body self.old.arguments.items ++ chains_at body content.items ∷ []) }
        ensures parameters { self.new.parameters ≡ self.old.parameters }
    {
        let parameter = self.parameters + self.arguments.len();
        let operand = KeptOperand::Str(parameter, at);
        self.parts.push(ChainPart::OperandPart(space, operand))?;
        self.arguments.push(content)?;
        Ok(())
    }

    /// Appends what replaces a `__VA_OPT__` with this content.
    fn put_content(
        &mut self,
        body: &[Token],
        part: ChainPart,
        content: Vec<KeptChain>,
    ) -> Result<(), Memory>
        requires { self.old.parameters ≤ 2 ^ 63 }
        ensures parts { OnOk result (map (part_at body.now) self.new.parts.items ≡ map (part_at body.now) self.old.parts.items
            ++ parts_for (part_at body.now part) (self.old.parameters + length self.old.arguments.items) (chains_at body.now content.items)) }
        ensures arguments { OnOk result (arguments_at body.now self.new.arguments.items
            ≡ arguments_at body.now self.old.arguments.items ++ argument_chains (part_at body.now part) (chains_at body.now content.items)) }
        ensures parameters { self.new.parameters ≡ self.old.parameters }
    {
        let ChainPart::OperandPart(space, operand) = part else {
            self.parts.push(ChainPart::PastePart)?;
            return Ok(());
        };
        if let KeptOperand::Str(_, at) = operand {
            return self.put_literal(space, at, content);
        }
        if content.is_empty() {
            self.parts.push(ChainPart::OperandPart(space, operand))?;
            return Ok(());
        }
        self.put_chains(body, space, content)
    }
}

/// Returns the parameter of an operand, with or without `#` before it.
fn operand_parameter(body: &[Token], operand: &KeptOperand) -> Option<usize>
    ensures { result ≡ operand_parameter (operand_at body.now operand.now) }
{
    match operand_at(body, operand) {
        Operand::Param(index) | Operand::Str(index, _) => Some(index),
        _ => None,
    }
}

/// Returns whether a part is `__VA_OPT__`, which is this parameter.
fn is_va_opt_part(body: &[Token], parameter: usize, part: &ChainPart) -> bool
    ensures { result ≡ is_va_opt_part parameter (part_at body.now part.now) }
{
    let ChainPart::OperandPart(_, operand) = part else {
        return false;
    };
    match operand_parameter(body, operand) {
        Some(index) => index == parameter,
        None => false,
    }
}

/// Returns the parts with these contents in the places of the `__VA_OPT__`, in their order. `count` is the number of parameters.
fn fill(
    alloc: Global,
    body: &[Token],
    count: usize,
    parts: Vec<ChainPart>,
    contents: Vec<Vec<KeptChain>>,
) -> Result<Filled, Memory>
    requires { count < 2 ^ 63 }
    ensures parts { IfOk result (λ f. map (part_at body.now) f.parts.items ≡ parts_with count (suc count) (map (part_at body.now) parts.items) (arguments_at body.now contents.items)) }
    ensures arguments { IfOk result (λ f. arguments_at body.now f.arguments.items ≡ arguments_with count (map (part_at body.now) parts.items) (arguments_at body.now contents.items)) }
{
    let mut filled = Filled {
        parameters: count + 1,
        parts: Vec::with_capacity(alloc, parts.len())?,
        arguments: Vec::new(alloc),
    };
    let mut contents = contents;
    let mut next = 0;
    for part in parts {
        if !is_va_opt_part(body, count, &part) {
            filled.parts.push(part)?;
            continue;
        }
        if next >= contents.len() {
            filled.parts.push(part)?;
            continue;
        }
        let content = mem::replace(&mut contents[next], Vec::new(alloc));
        next += 1;
        filled.put_content(body, part, content)?;
    }
    Ok(filled)
}

/// Returns the chains of each content. The parameters are indexed with `hashing`.
fn content_chains(
    alloc: Global,
    kind: &MacroKind,
    body: &[Token],
    contents: &[Vec<usize>],
    hashing: Hashing,
) -> Result<Vec<Vec<KeptChain>>, Memory>
    ensures { IfOk result (λ v. arguments_at body.now v.items ≡ map (λ ts. chains_of (record { kind = kind.now; body = ts })) (map (λ c. tokens_at body.now c.items) contents.now)) }
{
    let parameters = Parameters::new(alloc, kind, body.len(), hashing)?;
    let mut all = Vec::with_capacity(alloc, contents.len())?;
    for content in contents {
        let parts = parts_of(alloc, &parameters, hashing, body, content.as_slice())?;
        let mut chains = group_parts(alloc, parts)?;
        end_in_variadic(kind, body, chains.as_mut_slice());
        all.push(chains)?;
    }
    Ok(all)
}

/// Returns the parts of the tokens outside of contents, where `__VA_OPT__` is a parameter.
fn outside_parts(
    alloc: Global,
    kind: &MacroKind,
    body: &[Token],
    outside: &[usize],
    hashing: Hashing,
) -> Result<Vec<ChainPart>, Memory>
    ensures { IfOk result (λ v. map (part_at body.now) v.items ≡ parts_after kind.now None (tokens_at body.now outside.now)) }
{
    let parameters = Parameters::new(alloc, kind, body.len(), hashing)?;
    parts_of(alloc, &parameters, hashing, body, outside)
}

/// Returns the chains of these parts.
fn chains_from(
    alloc: Global,
    kind: &MacroKind,
    body: &[Token],
    parts: Vec<ChainPart>,
) -> Result<Vec<KeptChain>, Memory>
    ensures { IfOk result (λ v. chains_at body.now v.items ≡ chains_from (record { kind = kind.now; body = body.now }) (map (part_at body.now) parts.items)) }
{
    let mut chains = group_parts(alloc, parts)?;
    end_in_variadic(kind, body, chains.as_mut_slice());
    Ok(chains)
}

/// Returns the parameter, if it is one of the first `count`.
fn own_use(count: usize, used: Option<usize>) -> Option<usize>
    ensures { result ≡ own_use count used }
{
    match used {
        Some(index) if index < count => Some(index),
        _ => None,
    }
}

impl VaOptForm {
    /// Returns the chains of the replacement list of a macro of this kind.
    pub(crate) fn new(
        alloc: Global,
        kind: &MacroKind,
        body: &[Token],
        separated: &SeparatedList,
        hashing: Hashing,
    ) -> Result<VaOptForm, Memory>
        ensures chains { IfOk result (λ f. form_va_opt_chains body.now f ≡ va_opt_chains (record { kind = kind.now; body = body.now }) (separated_at body.now separated.now)) }
        ensures parameters { IfOk result (λ f. f.parameters ≡ length (parameter_names kind.now)) }
        ensures small { IfOk result (λ f. f.parameters < 2 ^ 63) }
    {
        let count = parameter_names(kind).len();
        let extended = with_va_opt(alloc, kind)?;
        let outside = separated.outside.as_slice();
        let parts = outside_parts(alloc, &extended, body, outside, hashing)?;
        let if_empty = chains_from(alloc, kind, body, parts)?;
        let parts = outside_parts(alloc, &extended, body, outside, hashing)?;
        let contents = content_chains(alloc, kind, body, separated.contents.as_slice(), hashing)?;
        let Filled {
            parameters: _,
            parts,
            arguments,
        } = fill(alloc, body, count, parts, contents)?;
        let if_filled = chains_from(alloc, kind, body, parts)?;
        Ok(VaOptForm {
            parameters: count,
            if_empty,
            if_filled,
            contents: arguments,
        })
    }

    /// Returns the index of the variable argument.
    fn variadic(&self) -> usize
        ensures { result ≡ self.now.parameters - 1 }
    {
        self.parameters.saturating_sub(1)
    }

    /// Returns the chains of the content that is the argument of a parameter. The macro's own parameters have none.
    fn content_of(&self, parameter: usize) -> &[KeptChain]
        requires { self.now.parameters + 1 < 2 ^ 64 }
        ensures { (body : List Token) → chains_at body result.now ≡ argument_at (after_own self.now.parameters (arguments_at body self.now.contents.items)) parameter }
    {
        let Some(index) = parameter.checked_sub(self.parameters + 1) else {
            return &[];
        };
        match self.contents.get(index) {
            Some(content) => content.as_slice(),
            None => &[],
        }
    }

    /// Appends what each of these chains uses.
    fn push_content_uses(
        &self,
        body: &[Token],
        content: &[KeptChain],
        uses: &mut Vec<Option<usize>>,
    ) -> Result<(), Memory>
        ensures { OnOk result (uses.new.items ≡ uses.old.items ++ map (own_use self.now.parameters) (lone_parameters (chains_at body.now content.now))) }
    {
        for chain in content {
            let used = lone_parameter(body, chain.operands.as_slice());
            uses.push(own_use(self.parameters, used))?;
        }
        Ok(())
    }

    /// Appends what the contents use that an operand stands for.
    fn push_operand_uses(
        &self,
        body: &[Token],
        operand: &KeptOperand,
        uses: &mut Vec<Option<usize>>,
    ) -> Result<(), Memory>
        requires { self.now.parameters + 1 < 2 ^ 64 }
        ensures { OnOk result (uses.new.items ≡ uses.old.items
            ++ map (own_use self.now.parameters) (uses_of_operand (after_own self.now.parameters (arguments_at body.now self.now.contents.items)) (operand_at body.now operand.now))) }
    {
        let Some(parameter) = operand_parameter(body, operand) else {
            return Ok(());
        };
        self.push_content_uses(body, self.content_of(parameter), uses)
    }

    /// Appends what a chain uses, and its contents.
    fn push_chain_uses(
        &self,
        body: &[Token],
        chain: &KeptChain,
        uses: &mut Vec<Option<usize>>,
    ) -> Result<(), Memory>
        requires { self.now.parameters + 1 < 2 ^ 64 }
        ensures { OnOk result (uses.new.items ≡ uses.old.items
            ++ map (own_use self.now.parameters) (uses_of_chain (after_own self.now.parameters (arguments_at body.now self.now.contents.items)) (chain_at body.now chain.now))) }
    {
        let used = lone_parameter(body, chain.operands.as_slice());
        uses.push(own_use(self.parameters, used))?;
        for operand in &chain.operands {
            self.push_operand_uses(body, operand, uses)?;
        }
        Ok(())
    }

    /// Returns the uses of parameters without `#` and `##`, from the left of the replacement list. The last is that of the variable argument,
    /// because its expansion decides about `__VA_OPT__`.
    fn uses(&self, alloc: Global, body: &[Token]) -> Result<Vec<Option<usize>>, Memory>
        requires { self.now.parameters + 1 < 2 ^ 64 }
        ensures { IfOk result (λ v. v.items ≡ va_opt_uses self.now.parameters (form_va_opt_chains body.now self.now)) }
    {
        let mut uses = Vec::new(alloc);
        for chain in &self.if_filled {
            self.push_chain_uses(body, chain, &mut uses)?;
        }
        uses.push(own_use(self.parameters, Some(self.variadic())))?;
        Ok(uses)
    }

    /// Returns the parameters whose arguments are expanded, in their order.
    pub(crate) fn used_parameters(
        &self,
        alloc: Global,
        body: &[Token],
    ) -> Result<UsedParameters, Memory>
        requires { self.now.parameters + 1 < 2 ^ 64 }
        ensures by_parameter { IfOk result (λ u. u.by_parameter.items ≡ fold with_use [] (va_opt_uses self.now.parameters (form_va_opt_chains body.now self.now))) }
        ensures by_use { IfOk result (λ u. uses_of u ≡ fold with_use [] (va_opt_uses self.now.parameters (form_va_opt_chains body.now self.now))) }
    {
        let uses = self.uses(alloc, body)?;
        UsedParameters::in_order(alloc, self.parameters, uses.as_slice())
    }
}

/// A replacement list with `__VA_OPT__`: the chains that its definition keeps, and its tokens. Contracts see the chains.
#[derive(Drop)]
pub struct VaOptList<'p, 'a> {
    form: &'p VaOptForm,
    body: &'a [Token],
}

impl<'p, 'a> Model for VaOptList<'p, 'a> {
    ghost use Rattle.ppmacro.specs.VaOptChains.{VaOptChains};
    ghost use Rattle.ppmacro.specs.code.VaOptLists.{form_va_opt_chains};

    ghost Value = { VaOptChains };

    ghost view = { λ l. form_va_opt_chains l.body.now l.form.now };
}

impl<'p, 'a> VaOptList<'p, 'a> {
    /// Bundles the chains of a replacement list with its tokens.
    pub(crate) fn new(form: &'p VaOptForm, body: &'a [Token]) -> VaOptList<'p, 'a>
        ensures { result ≡ form_va_opt_chains body.now form.now }
    {
        VaOptList { form, body }
    }

    /// Returns the index of the variable argument.
    pub(crate) fn variadic(&self) -> usize
        ensures { result ≡ self.now.variadic }
    {
        self.form.variadic()
    }

    /// Returns the chains if the variable argument has no tokens.
    pub(crate) fn if_empty(&self) -> PastedList<'p, 'a>
        ensures { result ≡ self.now.if_empty }
    {
        PastedList::new(self.form.if_empty.as_slice(), self.body)
    }

    /// Returns the chains if the variable argument has tokens.
    pub(crate) fn if_filled(&self) -> PastedList<'p, 'a>
        ensures { result ≡ self.now.if_filled }
    {
        PastedList::new(self.form.if_filled.as_slice(), self.body)
    }

    /// Returns the number of contents that are arguments.
    pub(crate) fn content_count(&self) -> usize
        ensures { result ≡ length self.now.contents }
    {
        self.form.contents.len()
    }

    /// Returns the chains of a content that is an argument.
    pub(crate) fn content(&self, index: usize) -> PastedList<'p, 'a>
        requires { index < length self.now.contents }
        ensures { result ≡ get_or self.now.contents index [] }
    {
        let (form, body) = (self.form, self.body);
        let content = &form.contents[index];
        PastedList::new(content.as_slice(), body)
    }
}
