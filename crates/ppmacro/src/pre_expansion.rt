//! Finds the parameters whose arguments are expanded: those that a replacement list uses without `#` and `##` (6.10.3.1).
ghost use Rattle.std.specs.Prelude.{◌≡◌, ◌<◌, ◌||◌, ℕ, [], None, false, IfOk, IfSome, OnOk, get_or, length, map};
ghost use Rattle.std.specs.List.{filter, fold, list_any, range_with_len};
ghost use Rattle.ppmacro.specs.PreExpansion.{lone_parameter, with_use};
ghost use Rattle.ppmacro.specs.code.KeptOperands.{operands_at};
ghost use Rattle.ppmacro.specs.code.KeptChains.{lone_parameter_at};
ghost use Rattle.ppmacro.specs.code.PreparedDefinitions.{is_use, order_of_uses, uses_of, AreMarked};

use crate::kept_chains::{KeptChain, KeptOperand, operand_at};
use crate::macros::Operand;
use pptext::{Memory, Token};
use std::alloc::Global;

/// The parameters that a replacement list uses without `#` and `##`, in two orders.
#[derive(Drop)]
pub struct UsedParameters {
    /// In their own order.
    pub(crate) by_parameter: Vec<usize>,
    /// In the order of their first uses, if that isn't their own order.
    pub(crate) by_use: Option<Vec<usize>>,
}

/// Returns the parameter that a chain consists of, if it consists of one alone.
pub(crate) fn lone_parameter(body: &[Token], operands: &[KeptOperand]) -> Option<usize>
    ensures { result ≡ lone_parameter (operands_at body.now operands.now) }
{
    let [operand] = operands else {
        return None;
    };
    match operand_at(body, operand) {
        Operand::Param(index) => Some(index),
        _ => None,
    }
}

/// Returns, for each chain, the parameter that it consists of, if it consists of one alone.
pub(crate) fn lone_parameters(
    alloc: Global,
    body: &[Token],
    chains: &[KeptChain],
) -> Result<Vec<Option<usize>>, Memory>
    ensures { IfOk result (λ v. v.items ≡ map (lone_parameter_at body.now) chains.now) }
{
    let mut uses = Vec::with_capacity(alloc, chains.len())?;
    for chain in chains {
        uses.push(lone_parameter(body, chain.operands.as_slice()))?;
    }
    Ok(uses)
}

/// Appends a parameter to those that were used before, unless it is one of them. These are marked.
fn push_use(
    marks: &mut Vec<bool>,
    by_use: &mut Vec<usize>,
    used: Option<usize>,
) -> Result<(), Memory>
    requires within { IfSome used (λ i. i < length marks.old.items) }
    requires marked { AreMarked marks.old.items by_use.old.items }
    ensures len { length marks.new.items ≡ length marks.old.items }
    ensures marked { OnOk result (AreMarked marks.new.items by_use.new.items) }
    ensures by_use { OnOk result (by_use.new.items ≡ with_use by_use.old.items used) }
{
    let Some(index) = used else {
        return Ok(());
    };
    if marks[index] {
        return Ok(());
    }
    marks[index] = true;
    by_use.push(index)?;
    Ok(())
}

/// Appends the parameters that are used, each once, in the order of their first uses, and marks them.
fn push_uses(
    marks: &mut Vec<bool>,
    by_use: &mut Vec<usize>,
    uses: &[Option<usize>],
) -> Result<(), Memory>
    requires within { (k : ℕ) → k < length uses.now → IfSome (get_or uses.now k None) (λ i. i < length marks.old.items) }
    requires none { by_use.old.items ≡ [] }
    requires marked { AreMarked marks.old.items by_use.old.items }
    ensures len { length marks.new.items ≡ length marks.old.items }
    ensures marked { OnOk result (AreMarked marks.new.items by_use.new.items) }
    ensures by_use { OnOk result (by_use.new.items ≡ fold with_use [] uses.now) }
{
    for used in uses {
        push_use(marks, by_use, *used)?;
    }
    Ok(())
}

/// Returns the indexes of the marks, which are this many.
fn marked(alloc: Global, marks: &[bool], count: usize) -> Result<Vec<usize>, Memory>
    ensures { IfOk result (λ v. v.items ≡ filter (λ i. get_or marks.now i false) (range_with_len 0 (length marks.now))) }
{
    let mut indexes = Vec::with_capacity(alloc, count)?;
    for (index, mark) in marks.iter().enumerate() {
        if !*mark {
            continue;
        }
        indexes.push(index)?;
    }
    Ok(indexes)
}

/// Returns the parameters in the order of their first uses, if that isn't their own order.
fn unless_same(by_parameter: &[usize], by_use: Vec<usize>) -> Option<Vec<usize>>
    ensures { order_of_uses by_parameter.now result ≡ by_use.items }
{
    if by_use.as_slice() == by_parameter {
        return None;
    }
    Some(by_use)
}

impl UsedParameters {
    /// Returns no parameters.
    pub(crate) fn none(alloc: Global) -> UsedParameters
        ensures by_parameter { result.by_parameter.items ≡ [] }
        ensures by_use { uses_of result ≡ [] }
    {
        UsedParameters {
            by_parameter: Vec::new(alloc),
            by_use: None,
        }
    }

    /// Returns the parameters, of this number, that a replacement list uses without `#` and `##`. `uses` has, for each chain, the
    /// parameter that it consists of, if it consists of one alone.
    pub(crate) fn new(
        alloc: Global,
        parameters: usize,
        uses: &[Option<usize>],
    ) -> Result<UsedParameters, Memory>
        requires { (k : ℕ) → k < length uses.now → IfSome (get_or uses.now k None) (λ i. i < parameters) }
        ensures by_parameter { IfOk result (λ p. p.by_parameter.items ≡ filter (λ i. list_any (is_use i) uses.now) (range_with_len 0 parameters)) }
        ensures by_use { IfOk result (λ p. uses_of p ≡ fold with_use [] uses.now) }
    {
        let mut marks = vec![in alloc; false; parameters]?;
        let mut by_use = Vec::new(alloc);
        push_uses(&mut marks, &mut by_use, uses)?;
        let by_parameter = marked(alloc, marks.as_slice(), by_use.len())?;
        let by_use = unless_same(by_parameter.as_slice(), by_use);
        Ok(UsedParameters {
            by_parameter,
            by_use,
        })
    }

    /// Returns the parameters, of this number, that are used, in the order of their first uses in every profile.
    pub(crate) fn in_order(
        alloc: Global,
        parameters: usize,
        uses: &[Option<usize>],
    ) -> Result<UsedParameters, Memory>
        requires { (k : ℕ) → k < length uses.now → IfSome (get_or uses.now k None) (λ i. i < parameters) }
        ensures by_parameter { IfOk result (λ p. p.by_parameter.items ≡ fold with_use [] uses.now) }
        ensures by_use { IfOk result (λ p. uses_of p ≡ fold with_use [] uses.now) }
    {
        let mut marks = vec![in alloc; false; parameters]?;
        let mut by_use = Vec::new(alloc);
        push_uses(&mut marks, &mut by_use, uses)?;
        Ok(UsedParameters {
            by_parameter: by_use,
            by_use: None,
        })
    }

    /// Returns the parameters in the order of their first uses.
    pub(crate) fn in_order_of_use(&self) -> &[usize]
        ensures { result.now ≡ uses_of self.now }
    {
        match &self.by_use {
            Some(by_use) => by_use.as_slice(),
            None => self.by_parameter.as_slice(),
        }
    }
}
