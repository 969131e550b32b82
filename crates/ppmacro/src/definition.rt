//! Definitions in the form that expansion reads.
//!
//! What substitution needs of a replacement list, beside its tokens, is found when the definition is read: which parameter each
//! token names, or, in a list with `#` or `##`, its chains, and which arguments are expanded. So an invocation looks no name up.
ghost use Rattle.std.specs.Prelude.{◌≡◌, IfOk, OnOk, ◌++◌, Some, None, map, false, true};
ghost use Rattle.ppmacro.specs.Chains.{is_function_like, parameter_of};
ghost use Rattle.ppmacro.specs.VaOpt.{separated};
ghost use Rattle.ppmacro.specs.code.VaOptLists.{separated_at};
ghost use Rattle.ppmacro.specs.code.PreparedDefinitions.{IsPrepared};

use crate::chains::{Parameters, chains_of, is_function_like, parameter_names, parameter_of};
use crate::kept_chains::KeptChain;
use crate::macros::{MacroKind, has_paste, is_object_like};
use crate::patterns::has_operator;
use crate::pre_expansion::{UsedParameters, lone_parameters};
use crate::va_opt::{SeparatedList, separated};
use crate::va_opt_chains::VaOptForm;
use pptext::{Hashing, Memory, Token};
use std::alloc::Global;

/// What a replacement list says, beside its tokens.
#[derive(Drop)]
pub enum ListForm {
    /// Each token is a chain of its own. Has the parameter that each token names. A token past the end names none, so the vector
    /// is empty for a macro without parameters.
    Plain(Vec<Option<usize>>),
    /// The chains.
    Pasted(Vec<KeptChain>),
    /// The chains of a list with `__VA_OPT__`.
    VaOpt(VaOptForm),
}

/// What a definition says apart from the tokens of its replacement list.
#[derive(Drop)]
pub struct Definition {
    pub(crate) kind: MacroKind,
    pub(crate) form: ListForm,
    /// Whether it is an object-like macro whose list has no `##`.
    pub(crate) lone: bool,
    /// The parameters that the replacement list uses without `#` and `##`, so that their arguments are expanded (6.10.3.1).
    pub(crate) used: UsedParameters,
}

/// Appends the parameter that each token names.
fn push_uses(
    uses: &mut Vec<Option<usize>>,
    parameters: &Parameters,
    tokens: &[Token],
) -> Result<(), Memory>
    ensures { OnOk result (uses.new.items ≡ uses.old.items ++ map (parameter_of parameters.now.kind) tokens.now) }
{
    for token in tokens {
        uses.push(parameter_of(parameters, token))?;
    }
    Ok(())
}

/// Returns the parameter that each token of a replacement list names. Many parameters are indexed with hash function `hashing`.
fn uses_of(
    alloc: Global,
    kind: &MacroKind,
    body: &[Token],
    hashing: Hashing,
) -> Result<Vec<Option<usize>>, Memory>
    ensures { IfOk result (λ v. v.items ≡ map (parameter_of kind.now) body.now) }
{
    let parameters = Parameters::new(alloc, kind, body.len(), hashing)?;
    let mut uses = Vec::with_capacity(alloc, body.len())?;
    push_uses(&mut uses, &parameters, body)?;
    Ok(uses)
}

impl Definition {
    /// Returns the definition of an object-like macro or a predefined macro with this replacement list.
    fn without_parameters(
        alloc: Global,
        kind: MacroKind,
        body: &[Token],
        hashing: Hashing,
    ) -> Result<Definition, Memory>
        requires { is_function_like kind ≡ false }
        ensures kind { IfOk result (λ d. d.kind ≡ kind) }
        ensures prepared { IfOk result (λ d. IsPrepared d body.now) }
    {
        let used = UsedParameters::none(alloc);
        if has_paste(body) {
            let form = ListForm::Pasted(chains_of(alloc, &kind, body, hashing)?);
            return Ok(Definition {
                kind,
                form,
                lone: false,
                used,
            });
        }
        let lone = is_object_like(&kind);
        Ok(Definition {
            kind,
            form: ListForm::Plain(Vec::new(alloc)),
            lone,
            used,
        })
    }

    /// Returns the definition of a macro whose replacement list has `__VA_OPT__`. Many parameters are indexed with hash function `hashing`.
    fn with_va_opt(
        alloc: Global,
        kind: MacroKind,
        body: &[Token],
        list: &SeparatedList,
        hashing: Hashing,
    ) -> Result<Definition, Memory>
        requires { separated (record { kind = kind; body = body.now }) ≡ Some (separated_at body.now list.now) }
        ensures kind { IfOk result (λ d. d.kind ≡ kind) }
        ensures prepared { IfOk result (λ d. IsPrepared d body.now) }
    {
        let form = VaOptForm::new(alloc, &kind, body, list, hashing)?;
        let used = form.used_parameters(alloc, body)?;
        Ok(Definition {
            kind,
            form: ListForm::VaOpt(form),
            lone: false,
            used,
        })
    }

    /// Returns the definition of a function-like macro with this replacement list. Many parameters are indexed with hash function
    /// `hashing`.
    fn with_parameters(
        alloc: Global,
        kind: MacroKind,
        body: &[Token],
        hashing: Hashing,
    ) -> Result<Definition, Memory>
        requires function_like { is_function_like kind ≡ true }
        requires separated { separated (record { kind = kind; body = body.now }) ≡ None }
        ensures kind { IfOk result (λ d. d.kind ≡ kind) }
        ensures prepared { IfOk result (λ d. IsPrepared d body.now) }
    {
        let count = parameter_names(&kind).len();
        if has_operator(body) {
            let chains = chains_of(alloc, &kind, body, hashing)?;
            let uses = lone_parameters(alloc, body, chains.as_slice())?;
            let used = UsedParameters::new(alloc, count, uses.as_slice())?;
            return Ok(Definition {
                kind,
                form: ListForm::Pasted(chains),
                lone: false,
                used,
            });
        }
        let uses = uses_of(alloc, &kind, body, hashing)?;
        let used = UsedParameters::new(alloc, count, uses.as_slice())?;
        Ok(Definition {
            kind,
            form: ListForm::Plain(uses),
            lone: false,
            used,
        })
    }

    /// Returns the definition of a macro of this kind with this replacement list. Many parameters are indexed with hash function
    /// `hashing`.
    pub(crate) fn new(
        alloc: Global,
        kind: MacroKind,
        body: &[Token],
        hashing: Hashing,
    ) -> Result<Definition, Memory>
        ensures kind { IfOk result (λ d. d.kind ≡ kind) }
        ensures prepared { IfOk result (λ d. IsPrepared d body.now) }
    {
        if !is_function_like(&kind) {
            return Definition::without_parameters(alloc, kind, body, hashing);
        }
        match separated(alloc, &kind, body)? {
            Some(list) => Definition::with_va_opt(alloc, kind, body, &list, hashing),
            None => Definition::with_parameters(alloc, kind, body, hashing),
        }
    }
}
