//! The classes of directives, and their names.
//!
//! The name of a directive depends on the profile, and what it is for does not. So `directive_of` finds the directive
//! among the profile's names, and `class` is the one table of what each directive is for. Conditions, groups and the
//! walk over the lines see only classes. A new directive is a variant of `Directive`, a name here, and a line of
//! `class`.
//!
//! `Role` is what grouping sees of a line. It also has a case for text lines, which have no class. Names are compared
//! one after another, because only the lines that begin with `#` get here.
ghost use Rattle.std.specs.Prelude.{◌≡◌, ◌++◌, codes, ◌||◌};
ghost use Rattle.std.specs.Str.{bytes_eq};
ghost use Rattle.pptext.specs.Classes.{class_of, question_of, opens_section, begins_elif_group, ends_group};
ghost use Rattle.pptext.specs.Lines.{later_names, gnu_names, named_in, directive_names, directive_named, directive_of};
ghost use Rattle.pptext.specs.Tree.{role_by, TextLine, ControlLine, Opens, Elses, Closes};

use crate::sources::{Directive, Profile};
use crate::tokens::{Token, is_spelled};

/// What the condition of a line asks (6.10.1).
#[derive(Clone, Copy, PartialEq, Eq, Debug)]
pub enum Question {
    /// Whether a name is defined as a macro (true), or is not defined (false).
    Defined(bool),
    /// Whether an expression isn't 0.
    Value,
}

/// What a directive is for (6.10).
#[derive(Clone, Copy, PartialEq, Eq, Debug)]
pub enum Class {
    /// An if-section opens: `#if`, `#ifdef`, `#ifndef` (6.10.1).
    Opens(Question),
    /// A branch is entered by a condition: `#elif` (6.10.1), `#elifdef`, `#elifndef` (ISO/IEC 9899:2024, 6.10.2).
    Elifs(Question),
    /// `#else` (6.10.1)
    Else,
    /// `#endif` (6.10.1)
    Endif,
    /// A file is included: `#include` (false, 6.10.2) or `#include_next` (true, GNU C).
    Includes(bool),
    /// The tokens are a message: `#error` (6.10.5).
    Error,
    /// Nothing is done, whatever the tokens are: `#warning`, `#ident`, `#sccs` (GNU C).
    Ignored,
    /// Any other control line.
    Control,
}

impl Directive {
    /// Returns the class of the directive.
    pub fn class(self) -> Class
        ensures { result ≡ class_of self }
    {
        match self {
            Directive::If => Class::Opens(Question::Value),
            Directive::Ifdef => Class::Opens(Question::Defined(true)),
            Directive::Ifndef => Class::Opens(Question::Defined(false)),
            Directive::Elif => Class::Elifs(Question::Value),
            Directive::Elifdef => Class::Elifs(Question::Defined(true)),
            Directive::Elifndef => Class::Elifs(Question::Defined(false)),
            Directive::Else => Class::Else,
            Directive::Endif => Class::Endif,
            Directive::Include => Class::Includes(false),
            Directive::IncludeNext => Class::Includes(true),
            Directive::Error => Class::Error,
            Directive::Ignored => Class::Ignored,
            _ => Class::Control,
        }
    }

    /// Returns what the condition of its line asks, if it has one.
    pub fn question(self) -> Option<Question>
        ensures { result ≡ question_of self }
    {
        match self.class() {
            Class::Opens(question) | Class::Elifs(question) => Some(question),
            _ => None,
        }
    }

    /// Returns whether the directive opens an if-section: `#if`, `#ifdef`, `#ifndef` (6.10.1).
    pub fn opens_section(self) -> bool
        ensures { result ≡ opens_section self }
    {
        matches!(self.class(), Class::Opens(_))
    }

    /// Returns whether the directive begins an elif-group (6.10): `#elif`, and `#elifdef` and `#elifndef` (ISO/IEC
    /// 9899:2024, 6.10.2).
    pub fn begins_elif_group(self) -> bool
        ensures { result ≡ begins_elif_group self }
    {
        matches!(self.class(), Class::Elifs(_))
    }

    /// Returns whether a group ends before the directive: `#elif`, `#elifdef`, `#elifndef`, `#else`, `#endif` (6.10.1).
    pub fn ends_group(self) -> bool
        ensures { result ≡ ends_group self }
    {
        matches!(self.class(), Class::Elifs(_) | Class::Else | Class::Endif)
    }
}

/// What a line does to the groups of its file (6.10).
#[derive(Clone, Copy)]
pub(crate) enum Role {
    /// A text line.
    Text,
    /// A directive that neither opens, branches nor closes an if-section.
    Control,
    /// `#if`, `#ifdef`, `#ifndef`.
    Opens,
    /// A branch: true for `#else`, false for a branch with a condition.
    Elses(bool),
    /// `#endif`.
    Closes,
}

/// Returns the role of a line with this directive.
pub(crate) fn role_of(directive: Option<Directive>) -> Role
    ensures { (elim result [ Role.Text ↦ TextLine | Role.Control ↦ ControlLine | Role.Opens ↦ Opens | Role.Elses last ↦ Elses last | Role.Closes ↦ Closes ]) ≡ role_by directive }
{
    let Some(directive) = directive else {
        return Role::Text;
    };
    match directive.class() {
        Class::Opens(_) => Role::Opens,
        Class::Elifs(_) => Role::Elses(false),
        Class::Else => Role::Elses(true),
        Class::Endif => Role::Closes,
        _ => Role::Control,
    }
}

/// Returns the directive that a name is in C11.
fn plain_directive(name: &[u8]) -> Directive
    ensures { result ≡ named_in directive_names name.now }
{
    if is_spelled(name, b"if") {
        return Directive::If;
    }
    if is_spelled(name, b"ifdef") {
        return Directive::Ifdef;
    }
    if is_spelled(name, b"ifndef") {
        return Directive::Ifndef;
    }
    if is_spelled(name, b"elif") {
        return Directive::Elif;
    }
    if is_spelled(name, b"else") {
        return Directive::Else;
    }
    if is_spelled(name, b"endif") {
        return Directive::Endif;
    }
    if is_spelled(name, b"include") {
        return Directive::Include;
    }
    if is_spelled(name, b"define") {
        return Directive::Define;
    }
    if is_spelled(name, b"undef") {
        return Directive::Undef;
    }
    if is_spelled(name, b"line") {
        return Directive::Line;
    }
    if is_spelled(name, b"error") {
        return Directive::Error;
    }
    if is_spelled(name, b"pragma") {
        return Directive::Pragma;
    }
    Directive::Unknown
}

/// Returns the directive with this name, if it is one of the branches that C23 added.
fn later_directive(name: &[u8]) -> Directive
    ensures { result ≡ named_in later_names name.now }
{
    if is_spelled(name, b"elifdef") {
        return Directive::Elifdef;
    }
    if is_spelled(name, b"elifndef") {
        return Directive::Elifndef;
    }
    Directive::Unknown
}

/// Returns the directive with this name, if it is one that only the profile `Gnu` has.
fn gnu_directive(name: &[u8]) -> Directive
    ensures { result ≡ named_in gnu_names name.now }
{
    if is_spelled(name, b"include_next") {
        return Directive::IncludeNext;
    }
    if is_spelled(name, b"warning") {
        return Directive::Ignored;
    }
    if is_spelled(name, b"ident") {
        return Directive::Ignored;
    }
    if is_spelled(name, b"sccs") {
        return Directive::Ignored;
    }
    Directive::Unknown
}

/// Returns the directive that a name is, of those that C23 and GNU C add to C11.
fn added_directive(name: &[u8]) -> Directive
    ensures { result ≡ named_in (later_names ++ gnu_names) name.now }
{
    match later_directive(name) {
        Directive::Unknown => gnu_directive(name),
        directive => directive,
    }
}

/// Returns the directive that a name is in this profile.
#[tactic(auto, using(crate::proofs::DirectiveLines::known_named, crate::proofs::DirectiveLines::later_named, crate::proofs::DirectiveLines::gnu_named))]
fn directive_named(profile: Profile, name: &[u8]) -> Directive
    ensures { result ≡ directive_named profile name.now }
{
    let directive = plain_directive(name);
    if directive != Directive::Unknown {
        return directive;
    }
    match profile {
        Profile::C11 => directive,
        Profile::Later => later_directive(name),
        Profile::Gnu => added_directive(name),
    }
}

/// Returns whether the token is `#` or its digraph `%:`.
pub(crate) fn is_hash(text: &[u8]) -> bool
    ensures { result ≡ (bytes_eq text.now (codes "#") || bytes_eq text.now (codes "%:")) }
{
    is_spelled(text, b"#") || is_spelled(text, b"%:")
}

/// Returns the directive of a line with these tokens, or None for a text line.
pub(crate) fn directive_of(profile: Profile, line: &[Token]) -> Option<Directive>
    ensures { result ≡ directive_of profile line.now }
{
    if line.is_empty() {
        return None;
    }
    if !is_hash(line[0].text.as_bytes()) {
        return None;
    }
    if line.len() == 1 {
        return Some(Directive::Null);
    }
    Some(directive_named(profile, line[1].text.as_bytes()))
}
