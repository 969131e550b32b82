//! Tests of directives: their names, what each is for, and what profiles have.
use pptext::{Class, Directive, Profile, Question};

/// Directives, what each is for, and what its line asks.
const CLASSES: &[(Directive, Class, Option<Question>)] = &[
    (
        Directive::If,
        Class::Opens(Question::Value),
        Some(Question::Value),
    ),
    (
        Directive::Ifndef,
        Class::Opens(Question::Defined(false)),
        Some(Question::Defined(false)),
    ),
    (
        Directive::Elifdef,
        Class::Elifs(Question::Defined(true)),
        Some(Question::Defined(true)),
    ),
    (Directive::Else, Class::Else, None),
    (Directive::Endif, Class::Endif, None),
    (Directive::Include, Class::Includes(false), None),
    (Directive::IncludeNext, Class::Includes(true), None),
    (Directive::Error, Class::Error, None),
    (Directive::Ignored, Class::Ignored, None),
    (Directive::Define, Class::Control, None),
];

#[test]
fn tells_what_a_directive_is_for(rt: HostRuntime) {
    for &(directive, class, question) in CLASSES {
        assert!(rt; directive.class() == class, "of {directive:?}");
        assert!(rt; directive.question() == question, "of {directive:?}");
    }
}

/// Directives, and whether each opens an if-section, begins an elif-group, ends a group.
const ROLES: &[(Directive, bool, bool, bool)] = &[
    (Directive::If, true, false, false),
    (Directive::Ifdef, true, false, false),
    (Directive::Ifndef, true, false, false),
    (Directive::Elif, false, true, true),
    (Directive::Elifdef, false, true, true),
    (Directive::Elifndef, false, true, true),
    (Directive::Else, false, false, true),
    (Directive::Endif, false, false, true),
    (Directive::Define, false, false, false),
];

#[test]
fn tells_what_a_directive_does_to_groups(rt: HostRuntime) {
    for &(directive, opens, begins, ends) in ROLES {
        assert!(rt; directive.opens_section() == opens, "of {directive:?}");
        assert!(rt; directive.begins_elif_group() == begins, "of {directive:?}");
        assert!(rt; directive.ends_group() == ends, "of {directive:?}");
    }
}

/// Profiles, and whether each has the extensions of C23, and the rules of GNU C.
const PROFILES: &[(Profile, bool, bool)] = &[
    (Profile::C11, false, false),
    (Profile::Later, true, false),
    (Profile::Gnu, true, true),
];

#[test]
fn tells_what_a_profile_has(rt: HostRuntime) {
    for &(profile, later, gnu) in PROFILES {
        assert!(rt; profile.has_later() == later, "of {profile:?}");
        assert!(rt; profile.is_gnu() == gnu, "of {profile:?}");
    }
}
