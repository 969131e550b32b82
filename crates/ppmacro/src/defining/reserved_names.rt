//! Names that no directive may define or undefine (6.10.8p2, 6.10.3p5).
ghost use Rattle.std.specs.Prelude.{◌≡◌};
ghost use Rattle.ppmacro.specs.Define.{is_barred, is_fixed, is_reserved};

use pptext::Profile;

/// Returns whether a name is that of a predefined macro that can't be redefined. In GNU C `__STDC_VERSION__` can.
fn is_fixed(gnu: bool, name: &[u8]) -> bool
    ensures { result ≡ is_fixed gnu name.now }
{
    name == b"__FILE__".as_slice()
        || name == b"__LINE__".as_slice()
        || name == b"__DATE__".as_slice()
        || name == b"__TIME__".as_slice()
        || name == b"__STDC__".as_slice()
        || name == b"__STDC_HOSTED__".as_slice()
        || (name == b"__STDC_VERSION__".as_slice() && !gnu)
}

/// Returns whether a name can never be a macro (6.10.8p2, 6.10.3p5).
fn is_barred(gnu: bool, name: &[u8]) -> bool
    ensures { result ≡ is_barred gnu name.now }
{
    name == b"defined".as_slice()
        || name == b"__VA_ARGS__".as_slice()
        || (name == b"__VA_OPT__".as_slice() && gnu)
}

/// Returns whether a name must not be defined or undefined by a directive (6.10.8p2, 6.10.3p5).
pub(crate) fn is_reserved(profile: Profile, name: &[u8]) -> bool
    ensures { result ≡ is_reserved profile name.now }
{
    is_fixed(profile.is_gnu(), name) || is_barred(profile.is_gnu(), name)
}
