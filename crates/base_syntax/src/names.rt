//! Names (RFC 2068, 4.2: they are compared without regard to case).
ghost use Rattle.std.specs.Prelude.{◌≡◌};
ghost use Rattle.base_syntax.specs.Names.{same_name};

/// Whether two names are the same, without regard to the case of ASCII letters.
pub fn is_same_name(a: &[u8], b: &[u8]) -> bool
    ensures { result ≡ same_name a.now b.now }
{
    a.eq_ignore_ascii_case(b)
}
