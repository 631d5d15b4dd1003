//! Why a certificate is refused.
use sr_model::NoMemory;

/// The first bad line of a certificate, with the first of these that is so of it.
#[derive(Clone, Copy, Debug, PartialEq, Eq)]
pub enum CertRefusal {
    /// The first line is not `srcert 1`.
    CertHead { line: u64 },
    /// The line has none of the forms, or stands behind the last one; or the last line is missing.
    CertSyntax { line: u64 },
    /// It names a signal or a cycle that is not there, or a gate or flip-flop in a cycle where there is none.
    CertCell { line: u64 },
    /// Its literal is not forced there by the dump and the lines before it, or its cell has not both literals.
    NotForced { line: u64 },
    /// Memory was refused.
    NoMemory,
}

impl From<NoMemory> for CertRefusal {
    ghost use Rattle.std.specs.Prelude.{◌≡◌};
    ghost use Rattle.certificates.specs.declared.refusal.CertRefusal.TheVariants.{NoMemory};

    ghost from_gives = { λ _ e. e ≡ NoMemory };

    fn from(_: NoMemory) -> Self {
        CertRefusal::NoMemory
    }
}
