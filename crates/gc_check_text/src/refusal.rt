use gc_base::Memory;
use gc_cert_text::CertRefusal;
use gc_check::KRule;
use thiserror::Error;

/// Why a certificate is not accepted.
#[derive(Clone, Copy, Debug, PartialEq, Eq, Error)]
pub enum CheckRefusal {
    /// The bytes tell no certificate. It never holds `CertRefusal::Memory`.
    #[error("no certificate: {0}")]
    Cert(CertRefusal),
    /// The search of this number, counted from 0, is the first that is rejected, and this the first rule that it
    /// breaks.
    #[error("search {search} is rejected")]
    Rejected { search: u32, rule: KRule },
    /// Memory is short.
    #[error("out of memory")]
    Memory,
}

impl From<Memory> for CheckRefusal {
    ghost use Rattle.std.specs.Prelude.{◌≡◌};
    ghost use Rattle.gc_check_text.specs.declared.refusal.CheckRefusal.TheVariants as refusal;

    ghost from_gives = { λ _ made. made ≡ refusal.Memory };

    fn from(_memory: Memory) -> CheckRefusal {
        CheckRefusal::Memory
    }
}
