//! A certificate, from its bytes to what is said of it.
ghost use Rattle.std.specs.Prelude.{◌≡◌, IfOk};
ghost use Rattle.std.specs.List.{AllByRecursion};
ghost use Rattle.gc_cert_text.specs.Certificates.{all_told};
ghost use Rattle.gc_cert_text.specs.FormedSearches.{IsFormedSearch};
ghost use Rattle.gc_check_text.specs.Checked.{AreCounted};
ghost use Rattle.gc_check_text.specs.Outcomes.{AreShortest, IsOutcome, refusal_of};

use crate::refusal::CheckRefusal;
use crate::searches::check_searches;
use gc_base::Steps;
use gc_cert_text::{CertRefusal, Certificate, certificates_are_formed, read};
use std::alloc::Global;
use std::sync::ledger::Ledger;

/// How many searches a certificate has, where each is accepted. Else its bytes are refused as `read` refuses them, or
/// the first search is told that is rejected, with the first rule that it breaks. Each walk that an accepted
/// certificate lists is a shortest one: it goes from the start of its search and conforms to the expression on
/// the graph and the segments at the stated cost, and no conforming walk between its ends costs less.
pub fn check<L: Ledger>(
    alloc: Global,
    bytes: &[u8],
    steps: &mut Steps<L>,
) -> Result<u32, CheckRefusal>
    ensures outcome { IsOutcome bytes.now result }
    ensures sound { IfOk result (AreShortest bytes.now) }
{
    certificates_are_formed();
    match read(alloc, bytes, steps) {
        Ok(certificate) => check_certificate(alloc, &certificate, steps),
        Err(refusal) => Err(refusal_of(refusal)),
    }
}

// How many searches a certificate has, where each is accepted.
fn check_certificate<L: Ledger>(
    alloc: Global,
    certificate: &Certificate,
    steps: &mut Steps<L>,
) -> Result<u32, CheckRefusal>
    requires { AllByRecursion IsFormedSearch (all_told certificate.now) }
    ensures { AreCounted certificate.now.searches result }
{
    check_searches(alloc, &certificate.searches, steps)?;
    Ok(certificate.searches.len())
}

// A refusal to read, as one to check.
fn refusal_of(refusal: CertRefusal) -> CheckRefusal
    ensures { result ≡ refusal_of refusal }
{
    match refusal {
        CertRefusal::Memory => CheckRefusal::Memory,
        other => CheckRefusal::Cert(other),
    }
}
