ghost use Rattle.std.specs.Prelude.{◌≡◌, map, IfOk};
ghost use Rattle.gc_cert_text.specs.Certificates.{all_told, told};
ghost use Rattle.gc_cert_text.specs.CertificateTexts.{certificate_text};
ghost use Rattle.gc_lower.specs.Namings.{file_of};
ghost use Rattle.gc_query.specs.Built.{AreBuilt};
ghost use Rattle.gcore.specs.Certifications.{IsCertifiedOver};
ghost use Rattle.gcore.specs.EndTexts.{HoldsAtEnd, WritesAtEnd};
ghost use Rattle.gcore.specs.Endings.{Change};
ghost use Rattle.gcore.specs.Outcomes.{Request, free_above, session_over};
ghost use Rattle.gcore.specs.QueryFiles.{placed};

use crate::logging::log_session;
use crate::session::write_text;
use crate::stop::Stop;
use gc_base::{Bytes, Memory, Steps};
use gc_catalog::Catalog;
use gc_cert::SearchDoc;
use gc_cert_text::{Certificate, SearchDocList, write};
use gc_io::Sink;
use gc_query::Wants;
use gc_sorts::Checked;
use std::alloc::Global;
use std::sync::ledger::Ledger;

/// Evaluates the statements of a query file over loaded graphs, one after another, and writes at the end the certificate
/// of the searches for the walks that the tables of their CONSTRUCTs bind. A fault ends all, and then nothing is written.
pub fn certify_session<S: Sink, L: Ledger>(
    alloc: Global,
    checked: &Checked,
    catalog: &mut Catalog,
    out: &mut S,
    steps: &mut Steps<L>,
) -> Result<(), Stop>
    requires built { AreBuilt (file_of checked.now) }
    requires begins { catalog.old.next ≡ free_above catalog.old.graphs }
    requires room { HoldsAtEnd (S.room out.old) (IsCertifiedOver catalog.old.names (session_over catalog.old.graphs (placed checked.now))) }
    ensures { let r : Request = session_over catalog.old.graphs (placed checked.now) in WritesAtEnd (IsCertifiedOver catalog.old.names r) r
        (record { faults_before = S.faults out.old; faults_after = S.faults out.new; taken_before = S.taken out.old; taken_after = S.taken out.new }) result }
{
    let log = log_session(alloc, checked, catalog, Wants::Searches, steps)?;
    let text = certificate_text(alloc, log.into_searches(), steps)?;
    write_text(out, text.as_slice())
}

// The text of the certificate of some searches.
fn certificate_text<L: Ledger>(
    alloc: Global,
    searches: Vec<SearchDoc>,
    steps: &mut Steps<L>,
) -> Result<Bytes, Memory>
    ensures { IfOk result (λ text. text ≡ certificate_text (map told searches.items)) }
{
    let certificate = certificate_of(alloc, searches)?;
    write(alloc, &certificate, steps)
}

// The certificate of some searches. More than it can number are want of memory.
fn certificate_of(alloc: Global, searches: Vec<SearchDoc>) -> Result<Certificate, Memory>
    ensures { IfOk result (λ c. c.searches ≡ searches.items) }
{
    let mut list = SearchDocList::new(alloc);
    for search in searches {
        list.push(search)?;
    }
    Ok(Certificate { searches: list })
}
