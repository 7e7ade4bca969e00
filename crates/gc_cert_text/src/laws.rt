ghost use Rattle.std.specs.Prelude.{◌≡◌, ℕ, List, Ok};
ghost use Rattle.std.specs.List.{AllByRecursion};
ghost use Rattle.gc_cert_text.specs.Certificates.{SearchTold, certificate_of};
ghost use Rattle.gc_cert_text.specs.CertificateTexts.{certificate_text};
ghost use Rattle.gc_cert_text.specs.FormedSearches.{IsFormedSearch};
ghost use Rattle.gc_cert_text.specs.WritableSearches.{IsWritable};
ghost use Rattle.gc_spec.specs.PropertyGraph.{IsGraph};

use gc_json::canonical_texts_load_back;

/// Of what a certificate tells, each expression is one that the grammar gives, of at most 1,024 states and with
/// parentheses in its text at most 64 deep, and the segments of each search are walks of its graph.
pub fn certificates_are_formed()
    ensures { (bytes : List ℕ) (searches : List SearchTold) → certificate_of bytes ≡ Ok searches → AllByRecursion IsFormedSearch searches }
{}

/// The text of a certificate tells that certificate, where each graph is a valid one of at most 1,000,000
/// elements, each expression is one that the grammar gives, of at most 1,024 states and with parentheses at
/// most 64 deep, each segment is a walk of its graph under a view's name, and all numbers are in range.
pub fn written_certificates_read_back()
    ensures { (searches : List SearchTold) → AllByRecursion IsWritable searches → certificate_of (certificate_text searches) ≡ Ok searches }
{
    canonical_texts_load_back();
}

/// What a certificate tells, written again, tells the same, where its graphs are valid, as each graph in memory is.
pub fn read_certificates_read_back()
    ensures { (bytes : List ℕ) (searches : List SearchTold) → certificate_of bytes ≡ Ok searches → AllByRecursion (λ s. IsGraph s.graph) searches
        → certificate_of (certificate_text searches) ≡ Ok searches }
{
    certificates_are_formed();
    written_certificates_read_back();
}
