ghost use Rattle.std.specs.Prelude.{◌≡◌, ◌++◌, codes, length};
ghost use Rattle.gc_base.specs.Sinks.{HasRoom};
ghost use Rattle.gcore.specs.CertificateLines.{search_rule_text};
ghost use Rattle.gcore.specs.Endings.{Change, Tells};
ghost use Rattle.gcore.specs.Lines.{certificate_line, line, rejected_digits_line, rejected_line, search_digits_line, search_line};

use crate::report::{tell_line, tell_pieces};
use gc_cert_text::CertRefusal;
use gc_check::KRule;
use gc_io::Sink;
use itoa::Buffer;

/// Tells a sink the line of a document that is no certificate.
pub fn tell_certificate<T: Sink>(err: &mut T, refusal: CertRefusal)
    requires { HasRoom (T.room err.old) (length (certificate_line refusal)) }
    ensures { Tells (record {
      faults_before = T.faults err.old;
      faults_after = T.faults err.new;
      taken_before = T.taken err.old;
      taken_after = T.taken err.new;
    }) (certificate_line refusal) }
{
    match refusal {
        CertRefusal::NotJson => tell_line(err, b"C1 NotJson", b""),
        CertRefusal::WrongShape => tell_line(err, b"C2 WrongShape", b""),
        CertRefusal::BadGraph(search) => tell_search(err, b"C3 BadGraph", search),
        CertRefusal::BadExpression(search) => tell_search(err, b"C4 BadExpression", search),
        CertRefusal::BadSegment(search) => tell_search(err, b"C5 BadSegment", search),
        CertRefusal::BadNumber(search) => tell_search(err, b"C6 BadNumber", search),
        CertRefusal::Memory => tell_line(err, b"out of memory", b""),
    }
}

// The line of a code about a search.
fn tell_search<T: Sink>(err: &mut T, code: &[u8], search: u32)
    requires { HasRoom (T.room err.old) (length (search_line code.now search)) }
    ensures { Tells (record {
      faults_before = T.faults err.old;
      faults_after = T.faults err.new;
      taken_before = T.taken err.old;
      taken_after = T.taken err.new;
    }) (search_line code.now search) }
{
    let mut digits = Buffer::new();
    tell_search_digits(err, code, digits.format(search).as_bytes());
}

fn tell_search_digits<T: Sink>(err: &mut T, code: &[u8], digits: &[u8])
    requires { HasRoom (T.room err.old) (length (search_digits_line code.now digits.now)) }
    ensures { Tells (record {
      faults_before = T.faults err.old;
      faults_after = T.faults err.new;
      taken_before = T.taken err.old;
      taken_after = T.taken err.new;
    }) (search_digits_line code.now digits.now) }
{
    tell_pieces(err, &[b"gcore: ", code, b" search ", digits, b"\n"]);
}

/// Tells a sink the line of a search that breaks a rule.
pub fn tell_rejected<T: Sink>(err: &mut T, search: u32, rule: KRule)
    requires { HasRoom (T.room err.old) (length (rejected_line search rule)) }
    ensures { Tells (record {
      faults_before = T.faults err.old;
      faults_after = T.faults err.new;
      taken_before = T.taken err.old;
      taken_after = T.taken err.new;
    }) (rejected_line search rule) }
{
    let mut digits = Buffer::new();
    tell_rejected_digits(
        err,
        digits.format(search).as_bytes(),
        search_rule_text(rule),
    );
}

fn tell_rejected_digits<T: Sink>(err: &mut T, digits: &[u8], rule: &[u8])
    requires { HasRoom (T.room err.old) (length (rejected_digits_line digits.now rule.now)) }
    ensures { Tells (record {
      faults_before = T.faults err.old;
      faults_after = T.faults err.new;
      taken_before = T.taken err.old;
      taken_after = T.taken err.new;
    }) (rejected_digits_line digits.now rule.now) }
{
    tell_pieces(
        err,
        &[b"gcore: ", b"rejected search ", digits, b" ", rule, b"\n"],
    );
}

// The rule that a search breaks.
fn search_rule_text(rule: KRule) -> &'static [u8]
    ensures { result.now ≡ search_rule_text rule }
{
    match rule {
        KRule::PotentialsListed => b"K1",
        KRule::StartFree => b"K2",
        KRule::MovesCovered => b"K3",
        KRule::MovesBounded => b"K4",
        KRule::RunsPassWalks => b"K5",
        KRule::CostsLeast => b"K6",
    }
}
