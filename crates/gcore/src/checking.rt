ghost use Rattle.std.specs.Prelude.{◌≡◌, ◌++◌, codes, length, Some};
ghost use Rattle.gc_base.specs.Sinks.{HasRoom};
ghost use Rattle.gcore.specs.CertificateLines.{accepted_line};
ghost use Rattle.gcore.specs.Endings.{Answers, Call, Change, HoldsText, WritesText};
ghost use Rattle.gcore.specs.declared.command.Command.TheVariants.{Check};

use crate::inputs::{DOCUMENT_LIMIT, read_file};
use crate::stop::Stop;
use gc_base::{Steps, Str};
use gc_check_text::{CheckRefusal, check};
use gc_io::{Folder, Sink, SinkFault, write_pieces};
use itoa::Buffer;
use std::alloc::Global;
use std::sync::ledger::Ledger;

/// Checks a document, and writes of how many searches it is where all of them are accepted.
pub fn run_check<F: Folder, S: Sink, L: Ledger>(
    alloc: Global,
    document: &Str,
    folder: &mut F,
    out: &mut S,
    steps: &mut Steps<L>,
) -> Result<(), Stop>
    requires room { HoldsText (S.room out.old) (F.files folder.old) (Some (Check document.now)) }
    ensures outcome { Answers (record {
      command = Some (Check document.now);
      files = F.files folder.old;
      faults_before = F.faults folder.old;
      faults_after = F.faults folder.new;
      out = record {
        faults_before = S.faults out.old;
        faults_after = S.faults out.new;
        taken_before = S.taken out.old;
        taken_after = S.taken out.new;
      };
    }) result }
    ensures kept { F.files folder.new ≡ F.files folder.old }
{
    let bytes = read_file(alloc, folder, document, DOCUMENT_LIMIT)?;
    match check(alloc, bytes.as_slice(), steps) {
        Ok(searches) => write_accepted(searches, out),
        Err(CheckRefusal::Cert(refusal)) => Err(Stop::Certificate(refusal)),
        Err(CheckRefusal::Rejected { search, rule }) => Err(Stop::Rejected(search, rule)),
        Err(CheckRefusal::Memory) => Err(Stop::OutOfMemory),
    }
}

// Writes the line of a document whose searches are all accepted.
fn write_accepted<S: Sink>(searches: u32, out: &mut S) -> Result<(), Stop>
    requires { HasRoom (S.room out.old) (length (accepted_line searches)) }
    ensures { WritesText (record {
      faults_before = S.faults out.old;
      faults_after = S.faults out.new;
      taken_before = S.taken out.old;
      taken_after = S.taken out.new;
    }) (accepted_line searches) result }
{
    let mut digits = Buffer::new();
    let digits = digits.format(searches).as_bytes();
    match write_pieces(out, &[b"accepted ", digits, b"\n"]) {
        Ok(()) => Ok(()),
        Err(SinkFault) => Err(Stop::Unwritten),
    }
}
