ghost use Rattle.std.specs.Prelude.{◌≡◌, map, string_bytes};
ghost use Rattle.gcore.specs.CommandLines.{command_of};
ghost use Rattle.gcore.specs.Endings.{Answers, Call, Change, Ends, HoldsLines, HoldsText};

use crate::answer::run;
use crate::command::{Command, CommandRefusal};
use crate::report::tell;
use crate::status::Status;
use crate::stop::Stop;
use gc_base::Steps;
use gc_io::{Folder, Sink};
use std::alloc::Global;
use std::sync::ledger::Ledger;

/// All that the program does: it takes the words after the program's name, reads from a folder,
/// writes the answer to `out`, and where it stops one line to `err`. It gives the status.
///
/// The contract is the whole promise: a call finishes, and then `out` gained exactly the text that
/// is due; or it stops for a cause, with the cause's status and line.
pub fn gcore<F: Folder, S: Sink, T: Sink, L: Ledger>(
    alloc: Global,
    words: &[String],
    folder: &mut F,
    out: &mut S,
    err: &mut T,
    steps: &mut Steps<L>,
) -> Status
    requires out_room { HoldsText (S.room out.old) (F.files folder.old) (command_of (map string_bytes words.now)) }
    requires err_room { HoldsLines (T.room err.old) (F.files folder.old) (command_of (map string_bytes words.now)) }
    ensures ends { Ends
        (record {
          command = command_of (map string_bytes words.now);
          files = F.files folder.old;
          faults_before = F.faults folder.old;
          faults_after = F.faults folder.new;
          out = record { faults_before = S.faults out.old; faults_after = S.faults out.new; taken_before = S.taken out.old; taken_after = S.taken out.new };
        })
        (record { faults_before = T.faults err.old; faults_after = T.faults err.new; taken_before = T.taken err.old; taken_after = T.taken err.new })
        result }
    ensures kept { F.files folder.new ≡ F.files folder.old }
{
    match answer(alloc, words, folder, out, steps) {
        Ok(()) => Status::Done,
        Err(stop) => {
            stop.known();
            tell(&stop, err);
            stop.status()
        }
    }
}

// What the words ask for, or why the call stops.
fn answer<F: Folder, S: Sink, L: Ledger>(
    alloc: Global,
    words: &[String],
    folder: &mut F,
    out: &mut S,
    steps: &mut Steps<L>,
) -> Result<(), Stop>
    requires { HoldsText (S.room out.old) (F.files folder.old) (command_of (map string_bytes words.now)) }
    ensures outcome { Answers
        (record {
          command = command_of (map string_bytes words.now);
          files = F.files folder.old;
          faults_before = F.faults folder.old;
          faults_after = F.faults folder.new;
          out = record { faults_before = S.faults out.old; faults_after = S.faults out.new; taken_before = S.taken out.old; taken_after = S.taken out.new };
        })
        result }
    ensures kept { F.files folder.new ≡ F.files folder.old }
{
    match Command::of(alloc, words) {
        Ok(command) => run(alloc, &command, folder, out, steps),
        Err(CommandRefusal::Usage) => Err(Stop::Usage),
        Err(CommandRefusal::Memory) => Err(Stop::OutOfMemory),
    }
}
