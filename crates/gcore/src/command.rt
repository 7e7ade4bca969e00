ghost use Rattle.std.specs.Prelude.{◌≡◌, ◌∷◌, map, string_bytes, IfOk};
ghost use Rattle.gcore.specs.CommandLines.{KeepsLimits, IsCommand, IsForm, IsSession, IsCheck};

use crate::make::make_of;
use crate::pair::{PairList, graphs_of};
use gc_base::{MakeKind, Memory, Str};
use std::alloc::Global;

/// What a command line asks for. The graph files are one to eight, of which the first is the
/// default graph.
#[derive(Debug, Drop)]
pub enum Command {
    /// Runs a query file on graph files, and writes the text of each answer.
    Run {
        query: Str,
        graphs: PairList,
    },
    /// Runs the same, and writes one certificate document.
    Cert {
        query: Str,
        graphs: PairList,
    },
    /// Runs the same, and writes the plans.
    Explain {
        query: Str,
        graphs: PairList,
    },
    /// Checks a certificate document.
    Check {
        document: Str,
    },
    /// Makes a graph from numbers, and writes one line about the answer of a fixed query.
    Make {
        kind: MakeKind,
        size: u32,
        start: u32,
    },
}

/// Why words are no command.
#[derive(Clone, Copy, Debug, PartialEq, Eq)]
pub enum CommandRefusal {
    /// They have none of the forms.
    Usage,
    /// Want of memory.
    Memory,
}

impl From<Memory> for CommandRefusal {
    ghost use Rattle.gcore.specs.declared.command.CommandRefusal.TheVariants.{Memory as OutOfMemory};

    ghost from_gives = { λ _ refusal. refusal ≡ OutOfMemory };

    fn from(_memory: Memory) -> CommandRefusal {
        CommandRefusal::Memory
    }
}

impl Command {
    /// The command of the words after the program's name, or `Usage` exactly where they have none
    /// of the forms.
    pub fn of(alloc: Global, words: &[String]) -> Result<Command, CommandRefusal>
        ensures command { IsCommand (map string_bytes words.now) result }
        ensures limits { IfOk result KeepsLimits }
    {
        match words.split_first() {
            None => Err(CommandRefusal::Usage),
            Some((verb, words)) => Command::of_form(alloc, verb.as_str(), words),
        }
    }

    // The command of a first word and the words behind it.
    fn of_form(alloc: Global, verb: &str, words: &[String]) -> Result<Command, CommandRefusal>
        ensures { IsForm verb.now (map string_bytes words.now) result }
    {
        if verb == "run" {
            let Session { query, graphs } = Session::of(alloc, words)?;
            Ok(Command::Run { query, graphs })
        } else if verb == "cert" {
            let Session { query, graphs } = Session::of(alloc, words)?;
            Ok(Command::Cert { query, graphs })
        } else if verb == "explain" {
            let Session { query, graphs } = Session::of(alloc, words)?;
            Ok(Command::Explain { query, graphs })
        } else if verb == "check" {
            check_of(alloc, words)
        } else if verb == "make" {
            make_of(words)
        } else {
            Err(CommandRefusal::Usage)
        }
    }
}

// A query file and graph files.
#[derive(Debug, Drop)]
struct Session {
    query: Str,
    graphs: PairList,
}

impl Session {
    // `Q N=F ..`.
    fn of(alloc: Global, words: &[String]) -> Result<Session, CommandRefusal>
        ensures { IsSession (map string_bytes words.now) result }
    {
        match words.split_first() {
            None => Err(CommandRefusal::Usage),
            Some((query, words)) => Session::of_query(alloc, query.as_str(), words),
        }
    }

    fn of_query(alloc: Global, query: &str, words: &[String]) -> Result<Session, CommandRefusal>
        ensures { IsSession (query.now ∷ map string_bytes words.now) result }
    {
        if query.is_empty() {
            return Err(CommandRefusal::Usage);
        }
        let graphs = graphs_of(alloc, words)?;
        let query = Str::of(alloc, query)?;
        Ok(Session { query, graphs })
    }
}

// `check C`.
fn check_of(alloc: Global, words: &[String]) -> Result<Command, CommandRefusal>
    ensures { IsCheck (map string_bytes words.now) result }
{
    if words.len() != 1 || words[0].as_str().is_empty() {
        return Err(CommandRefusal::Usage);
    }
    let document = Str::of(alloc, words[0].as_str())?;
    Ok(Command::Check { document })
}
