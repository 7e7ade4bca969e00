ghost use Rattle.std.specs.Prelude.{◌≡◌};
ghost use Rattle.gcore.specs.CertificateLines.{IsHeldCertificate};
ghost use Rattle.gcore.specs.GraphLines.{IsHeld, IsHeldSpot};
ghost use Rattle.gcore.specs.Lines.{line_of, status_of};
ghost use Rattle.gcore.specs.TextLines.{IsHeldText, IsHeldPlace};

use crate::command::CommandRefusal;
use crate::placed_fault::{PlacedFault, known_place};
use crate::status::Status;
use crate::text_refusal::TextRefusal;
use gc_base::{Memory, Place, Str};
use gc_cert_text::CertRefusal;
use gc_check::KRule;
use gc_io::SinkFault;
use gc_json::{GraphRefusal, Spot};
use gc_lex::LexRefusal;
use gc_sorts::SortRule;

/// Why a call ends without being done, with the word of the file that it is about.
#[derive(Debug, Drop)]
pub enum Stop {
    /// The words have none of the forms.
    Usage,
    /// A file can't be read.
    Unread(Str),
    /// A file is larger than its limit.
    TooLarge(Str),
    /// A graph file breaks a rule.
    Refused(GraphRefusal, Str),
    /// The query file is refused.
    Text(TextRefusal),
    /// The query file breaks a sort rule at a place.
    Sorts(SortRule, Place),
    /// A document is no certificate.
    Certificate(CertRefusal),
    /// A search of a certificate, by its number from 0, breaks a rule.
    Rejected(u32, KRule),
    /// A statement has a fault.
    Faulted(PlacedFault),
    /// The output failed.
    Unwritten,
    /// Want of memory.
    OutOfMemory,
}

impl Stop {
    /// The status of the call.
    pub fn status(&self) -> Status
        ensures { result ≡ status_of self.now }
    {
        match self {
            Stop::Usage => Status::Usage,
            Stop::Unread(_) => Status::Read,
            Stop::TooLarge(_) => Status::Size,
            Stop::Refused(_, _) => Status::Graph,
            Stop::Text(_) => Status::Text,
            Stop::Sorts(_, _) => Status::Sorts,
            Stop::Certificate(_) => Status::Rejected,
            Stop::Rejected(_, _) => Status::Rejected,
            Stop::Faulted(_) => Status::Fault,
            Stop::Unwritten => Status::Write,
            Stop::OutOfMemory => Status::Memory,
        }
    }
}

impl Stop {
    ghost use Rattle.gcore.specs.GraphSteps.{IsHeldStop};

    /// That it is as the machine holds it, for a proof.
    pub fn known(&self)
        ensures { IsHeldStop self.now }
    {
        match self {
            Stop::Refused(refusal, _) => known_refusal(refusal),
            Stop::Text(refusal) => known_text(*refusal),
            Stop::Sorts(_, place) => known_place(*place),
            Stop::Certificate(refusal) => known_certificate(*refusal),
            Stop::Rejected(search, _) => {
                let _search = *search;
            }
            Stop::Faulted(fault) => fault.known(),
            _ => {}
        }
    }
}

// That a refusal is as the machine holds it, for a proof.
fn known_refusal(refusal: &GraphRefusal)
    ensures { IsHeld refusal.now }
{
    match refusal {
        GraphRefusal::NotJson => {}
        GraphRefusal::WrongShape(spot) => known_spot(*spot),
        GraphRefusal::IdTooLarge(spot) => known_spot(*spot),
        GraphRefusal::IdTwice(spot) => known_spot(*spot),
        GraphRefusal::NoEnd(spot) => known_spot(*spot),
        GraphRefusal::BadWalk(spot) => known_spot(*spot),
        GraphRefusal::BadLabel(spot) => known_spot(*spot),
        GraphRefusal::BadName(spot) => known_spot(*spot),
        GraphRefusal::NotLiteral(spot) => known_spot(*spot),
        GraphRefusal::Incoherent(spot, id) => {
            known_spot(*spot);
            let _number = id.get();
        }
        GraphRefusal::TooMany => {}
        GraphRefusal::Memory => {}
    }
}

// That a spot is as the machine holds it, for a proof.
fn known_spot(spot: Spot)
    ensures { IsHeldSpot spot }
{
    let _index = spot.index;
}

// That a refusal of a query file is as the machine holds it, for a proof.
fn known_text(refusal: TextRefusal)
    ensures { IsHeldText refusal }
{
    match refusal {
        TextRefusal::NotUtf8(place) => known_place(place),
        TextRefusal::BadCharacter(place) => known_place(place),
        TextRefusal::OpenText(place) => known_place(place),
        TextRefusal::NumberTooLarge(place) => known_place(place),
        TextRefusal::TooDeep(place) => known_place(place),
        TextRefusal::Syntax(place) => known_place(place),
    }
}

// That a refusal of a document is as the machine holds it, for a proof.
fn known_certificate(refusal: CertRefusal)
    ensures { IsHeldCertificate refusal }
{
    match refusal {
        CertRefusal::NotJson => {}
        CertRefusal::WrongShape => {}
        CertRefusal::BadGraph(search) => {
            let _search = search;
        }
        CertRefusal::BadExpression(search) => {
            let _search = search;
        }
        CertRefusal::BadSegment(search) => {
            let _search = search;
        }
        CertRefusal::BadNumber(search) => {
            let _search = search;
        }
        CertRefusal::Memory => {}
    }
}

impl From<Memory> for Stop {
    ghost use Rattle.std.specs.Prelude.{◌≡◌};
    ghost use Rattle.gcore.specs.declared.stop.Stop.TheVariants.{OutOfMemory};

    ghost from_gives = { λ _ stop. stop ≡ OutOfMemory };

    fn from(_memory: Memory) -> Stop {
        Stop::OutOfMemory
    }
}

impl From<SinkFault> for Stop {
    ghost use Rattle.std.specs.Prelude.{◌≡◌};
    ghost use Rattle.gcore.specs.declared.stop.Stop.TheVariants.{Unwritten};

    ghost from_gives = { λ _ stop. stop ≡ Unwritten };

    fn from(_fault: SinkFault) -> Stop {
        Stop::Unwritten
    }
}

impl From<CommandRefusal> for Stop {
    ghost use Rattle.std.specs.Prelude.{◌≡◌};
    ghost use Rattle.gcore.specs.Outcomes.{stop_of_command};

    ghost from_gives = { λ refusal stop. stop ≡ stop_of_command refusal };

    fn from(refusal: CommandRefusal) -> Stop {
        match refusal {
            CommandRefusal::Usage => Stop::Usage,
            CommandRefusal::Memory => Stop::OutOfMemory,
        }
    }
}

impl From<LexRefusal> for Stop {
    ghost use Rattle.std.specs.Prelude.{◌≡◌};
    ghost use Rattle.gcore.specs.QueryFiles.{stop_of_lex};

    ghost from_gives = { λ refusal stop. stop ≡ stop_of_lex refusal };

    fn from(refusal: LexRefusal) -> Stop {
        match refusal {
            LexRefusal::NotUtf8(place) => Stop::Text(TextRefusal::NotUtf8(place)),
            LexRefusal::BadCharacter(place) => Stop::Text(TextRefusal::BadCharacter(place)),
            LexRefusal::OpenText(place) => Stop::Text(TextRefusal::OpenText(place)),
            LexRefusal::NumberTooLarge(place) => Stop::Text(TextRefusal::NumberTooLarge(place)),
            LexRefusal::Memory => Stop::OutOfMemory,
        }
    }
}
