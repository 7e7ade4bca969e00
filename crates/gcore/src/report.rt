ghost use Rattle.std.specs.Prelude.{◌≡◌, ◌++◌, codes, length};
ghost use Rattle.gc_base.specs.Sinks.{HasRoom};
ghost use Rattle.gc_io.specs.Pieces.{joined};
ghost use Rattle.gcore.specs.Lines.{line, line_of, refusal_line, spot_line, item_line, digits_line, text_line, sort_line, place_line, numbers_line, counted_line, placed_line};
ghost use Rattle.std.specs.Fmt.{decimal};
ghost use Rattle.gcore.specs.FaultLines.{told_text, why_text};
ghost use Rattle.gcore.specs.SortLines.{rule_text};
ghost use Rattle.gcore.specs.Endings.{Change, Tells};

use crate::certificate_lines::{tell_certificate, tell_rejected};
use crate::placed_fault::PlacedFault;
use crate::stop::Stop;
use crate::text_refusal::TextRefusal;
use gc_base::Place;
use gc_io::{Sink, write_pieces};
use gc_json::{GraphRefusal, Part, Spot};
use gc_sorts::SortRule;
use gc_values::Why;
use itoa::Buffer;

/// Tells a sink the line of a stop. It takes no memory, and a failure of the sink changes nothing else.
pub fn tell<T: Sink>(stop: &Stop, err: &mut T)
    requires { HasRoom (T.room err.old) (length (line_of stop.now)) }
    ensures { Tells (record {
      faults_before = T.faults err.old;
      faults_after = T.faults err.new;
      taken_before = T.taken err.old;
      taken_after = T.taken err.new;
    }) (line_of stop.now) }
{
    match stop {
        Stop::Usage => tell_line(err, b"usage", b""),
        Stop::Unread(file) => tell_line(err, b"cannot read ", file.text().as_bytes()),
        Stop::TooLarge(file) => tell_line(err, b"too large ", file.text().as_bytes()),
        Stop::Refused(refusal, file) => tell_refusal(err, refusal, file.text().as_bytes()),
        Stop::Text(refusal) => tell_text(err, *refusal),
        Stop::Sorts(rule, place) => tell_sorts(err, *rule, *place),
        Stop::Certificate(refusal) => tell_certificate(err, *refusal),
        Stop::Rejected(search, rule) => tell_rejected(err, *search, *rule),
        Stop::Faulted(fault) => tell_fault(err, fault),
        Stop::Unwritten => tell_line(err, b"cannot write", b""),
        Stop::OutOfMemory => tell_line(err, b"out of memory", b""),
    }
}

// The line of a message and a file's word, of which the second may be empty.
pub(crate) fn tell_line<T: Sink>(err: &mut T, message: &[u8], file: &[u8])
    requires { HasRoom (T.room err.old) (length (line (message.now ++ file.now))) }
    ensures { Tells (record {
      faults_before = T.faults err.old;
      faults_after = T.faults err.new;
      taken_before = T.taken err.old;
      taken_after = T.taken err.new;
    }) (line (message.now ++ file.now)) }
{
    tell_pieces(err, &[b"gcore: ", message, file, b"\n"]);
}

// The line of a graph file that breaks a rule.
fn tell_refusal<T: Sink>(err: &mut T, refusal: &GraphRefusal, file: &[u8])
    requires { HasRoom (T.room err.old) (length (refusal_line refusal.now file.now)) }
    ensures { Tells (record {
      faults_before = T.faults err.old;
      faults_after = T.faults err.new;
      taken_before = T.taken err.old;
      taken_after = T.taken err.new;
    }) (refusal_line refusal.now file.now) }
{
    match refusal {
        GraphRefusal::NotJson => tell_file(err, b"G1 NotJson", file),
        GraphRefusal::WrongShape(spot) => tell_spot(err, b"G2 WrongShape", *spot, b"", b"", file),
        GraphRefusal::IdTooLarge(spot) => tell_spot(err, b"G3 IdTooLarge", *spot, b"", b"", file),
        GraphRefusal::IdTwice(spot) => tell_spot(err, b"G4 IdTwice", *spot, b"", b"", file),
        GraphRefusal::NoEnd(spot) => tell_spot(err, b"G5 NoEnd", *spot, b"", b"", file),
        GraphRefusal::BadWalk(spot) => tell_spot(err, b"G6 BadWalk", *spot, b"", b"", file),
        GraphRefusal::BadLabel(spot) => tell_spot(err, b"G7 BadLabel", *spot, b"", b"", file),
        GraphRefusal::BadName(spot) => tell_spot(err, b"G8 BadName", *spot, b"", b"", file),
        GraphRefusal::NotLiteral(spot) => tell_spot(err, b"G9 NotLiteral", *spot, b"", b"", file),
        GraphRefusal::Incoherent(spot, id) => {
            let mut digits = Buffer::new();
            let id = digits.format(id.get()).as_bytes();
            tell_spot(err, b"G10 Incoherent", *spot, b" ", id, file);
        }
        GraphRefusal::TooMany => tell_file(err, b"G11 TooMany", file),
        GraphRefusal::Memory => tell_file(err, b"out of memory", file),
    }
}

// The line of a rule that the file breaks as a whole.
fn tell_file<T: Sink>(err: &mut T, rule: &[u8], file: &[u8])
    requires { HasRoom (T.room err.old) (length (line (rule.now ++ (codes " in " ++ file.now)))) }
    ensures { Tells (record {
      faults_before = T.faults err.old;
      faults_after = T.faults err.new;
      taken_before = T.taken err.old;
      taken_after = T.taken err.new;
    }) (line (rule.now ++ (codes " in " ++ file.now))) }
{
    tell_pieces(err, &[b"gcore: ", rule, b" in ", file, b"\n"]);
}

// The line of a rule that is broken at a spot, with a gap and an identity, which may be empty.
fn tell_spot<T: Sink>(err: &mut T, rule: &[u8], spot: Spot, gap: &[u8], id: &[u8], file: &[u8])
    requires { HasRoom (T.room err.old) (length (spot_line rule.now spot gap.now id.now file.now)) }
    ensures { Tells (record {
      faults_before = T.faults err.old;
      faults_after = T.faults err.new;
      taken_before = T.taken err.old;
      taken_after = T.taken err.new;
    }) (spot_line rule.now spot gap.now id.now file.now) }
{
    match spot.part {
        Part::Whole => {
            tell_pieces(
                err,
                &[b"gcore: ", rule, b" file", gap, id, b" in ", file, b"\n"],
            );
        }
        Part::Nodes => tell_item(err, rule, b" nodes[", spot.index, gap, id, file),
        Part::Edges => tell_item(err, rule, b" edges[", spot.index, gap, id, file),
        Part::Paths => tell_item(err, rule, b" paths[", spot.index, gap, id, file),
    }
}

// The line of a rule that is broken at an item of a list.
fn tell_item<T: Sink>(
    err: &mut T,
    rule: &[u8],
    list: &[u8],
    index: usize,
    gap: &[u8],
    id: &[u8],
    file: &[u8],
)
    requires { HasRoom (T.room err.old) (length (item_line rule.now list.now index gap.now id.now file.now)) }
    ensures { Tells (record {
      faults_before = T.faults err.old;
      faults_after = T.faults err.new;
      taken_before = T.taken err.old;
      taken_after = T.taken err.new;
    }) (item_line rule.now list.now index gap.now id.now file.now) }
{
    let mut digits = Buffer::new();
    tell_digits(
        err,
        rule,
        list,
        digits.format(index).as_bytes(),
        gap,
        id,
        file,
    );
}

fn tell_digits<T: Sink>(
    err: &mut T,
    rule: &[u8],
    list: &[u8],
    index: &[u8],
    gap: &[u8],
    id: &[u8],
    file: &[u8],
)
    requires { HasRoom (T.room err.old) (length (digits_line rule.now list.now index.now gap.now id.now file.now)) }
    ensures { Tells (record {
      faults_before = T.faults err.old;
      faults_after = T.faults err.new;
      taken_before = T.taken err.old;
      taken_after = T.taken err.new;
    }) (digits_line rule.now list.now index.now gap.now id.now file.now) }
{
    tell_pieces(
        err,
        &[
            b"gcore: ", rule, list, index, b"]", gap, id, b" in ", file, b"\n",
        ],
    );
}

// The line of a query file that is refused.
fn tell_text<T: Sink>(err: &mut T, refusal: TextRefusal)
    requires { HasRoom (T.room err.old) (length (text_line refusal)) }
    ensures { Tells (record {
      faults_before = T.faults err.old;
      faults_after = T.faults err.new;
      taken_before = T.taken err.old;
      taken_after = T.taken err.new;
    }) (text_line refusal) }
{
    match refusal {
        TextRefusal::NotUtf8(place) => tell_place(err, b"L1 NotUtf8", place),
        TextRefusal::BadCharacter(place) => tell_place(err, b"L2 BadCharacter", place),
        TextRefusal::OpenText(place) => tell_place(err, b"L3 OpenText", place),
        TextRefusal::NumberTooLarge(place) => tell_place(err, b"L4 NumberTooLarge", place),
        TextRefusal::TooDeep(place) => tell_place(err, b"P1 TooDeep", place),
        TextRefusal::Syntax(place) => tell_place(err, b"P2 Syntax", place),
    }
}

// The line of a query file that breaks a sort rule.
fn tell_sorts<T: Sink>(err: &mut T, rule: SortRule, place: Place)
    requires { HasRoom (T.room err.old) (length (sort_line rule place)) }
    ensures { Tells (record {
      faults_before = T.faults err.old;
      faults_after = T.faults err.new;
      taken_before = T.taken err.old;
      taken_after = T.taken err.new;
    }) (sort_line rule place) }
{
    tell_place(err, rule_text(rule), place);
}

// A sort rule with its code.
fn rule_text(rule: SortRule) -> &'static [u8]
    ensures { result.now ≡ rule_text rule }
{
    match rule {
        SortRule::UnknownGraph => b"S1 UnknownGraph",
        SortRule::UnknownView => b"S2 UnknownView",
        SortRule::UnknownName => b"S3 UnknownName",
        SortRule::SortClash => b"S4 SortClash",
        SortRule::TwiceBound => b"S5 TwiceBound",
        SortRule::SharedOptional => b"S6 SharedOptional",
        SortRule::AllNotProjected => b"S7 AllNotProjected",
        SortRule::LooseEdge => b"S8 LooseEdge",
        SortRule::TwiceGrouped => b"S9 TwiceGrouped",
        SortRule::ViewNeedsEdge => b"S10 ViewNeedsEdge",
        SortRule::KOutOfRange => b"S11 KOutOfRange",
        SortRule::AggregateHere => b"S12 AggregateHere",
        SortRule::ExistsForm => b"S13 ExistsForm",
        SortRule::NameTaken => b"S14 NameTaken",
        SortRule::TooLarge => b"S15 TooLarge",
    }
}

// The line of a rule that a query file breaks at a place.
fn tell_place<T: Sink>(err: &mut T, rule: &[u8], place: Place)
    requires { HasRoom (T.room err.old) (length (place_line rule.now place)) }
    ensures { Tells (record {
      faults_before = T.faults err.old;
      faults_after = T.faults err.new;
      taken_before = T.taken err.old;
      taken_after = T.taken err.new;
    }) (place_line rule.now place) }
{
    let mut line = Buffer::new();
    let mut column = Buffer::new();
    tell_numbers(
        err,
        rule,
        line.format(place.line).as_bytes(),
        column.format(place.column).as_bytes(),
    );
}

fn tell_numbers<T: Sink>(err: &mut T, rule: &[u8], line: &[u8], column: &[u8])
    requires { HasRoom (T.room err.old) (length (numbers_line rule.now line.now column.now)) }
    ensures { Tells (record {
      faults_before = T.faults err.old;
      faults_after = T.faults err.new;
      taken_before = T.taken err.old;
      taken_after = T.taken err.new;
    }) (numbers_line rule.now line.now column.now) }
{
    tell_pieces(err, &[b"gcore: ", rule, b" ", line, b":", column, b"\n"]);
}

// Why a value is undefined, with its code.
fn why_text(why: Why) -> &'static [u8]
    ensures { result.now ≡ why_text why }
{
    match why {
        Why::Overflow => b"F1 Overflow",
        Why::ZeroDivisor => b"F2 ZeroDivisor",
        Why::WrongKind => b"F3 WrongKind",
    }
}

// The line of a fault of evaluation.
fn tell_fault<T: Sink>(err: &mut T, fault: &PlacedFault)
    requires { HasRoom (T.room err.old) (length (placed_line fault.now)) }
    ensures { Tells (record {
      faults_before = T.faults err.old;
      faults_after = T.faults err.new;
      taken_before = T.taken err.old;
      taken_after = T.taken err.new;
    }) (placed_line fault.now) }
{
    match fault {
        PlacedFault::Undefined(why, place, row) => {
            tell_number(err, why_text(*why), *place, b" row ", *row);
        }
        PlacedFault::BadCost(place, walk) => {
            tell_behind(err, b"F4 BadCost", *place, b" walk ", walk.as_slice());
        }
        PlacedFault::CostPastRange(place, row) => {
            tell_number(err, b"F5 CostPastRange", *place, b" row ", *row);
        }
        PlacedFault::IdsSpent(place, needed) => {
            tell_number(err, b"F6 IdsSpent", *place, b" needed ", *needed);
        }
    }
}

// The line of a code at a place, with a word and a number.
fn tell_number<T: Sink>(err: &mut T, code: &[u8], place: Place, word: &[u8], number: u64)
    requires { HasRoom (T.room err.old) (length (line (told_text code.now place word.now (decimal number)))) }
    ensures { Tells (record {
      faults_before = T.faults err.old;
      faults_after = T.faults err.new;
      taken_before = T.taken err.old;
      taken_after = T.taken err.new;
    }) (line (told_text code.now place word.now (decimal number))) }
{
    let mut digits = Buffer::new();
    tell_behind(err, code, place, word, digits.format(number).as_bytes());
}

// The line of a code at a place, with a word and what stands behind it.
fn tell_behind<T: Sink>(err: &mut T, code: &[u8], place: Place, word: &[u8], behind: &[u8])
    requires { HasRoom (T.room err.old) (length (line (told_text code.now place word.now behind.now))) }
    ensures { Tells (record {
      faults_before = T.faults err.old;
      faults_after = T.faults err.new;
      taken_before = T.taken err.old;
      taken_after = T.taken err.new;
    }) (line (told_text code.now place word.now behind.now)) }
{
    let mut line = Buffer::new();
    let mut column = Buffer::new();
    tell_counted(
        err,
        code,
        line.format(place.line).as_bytes(),
        column.format(place.column).as_bytes(),
        word,
        behind,
    );
}

fn tell_counted<T: Sink>(
    err: &mut T,
    code: &[u8],
    line: &[u8],
    column: &[u8],
    word: &[u8],
    behind: &[u8],
)
    requires { HasRoom (T.room err.old) (length (counted_line code.now line.now column.now word.now behind.now)) }
    ensures { Tells (record {
      faults_before = T.faults err.old;
      faults_after = T.faults err.new;
      taken_before = T.taken err.old;
      taken_after = T.taken err.new;
    }) (counted_line code.now line.now column.now word.now behind.now) }
{
    tell_pieces(
        err,
        &[
            b"gcore: ", code, b" ", line, b":", column, word, behind, b"\n",
        ],
    );
}

pub(crate) fn tell_pieces<T: Sink>(err: &mut T, pieces: &[&[u8]])
    requires { HasRoom (T.room err.old) (length (joined pieces.now)) }
    ensures { Tells (record {
      faults_before = T.faults err.old;
      faults_after = T.faults err.new;
      taken_before = T.taken err.old;
      taken_after = T.taken err.new;
    }) (joined pieces.now) }
{
    match write_pieces(err, pieces) {
        Ok(()) => {}
        Err(_) => {}
    }
}
