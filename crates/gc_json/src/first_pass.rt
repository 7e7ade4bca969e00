//! The first pass over a text: it is JSON, and an object, and has a frame.
ghost use Rattle.std.specs.Prelude.{◌≡◌, ◌∷◌, option_map};
ghost use Rattle.json.specs.Lex.{tokens};
ghost use Rattle.json.specs.Reads.{token_of};
ghost use Rattle.gc_json.specs.Entries.{entries_data, object_entries};
ghost use Rattle.gc_json.specs.Frames.{frame_of, text_frame, refusal_of_other};
ghost use Rattle.gc_json.specs.Reading.{Gives, or_refused};
ghost use Rattle.gc_json.specs.Tokens.{value_data, whole_text};
ghost use Rattle.gc_json.specs.declared.refusal.GraphRefusal.TheVariants as refusal;

use crate::checking::check_token;
use crate::fault::Failure;
use crate::finding::opens_object;
use crate::frame::{Frame, frame_of_tokens};
use crate::refusal::{GraphRefusal, WHOLE};
use json::{Reader, Scratch, Token};
use std::alloc::Global;

// The frame of a text.
pub(crate) fn frame_of_text(
    alloc: Global,
    text: &str,
    scratch: &mut Scratch,
) -> Result<Frame, Failure<GraphRefusal>>
    ensures { Gives (λ frame. frame) (text_frame (object_entries (tokens text.now))) result }
{
    match Reader::new(text, scratch) {
        Ok(mut reader) => frame_of_reader(alloc, &mut reader),
        Err(_) => Err(Failure::Memory),
    }
}

// The frame of the tokens of a text.
fn frame_of_reader(alloc: Global, reader: &mut Reader<'_>) -> Result<Frame, Failure<GraphRefusal>>
    ensures { Gives (λ frame. frame) (text_frame (object_entries reader.old)) result }
{
    let Some(token) = reader.next() else {
        return Err(Failure::Refused(GraphRefusal::NotJson));
    };
    if opens_object(&token) {
        whole_frame(alloc, reader)
    } else {
        Err(Failure::Refused(refusal_of_other(token, reader)))
    }
}

// The frame of an object after its brace, where nothing follows it.
fn whole_frame(alloc: Global, reader: &mut Reader<'_>) -> Result<Frame, Failure<GraphRefusal>>
    ensures { Gives (λ frame. frame) (or_refused refusal.NotJson (option_map frame_of (whole_text (entries_data 126 reader.old)))) result }
{
    let frame = frame_of_tokens(alloc, reader, 126)?;
    if reader.next().is_some() {
        return Err(Failure::Refused(GraphRefusal::NotJson));
    }
    Ok(frame)
}

// Why a text is refused that begins with another token.
fn refusal_of_other(token: Token<'_>, reader: &mut Reader<'_>) -> GraphRefusal
    ensures { result ≡ refusal_of_other (whole_text (value_data 127 (token_of token.entry ∷ reader.old))) }
{
    if check_token(token, reader, 127).is_err() {
        return GraphRefusal::NotJson;
    }
    if reader.next().is_some() {
        return GraphRefusal::NotJson;
    }
    GraphRefusal::WrongShape(WHOLE)
}
