// What a line says, by its first word.

ghost use Rattle.std.specs.Prelude.{◌≡◌, ◌≤◌, ℕ, List, Some, IfSome, IfOk};
ghost use Rattle.nk_script.specs.declared.line.Line.{Line as AnyLine};
ghost use Rattle.nk_script.specs.Texts.{words};
ghost use Rattle.nk_script.specs.Lines.{IsLineOf, IsHopLine, IsFillLine, IsEndLine, IsListenerLine, IsWindowLine, IsReactionLine, IsControlLine, IsStepLine};

use crate::line::{Keyword, Line};
use crate::placed::PlacedText;
use crate::rest::{read_field_line, read_hex_line, read_piece_line, read_trailer_line};
use crate::text::words_of;
use crate::worded::{
    read_control_line, read_end_line, read_fill_line, read_hop_line, read_listener_line,
    read_reaction_line, read_step_line, read_window_line,
};
use nk_base::Memory;
use std::alloc::Global;

// The line, where it has a form of this keyword; of a script with this many channels.
pub(crate) fn read_line(
    alloc: Global,
    keyword: Keyword,
    text: &PlacedText,
    channels: u32,
) -> Result<Option<Line>, Memory>
    ensures line { IfOk result (λ found. IfSome found (IsLineOf keyword channels text.now)) }
    ensures each { (line : AnyLine) → IsLineOf keyword channels text.now line → IfOk result (λ found. found ≡ Some line) }
{
    let bytes = text.as_slice();
    match keyword {
        Keyword::Script => Ok(read_fixed(bytes, b"script 1", Line::Script)),
        Keyword::Channel => Ok(read_fixed(bytes, b"channel", Line::Channel)),
        Keyword::Retargetable => Ok(read_fixed(bytes, b"retargetable no", Line::NotRetargetable)),
        Keyword::Start => Ok(read_fixed(bytes, b"start back", Line::StartBack)),
        Keyword::Closed => Ok(read_fixed(bytes, b"closed", Line::Closed)),
        Keyword::Schedule => Ok(read_fixed(bytes, b"schedule", Line::Schedule)),
        Keyword::Field => read_field_line(alloc, bytes),
        Keyword::Trailer => read_trailer_line(alloc, bytes),
        Keyword::Piece => read_piece_line(text),
        Keyword::Hex => read_hex_line(alloc, bytes),
        Keyword::Hop => read_hops(alloc, bytes),
        Keyword::Fill => read_fills(alloc, bytes),
        Keyword::End => read_ends(alloc, bytes),
        Keyword::Listener => read_listeners(alloc, bytes),
        Keyword::Window => read_windows(alloc, bytes),
        Keyword::At => read_reactions(alloc, bytes),
        Keyword::When => read_controls(alloc, bytes),
        Keyword::Number => read_steps(alloc, bytes, channels),
    }
}

// The line, where it is this text.
fn read_fixed(text: &[u8], form: &[u8], line: Line) -> Option<Line>
    ensures line { IfSome result (λ found. (text.now ≡ form.now) × (found ≡ line)) }
    ensures each { text.now ≡ form.now → result ≡ Some line }
{
    (text == form).then_some(line)
}

// `hop ..`
fn read_hops(alloc: Global, text: &[u8]) -> Result<Option<Line>, Memory>
    ensures line { IfOk result (λ found. IfSome found (IsHopLine (words text.now))) }
    ensures each { (line : AnyLine) → IsHopLine (words text.now) line → IfOk result (λ found. found ≡ Some line) }
{
    match words_of(alloc, text)? {
        Some(words) => Ok(read_hop_line(&words)),
        None => Ok(None),
    }
}

// `end ..`
fn read_ends(alloc: Global, text: &[u8]) -> Result<Option<Line>, Memory>
    ensures line { IfOk result (λ found. IfSome found (IsEndLine (words text.now))) }
    ensures each { (line : AnyLine) → IsEndLine (words text.now) line → IfOk result (λ found. found ≡ Some line) }
{
    match words_of(alloc, text)? {
        Some(words) => Ok(read_end_line(&words)),
        None => Ok(None),
    }
}

// `listener ..`
fn read_listeners(alloc: Global, text: &[u8]) -> Result<Option<Line>, Memory>
    ensures line { IfOk result (λ found. IfSome found (IsListenerLine (words text.now))) }
    ensures each { (line : AnyLine) → IsListenerLine (words text.now) line → IfOk result (λ found. found ≡ Some line) }
{
    match words_of(alloc, text)? {
        Some(words) => Ok(read_listener_line(&words)),
        None => Ok(None),
    }
}

// `window N`
fn read_windows(alloc: Global, text: &[u8]) -> Result<Option<Line>, Memory>
    ensures line { IfOk result (λ found. IfSome found (IsWindowLine (words text.now))) }
    ensures each { (line : AnyLine) → IsWindowLine (words text.now) line → IfOk result (λ found. found ≡ Some line) }
{
    match words_of(alloc, text)? {
        Some(words) => Ok(read_window_line(&words)),
        None => Ok(None),
    }
}

// `at ..`
fn read_reactions(alloc: Global, text: &[u8]) -> Result<Option<Line>, Memory>
    ensures line { IfOk result (λ found. IfSome found (IsReactionLine (words text.now))) }
    ensures each { (line : AnyLine) → IsReactionLine (words text.now) line → IfOk result (λ found. found ≡ Some line) }
{
    match words_of(alloc, text)? {
        Some(words) => Ok(read_reaction_line(&words)),
        None => Ok(None),
    }
}

// `when N ..`
fn read_controls(alloc: Global, text: &[u8]) -> Result<Option<Line>, Memory>
    ensures line { IfOk result (λ found. IfSome found (IsControlLine (words text.now))) }
    ensures each { (line : AnyLine) → IsControlLine (words text.now) line → IfOk result (λ found. found ≡ Some line) }
{
    match words_of(alloc, text)? {
        Some(words) => Ok(read_control_line(&words)),
        None => Ok(None),
    }
}

// `fill HH COUNT`
fn read_fills(alloc: Global, text: &[u8]) -> Result<Option<Line>, Memory>
    ensures line { IfOk result (λ found. IfSome found (IsFillLine (words text.now))) }
    ensures each { (line : AnyLine) → IsFillLine (words text.now) line → IfOk result (λ found. found ≡ Some line) }
{
    match words_of(alloc, text)? {
        Some(words) => read_fill_line(alloc, &words),
        None => Ok(None),
    }
}

// `CHANNEL STEP`
fn read_steps(alloc: Global, text: &[u8], channels: u32) -> Result<Option<Line>, Memory>
    ensures line { IfOk result (λ found. IfSome found (IsStepLine channels (words text.now))) }
    ensures each { (line : AnyLine) → IsStepLine channels (words text.now) line → IfOk result (λ found. found ≡ Some line) }
{
    match words_of(alloc, text)? {
        Some(words) => Ok(read_step_line(&words, channels)),
        None => Ok(None),
    }
}
