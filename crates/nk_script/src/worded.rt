// Lines that are read word by word.

ghost use Rattle.std.specs.Prelude.{◌≡◌, ◌≤◌, ◌∷◌, [], ℕ, map, codes, replicate, Some, IfSome, IfOk, MatchOption};
ghost use Rattle.nk_script.specs.declared.line.Line.{Line as AnyLine};
ghost use Rattle.nk_base.specs.Pieces.{IsPiece};
ghost use Rattle.nk_script.specs.Lines.{IsHopLine, IsFillLine, IsEndLine, IsListenerLine, IsWindowLine, IsReactionLine, IsControlLine, IsStepLine};

use crate::field::piece_of;
use crate::form::{read_control, read_end, read_hop, read_listener, read_reaction, read_step};
use crate::line::Line;
use crate::number::{read_byte, read_number};
use crate::script::ScheduleItem;
use nk_base::{Memory, Piece};
use nk_plan::ChannelPlan;
use std::alloc::Global;

// `hop ..`
pub(crate) fn read_hop_line(words: &[&str]) -> Option<Line>
    ensures line { IfSome result (IsHopLine (map (λ word. word.now) words.now)) }
    ensures each { (line : AnyLine) → IsHopLine (map (λ word. word.now) words.now) line → result ≡ Some line }
{
    match words {
        ["hop", rest @ ..] => Some(Line::Hop(read_hop(rest)?)),
        _ => None,
    }
}

// `end ..`
pub(crate) fn read_end_line(words: &[&str]) -> Option<Line>
    ensures line { IfSome result (IsEndLine (map (λ word. word.now) words.now)) }
    ensures each { (line : AnyLine) → IsEndLine (map (λ word. word.now) words.now) line → result ≡ Some line }
{
    match words {
        ["end", rest @ ..] => Some(Line::End(read_end(rest)?)),
        _ => None,
    }
}

// `listener ..`
pub(crate) fn read_listener_line(words: &[&str]) -> Option<Line>
    ensures line { IfSome result (IsListenerLine (map (λ word. word.now) words.now)) }
    ensures each { (line : AnyLine) → IsListenerLine (map (λ word. word.now) words.now) line → result ≡ Some line }
{
    match words {
        ["listener", rest @ ..] => Some(Line::Listener(read_listener(rest)?)),
        _ => None,
    }
}

// `window N`
pub(crate) fn read_window_line(words: &[&str]) -> Option<Line>
    ensures line { IfSome result (IsWindowLine (map (λ word. word.now) words.now)) }
    ensures each { (line : AnyLine) → IsWindowLine (map (λ word. word.now) words.now) line → result ≡ Some line }
{
    match *words {
        ["window", size] => Some(Line::Window(read_number(size, 1, ChannelPlan::MOST_WINDOW)?)),
        _ => None,
    }
}

// `at ..`
pub(crate) fn read_reaction_line(words: &[&str]) -> Option<Line>
    ensures line { IfSome result (IsReactionLine (map (λ word. word.now) words.now)) }
    ensures each { (line : AnyLine) → IsReactionLine (map (λ word. word.now) words.now) line → result ≡ Some line }
{
    match words {
        ["at", rest @ ..] => Some(Line::Reaction(read_reaction(rest)?)),
        _ => None,
    }
}

// `when ..`
pub(crate) fn read_control_line(words: &[&str]) -> Option<Line>
    ensures line { IfSome result (IsControlLine (map (λ word. word.now) words.now)) }
    ensures each { (line : AnyLine) → IsControlLine (map (λ word. word.now) words.now) line → result ≡ Some line }
{
    match words {
        ["when", rest @ ..] => Some(Line::Control(read_control(rest)?)),
        _ => None,
    }
}

// `CHANNEL STEP`, of a script with this many channels.
pub(crate) fn read_step_line(words: &[&str], channels: u32) -> Option<Line>
    ensures line { IfSome result (IsStepLine channels (map (λ word. word.now) words.now)) }
    ensures each { (line : AnyLine) → IsStepLine channels (map (λ word. word.now) words.now) line → result ≡ Some line }
{
    match words {
        [channel, step @ ..] => Some(Line::Step(ScheduleItem {
            channel: read_number(channel, 1, channels)?,
            step: read_step(step)?,
        })),
        [] => None,
    }
}

// `fill HH COUNT`
pub(crate) fn read_fill_line(alloc: Global, words: &[&str]) -> Result<Option<Line>, Memory>
    ensures line { IfOk result (λ found. IfSome found (IsFillLine (map (λ word. word.now) words.now))) }
    ensures each { (line : AnyLine) → IsFillLine (map (λ word. word.now) words.now) line → IfOk result (λ found. found ≡ Some line) }
{
    match *words {
        ["fill", byte, count] => read_fill(alloc, byte, count),
        _ => Ok(None),
    }
}

// The words behind `fill`.
fn read_fill(alloc: Global, byte: &str, count: &str) -> Result<Option<Line>, Memory>
    ensures line { IfOk result (λ found. IfSome found (IsFillLine (codes "fill" ∷ byte.now ∷ count.now ∷ []))) }
    ensures each { (line : AnyLine) → IsFillLine (codes "fill" ∷ byte.now ∷ count.now ∷ []) line → IfOk result (λ found. found ≡ Some line) }
{
    let Some(byte) = read_byte(byte.as_bytes()) else {
        return Ok(None);
    };
    let Some(count) = read_number(count, 1, 131_072) else {
        return Ok(None);
    };
    match fill(alloc, byte, count)? {
        Some(piece) => Ok(Some(Line::Piece(piece))),
        None => Ok(None),
    }
}

// The piece of so many equal bytes.
fn fill(alloc: Global, byte: u8, count: u32) -> Result<Option<Piece>, Memory>
    ensures { IfOk result (λ found. MatchOption found (¬ IsPiece (replicate count byte)) (λ piece. (piece ≡ replicate count byte) × IsPiece (replicate count byte))) }
{
    let Ok(bytes) = vec![in alloc; byte; count as usize] else {
        return Err(Memory);
    };
    piece_of(bytes)
}
