// A script is made line by line.

ghost use Rattle.std.specs.Prelude.{◌≡◌, ◌++◌, ◌≤◌, ◌+◌, ◌*◌, IfOk, OnOk};
ghost use Rattle.nk_gen.specs.Draws.{next, behind};
ghost use Rattle.nk_gen.specs.Made.{redirect_lines, fill_line, fill_lines, listener_line, worker_line, retarget_line, response_lines, head_lines, body_lines, behind_body, option_lines, channel_lines, behind_channel, made_script};

use crate::draws::Draws;
use nk_base::Memory;
use nk_trace::Printer;
use std::alloc::Global;

/// Prints so many redirects that the page allows.
#[tactic(auto, using(crate::proofs::Lines::none_left))]
fn redirects(printer: &mut Printer, count: u32) -> Result<(), Memory>
    ensures { OnOk result (printer.new ≡ printer.old ++ redirect_lines count) }
{
    for _ in 0..count {
        printer.word("hop redirect 302 allow\n")?;
    }
    Ok(())
}

/// Prints a piece of one byte, repeated.
fn fill(printer: &mut Printer, byte: u8, count: u32) -> Result<(), Memory>
    ensures { OnOk result (printer.new ≡ printer.old ++ fill_line byte count) }
{
    printer.word("fill ")?;
    printer.kind(byte)?;
    printer.word(" ")?;
    printer.decimal(u64::from(count))?;
    printer.line_feed()
}

/// Prints so many pieces.
#[tactic(auto, using(crate::proofs::Lines::none_left))]
fn fills(printer: &mut Printer, draws: &mut Draws, count: u32) -> Result<(), Memory>
    ensures text { OnOk result (printer.new ≡ printer.old ++ fill_lines count draws.old.0) }
    ensures draws { OnOk result (draws.new.0 ≡ behind (2 * count) draws.old.0) }
{
    for _ in 0..count {
        let byte = draws.draw(256) as u8;
        let size = 1 + draws.draw(8_192);
        fill(printer, byte, size)?;
    }
    Ok(())
}

/// Prints a response.
fn response(printer: &mut Printer, draws: &mut Draws, pieces: u32) -> Result<(), Memory>
    ensures text { OnOk result (printer.new ≡ printer.old ++ response_lines pieces draws.old.0) }
    ensures draws { OnOk result (draws.new.0 ≡ behind (2 * pieces) draws.old.0) }
{
    printer.word("hop response 200\n")?;
    fills(printer, draws, pieces)?;
    printer.word("end ok\n")
}

/// Prints the listener, where it is a pipe.
fn listener(printer: &mut Printer, draw: u32) -> Result<(), Memory>
    ensures { OnOk result (printer.new ≡ printer.old ++ listener_line draw) }
{
    if draw == 1 {
        printer.word("listener pipe 4096 16 2\n")?;
    }
    Ok(())
}

/// Prints that the data goes to this worker.
fn worker(printer: &mut Printer, worker: u32) -> Result<(), Memory>
    ensures { OnOk result (printer.new ≡ printer.old ++ worker_line worker) }
{
    printer.word("at start retarget w")?;
    printer.decimal(u64::from(worker))?;
    printer.line_feed()
}

/// Prints where the data goes, where that is a worker.
fn retarget(printer: &mut Printer, draw: u32) -> Result<(), Memory>
    ensures { OnOk result (printer.new ≡ printer.old ++ retarget_line draw) }
{
    if draw == 0 {
        return Ok(());
    }
    worker(printer, draw)
}

/// Prints that a channel begins, and its redirects.
#[tactic(auto, unfolding(crate::specs::Made::head_lines))]
fn head(printer: &mut Printer, draws: &mut Draws) -> Result<(), Memory>
    ensures text { OnOk result (printer.new ≡ printer.old ++ head_lines draws.old.0) }
    ensures draws { OnOk result (draws.new.0 ≡ next draws.old.0) }
{
    printer.word("channel\n")?;
    let hops = draws.draw(4);
    redirects(printer, hops)
}

/// Prints the response of a channel.
#[tactic(auto, unfolding(crate::specs::Made::body_lines, crate::specs::Made::behind_body))]
fn body(printer: &mut Printer, draws: &mut Draws) -> Result<(), Memory>
    ensures text { OnOk result (printer.new ≡ printer.old ++ body_lines draws.old.0) }
    ensures draws { OnOk result (draws.new.0 ≡ behind_body draws.old.0) }
{
    let pieces = 1 + draws.draw(64);
    response(printer, draws, pieces)
}

/// Prints the options of a channel.
#[tactic(auto, unfolding(crate::specs::Made::option_lines))]
fn options(printer: &mut Printer, draws: &mut Draws) -> Result<(), Memory>
    ensures text { OnOk result (printer.new ≡ printer.old ++ option_lines draws.old.0) }
    ensures draws { OnOk result (draws.new.0 ≡ behind 2 draws.old.0) }
{
    let pipe = draws.draw(2);
    listener(printer, pipe)?;
    let target = draws.draw(5);
    retarget(printer, target)
}

/// Prints a channel.
fn channel(printer: &mut Printer, draws: &mut Draws) -> Result<(), Memory>
    ensures text { OnOk result (printer.new ≡ printer.old ++ channel_lines draws.old.0) }
    ensures draws { OnOk result (draws.new.0 ≡ behind_channel draws.old.0) }
{
    head(printer, draws)?;
    body(printer, draws)?;
    options(printer, draws)
}

/// The script that the number makes: 16 to 32 channels, each of at most 64 pieces of at most 8,192 bytes. It is a text
/// of the script's grammar. This project's own.
#[tactic(auto, using(crate::proofs::Lines::none_left))]
pub fn make_script(alloc: Global, n: u32) -> Result<Vec<u8>, Memory>
    ensures { IfOk result (λ text. text.items ≡ made_script n) }
{
    let mut printer = Printer::new(alloc);
    let mut draws = Draws(n);
    printer.word("script 1\n")?;
    let channels = 16 + draws.draw(17);
    for _ in 0..channels {
        channel(&mut printer, &mut draws)?;
    }
    Ok(printer.into_bytes())
}
