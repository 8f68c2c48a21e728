// The printed text: the report of what a run leaves of its channels, with their journals where a log is asked for,
// and the texts of messages and journal entries for whoever else prints them.
#![tactic(auto)]

ghost use Rattle.std.specs.Prelude.{◌≡◌, ◌≢◌, All, IfOk};
ghost use Rattle.nk_trace.specs.Report.{text};

mod channel;
mod journal;
mod message;
mod printer;

use nk_base::Memory;
use nk_plan::{Ending, Ends};
pub use printer::Printer;
use std::alloc::Global;

/// The report of these ends, none of which is still going: for each channel its number, what its listener saw, its
/// readers and how it ended, and with `log` its journals. This project's own.
pub fn report(alloc: Global, ends: &Ends, log: bool) -> Result<Vec<u8>, Memory>
    requires { All (λ end. end.ending ≢ Ending.Going) ends.now }
    ensures { IfOk result (λ bytes. bytes.items ≡ text ends.now log) }
{
    let mut printer = Printer::new(alloc);
    printer.channels(ends, log)?;
    Ok(printer.into_bytes())
}
