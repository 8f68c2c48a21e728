//! The laws over the printed text: the report is lines, and the parts of its channels, and what its lines tell. The crate holds
//! nothing that runs; who reads a report or a log stands on it.
#![tactic(auto)]

mod laws;

pub use laws::{
    blank_law, block_law, digits_law, entry_line_law, journal_line_law, lines_law, log_law,
    message_text_law, parts_law, plain_text_law, range_law, report_law, step_law, words_law,
};
