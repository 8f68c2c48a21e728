//! Tests of what is read and printed: a file for each crate that is tested, named as the crate without its `nk_` (generator for
//! nk_gen, whose name is a word of the language), or begun with that name. rows and sample are what they share.
//!
//! They are tables of texts, and of what each is to be read as or printed as.
#![tactic(auto)]

#[cfg(test)]
mod generator;
#[cfg(test)]
mod io;
#[cfg(test)]
mod rows;
#[cfg(test)]
mod sample;
#[cfg(test)]
mod script;
#[cfg(test)]
mod script_limits;
#[cfg(test)]
mod script_parts;
#[cfg(test)]
mod trace;
#[cfg(test)]
mod trace_lines;
#[cfg(test)]
mod wire;
#[cfg(test)]
mod wire_cuts;
#[cfg(test)]
mod wire_frames;
#[cfg(test)]
mod wire_rests;
#[cfg(test)]
mod words;
