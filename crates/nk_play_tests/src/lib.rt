//! Tests of whole loads: of the two halves of a channel, of the world and of the program's run. A file for each crate that
//! is tested, named as the crate without its `nk_`, or begun with that name.
//!
//! They are tables: steps and what is entered and shown, scripts and what is printed.
#![tactic(auto)]

#[cfg(test)]
mod child;
#[cfg(test)]
mod child_driver;
#[cfg(test)]
mod parent;
#[cfg(test)]
mod run_driver;
#[cfg(test)]
mod run_frames;
#[cfg(test)]
mod run_hostile;
#[cfg(test)]
mod run_log;
#[cfg(test)]
mod run_made;
#[cfg(test)]
mod run_memory;
#[cfg(test)]
mod run_page;
#[cfg(test)]
mod run_play;
#[cfg(test)]
mod run_words;
#[cfg(test)]
mod scripts;
#[cfg(test)]
mod walk;
#[cfg(test)]
mod world;
