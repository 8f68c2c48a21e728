//! Tests of what threads share: a file for each part that is tested.
//!
//! They are tables: rows of calls and of what each is to answer, over a driver that makes one call of a part.
#![tactic(auto)]

#[cfg(test)]
mod child_book;
#[cfg(test)]
mod sink_book;
