//! Tests of the parts by themselves: a file for each crate that is tested, named as the crate without its `nk_`.
//!
//! They are tables: rows of calls and of what each is to answer, over a driver that makes one call of a part. The rows are
//! constants, so that a test is proved at once however many it has; rows has what they share.
#![tactic(auto)]

#[cfg(test)]
mod back_parent;
#[cfg(test)]
mod base;
#[cfg(test)]
mod cancel;
#[cfg(test)]
mod chain;
#[cfg(test)]
mod flow;
#[cfg(test)]
mod hold;
#[cfg(test)]
mod lane;
#[cfg(test)]
mod pipe;
#[cfg(test)]
mod plan;
#[cfg(test)]
mod pump;
#[cfg(test)]
mod queue;
#[cfg(test)]
mod redirect;
#[cfg(test)]
mod retarget;
#[cfg(test)]
mod rows;
#[cfg(test)]
mod segments;
#[cfg(test)]
mod sink;
#[cfg(test)]
mod source;
