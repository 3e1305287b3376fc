//! Boolean files: reading them, and solving them.

#![tactic(auto)]

mod blocks;
pub mod entries;
mod merging;
pub mod reading;
mod solver;
pub mod solving;
mod token;
