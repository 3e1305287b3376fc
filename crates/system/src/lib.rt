//! System files: reading them, and walking through accepted ones.

#![tactic(auto)]

mod bodies;
pub mod header;
mod headers;
pub mod instance;
mod outline;
pub mod places;
pub mod reading;
mod term;
pub mod walk;

pub use terms::{occur, value, view};

/// How deep terms may nest; a parameter, variable or value counts 1.
pub const DEPTH: u8 = 32;

/// The longest system file, in bytes.
pub const LONGEST: usize = 8192;
