//! An algebra and a pass written outside the library, and a verdict by way of them.
//!
//! The code uses what is public alone. That the verdict is the loaded system's follows from contracts alone; that the pass keeps its
//! contract cites lemmas of the library besides.

#![tactic(auto)]

pub mod lamps;
mod pieces;
pub mod repeats;
pub mod verdict;
