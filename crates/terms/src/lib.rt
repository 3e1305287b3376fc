//! Terms in a file, read where they stand: views of them, their known values, and the parameters that occur in them.

#![tactic(auto)]

pub mod occur;
pub mod value;
pub mod view;
