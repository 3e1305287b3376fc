//! Rows: records side by side in a place of fixed size, in order.

#![tactic(auto)]

mod row;

pub use row::{NoPlace, Row};
