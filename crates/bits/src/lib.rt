//! Fields of bits in a slice of bytes, the most significant bit first: reading and writing.

#![tactic(auto)]

mod cursor;
mod file;
mod front;
mod laws;
mod reader;
mod writer;

pub use file::Cursor;
pub use front::deliver;
pub use laws::writing_stands;
pub use reader::BitReader;
pub use writer::{BitWriter, Full};
