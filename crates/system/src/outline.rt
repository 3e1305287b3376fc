//! What an accepted file says outside its bodies.
ghost use Rattle.std.specs.Prelude.{◌<◌, length};
ghost use Rattle.rows.specs.Listed.{listed};

use crate::header::Header;
use crate::instance::Instance;
use rows::Row;

/// An equation's header, and the place of its body.
#[derive(Clone, Copy)]
pub struct Equation {
    pub header: Header,
    pub body: usize,
}

/// What an accepted file says outside its bodies: its equations, the start, and the place behind it.
#[derive(Clone, Copy)]
pub struct Outline {
    pub equations: Row<Equation, 31>,
    pub start: Instance,
    pub end: usize,
    ghost present: { start.equation < length (listed equations) },
}
