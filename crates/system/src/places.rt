//! What a walk finds: the places of terms, and counts.
ghost use Rattle.std.specs.Prelude.{◌<◌, ◌≤◌};

use rows::Row;

/// A body's opening: the place of its h, its clause count, and the place of the first clause.
#[derive(Clone, Copy)]
pub struct BodyAt {
    pub h: usize,
    pub count: u8,
    pub next: usize,
    ghost few: { count ≤ 15 },
}

/// A clause's opening: the place of its guard, its occurrence count, and the place of the first occurrence.
#[derive(Clone, Copy)]
pub struct ClauseAt {
    pub guard: usize,
    pub count: u8,
    pub next: usize,
    ghost some: { 1 ≤ count },
    ghost few: { count ≤ 8 },
}

/// An occurrence: its target, the places of its arguments, and the place behind it.
#[derive(Clone, Copy)]
pub struct OccurrenceAt {
    pub target: u8,
    pub arguments: Row<usize, 15>,
    pub next: usize,
    ghost present: { target < 31 },
}
