//! A file that is read field by field.
ghost use Rattle.std.specs.Prelude.{◌≤◌, length};

/// A file of at most 65,536 bytes, and the place of the bit that is read next.
#[derive(Drop)]
pub struct Cursor<'a> {
    pub bytes: &'a [u8],
    pub at: usize,
    ghost short: { length bytes.now ≤ 65536 },
}
