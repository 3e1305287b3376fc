//! What is written is read back, and fills the bytes.
ghost use Rattle.bits.specs.Back.{BitsWritten, FieldBack, InARow, BitsPacked};

/// The laws of writing: bits stand where they were written and all else stays, a field is read back, fields in a
/// row are one list of bits, and a list written from the first place on and closed is packed.
pub fn writing_stands()
    ensures stands { BitsWritten }
    ensures back { FieldBack }
    ensures row { InARow }
    ensures packs { BitsPacked }
{}
