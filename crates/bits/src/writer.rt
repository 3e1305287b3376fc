//! Writing fields.
ghost use Rattle.std.specs.Prelude.{◌≡◌, ◌+◌, ◌*◌, ◌/◌, ◌%◌, ◌^◌, ◌<◌, ◌≤◌, true, false, length, Ok, Err};
ghost use Rattle.definitions.specs.Bits.{bits as bits_of};
ghost use Rattle.bits.specs.Put.{overwritten, room as has_room, closed as padded_out};
ghost use Rattle.bits.specs.Writes.{Writes};

/// A field does not fit: the slice ends before it does, or the value is too large for the width.
#[derive(Clone, Copy, PartialEq, Eq, Debug)]
pub struct Full;

/// Puts a value into the `count` bits from `at` on, which lie in the same byte.
fn put_part(bytes: &mut [u8], at: usize, value: u32, count: u32)
    requires inside { at < 8 * length bytes.old }
    requires one_byte { at % 8 + count ≤ 8 }
    requires fits { value < 2 ^ count }
    ensures { bytes.new ≡ overwritten bytes.old at (bits_of count value) }
{
    let low: u32 = 1 << (8 - (at % 8) as u32 - count);
    let high: u32 = 1 << (8 - (at % 8) as u32);
    let byte = bytes[at / 8] as u32;
    bytes[at / 8] = (byte / high * high + value * low + byte % low) as u8;
}

fn put_number(bytes: &mut [u8], at: usize, value: u32, width: u32)
    requires few { length bytes.old ≤ 65536 }
    requires narrow { width ≤ 32 }
    requires fits { value < 2 ^ width }
    requires within { at + width ≤ 8 * length bytes.old }
    ensures { bytes.new ≡ overwritten bytes.old at (bits_of width value) }
{
    let end = at + width as usize;
    // By number: it tells which of the bits lie in the byte.
    for i in at / 8..end.div_ceil(8) {
        let from = at.max(8 * i);
        let to = end.min(8 * i + 8);
        let count = (to - from) as u32;
        let part = (value >> (end - to) as u32) % (1 << count);
        put_part(bytes, from, part, count);
    }
}

/// Fields into a slice, from a place on.
#[derive(Drop)]
pub struct BitWriter<'a> {
    pub bytes: &'a mut [u8],
    pub at: usize,
}

impl<'a> BitWriter<'a> {
    /// Writes a field, and nothing where it does not fit.
    ///
    /// It does not fit either where the slice is longer than 65,536 bytes or the field wider than 32 bits.
    pub fn put(&mut self, value: u32, width: u32) -> Result<(), Full>
        ensures written { elim result [ Ok _ ↦ (has_room self.old.bytes.now self.old.at width value ≡ true) × (self.new.bytes.now ≡ overwritten self.old.bytes.now self.old.at (bits_of width value)) × (self.new.at ≡ self.old.at + width) | Err _ ↦ (has_room self.old.bytes.now self.old.at width value ≡ false) × (self.new.bytes.now ≡ self.old.bytes.now) × (self.new.at ≡ self.old.at) ] }
        ensures named { self.new.bytes.ghost_name ≡ self.old.bytes.ghost_name }
        ensures writes { width ≤ 32 → value < 2 ^ width → Writes (bits_of width value) self.old self.new result }
    {
        if self.bytes.len() > 65536 || width > 32 {
            return Err(Full);
        }
        if width < 32 && value >= 1 << width {
            return Err(Full);
        }
        let total = 8 * self.bytes.len();
        if self.at > total || width as usize > total - self.at {
            return Err(Full);
        }
        let at = self.at;
        put_number(self.bytes, at, value, width);
        self.at = at + width as usize;
        Ok(())
    }

    /// Fills the last byte up with zero bits, and tells how many bytes are in use. The place stays.
    pub fn close(&mut self) -> usize
        ensures count { result ≡ (self.old.at + 7) / 8 }
        ensures padded { self.new.bytes.now ≡ padded_out self.old.bytes.now self.old.at }
        ensures stays { self.new.at ≡ self.old.at }
        ensures named { self.new.bytes.ghost_name ≡ self.old.bytes.ghost_name }
    {
        let at = self.at;
        let byte = at / 8;
        if at % 8 == 0 {
            return byte;
        }
        if byte < self.bytes.len() {
            put_part(self.bytes, at, 0, 8 - (at % 8) as u32);
        }
        byte + 1
    }
}
