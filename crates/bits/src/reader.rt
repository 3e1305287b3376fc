//! Reading fields.
ghost use Rattle.std.specs.Prelude.{◌≡◌, ◌+◌, ◌*◌, ◌^◌, ◌<◌, ◌≤◌, length, IfSome, None};
ghost use Rattle.definitions.specs.Bits.{field as bit_field};
ghost use Rattle.definitions.specs.Reading.{take};
ghost use Rattle.bits.specs.Took.{took};

// The field of `width` bits from `at` on, cut out of the bytes that it touches.
fn number_of_bytes(bytes: &[u8], at: usize, width: u32) -> u32
    requires few { length bytes.now ≤ 65536 }
    requires narrow { width ≤ 32 }
    requires within { at + width ≤ 8 * length bytes.now }
    ensures { result ≡ bit_field bytes.now at width }
{
    let end = at + width as usize;
    let last = end.div_ceil(8);
    let mut all = 0u64;
    for byte in &bytes[at / 8..last] {
        all = (all << 8) + *byte as u64;
    }
    let behind = 8 * last - end;
    ((all >> behind) % (1 << width)) as u32
}

// The field of `width` bits from `at` on.
fn number(bytes: &[u8], at: usize, width: u32) -> u32
    requires few { length bytes.now ≤ 65536 }
    requires narrow { width ≤ 32 }
    requires within { at + width ≤ 8 * length bytes.now }
    ensures { result ≡ bit_field bytes.now at width }
{
    // Four bytes hold a field of up to 25 bits, wherever it begins; only at its end has a file fewer.
    match bytes[at / 8..].first_chunk::<4>() {
        Some(four) if width <= 25 => {
            let all = u32::from_be_bytes(*four) as u64;
            let behind = 32 - at % 8 - width as usize;
            ((all >> behind) % (1 << width)) as u32
        }
        _ => number_of_bytes(bytes, at, width),
    }
}

/// Fields of a file, from a place on.
#[derive(Clone, Copy)]
pub struct BitReader<'a> {
    pub bytes: &'a [u8],
    pub at: usize,
}

impl<'a> BitReader<'a> {
    /// The next field, or none where the file ends inside it: then the place stays.
    ///
    /// None too where the file is longer than 65,536 bytes or the field wider than 32 bits.
    pub fn next(&mut self, width: u32) -> Option<u32>
        ensures reads { length self.old.bytes.now ≤ 65536 → width ≤ 32 → took result self.old.at self.new.at ≡ take width self.old.bytes.now self.old.at }
        ensures refuses { (length self.old.bytes.now ≤ 65536 → width ≤ 32 → ⊥) → result ≡ None }
        ensures stays { result ≡ None → self.new.at ≡ self.old.at }
        ensures small { IfSome result (λ v. v < 2 ^ width) }
        ensures same { self.new.bytes.now ≡ self.old.bytes.now }
    {
        if self.bytes.len() > 65536 || width > 32 {
            return None;
        }
        let total = 8 * self.bytes.len();
        if self.at > total || width as usize > total - self.at {
            return None;
        }
        let value = number(self.bytes, self.at, width);
        self.at += width as usize;
        Some(value)
    }
}
