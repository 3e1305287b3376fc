//! Reading a file field by field, with the reason and the place where that stops.
ghost use Rattle.std.specs.Prelude.{◌≡◌, ◌^◌, ◌<◌, IfOk};
ghost use Rattle.definitions.specs.Reading.{below, ending};
ghost use Rattle.bits.specs.Told.{Reads, narrow, narrow_for, told};

use crate::file::Cursor;
use crate::reader::BitReader;
use faults::{Reason, Stop};

impl<'a> Cursor<'a> {
    /// The next field; its place where the file ends inside it, or where it is wider than 32 bits.
    pub fn field(&mut self, width: u32) -> Result<u32, Stop>
        ensures reads { Reads (λ n. n) (narrow width) self.old self.new result }
        ensures small { IfOk result (λ n. n < 2 ^ width) }
    {
        let mut reader = BitReader {
            bytes: self.bytes,
            at: self.at,
        };
        let Some(value) = reader.next(width) else {
            return Err(Stop {
                reason: Reason::EndsInField,
                place: self.at,
            });
        };
        self.at = reader.at;
        Ok(value)
    }

    /// The next field, which must be below the limit; else the reason and its place.
    pub fn field_below(&mut self, width: u32, limit: u32, reason: Reason) -> Result<u32, Stop>
        ensures reads { Reads (λ n. n) (narrow_for width (below limit) reason) self.old self.new result }
        ensures small { IfOk result (λ n. n < limit) }
    {
        let place = self.at;
        let value = self.field(width)?;
        if value < limit {
            Ok(value)
        } else {
            Err(Stop { reason, place })
        }
    }

    /// Whether nothing is left but zero bits that fill the last byte.
    pub fn end(&self) -> Result<(), Stop>
        ensures { told (λ x. x) self.now.at result ≡ ending self.now.bytes.now self.now.at }
    {
        let total = 8 * self.bytes.len();
        let stop = Stop {
            reason: Reason::NotEnded,
            place: self.at,
        };
        if self.at >= total {
            return Ok(());
        }
        if total - self.at > 7 {
            return Err(stop);
        }
        let mut reader = BitReader {
            bytes: self.bytes,
            at: self.at,
        };
        // The padding read as a number, which is 0 where every bit is.
        match reader.next((total - self.at) as u32) {
            Some(0) => Ok(()),
            _ => Err(stop),
        }
    }
}
