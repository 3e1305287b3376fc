//! Reading a system file: every field is checked in the file's order, so the fault found first has the earliest place.
ghost use Rattle.std.specs.Prelude.{◌≡◌, IfOk};
ghost use Rattle.system.specs.Whole.{SystemTold, Read};

use crate::LONGEST;
use crate::bodies::{check_bodies, read_target, read_values};
use crate::headers::read_headers;
use crate::instance::Instance;
pub use crate::outline::{Equation, Outline};
use algebra::Algebra;
use bits::Cursor;
use faults::{ReadFault, Reason, Stop};

fn read_system<G: Algebra>(alg: &G, cursor: &mut Cursor) -> Result<Outline, Stop>
    requires { cursor.old.at ≡ 0 }
    ensures reads { SystemTold (G.meaning alg.now) cursor.old.bytes.now result }
    ensures end { IfOk result (λ o. o.end ≡ cursor.new.at) }
    ensures same { cursor.new.bytes.now ≡ cursor.old.bytes.now }
{
    let count = cursor.field(5)?;
    if count == 0 {
        return Err(Stop {
            reason: Reason::NoEquations,
            place: 0,
        });
    }
    let headers = read_headers(alg, cursor, count)?;
    let headers = headers.as_slice();
    let equations = check_bodies(alg, headers, cursor)?;
    let (equation, header) = read_target(headers, cursor)?;
    let values = read_values(alg, cursor, header.sorts.as_slice())?;
    Ok(Outline {
        equations,
        start: Instance { equation, values },
        end: cursor.at,
    })
}

/// Reads the file of a system that fits the algebra.
pub fn read<G: Algebra>(alg: &G, file: &[u8]) -> Result<Outline, ReadFault>
    ensures { Read (G.meaning alg.now) file.now result }
{
    if file.is_empty() || file.len() > LONGEST {
        return Err(ReadFault {
            reason: Reason::BadLength,
            place: 0,
        });
    }
    let mut cursor = Cursor { bytes: file, at: 0 };
    let outline = read_system(alg, &mut cursor)?;
    cursor.end()?;
    Ok(outline)
}
