//! The tokens of a body: false, true, all, any and variables.
ghost use Rattle.std.specs.Prelude.{◌≤◌, length};
ghost use Rattle.bits.specs.Told.{Reads};
ghost use Rattle.boolean.specs.Steps.{assigned, read_said};

use bits::Cursor;
use faults::{Reason, Stop};

/// The greatest depth of a body.
pub const BODY_DEPTH: u8 = 8;

/// Reads a body of depth at most `depth` over that many variables: its truth under the truths of the variables.
pub(crate) fn read_body(
    cursor: &mut Cursor,
    variables: u32,
    truths: &[bool],
    depth: u8,
) -> Result<bool, Stop>
    requires room { variables ≤ length truths.now }
    ensures { Reads (λ t. t) (read_said variables depth (assigned truths.now)) cursor.old cursor.new result }
{
    let place = cursor.at;
    let kind = cursor.field(3)?;
    if depth == 0 {
        return Err(Stop {
            reason: Reason::TooDeep,
            place,
        });
    }
    // The numbers of the format. What writes them (`expansion`) and what reads them do not see one another.
    match kind {
        0 => Ok(false),
        1 => Ok(true),
        2 | 3 => {
            // Of no parts all is true and any is false, and a part of the other truth decides.
            let any = kind == 3;
            let mut truth = !any;
            let parts = cursor.field(8)? + 1;
            for _ in 0..parts {
                let part = read_body(cursor, variables, truths, depth - 1)?;
                if part == any {
                    truth = any;
                }
            }
            Ok(truth)
        }
        4 => {
            let variable = cursor.field_below(12, variables, Reason::NoSuchName)?;
            Ok(truths[variable as usize])
        }
        _ => Err(Stop {
            reason: Reason::NoSuchName,
            place,
        }),
    }
}
