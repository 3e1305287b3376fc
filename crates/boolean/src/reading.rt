//! Reading a Boolean file.
ghost use Rattle.std.specs.Prelude.{◌≡◌, ◌<◌, ◌≤◌, true, List, length, MatchOption};
ghost use Rattle.rows.specs.Listed.{listed};
ghost use Rattle.definitions.specs.Boolean.{Variable, same_sign};
ghost use Rattle.system.specs.Files.{kept_sign};
ghost use Rattle.boolean.specs.Files.{Entered, EntryTold, ListTold, BooleanTold};

use crate::entries::{Entry, LONGEST_BOOLEAN, VARIABLES, Variables};
use crate::token::{BODY_DEPTH, read_body};
use bits::Cursor;
use faults::{Reason, SolveFault, Stop};
use rows::Row;
use system::header::Sign;

// Whether the rank has the sign, or none yet.
fn suits(known: Option<Sign>, sign: Sign) -> bool
    ensures { MatchOption known (result ≡ true) (λ s. result ≡ same_sign (kept_sign s) (kept_sign sign)) }
{
    known.is_none_or(|known| known == sign)
}

// Reads one of `count` variables, and enters it behind the others.
fn read_entry(
    cursor: &mut Cursor,
    count: u32,
    truths: &[bool],
    variables: &mut Variables,
) -> Result<(), Stop>
    requires room { count ≤ length truths.now }
    requires few { length (listed variables.old.entries) < 4096 }
    ensures told { (vs : List Variable) → Entered cursor.old.bytes.now count vs variables.old → EntryTold count vs cursor.old cursor.new variables.new result }
    ensures same { cursor.new.bytes.now ≡ cursor.old.bytes.now }
{
    let sign = Sign::from_bit(cursor.field(1)?);
    let place = cursor.at;
    let rank = cursor.field(5)?;
    // A test of the definitions, by a function of its own: the proof cites what it says.
    if !suits(variables.signs[rank as usize], sign) {
        return Err(Stop {
            reason: Reason::RankOfBothSigns,
            place,
        });
    }
    let body = cursor.at as u32;
    read_body(cursor, count, truths, BODY_DEPTH)?;
    variables.signs[rank as usize] = Some(sign);
    let rank = rank as u8;
    variables.entries.push(Entry { rank, body }).unwrap();
    Ok(())
}

fn read_entries(cursor: &mut Cursor, count: u32) -> Result<Variables, Stop>
    requires few { count ≤ 4096 }
    ensures told { ListTold count cursor.old cursor.new result }
    ensures same { cursor.new.bytes.now ≡ cursor.old.bytes.now }
{
    // Whether a body is read does not depend on the truths.
    let truths = [false; VARIABLES];
    let mut variables = Variables {
        entries: Row::new(Entry { rank: 0, body: 0 }),
        signs: [None; 32],
    };
    for _ in 0..count {
        read_entry(cursor, count, &truths, &mut variables)?;
    }
    Ok(variables)
}

/// Reads a Boolean file.
pub fn read_boolean(file: &[u8]) -> Result<Variables, SolveFault>
    ensures { BooleanTold file.now result }
{
    if file.is_empty() || file.len() > LONGEST_BOOLEAN {
        return Err(SolveFault {
            reason: Reason::BadLength,
            place: 0,
        });
    }
    let mut cursor = Cursor { bytes: file, at: 0 };
    let count = cursor.field(12)? + 1;
    let variables = read_entries(&mut cursor, count)?;
    cursor.end()?;
    Ok(variables)
}
