//! What a walk through a body lends to each of its steps.
ghost use Rattle.std.specs.Prelude.{◌≡◌, []};
ghost use Rattle.rows.specs.Listed.{listed};

use rows::Row;
use system::walk::OccurrenceAt;

/// A row for the occurrences of a clause, with none in it yet.
pub fn no_occurrences() -> Row<OccurrenceAt, 8>
    ensures { listed result ≡ [] }
{
    Row::new(OccurrenceAt {
        target: 0,
        arguments: Row::new(0),
        next: 0,
    })
}
