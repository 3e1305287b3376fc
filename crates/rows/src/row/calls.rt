//! Making, reading, lengthening and emptying a row.
ghost use Rattle.std.specs.Prelude.{◌≡◌, ◌<◌, ◌≤◌, [], ◌∷◌, ◌++◌, length, IsOk, IsErr, ◌↔◌};
ghost use Rattle.rows.specs.Listed.{listed};

use crate::row::{NoPlace, Row};

impl<T: Copy, const N: usize> Row<T, N> {
    /// A row of no records; `filler` lies in the places that are not in use.
    pub fn new(filler: T) -> Row<T, N>
        ensures { listed result ≡ [] }
    {
        Row {
            items: [filler; N],
            len: 0,
        }
    }

    /// The records.
    pub fn as_slice(&self) -> &[T]
        ensures { result.now ≡ listed self.now }
    {
        let all = &self.items[..];
        &all[0..self.len]
    }

    /// How many records there are.
    pub fn len(&self) -> usize
        ensures count { result ≡ length (listed self.now) }
        ensures within { result ≤ N }
    {
        self.as_slice().len()
    }

    /// No record any more, so that the row can be filled anew.
    pub fn clear(&mut self)
        ensures { listed self.new ≡ [] }
    {
        self.len = 0;
    }

    /// One record more, behind the others.
    pub fn push(&mut self, item: T) -> Result<(), NoPlace>
        ensures room { IsOk result ↔ (length (listed self.old) < N) }
        ensures added { length (listed self.old) < N → listed self.new ≡ listed self.old ++ item ∷ [] }
        ensures kept { IsErr result → self.new ≡ self.old }
    {
        if self.len >= N {
            return Err(NoPlace);
        }
        self.items[self.len] = item;
        self.len += 1;
        Ok(())
    }
}
