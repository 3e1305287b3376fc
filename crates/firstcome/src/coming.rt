//! What comes to a list.
ghost use Rattle.std.specs.Prelude.{◌≡◌};
ghost use Rattle.definitions.specs.Lists.{at};
ghost use Rattle.firstcome.specs.Coming.{listed, place_of, Comes};

use crate::FirstCome;

impl<'a, T: PartialEq + Copy> FirstCome<'a, T> {
    /// An empty list with as many places as the slice has.
    pub fn new(items: &'a mut [T]) -> FirstCome<'a, T>
        ensures none { result.len ≡ 0 }
        ensures same { result.items.now ≡ items.old }
        ensures named { result.items.ghost_name ≡ items.entry.ghost_name }
    {
        FirstCome { items, len: 0 }
    }

    /// The record that came at the place, or none where fewer came.
    pub fn get(&self, i: usize) -> Option<T>
        ensures { result ≡ at (listed self.now) i }
    {
        self.items[..self.len].get(i).copied()
    }

    /// The place at which the record came, or none where it did not come.
    pub fn find(&self, x: &T) -> Option<usize>
        ensures { result ≡ place_of (λ y. T.eq y x.now) (listed self.now) }
    {
        // By index: with `position` a sample of 4,096 instances took about twice as long.
        let items = &*self.items;
        for i in 0..self.len {
            if items[i] == *x {
                return Some(i);
            }
        }
        None
    }

    /// The record comes: the place at which it came first, or none where it is new and the slice is full.
    pub fn come(&mut self, x: T) -> Option<usize>
        ensures { Comes (λ y. T.eq y x) x self.old self.new result }
    {
        if let Some(i) = self.find(&x) {
            return Some(i);
        }
        let at = self.len;
        if at >= self.items.len() {
            return None;
        }
        self.items[at] = x;
        self.len = at + 1;
        Some(at)
    }
}
