ghost use Rattle.std.specs.Prelude.{◌≡◌, ◌+◌, [], length, nat_lt};
ghost use Rattle.worklist.specs.Listed.{lent, listed, taken, room, Pushed, Popped, Shifted};

use crate::list::WorkList;

impl<'a, T: Copy> WorkList<'a, T> {
    /// An empty list that is kept in these items.
    pub fn new(items: &'a mut [T]) -> WorkList<'a, T>
        ensures list { listed result ≡ [] }
        ensures start { taken result ≡ 0 }
        ensures place { lent result ≡ items.old }
    {
        WorkList { items, live: 0..0 }
    }

    /// Puts `x` at the back; false where no room is left behind the last, which leaves the list as it is. A bool, as a set's insert answers: the
    /// caller still has `x`.
    pub fn push(&mut self, x: T) -> bool
        ensures test { result ≡ nat_lt (taken self.old + length (listed self.old)) (room self.old) }
        ensures list { Pushed result x self.old self.new }
    {
        let end = self.live.end;
        if end >= self.items.len() {
            return false;
        }
        self.items[end] = x;
        self.live.end += 1;
        true
    }

    /// Takes the last.
    pub fn pop(&mut self) -> Option<T>
        ensures { Popped result self.old self.new }
    {
        let at = self.live.next_back()?;
        Some(self.items[at])
    }

    /// Takes the first.
    pub fn pop_front(&mut self) -> Option<T>
        ensures { Shifted result self.old self.new }
    {
        let at = self.live.next()?;
        Some(self.items[at])
    }
}
