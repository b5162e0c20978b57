// The calls of a waiting line. None asks anything of its caller: in a slice that is too short nothing waits, and nothing is taken.
ghost use Rattle.std.specs.Prelude.{◌≡◌, ◌-◌, ◌++◌, ◌<◌, ◌≤◌, min, true, false, length, drop, is_some, is_ok, ◌==◌};
ghost use Rattle.std.specs.List.{slice_get};
ghost use Rattle.line.specs.Rings.{place_of, counted, place_in, waiting, Made, admission, Entered, Advanced};

use super::{Line, Refusal};

// That the size stays is said at each call that changes the line: it relates two moments of it, and no field can say it.
impl Line {
    // An empty line of a given size, which is not 0.
    pub fn new(size: usize) -> Option<Line>
        ensures { Made size result }
    {
        if size == 0 {
            return None;
        }
        Some(Line {
            head: 0,
            len: 0,
            size,
        })
    }

    pub fn is_empty(&self) -> bool
        ensures { result ≡ (self.now.len == 0) }
    {
        self.len == 0
    }

    pub fn is_full(&self) -> bool
        ensures { result ≡ (self.now.len == self.now.size) }
    {
        self.len == self.size
    }

    // How many more can wait.
    pub fn room_left(&self) -> usize
        ensures { result ≡ self.now.size - self.now.len }
    {
        self.size - self.len
    }

    // The place of the i-th from the head on.
    fn place_of(&self, i: usize) -> usize
        ensures { result ≡ place_of self.now i }
    {
        let behind = self.size - self.head;
        if i < behind {
            self.head + i
        } else {
            i - behind
        }
    }

    // The place behind the last.
    fn free_place(&self) -> usize
        ensures { result ≡ place_of self.now self.now.len }
    {
        self.place_of(self.len)
    }

    // How many wait in a slice of so many places.
    fn counted(&self, places: usize) -> usize
        ensures { result ≡ counted self.now places }
    {
        if places < self.size { 0 } else { self.len }
    }

    // The place of the i-th that waits in a slice of so many places, if as many wait.
    fn place_in(&self, places: usize, i: usize) -> Option<usize>
        ensures { result ≡ place_in self.now places i }
    {
        (i < self.counted(places)).then_some(self.place_of(i))
    }

    // How many wait in a slice: all that the line counts or, in a slice that is too short, none.
    #[tactic(auto, using(crate::proofs::Rings::length_waiting))]
    pub fn count<T>(&self, room: &[T]) -> usize
        ensures { result ≡ length (waiting self.now room.now) }
    {
        self.counted(room.len())
    }

    // The i-th that waits, of which the oldest is the 0-th.
    #[tactic(auto, using(crate::proofs::Rings::nth_found, crate::proofs::Rings::nth_missing))]
    pub fn get<T: Copy>(&self, room: &[T], i: usize) -> Option<T>
        ensures { result ≡ slice_get (waiting self.now room.now) i }
    {
        let at = self.place_in(room.len(), i)?;
        Some(room[at])
    }

    // The oldest.
    pub fn front<T: Copy>(&self, room: &[T]) -> Option<T>
        ensures { result ≡ slice_get (waiting self.now room.now) 0 }
    {
        self.get(room, 0)
    }

    // What waits in a slice, oldest first, in two parts: from the head on, and from the slice's start on.
    #[tactic(auto, using(crate::proofs::Rings::waiting_short, crate::proofs::Rings::waiting_parts))]
    pub fn as_slices<'a, T>(&self, room: &'a [T]) -> (&'a [T], &'a [T])
        ensures { result.0.now ++ result.1.now ≡ waiting self.now room.now }
    {
        if self.size > room.len() {
            return (&room[..0], &room[..0]);
        }
        let behind = self.len.min(self.size - self.head);
        (
            &room[self.head..self.head + behind],
            &room[..self.len - behind],
        )
    }

    // Adds an element behind the last. A slice that is too short and a line that is full are refused, and nothing changes.
    pub fn push<T: Copy>(&mut self, room: &mut [T], x: T) -> Result<(), Refusal>
        ensures answer { result ≡ admission self.old room.old }
        ensures entered { is_ok result ≡ true → Entered self.old room.old x self.new room.new }
        ensures line { is_ok result ≡ false → self.new ≡ self.old }
        ensures room { is_ok result ≡ false → room.new ≡ room.old }
        ensures size { self.new.size ≡ self.old.size }
    {
        if room.len() < self.size {
            return Err(Refusal::Short);
        }
        if self.len >= self.size {
            return Err(Refusal::Full);
        }
        self.join(room, x);
        Ok(())
    }

    // Writes an element behind the last.
    #[tactic(auto, using(crate::proofs::Rings::entered))]
    fn join<T: Copy>(&mut self, room: &mut [T], x: T)
        requires { (self.old.len < self.old.size) × (self.old.size ≤ length room.old) }
        ensures { Entered self.old room.old x self.new room.new }
    {
        let at = self.free_place();
        room[at] = x;
        self.len += 1;
    }

    // Lets the n oldest go.
    fn advance(&mut self, n: usize)
        requires { n ≤ self.old.len }
        ensures { Advanced self.old n self.new }
    {
        self.head = self.place_of(n);
        self.len -= n;
    }

    // Lets the n oldest go, or all where fewer wait. It takes no slice, since none is read or written.
    pub fn skip(&mut self, n: usize)
        ensures { Advanced self.old (min n self.old.len) self.new }
    {
        self.advance(n.min(self.len));
    }

    // Takes the oldest; where none waits in the slice, the line is unchanged.
    #[tactic(auto, using(crate::proofs::Rings::waiting_popped, crate::proofs::Rings::some_waits))]
    pub fn pop<T: Copy>(&mut self, room: &[T]) -> Option<T>
        ensures first { result ≡ slice_get (waiting self.old room.now) 0 }
        ensures rest { waiting self.new room.now ≡ drop 1 (waiting self.old room.now) }
        ensures line { is_some result ≡ false → self.new ≡ self.old }
        ensures moved { is_some result ≡ true → Advanced self.old 1 self.new }
        ensures size { self.new.size ≡ self.old.size }
    {
        let first = self.front(room)?;
        self.advance(1);
        Some(first)
    }

    // Lets all go.
    pub fn clear(&mut self)
        ensures none { self.new.len ≡ 0 }
        ensures head { self.new.head ≡ 0 }
        ensures size { self.new.size ≡ self.old.size }
    {
        self.head = 0;
        self.len = 0;
    }
}
