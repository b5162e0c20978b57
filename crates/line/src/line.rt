// The numbers of a waiting line.
ghost use Rattle.std.specs.Prelude.{◌≡◌, ◌<◌, ◌≤◌};

mod calls;
mod laws;

// A ring over the first `size` places of a slice that is lent to each call: the oldest element stands at `head`, and `len` wait.
// Plain numbers and no buffer of its own: one line serves the lent journal of a store and its owner's own table alike.
#[derive(Clone, Copy)]
pub struct Line {
    head: usize,
    len: usize,
    size: usize,
    ghost inside: { head < size },
    ghost few: { len ≤ size },
}

impl Line {
    // How many wait.
    pub fn len(&self) -> usize
        ensures { result ≡ self.now.len }
    {
        self.len
    }

    // How many can wait.
    pub fn size(&self) -> usize
        ensures { result ≡ self.now.size }
    {
        self.size
    }
}

// Why the line takes no more.
#[derive(Clone, Copy)]
pub enum Refusal {
    // the slice is shorter than the line's size
    Short,
    // as many elements wait as the line's size
    Full,
}
