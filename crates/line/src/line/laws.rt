// The laws of a waiting line, proved once for elements of any type.
ghost use Rattle.line.specs.Laws.{Laws};

use super::Line;

impl Line {
    // Does nothing: its contract is the laws.
    pub fn laws<T>(_room: &[T])
        ensures { Laws _room.now }
    {}
}
