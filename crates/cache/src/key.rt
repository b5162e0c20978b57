// Keys of entries.

// A sheet of a recipe with its argument. A cache keeps sheets 0 to 254; a sheet from outside may be any byte.
#[derive(Clone, Copy, PartialEq, Eq)]
pub struct Key {
    pub sheet: u8,
    pub argument: u32,
}
