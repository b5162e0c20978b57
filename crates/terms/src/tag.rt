// Invalidation tags.
ghost use Rattle.std.specs.Prelude.{◌≡◌};
ghost use Rattle.terms.specs.Tags.{touches};

// What a reading rests on: one key of a table or, without a key, all of the table (a star).
#[derive(Clone, Copy, PartialEq, Eq)]
pub struct Tag {
    pub table: u8,
    pub key: Option<u32>,
}

impl Tag {
    pub fn touches(self, other: Tag) -> bool
        ensures { result ≡ touches self other }
    {
        let keys = self
            .key
            .zip(other.key)
            .is_none_or(|(key, another)| key == another);
        self.table == other.table && keys
    }
}
