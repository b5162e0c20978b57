// Sets of at most 8 different tags.
ghost use Rattle.std.specs.Prelude.{◌≡◌, ◌≤◌, [], ◌∷◌, ◌++◌, cond, length, Some, None, nat_lt};
ghost use Rattle.std.specs.Option.{option_map};
ghost use Rattle.cache.specs.TagSets.{tags_of, packed, has_tag, touched, set_of, with_tag};

use terms::Tag;

const NO_TAG: Tag = Tag {
    table: 0,
    key: None,
};

// The tags stand in the first `count` places.
// An array with its count, and no Vec: an entry is Copy and lies in a lent table, so nothing of it is on the heap.
// Its list is a definition, `tags_of`, and no `impl Model`: the check would copy no entry then, which holds a set, where a caller
// passes it by value and uses it again.
#[derive(Clone, Copy, PartialEq, Eq)]
pub struct TagSet {
    tags: [Tag; 8],
    count: usize,
}

impl TagSet {
    pub fn empty() -> TagSet
        ensures { result ≡ packed [] }
    {
        TagSet {
            tags: [NO_TAG; 8],
            count: 0,
        }
    }

    // None if a tag repeats or there are over 8.
    #[tactic(auto, using(crate::proofs::Packs::repeats, crate::proofs::Packs::all_new))]
    pub fn from_slice(tags: &[Tag]) -> Option<TagSet>
        ensures { result ≡ set_of tags.now }
    {
        if tags.len() > 8 {
            return None;
        }
        let mut set = TagSet::empty();
        for (place, tag) in tags.iter().enumerate() {
            if set.contains(*tag) {
                return None;
            }
            set.tags[place] = *tag;
            set.count = place + 1;
        }
        Some(set)
    }

    pub fn len(self) -> usize
        ensures value { result ≡ length (tags_of self) }
        ensures few { result ≤ 8 }
    {
        self.as_slice().len()
    }

    // The tags, in the order in which they came.
    pub fn as_slice(&self) -> &[Tag]
        ensures value { result.now ≡ tags_of self.now }
        ensures few { length result.now ≤ 8 }
    {
        &self.tags[..self.count.min(8)]
    }

    // A star equals a star alone.
    pub fn contains(self, tag: Tag) -> bool
        ensures { result ≡ has_tag tag (tags_of self) }
    {
        self.as_slice().contains(&tag)
    }

    // Whether a tag of the set touches the tag.
    pub fn touches(self, tag: Tag) -> bool
        ensures { result ≡ touched tag (tags_of self) }
    {
        self.as_slice().iter().any(|other| tag.touches(*other))
    }

    // The set with the tag in it; none if the tag is not there and 8 others are.
    pub fn with(self, tag: Tag) -> Option<TagSet>
        ensures { option_map tags_of result ≡ with_tag (tags_of self) tag }
    {
        if self.contains(tag) {
            Some(self)
        } else {
            self.pushed(tag)
        }
    }

    // The tags with one more behind them; none if there are 8.
    #[tactic(auto, using(crate::proofs::Packs::pushed_more))]
    fn pushed(mut self, tag: Tag) -> Option<TagSet>
        ensures { option_map tags_of result ≡ cond (nat_lt (length (tags_of self)) 8) (Some (tags_of self ++ tag ∷ [])) None }
    {
        let count = self.len();
        if count >= 8 {
            return None;
        }
        self.tags[count] = tag;
        self.count = count + 1;
        Some(self)
    }
}
