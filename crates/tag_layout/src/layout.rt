ghost use Rattle.std.specs.Prelude.{◌≡◌, ◌≤◌, ◌+◌, IfOk, IfSome};
ghost use Rattle.tri_base.specs.Limits.{word_limit};
ghost use Rattle.st_tree.specs.Tags.{tags_of, tag_named};
ghost use Rattle.st_types.specs.Inner.Places.{place_of};
ghost use Rattle.tag_layout.specs.Layout.{Lays, words_of, total_words, placed_tags, placed_named, address_of, first_words, AreApart};

use crate::fault::LayFault;
use crate::first::first_words;
use crate::names::first_places;
use crate::placed::{PlacedTag, place_tags};
use crate::tags::declared_tags;
use crate::types::{has_field, total_words};
use indexmap::IndexMap;
use st_tree::{Tag, Typed};
use std::alloc::Global;
use std::marker::Model;
use tri_base::{Name, NoMemory, WORD_LIMIT, Words};

/// Where the tags of a program lie in the words of its memory. It stands for the tags that the
/// program declares.
#[derive(Drop)]
pub struct Layout {
    // In order of declaration.
    tags: Vec<Tag>,
    // The same, with their addresses.
    placed: Vec<PlacedTag>,
    // The place of the first tag with each name.
    places: IndexMap<Name, usize>,
    words: usize,
}

impl Model for Layout {
    ghost use Rattle.std.specs.Prelude.{List};
    ghost use Rattle.st_tree.specs.declared.tag.Tag.{Tag};

    ghost Value = { List Tag };

    ghost use Rattle.tag_layout.specs.Inner.Kept.{IsKept};

    ghost view = { λ s. s.tags.items };

    ghost invariant = { IsKept };
}

/// The layout of a program. TooManyWords comes exactly where its tags have more than 4,096 words.
pub fn lay(alloc: Global, typed: &Typed) -> Result<Layout, LayFault>
    ensures { Lays (tags_of typed.now.tree) result }
{
    let Ok(tags) = declared_tags(alloc, typed.tree()) else {
        return Err(LayFault::NoMemory);
    };
    let words = total_words(tags.as_slice());
    if words > WORD_LIMIT {
        return Err(LayFault::TooManyWords { words });
    }
    let Ok(placed) = place_tags(alloc, tags.as_slice()) else {
        return Err(LayFault::NoMemory);
    };
    let Ok(places) = first_places(alloc, tags.as_slice()) else {
        return Err(LayFault::NoMemory);
    };
    Ok(Layout {
        tags,
        placed,
        places,
        words,
    })
}

impl Layout {
    /// How many words the program's memory has: 4,096 or fewer.
    pub fn words(&self) -> usize
        ensures value { result ≡ total_words self.now }
        ensures few { result ≤ word_limit }
    {
        self.words
    }

    /// Lends the tags in order of declaration, each with its type and its address. No two have one
    /// name.
    pub fn tags(&self) -> &[PlacedTag]
        ensures value { result.now ≡ placed_tags self.now }
        ensures apart { AreApart self.now }
    {
        self.placed.as_slice()
    }

    /// The tag of a name, in constant time; None exactly where no tag has the name.
    pub fn find(&self, name: &Name) -> Option<PlacedTag>
        ensures value { result ≡ placed_named self.now name.now }
        ensures within { IfSome result (λ tag. tag.address + words_of tag.of ≤ word_limit) }
    {
        match self.place(name) {
            Some(place) => self.placed.get(place).copied(),
            None => None,
        }
    }

    /// The tag of a name as it is declared, in constant time; None exactly where no tag has the
    /// name.
    pub fn declared(&self, name: &Name) -> Option<Tag>
        ensures { result ≡ tag_named self.now name.now }
    {
        match self.place(name) {
            Some(place) => self.tags.get(place).copied(),
            None => None,
        }
    }

    /// The address of a tag's field, in constant time; None exactly where no tag has the name or
    /// the tag has no such field. A tag of one word has field 0 alone, the elements of an array
    /// count from 0, and a function block has its fields in the order of `function_blocks`.
    pub fn address(&self, name: &Name, field: usize) -> Option<usize>
        ensures { result ≡ address_of self.now name.now field }
    {
        let Some(tag) = self.find(name) else {
            return None;
        };
        if has_field(tag.of, field) {
            Some(tag.address + field)
        } else {
            None
        }
    }

    /// The words with which a program starts: they hold the first value of each tag.
    pub fn first(&self, alloc: Global) -> Result<Words, NoMemory>
        ensures { IfOk result (λ words. words.list ≡ first_words self.now) }
    {
        first_words(alloc, self.tags.as_slice(), self.words)
    }

    // The place of the first tag with a name.
    fn place(&self, name: &Name) -> Option<usize>
        ensures { result ≡ place_of self.now name.now }
    {
        self.places.get(name).copied()
    }
}
