//! What holds of all layouts: nothing is called.

ghost use Rattle.std.specs.Prelude.{◌≡◌, ◌≤◌, ◌<◌, ◌+◌, ℕ, ℤ, List, length, Some};
ghost use Rattle.std.specs.List.{All, AllPairs};
ghost use Rattle.tri_base.specs.declared.point.Point.{Point};
ghost use Rattle.st_tree.specs.declared.program.Tree.{Tree};
ghost use Rattle.st_tree.specs.declared.tag.Tag.{Tag};
ghost use Rattle.st_tree.specs.Tags.{tags_of};
ghost use Rattle.st_tree.specs.Typing.Programs.{WellTyped};
ghost use Rattle.tag_layout.specs.declared.placed.PlacedTag.{PlacedTag};
ghost use Rattle.tag_layout.specs.Layout.{Laid, Environment, words_of, total_words, placed_tags, address_of, word_at, number_of, first_environment, first_words, AreApart};
ghost use Rattle.tag_layout.specs.Worked.{Worked};

/// A well-typed program declares no name twice.
pub fn names_are_apart()
    ensures { (points : List Point) (tree : Tree) → WellTyped points tree
        → AreApart (tags_of tree) }
{}

/// The words of two tags don't overlap: those of a tag lie before those of each later tag.
pub fn tags_lie_apart()
    ensures { (tags : List Tag)
        → AllPairs (λ (p q : PlacedTag). p.address + words_of p.of ≤ q.address) (placed_tags tags) }
{}

/// All words of a tag lie below the number of words.
pub fn tags_lie_below()
    ensures { (tags : List Tag)
        → All (λ p. p.address + words_of p.of ≤ total_words tags) (placed_tags tags) }
{}

/// Each word of a tag is found by the tag's name, where no two tags have one name.
pub fn each_word_is_found()
    ensures { (tags : List Tag) → AreApart tags
        → All (λ p. (field : ℕ) → field < words_of p.of
        → address_of tags p.name field ≡ Some (p.address + field)) (placed_tags tags) }
{}

/// Words that hold an environment are as many as the tags have.
pub fn one_word_per_field()
    ensures { (tags : List Tag) (env : Environment) (words : List ℤ) → Laid tags env words
        → length words ≡ total_words tags }
{}

/// The number of each field stands at the field's address.
pub fn numbers_stand_at_their_addresses()
    ensures { (tags : List Tag) (env : Environment) (words : List ℤ) → Laid tags env words
        → (name : List ℕ) (field : ℕ)
        → word_at words (address_of tags name field) ≡ number_of env name field }
{}

/// The first words hold the first values.
pub fn first_words_are_laid()
    ensures { (tags : List Tag) → Laid tags (first_environment tags) (first_words tags) }
{}

/// Layouts worked by hand.
pub fn worked_layouts()
    ensures { Worked }
{}
