//! What holds of all downloads: nothing is called.

ghost use Rattle.std.specs.Prelude.{◌≡◌, ℕ, ℤ, List, Some, None};
ghost use Rattle.std.specs.List.{All};
ghost use Rattle.st_tree.specs.declared.tag.Tag.{Tag};
ghost use Rattle.tag_layout.specs.Layout.{Laid, Environment, AreApart, placed_tags, address_of, number_of, word_at};
ghost use Rattle.download_change.specs.Renames.{Rename, name_twice_of, renames_fault_of, heir_of};
ghost use Rattle.download_change.specs.Kept.{kept_for, carried_of, carried_words, IsKeptAs};
ghost use Rattle.download_change.specs.Worked.{Worked};

/// Two tags have no heir in common, where no two renames have one name in the same place.
pub fn heirs_are_apart()
    ensures { (renames : List Rename) → name_twice_of renames ≡ None
        → (n m heir : List ℕ) → heir_of renames n ≡ Some heir → heir_of renames m ≡ Some heir
        → n ≡ m }
{}

/// The words that a download goes on with hold the environment that it goes on with.
pub fn carried_words_are_laid()
    ensures { (old new : List Tag) (renames : List Rename)
        → (env first : Environment) (words first_words : List ℤ)
        → AreApart old → AreApart new → Laid old env words → Laid new first first_words
        → Laid new (carried_of old new renames env first)
        (carried_words old new renames first_words words) }
{}

/// Where the renames have no fault and no two tags one name, the numbers of a kept tag right behind
/// the change point, under its heir's name, are those before it.
pub fn kept_tags_keep_their_values()
    ensures { (old new : List Tag) (renames : List Rename) (env first : Environment)
        → AreApart old → renames_fault_of old new renames ≡ None
        → All (λ t. (heir : List ℕ) → IsKeptAs new renames t heir
        → (field : ℕ) → number_of (carried_of old new renames env first) heir field
        ≡ number_of env t.name field) (placed_tags old) }
{}

/// The words of a kept tag likewise, at the addresses that it has in each of the two programs,
/// where also the new program has no two tags of one name.
pub fn kept_words_stay()
    ensures { (old new : List Tag) (renames : List Rename)
        → (env first : Environment) (words first_words : List ℤ)
        → AreApart old → AreApart new → renames_fault_of old new renames ≡ None
        → Laid old env words → Laid new first first_words
        → All (λ t. (heir : List ℕ) → IsKeptAs new renames t heir
        → (field : ℕ)
        → word_at (carried_words old new renames first_words words) (address_of new heir field)
        ≡ word_at words (address_of old t.name field)) (placed_tags old) }
{}

/// The numbers of each other tag are its first ones.
pub fn other_tags_start_anew()
    ensures { (old new : List Tag) (renames : List Rename) (env first : Environment) → AreApart new
        → All (λ t. kept_for old renames t ≡ None
        → (field : ℕ) → number_of (carried_of old new renames env first) t.name field
        ≡ number_of first t.name field) (placed_tags new) }
{}

/// Downloads worked by hand.
pub fn worked_downloads()
    ensures { Worked }
{}
