//! The tags that a program declares.

ghost use Rattle.std.specs.Prelude.{◌≡◌, [], ◌∷◌, ◌++◌, map, take, OnOk, OnErr, IfOk};
ghost use Rattle.std.specs.List.{flat_map, list_any};
ghost use Rattle.std.specs.Str.{bytes_eq};
ghost use Rattle.st_tree.specs.Tags.{tag_of, tags_of_declaration, tags_of_external, tags_of_block, tags_of, tag_named};
ghost use Rattle.st_types.specs.Inner.Parts.{tags_of_names};
ghost use Rattle.st_types.specs.Inner.Places.{place_of, with_first};

use indexmap::IndexMap;
use st_tree::{
    Block, Constant, Declaration, DeclaredType, ExternalDeclaration, Names, PlacedName, Tag, Tree,
};
use std::alloc::Global;
use std::marker::Model;
use tri_base::{Name, NoMemory};

/// The tags that a program declares, in order, found by name in constant time.
#[derive(Drop)]
pub struct DeclaredTags {
    tags: Vec<Tag>,
    // The place of the first tag with each name.
    places: IndexMap<Name, usize>,
}

impl Model for DeclaredTags {
    ghost use Rattle.std.specs.Prelude.{List};
    ghost use Rattle.st_tree.specs.declared.tag.Tag.{Tag};

    ghost Value = { List Tag };

    ghost use Rattle.st_types.specs.Inner.Places.{IsKept};

    ghost view = { λ d. d.tags.items };

    ghost invariant = { IsKept };
}

impl DeclaredTags {
    /// No tags.
    fn new(alloc: Global) -> DeclaredTags
        ensures { result ≡ [] }
    {
        DeclaredTags {
            tags: Vec::new(alloc),
            places: IndexMap::new(alloc),
        }
    }

    /// Adds a tag behind the others.
    fn add(&mut self, tag: Tag) -> Result<(), NoMemory>
        ensures { OnOk result (self.new ≡ self.old ++ tag ∷ []) }
    {
        self.tags.reserve(1)?;
        note_first(&mut self.places, tag.name, self.tags.len())?;
        self.tags.push(tag).unwrap();
        Ok(())
    }

    /// The place of the first tag with a name.
    pub fn place(&self, name: &Name) -> Option<usize>
        ensures { result ≡ place_of self.now name.now }
    {
        self.places.get(name).copied()
    }

    /// The tag that a name means: the first that is declared so.
    pub fn named(&self, name: &Name) -> Option<Tag>
        ensures { result ≡ tag_named self.now name.now }
    {
        match self.place(name) {
            Some(place) => self.tags.get(place).copied(),
            None => None,
        }
    }

    /// Whether one of the tags before a place has a name.
    pub fn is_again(&self, at: usize, name: &Name) -> bool
        ensures { result ≡ list_any (bytes_eq name.now) (map (λ t. t.name) (take at self.now)) }
    {
        match self.place(name) {
            Some(first) => first < at,
            None => false,
        }
    }

    /// Lends the tags.
    pub fn items(&self) -> &[Tag]
        ensures { result.now ≡ self.now }
    {
        self.tags.as_slice()
    }
}

// Notes the place of a name that has none yet.
fn note_first(places: &mut IndexMap<Name, usize>, name: Name, place: usize) -> Result<(), NoMemory>
    ensures noted { OnOk result (places.new.entries ≡ with_first places.old.entries name place) }
    ensures unchanged { OnErr result (places.new.entries ≡ places.old.entries) }
{
    if places.contains_key(&name) {
        return Ok(());
    }
    places.insert(name, place)?;
    Ok(())
}

/// All tags of a program, in order of declaration.
#[tactic(auto, unfolding(st_tree::specs::Tags::tags_of))]
pub fn declared_tags(alloc: Global, tree: &Tree) -> Result<DeclaredTags, NoMemory>
    ensures { IfOk result (λ found. found ≡ tags_of tree.now) }
{
    let mut tags = DeclaredTags::new(alloc);
    for block in tree.blocks.as_slice() {
        add_block(&mut tags, block)?;
    }
    Ok(tags)
}

fn add_block(tags: &mut DeclaredTags, block: &Block) -> Result<(), NoMemory>
    ensures { OnOk result (tags.new ≡ tags.old ++ tags_of_block block.now) }
{
    match block {
        Block::Plain(declarations) => add_plain(tags, declarations.as_slice()),
        Block::External(declarations) => add_external(tags, declarations.as_slice()),
    }
}

fn add_plain(tags: &mut DeclaredTags, declarations: &[Declaration]) -> Result<(), NoMemory>
    ensures { OnOk result (tags.new ≡ tags.old ++ flat_map tags_of_declaration declarations.now) }
{
    for d in declarations {
        add_names(tags, false, d.declared, d.constant, &d.names)?;
    }
    Ok(())
}

fn add_external(
    tags: &mut DeclaredTags,
    declarations: &[ExternalDeclaration],
) -> Result<(), NoMemory>
    ensures { OnOk result (tags.new ≡ tags.old ++ flat_map tags_of_external declarations.now) }
{
    for d in declarations {
        add_names(tags, true, DeclaredType::Simple(d.declared), None, &d.names)?;
    }
    Ok(())
}

// Adds the tags of one declaration.
fn add_names(
    tags: &mut DeclaredTags,
    external: bool,
    declared: DeclaredType,
    constant: Option<Constant>,
    names: &Names,
) -> Result<(), NoMemory>
    ensures { let added = tags_of_names external declared constant names.now in
        OnOk result (tags.new ≡ tags.old ++ added) }
{
    add_name(tags, external, declared, constant, &names.first)?;
    for name in names.more.as_slice() {
        add_name(tags, external, declared, constant, name)?;
    }
    Ok(())
}

fn add_name(
    tags: &mut DeclaredTags,
    external: bool,
    declared: DeclaredType,
    constant: Option<Constant>,
    name: &PlacedName,
) -> Result<(), NoMemory>
    ensures { let added = tag_of external declared constant name.now in
        OnOk result (tags.new ≡ tags.old ++ added ∷ []) }
{
    tags.add(Tag {
        name: name.name,
        place: name.place,
        declared,
        constant,
        external,
    })
}
