//! The tags that a program declares, in order.

ghost use Rattle.std.specs.Prelude.{◌≡◌, [], ◌∷◌, ◌++◌, OnOk, IfOk};
ghost use Rattle.std.specs.List.{flat_map};
ghost use Rattle.st_tree.specs.Tags.{tag_of, tags_of_declaration, tags_of_external, tags_of_block, tags_of};
ghost use Rattle.st_types.specs.Inner.Parts.{tags_of_names};

use st_tree::{
    Block, Constant, Declaration, DeclaredType, ExternalDeclaration, Names, PlacedName, Tag, Tree,
};
use std::alloc::Global;
use tri_base::NoMemory;

/// All tags of a program, in order of declaration.
pub fn declared_tags(alloc: Global, tree: &Tree) -> Result<Vec<Tag>, NoMemory>
    ensures { IfOk result (λ tags. tags.items ≡ tags_of tree.now) }
{
    let mut tags = Vec::new(alloc);
    for block in tree.blocks.as_slice() {
        add_block(&mut tags, block)?;
    }
    Ok(tags)
}

fn add_block(tags: &mut Vec<Tag>, block: &Block) -> Result<(), NoMemory>
    ensures { OnOk result (tags.new.items ≡ tags.old.items ++ tags_of_block block.now) }
{
    match block {
        Block::Plain(declarations) => add_plain(tags, declarations.as_slice()),
        Block::External(declarations) => add_external(tags, declarations.as_slice()),
    }
}

fn add_plain(tags: &mut Vec<Tag>, declarations: &[Declaration]) -> Result<(), NoMemory>
    ensures { OnOk result
        (tags.new.items ≡ tags.old.items ++ flat_map tags_of_declaration declarations.now) }
{
    for d in declarations {
        add_names(tags, false, d.declared, d.constant, &d.names)?;
    }
    Ok(())
}

fn add_external(tags: &mut Vec<Tag>, declarations: &[ExternalDeclaration]) -> Result<(), NoMemory>
    ensures { OnOk result
        (tags.new.items ≡ tags.old.items ++ flat_map tags_of_external declarations.now) }
{
    for d in declarations {
        add_names(tags, true, DeclaredType::Simple(d.declared), None, &d.names)?;
    }
    Ok(())
}

// Adds the tags of one declaration.
fn add_names(
    tags: &mut Vec<Tag>,
    external: bool,
    declared: DeclaredType,
    constant: Option<Constant>,
    names: &Names,
) -> Result<(), NoMemory>
    ensures { OnOk result
        (tags.new.items ≡ tags.old.items ++ tags_of_names external declared constant names.now) }
{
    add_name(tags, external, declared, constant, &names.first)?;
    for name in names.more.as_slice() {
        add_name(tags, external, declared, constant, name)?;
    }
    Ok(())
}

fn add_name(
    tags: &mut Vec<Tag>,
    external: bool,
    declared: DeclaredType,
    constant: Option<Constant>,
    name: &PlacedName,
) -> Result<(), NoMemory>
    ensures { OnOk result
        (tags.new.items ≡ tags.old.items ++ tag_of external declared constant name.now ∷ []) }
{
    tags.push(Tag {
        name: name.name,
        place: name.place,
        declared,
        constant,
        external,
    })?;
    Ok(())
}
