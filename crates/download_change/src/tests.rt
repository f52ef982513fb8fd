use crate::{carry, matches, renames_fault};
use chassis::Chassis;
use function_blocks::{BlockKind, Kind};
use sqlite_items::Items;
use st_tree::{Block, Constant, Declaration, DeclaredType, Integer, Names, PlacedName, Tree};
use st_types::check;
use std::alloc::Global;
use tag_layout::{Layout, lay};
use tri_base::{Name, Words, push_word};

/// A tag's name, its type and its first value.
type Row = (&'static [u8], DeclaredType, Option<u32>);

/// The old and the new name of a tag.
type Renaming = (&'static [u8], &'static [u8]);

const INT: DeclaredType = DeclaredType::Simple(Kind::Int);

fn integer(number: u32) -> Integer {
    Integer {
        sign: None,
        number,
        place: 0,
    }
}

fn array(low: u32, high: u32) -> DeclaredType {
    DeclaredType::Array {
        low: integer(low),
        high: integer(high),
        element: Kind::Int,
    }
}

/// The layout of a program that declares these tags; None where it is no program, or memory fails.
fn layout_of(alloc: Global, rows: &[Row]) -> Option<Layout> {
    let mut declarations = Items::new(alloc);
    for (name, declared, constant) in rows {
        let first = PlacedName {
            name: Name::read(name)?,
            place: 0,
        };
        let constant = constant.map(|number| Constant::Integer(integer(number)));
        let names = Names {
            first,
            more: Items::new(alloc),
        };
        declarations
            .push(Declaration {
                names,
                declared: *declared,
                constant,
            })
            .ok()?;
    }
    let mut blocks = Items::new(alloc);
    blocks.push(Block::Plain(declarations)).ok()?;
    let name = PlacedName {
        name: Name::read(b"P")?,
        place: 0,
    };
    let tree = Tree {
        name,
        blocks,
        statements: Items::new(alloc),
    };
    let typed = check(alloc, tree, &Chassis::new(alloc)).ok()?;
    lay(alloc, &typed).ok()
}

/// The names of renames; None where one is no name, or memory fails.
fn names_of(alloc: Global, renames: &[Renaming]) -> Option<Vec<(Name, Name)>> {
    let mut names = Vec::new(alloc);
    for (old, new) in renames {
        names.push((Name::read(old)?, Name::read(new)?)).ok()?;
    }
    Some(names)
}

/// Whether a download without a fault goes on with these words, and which tag it changes.
fn goes_on(
    alloc: Global,
    (old, words): (&[Row], &[i64]),
    (new, expected): (&[Row], &[i64]),
    renames: &[Renaming],
    changed: Option<&'static [u8]>,
) -> Option<bool> {
    let old = layout_of(alloc, old)?;
    let new = layout_of(alloc, new)?;
    let renames = names_of(alloc, renames)?;
    let mut before = Words::new(alloc);
    for word in words {
        push_word(&mut before, *word).ok()?;
    }
    let first = new.first(alloc).ok()?;
    if before.len() != old.words() || first.len() != new.words() {
        return None;
    }
    if renames_fault(&old, &new, renames.as_slice()).is_some() {
        return Some(false);
    }
    let as_told = matches(&old, &new, renames.as_slice())
        == changed.and_then(|name| Name::read(name));
    let carried = carry(alloc, &old, &new, renames.as_slice(), &first, &before).ok()?;
    Some(as_told && carried.items() == expected)
}

#[test]
fn tags_are_kept_by_name(rt: HostRuntime) {
    let alloc = rt.alloc();
    let k_and_j: [Row; 2] = [(b"K", INT, Some(7)), (b"J", INT, None)];
    let count_and_k: [Row; 2] = [(b"COUNT", INT, Some(7)), (b"K", INT, Some(3))];
    let blocks: [Row; 2] = [
        (b"EDGE", DeclaredType::Block(BlockKind::FTrig), None),
        (b"A", array(1, 2), None),
    ];
    let moved: [Row; 3] = [
        (b"A", array(0, 1), Some(5)),
        (b"J", INT, None),
        (b"FALLING", DeclaredType::Block(BlockKind::FTrig), None),
    ];
    let told = [
        goes_on(
            alloc,
            (&k_and_j, &[9, 4]),
            (&count_and_k, &[7, 9]),
            &[],
            None,
        ),
        goes_on(
            alloc,
            (&k_and_j, &[9, 4]),
            (&count_and_k, &[9, 3]),
            &[(b"K", b"COUNT")],
            None,
        ),
        goes_on(
            alloc,
            (&k_and_j, &[9, 4]),
            (&k_and_j, &[4, 9]),
            &[(b"K", b"J"), (b"J", b"K")],
            None,
        ),
        goes_on(
            alloc,
            (&blocks, &[1, 0, 1, 6, 6]),
            (&moved, &[5, 5, 0, 1, 0, 1]),
            &[(b"EDGE", b"FALLING")],
            Some(b"A"),
        ),
    ];
    assert!(rt; told.iter().all(|row| *row == Some(true)));
}
