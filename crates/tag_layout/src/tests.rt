use crate::{LayFault, Layout, lay};
use chassis::Chassis;
use function_blocks::{BlockKind, Kind};
use sqlite_items::Items;
use st_tree::{
    Block, Constant, Declaration, DeclaredType, ExternalDeclaration, Integer, Names, PlacedName,
    Sign, Tree,
};
use st_types::check;
use std::alloc::Global;
use tri_base::{Name, Point, PointKind};

/// A tag's name, its type and its first value.
type Row = (&'static [u8], DeclaredType, Option<i32>);

fn integer(value: i32) -> Integer {
    Integer {
        sign: (value < 0).then_some((Sign::Minus, 0)),
        number: value.unsigned_abs(),
        place: 0,
    }
}

fn array(low: i32, high: i32) -> DeclaredType {
    DeclaredType::Array {
        low: integer(low),
        high: integer(high),
        element: Kind::Int,
    }
}

/// The layout of a program that declares these tags in one block; None where it is no program.
fn layout_of(alloc: Global, rows: &[Row]) -> Option<Result<Layout, LayFault>> {
    let mut declarations = Items::new(alloc);
    for (name, declared, constant) in rows {
        let first = PlacedName {
            name: Name::read(name)?,
            place: 0,
        };
        let more = Items::new(alloc);
        let constant = constant.map(|value| Constant::Integer(integer(value)));
        declarations
            .push(Declaration {
                names: Names { first, more },
                declared: *declared,
                constant,
            })
            .ok()?;
    }
    let mut blocks = Items::new(alloc);
    blocks.push(Block::Plain(declarations)).ok()?;
    let name = PlacedName {
        name: Name::read(b"P")?,
        place: 0,
    };
    let tree = Tree {
        name,
        blocks,
        statements: Items::new(alloc),
    };
    let typed = check(alloc, tree, &Chassis::new(alloc)).ok()?;
    Some(lay(alloc, &typed))
}

/// The program `VAR_EXTERNAL X, Y : BOOL; END_VAR VAR A, B : INT := 5; END_VAR`, over a chassis
/// with the points Y and X.
fn with_points(alloc: Global) -> Option<Layout> {
    let placed = |bytes: &[u8]| Some(PlacedName {
        name: Name::read(bytes)?,
        place: 0,
    });
    let mut externals = Items::new(alloc);
    let mut more = Items::new(alloc);
    more.push(placed(b"Y")?).ok()?;
    externals
        .push(ExternalDeclaration {
            names: Names {
                first: placed(b"X")?,
                more,
            },
            declared: Kind::Bool,
        })
        .ok()?;
    let mut others = Items::new(alloc);
    let mut more = Items::new(alloc);
    more.push(placed(b"B")?).ok()?;
    others
        .push(Declaration {
            names: Names {
                first: placed(b"A")?,
                more,
            },
            declared: DeclaredType::Simple(Kind::Int),
            constant: Some(Constant::Integer(integer(5))),
        })
        .ok()?;
    let mut blocks = Items::new(alloc);
    blocks.push(Block::External(externals)).ok()?;
    blocks.push(Block::Plain(others)).ok()?;
    let tree = Tree {
        name: placed(b"P")?,
        blocks,
        statements: Items::new(alloc),
    };
    let mut chassis = Chassis::new(alloc);
    for name in [b"Y", b"X"] {
        chassis
            .add(Point {
                name: Name::read(name)?,
                kind: PointKind::Di,
                low: 0,
                high: 1,
                tolerance: 0,
            })
            .ok()?;
    }
    lay(alloc, &check(alloc, tree, &chassis).ok()?).ok()
}

/// Whether a program with these tags is laid out with these addresses, each of a name and a field,
/// and these first words.
fn is_laid(
    alloc: Global,
    rows: &[Row],
    addresses: &[(&'static [u8], usize, Option<usize>)],
    words: &[i64],
) -> bool {
    let Some(Ok(layout)) = layout_of(alloc, rows) else {
        return false;
    };
    let Ok(first) = layout.first(alloc) else {
        return false;
    };
    for (name, field, address) in addresses {
        let Some(name) = Name::read(name) else {
            return false;
        };
        if layout.address(&name, *field) != *address {
            return false;
        }
    }
    layout.words() == words.len() && layout.tags().len() == rows.len() && first.items() == words
}

#[test]
fn tags_lie_in_order_of_declaration(rt: HostRuntime) {
    let array_and_int: [Row; 2] = [
        (b"A", array(1, 3), Some(2)),
        (b"X", DeclaredType::Simple(Kind::Int), None),
    ];
    let blocks: [Row; 4] = [
        (b"N", DeclaredType::Simple(Kind::Dint), Some(-5)),
        (b"EDGE", DeclaredType::Block(BlockKind::FTrig), None),
        (b"DELAY", DeclaredType::Block(BlockKind::Ton), None),
        (b"A", array(-1, 0), Some(7)),
    ];
    let alloc = rt.alloc();
    let laid = is_laid(
        alloc,
        &array_and_int,
        &[
            (b"A", 0, Some(0)),
            (b"A", 2, Some(2)),
            (b"A", 3, None),
            (b"X", 0, Some(3)),
            (b"X", 1, None),
            (b"Y", 0, None),
        ],
        &[2, 2, 2, 0],
    ) && is_laid(
        alloc,
        &blocks,
        &[
            (b"N", 0, Some(0)),
            (b"EDGE", 2, Some(3)),
            (b"DELAY", 4, Some(8)),
            (b"DELAY", 5, None),
            (b"A", 1, Some(10)),
        ],
        &[-5, 0, 0, 1, 0, 0, 0, 0, 0, 7, 7],
    );
    assert!(rt; laid);
}

#[test]
fn tags_of_points_have_words_too(rt: HostRuntime) {
    let alloc = rt.alloc();
    let rows: [(&[u8], Option<usize>); 4] = [
        (b"X", Some(0)),
        (b"Y", Some(1)),
        (b"A", Some(2)),
        (b"B", Some(3)),
    ];
    let mut as_told = false;
    if let Some(layout) = with_points(alloc) {
        as_told = layout.tags().len() == 4;
        for (name, address) in rows {
            let name = Name::read(name);
            as_told = as_told && name.is_some_and(|name| layout.address(&name, 0) == address);
        }
        let first = layout.first(alloc);
        as_told = as_told && first.is_ok_and(|words| words.items() == [0, 0, 5, 5].as_slice());
    }
    assert!(rt; as_told);
}

/// What laying out answers of a program: how many words its layout has and its first words are, or
/// how many are told to be too many. None where it is no program, or memory fails.
fn laid_or_told(alloc: Global, rows: &[Row]) -> Option<Result<(usize, usize), usize>> {
    match layout_of(alloc, rows)? {
        Ok(layout) => {
            let first = layout.first(alloc).ok()?;
            Some(Ok((layout.words(), first.items().len())))
        }
        Err(LayFault::TooManyWords { words }) => Some(Err(words)),
        Err(LayFault::NoMemory) => None,
    }
}

#[test]
fn more_than_4096_words_are_too_many(rt: HostRuntime) {
    let alloc = rt.alloc();
    let told = [
        laid_or_told(alloc, &[(b"A", array(0, 4_095), None)]),
        laid_or_told(alloc, &[(b"A", array(0, 4_096), None)]),
        laid_or_told(
            alloc,
            &[
                (b"A", array(i32::MIN, i32::MAX), None),
                (b"B", array(i32::MIN, i32::MAX), None),
            ],
        ),
    ];
    let expected = [
        Some(Ok((4_096, 4_096))),
        Some(Err(4_097)),
        Some(Err(8_589_934_592)),
    ];
    assert_eq!(rt; told, expected);
}
