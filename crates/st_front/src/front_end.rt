ghost use Rattle.std.specs.Prelude.{◌≡◌, ◌≤◌, List, ℕ, length};
ghost use Rattle.tri_base.specs.Limits.{text_limit};
ghost use Rattle.st_front.specs.FrontEnd.{Fronts, HasTree};
ghost use Rattle.st_front.specs.Inner.Steps.{Checked, ReadsTree};

use chassis::Chassis;
use engine_face::Refusal;
use st_reader::{ReadFault, lex, read_program};
use st_tree::{Tree, Typed};
use st_types::{CheckFault, check};
use std::alloc::Global;
use tag_layout::{LayFault, Layout, lay};
use tri_base::{TEXT_LIMIT, Text};

/// The well-typed program that a text is over the points of a chassis, and the layout of its tags;
/// or the first refusal of TooLarge, Lex, TooDeep, Syntax, Typing and TooManyWords, in this order.
pub fn front(alloc: Global, chassis: &Chassis, text: &Text) -> Result<(Typed, Layout), Refusal>
    ensures { Fronts chassis.now text.now.list result }
{
    if text.len() > TEXT_LIMIT {
        return Err(Refusal::TooLarge);
    }
    let tree = match read_tree(alloc, text) {
        Ok(tree) => tree,
        Err(refusal) => return Err(refusal),
    };
    let typed = check_tree(alloc, chassis, tree)?;
    match lay(alloc, &typed) {
        Ok(layout) => Ok((typed, layout)),
        Err(LayFault::TooManyWords { words }) => Err(Refusal::TooManyWords { words }),
        Err(LayFault::NoMemory) => Err(Refusal::NoMemory),
    }
}

/// The tree of a text.
fn read_tree(alloc: Global, text: &Text) -> Result<Tree, Refusal>
    requires { length text.now.list ≤ text_limit }
    ensures { ReadsTree text.now.list result }
{
    let tokens = match lex(alloc, text) {
        Ok(tokens) => tokens,
        Err(ReadFault::Lex { place, cause }) => return Err(Refusal::Lex { place, cause }),
        Err(_) => return Err(Refusal::NoMemory),
    };
    match read_program(alloc, &tokens) {
        Ok(tree) => Ok(tree),
        Err(ReadFault::TooDeep { token }) => Err(Refusal::TooDeep { token }),
        Err(ReadFault::Syntax { token }) => Err(Refusal::Syntax { token }),
        Err(_) => Err(Refusal::NoMemory),
    }
}

/// The tree with the points over which it is well typed.
fn check_tree(alloc: Global, chassis: &Chassis, tree: Tree) -> Result<Typed, Refusal>
    ensures { (text : List ℕ) → HasTree text tree → Checked chassis.now text result }
{
    match check(alloc, tree, chassis) {
        Ok(typed) => Ok(typed),
        Err(CheckFault::Fault(fault)) => Err(Refusal::Typing(fault)),
        Err(CheckFault::NoMemory) => Err(Refusal::NoMemory),
    }
}
