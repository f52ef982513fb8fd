//! Statements.

ghost use Rattle.std.specs.Prelude.{◌≡◌, [], ◌∷◌, ◌++◌, IfOk};
ghost use Rattle.st_tree.specs.Typing.Statements.{statement_faults};
ghost use Rattle.st_types.specs.Inner.Finds.{Finds};
ghost use Rattle.st_types.specs.Inner.Parts.{scope, statements_faults, branch_faults, branches_faults, element_faults, elements_faults, behind_else, loop_faults};

use crate::assignments::assignment_fault;
use crate::calls::call_fault;
use crate::expressions::type_expression;
use crate::first::{fault_if, soonest};
use crate::labels::labels_fault;
use crate::loops::for_fault;
use crate::tags::DeclaredTags;
use crate::values::value_fault;
use chassis::Chassis;
use function_blocks::Kind;
use sqlite_items::Items;
use st_tree::{Branch, Element, Statement};
use std::alloc::Global;
use tri_base::{Name, NoMemory, TypeCause, TypeFault};

/// The first rule that a statement within these loops breaks.
#[cycle(checking)]
pub fn statement_fault(
    alloc: Global,
    chassis: &Chassis,
    tags: &DeclaredTags,
    loops: &[Name],
    statement: &Statement,
) -> Result<Option<TypeFault>, NoMemory>
    ensures { Finds (statement_faults (scope chassis.now tags.now) loops.now statement.now) result }
{
    match statement {
        Statement::Empty => Ok(None),
        Statement::Return => Ok(None),
        Statement::Assignment(a) => Ok(assignment_fault(chassis, tags, loops, a)),
        Statement::BlockCall(call) => call_fault(alloc, tags, call),
        Statement::If {
            first,
            more,
            otherwise,
        } => {
            let first = branch_fault(alloc, chassis, tags, loops, first)?;
            let more = branches_fault(alloc, chassis, tags, loops, more.as_slice())?;
            let others = statements_fault(alloc, chassis, tags, loops, behind_else(otherwise))?;
            Ok(soonest(soonest(first, more), others))
        }
        Statement::Case {
            selector,
            first,
            more,
            otherwise,
        } => {
            let found = type_expression(tags, selector).as_integer();
            let first = element_fault(alloc, chassis, tags, loops, found.kind(), first)?;
            let more = elements_fault(alloc, chassis, tags, loops, found.kind(), more.as_slice())?;
            let others = statements_fault(alloc, chassis, tags, loops, behind_else(otherwise))?;
            Ok(soonest(soonest(soonest(found.fault(), first), more), others))
        }
        Statement::For {
            tag,
            first,
            last,
            step,
            body,
        } => {
            let numbers = for_fault(chassis, tags, loops, *tag, *first, *last, *step);
            let body = loop_fault(alloc, chassis, tags, loops, tag.name, body.as_slice())?;
            Ok(soonest(numbers, body))
        }
        Statement::Exit(place) => { Ok(fault_if(loops.is_empty(), *place, TypeCause::ExitOutside)) }
    }
}

/// The first rule that statements within these loops break.
#[cycle(checking)]
pub fn statements_fault(
    alloc: Global,
    chassis: &Chassis,
    tags: &DeclaredTags,
    loops: &[Name],
    statements: &[Statement],
) -> Result<Option<TypeFault>, NoMemory>
    ensures { let s = scope chassis.now tags.now in
        Finds (statements_faults s loops.now statements.now) result }
{
    let mut fault = None;
    for statement in statements {
        let next = statement_fault(alloc, chassis, tags, loops, statement)?;
        fault = soonest(fault, next);
    }
    Ok(fault)
}

#[cycle(checking)]
fn branch_fault(
    alloc: Global,
    chassis: &Chassis,
    tags: &DeclaredTags,
    loops: &[Name],
    branch: &Branch,
) -> Result<Option<TypeFault>, NoMemory>
    ensures { Finds (branch_faults (scope chassis.now tags.now) loops.now branch.now) result }
{
    let condition = value_fault(tags, Kind::Bool, &branch.condition);
    let body = statements_fault(alloc, chassis, tags, loops, branch.body.as_slice())?;
    Ok(soonest(condition, body))
}

#[cycle(checking)]
fn branches_fault(
    alloc: Global,
    chassis: &Chassis,
    tags: &DeclaredTags,
    loops: &[Name],
    branches: &[Branch],
) -> Result<Option<TypeFault>, NoMemory>
    ensures { Finds (branches_faults (scope chassis.now tags.now) loops.now branches.now) result }
{
    let mut fault = None;
    for branch in branches {
        let next = branch_fault(alloc, chassis, tags, loops, branch)?;
        fault = soonest(fault, next);
    }
    Ok(fault)
}

#[cycle(checking)]
fn element_fault(
    alloc: Global,
    chassis: &Chassis,
    tags: &DeclaredTags,
    loops: &[Name],
    kind: Option<Kind>,
    element: &Element,
) -> Result<Option<TypeFault>, NoMemory>
    ensures { let s = scope chassis.now tags.now in
        Finds (element_faults s kind loops.now element.now) result }
{
    let labels = labels_fault(kind, element.first, element.more.as_slice());
    let body = statements_fault(alloc, chassis, tags, loops, element.body.as_slice())?;
    Ok(soonest(labels, body))
}

#[cycle(checking)]
fn elements_fault(
    alloc: Global,
    chassis: &Chassis,
    tags: &DeclaredTags,
    loops: &[Name],
    kind: Option<Kind>,
    elements: &[Element],
) -> Result<Option<TypeFault>, NoMemory>
    ensures { let s = scope chassis.now tags.now in
        Finds (elements_faults s kind loops.now elements.now) result }
{
    let mut fault = None;
    for element in elements {
        let next = element_fault(alloc, chassis, tags, loops, kind, element)?;
        fault = soonest(fault, next);
    }
    Ok(fault)
}

// The body of a FOR that counts with the tag of this name.
#[cycle(checking)]
fn loop_fault(
    alloc: Global,
    chassis: &Chassis,
    tags: &DeclaredTags,
    loops: &[Name],
    name: Name,
    body: &[Statement],
) -> Result<Option<TypeFault>, NoMemory>
    ensures { Finds (loop_faults (scope chassis.now tags.now) loops.now name body.now) result }
{
    let inner = within(alloc, loops, name)?;
    statements_fault(alloc, chassis, tags, inner.as_slice(), body)
}

// The loops around the body of one more.
fn within(alloc: Global, loops: &[Name], name: Name) -> Result<Vec<Name>, NoMemory>
    ensures { IfOk result (λ inner. inner.items ≡ loops.now ++ name ∷ []) }
{
    let mut inner = Vec::from_slice(alloc, loops)?;
    inner.push(name)?;
    Ok(inner)
}

// The statements behind ELSE, if it is written.
fn behind_else(otherwise: &Option<Items<Statement>>) -> &[Statement]
    ensures { result.now ≡ behind_else otherwise.now }
{
    match otherwise {
        Some(body) => body.as_slice(),
        None => &[],
    }
}
