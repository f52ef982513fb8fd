//! The instructions of expressions.

ghost use Rattle.st_meaning.specs.Expressions.{elaborated, function_term};
ghost use Rattle.code_size.specs.Inner.Ranks.{exclusive_in, conjunction_in, equality_in, comparison_in, sum_in, product_in, unary_in, primary_in, arguments_in};
ghost use Rattle.scan_code.specs.Inner.Emits.{EmitsTerm};

use crate::code::{push_number, push_truth, put};
use crate::fields::emit_field;
use crate::found::{find, load, load_at};
use crate::functions::{first_asked, function_instr};
use crate::operators::{add_instr, compare_instr, equal_instr, multiply_instr};
use crate::own_types::{common, settled, type_of_comparison, type_of_expr, type_of_sum};
use code_size::further_arguments;
use function_blocks::Kind;
use scan_machine::Instr;
use st_tree::{
    Arguments, Comparison, Conjunction, Equality, Exclusive, Expr, Function, Primary, Product, Sum,
    Unary,
};
use tag_layout::Layout;
use tri_base::NoMemory;

/// Pushes an expression, in the type that is asked for.
#[cycle(emit)]
pub(crate) fn emit_expr(
    code: &mut Vec<Instr>,
    layout: &Layout,
    e: &Expr,
    asked: Kind,
) -> Result<(), NoMemory>
    ensures { let term = (elaborated layout.now e.now).asked asked in
        EmitsTerm result layout.now code.old.items code.new.items term }
{
    let more = e.more.as_slice();
    if more.is_empty() {
        return emit_exclusive(code, layout, &e.first, asked);
    }
    emit_exclusive(code, layout, &e.first, Kind::Bool)?;
    for x in more {
        emit_exclusive(code, layout, x, Kind::Bool)?;
        put(code, Instr::Or)?;
    }
    Ok(())
}

#[cycle(emit)]
fn emit_exclusive(
    code: &mut Vec<Instr>,
    layout: &Layout,
    e: &Exclusive,
    asked: Kind,
) -> Result<(), NoMemory>
    ensures { let term = (exclusive_in layout.now e.now).asked asked in
        EmitsTerm result layout.now code.old.items code.new.items term }
{
    let more = e.more.as_slice();
    if more.is_empty() {
        return emit_conjunction(code, layout, &e.first, asked);
    }
    emit_conjunction(code, layout, &e.first, Kind::Bool)?;
    for x in more {
        emit_conjunction(code, layout, x, Kind::Bool)?;
        put(code, Instr::Xor)?;
    }
    Ok(())
}

#[cycle(emit)]
fn emit_conjunction(
    code: &mut Vec<Instr>,
    layout: &Layout,
    e: &Conjunction,
    asked: Kind,
) -> Result<(), NoMemory>
    ensures { let term = (conjunction_in layout.now e.now).asked asked in
        EmitsTerm result layout.now code.old.items code.new.items term }
{
    let more = e.more.as_slice();
    if more.is_empty() {
        return emit_equality(code, layout, &e.first, asked);
    }
    emit_equality(code, layout, &e.first, Kind::Bool)?;
    for x in more {
        emit_equality(code, layout, x, Kind::Bool)?;
        put(code, Instr::And)?;
    }
    Ok(())
}

#[cycle(emit)]
fn emit_equality(
    code: &mut Vec<Instr>,
    layout: &Layout,
    e: &Equality,
    asked: Kind,
) -> Result<(), NoMemory>
    ensures { let term = (equality_in layout.now e.now).asked asked in
        EmitsTerm result layout.now code.old.items code.new.items term }
{
    let more = e.more.as_slice();
    if more.is_empty() {
        return emit_comparison(code, layout, &e.first, asked);
    }
    let first = type_of_comparison(layout, &e.first);
    let second = type_of_comparison(layout, &more[0].operand);
    let mut at = settled(common(first, second));
    emit_comparison(code, layout, &e.first, at)?;
    for x in more {
        emit_comparison(code, layout, &x.operand, at)?;
        put(code, equal_instr(x.operator))?;
        at = Kind::Bool;
    }
    Ok(())
}

#[cycle(emit)]
fn emit_comparison(
    code: &mut Vec<Instr>,
    layout: &Layout,
    e: &Comparison,
    asked: Kind,
) -> Result<(), NoMemory>
    ensures { let term = (comparison_in layout.now e.now).asked asked in
        EmitsTerm result layout.now code.old.items code.new.items term }
{
    let more = e.more.as_slice();
    if more.is_empty() {
        return emit_sum(code, layout, &e.first, asked);
    }
    let first = type_of_sum(layout, &e.first);
    let second = type_of_sum(layout, &more[0].operand);
    let mut at = settled(common(first, second));
    emit_sum(code, layout, &e.first, at)?;
    for x in more {
        emit_sum(code, layout, &x.operand, at)?;
        put(code, compare_instr(x.operator))?;
        at = Kind::Bool;
    }
    Ok(())
}

#[cycle(emit)]
fn emit_sum(code: &mut Vec<Instr>, layout: &Layout, e: &Sum, asked: Kind) -> Result<(), NoMemory>
    ensures { let term = (sum_in layout.now e.now).asked asked in
        EmitsTerm result layout.now code.old.items code.new.items term }
{
    emit_product(code, layout, &e.first, asked)?;
    let more = e.more.as_slice();
    for x in more {
        emit_product(code, layout, &x.operand, asked)?;
        put(code, add_instr(x.operator, asked))?;
    }
    Ok(())
}

#[cycle(emit)]
fn emit_product(
    code: &mut Vec<Instr>,
    layout: &Layout,
    e: &Product,
    asked: Kind,
) -> Result<(), NoMemory>
    ensures { let term = (product_in layout.now e.now).asked asked in
        EmitsTerm result layout.now code.old.items code.new.items term }
{
    emit_unary(code, layout, &e.first, asked)?;
    let more = e.more.as_slice();
    for x in more {
        emit_unary(code, layout, &x.operand, asked)?;
        put(code, multiply_instr(x.operator, asked))?;
    }
    Ok(())
}

#[cycle(emit)]
fn emit_unary(
    code: &mut Vec<Instr>,
    layout: &Layout,
    e: &Unary,
    asked: Kind,
) -> Result<(), NoMemory>
    ensures { let term = (unary_in layout.now e.now).asked asked in
        EmitsTerm result layout.now code.old.items code.new.items term }
{
    match e {
        Unary::Plain(primary) => emit_primary(code, layout, primary, asked),
        Unary::Minus(_, primary) => {
            emit_primary(code, layout, primary, asked)?;
            put(code, Instr::Neg(asked))
        }
        Unary::Not(_, primary) => {
            emit_primary(code, layout, primary, Kind::Bool)?;
            put(code, Instr::Not)
        }
    }
}

#[cycle(emit)]
fn emit_primary(
    code: &mut Vec<Instr>,
    layout: &Layout,
    e: &Primary,
    asked: Kind,
) -> Result<(), NoMemory>
    ensures { let term = (primary_in layout.now e.now).asked asked in
        EmitsTerm result layout.now code.old.items code.new.items term }
{
    match e {
        Primary::Number(number, _) => put(code, push_number(*number)),
        Primary::Truth(value, _) => put(code, push_truth(*value)),
        Primary::Tag(tag) => put(code, load(find(layout, tag.name))),
        Primary::Field(block, field) => emit_field(code, layout, block.name, field.name),
        Primary::Element(array, index) => {
            let at = settled(type_of_expr(layout, index.get()));
            emit_expr(code, layout, index.get(), at)?;
            put(code, load_at(find(layout, array.name)))
        }
        Primary::Bracketed(_, inside) => emit_expr(code, layout, inside.get(), asked),
        Primary::Call(function, _, arguments) => {
            emit_call(code, layout, *function, arguments.get(), asked)
        }
    }
}

// A function with its arguments; 0 where there are too many of them or too few, which no well-typed
// program has.
#[cycle(emit)]
fn emit_call(
    code: &mut Vec<Instr>,
    layout: &Layout,
    function: Function,
    e: &Arguments,
    asked: Kind,
) -> Result<(), NoMemory>
    ensures { let term = function_term function (arguments_in layout.now e.now) asked in
        EmitsTerm result layout.now code.old.items code.new.items term }
{
    let more = e.more.as_slice();
    if more.len() != further_arguments(function) {
        return put(code, push_number(0));
    }
    emit_expr(code, layout, &e.first, first_asked(function, asked))?;
    for x in more {
        emit_expr(code, layout, x, asked)?;
    }
    put(code, function_instr(function, asked))
}
