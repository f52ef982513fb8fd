// The instructions that work on words. Each answers None, since the one behind comes next.

ghost use Rattle.std.specs.Prelude.{ℕ, ℤ, Bool, ◌||◌, ◌≡◌, ◌<◌, ◌≤◌, ◌+◌, ◌^◌, ◌≤ℤ◌, ◌-ℤ◌, pos, ◌∷◌, None, Some, length, slice_set, slice_index_or, unsigned_abs};
ghost use Rattle.tri_base.specs.Noted.{noted, TouchedValue};
ghost use Rattle.function_blocks.specs.Values.{IsOperand};
ghost use Rattle.function_blocks.specs.Fields.{field_count};
ghost use Rattle.function_blocks.specs.Blocks.{step_block};
ghost use Rattle.scan_machine.specs.Elements.{element};
ghost use Rattle.scan_machine.specs.Rules.{HasWords, HasConstants, AreBounds};
ghost use Rattle.scan_machine.specs.Machine.{does, read, load_at, noted_all, words_at, with_words};
ghost use Rattle.scan_machine.specs.Inner.Waiting.{waiting, here};
ghost use Rattle.scan_machine.specs.Inner.Groups.{IsLoadAt, IsStoreAt};

use crate::clamping::clamp_to;
use crate::instructions::Instr;
use crate::stack::{Places, pop, pop_two, push};
use function_blocks::{BlockKind, Kind, bounded, field_count, step_block};
use tri_base::Touched;

/// Pushes a constant.
#[inline(always)]
pub(crate) fn constant(value: i64, places: &mut Places, depth: &mut usize) -> Option<usize>
    requires operand { IsOperand value }
    requires room { depth.old < 1024 }
    ensures value { waiting places.new depth.new ≡ value ∷ waiting places.old depth.old }
    ensures next { result ≡ None }
    ensures depth { depth.new ≡ depth.old + 1 }
{
    push(places, depth, value);
    None
}

/// Pushes the word at an address.
#[inline(always)]
pub(crate) fn load(
    address: usize,
    kind: Kind,
    words: &[i64],
    places: &mut Places,
    depth: &mut usize,
) -> Option<usize>
    requires place { address < length words.now }
    requires room { depth.old < 1024 }
    ensures value { waiting places.new depth.new ≡ read words.now address kind ∷ waiting places.old depth.old }
    ensures next { result ≡ None }
    ensures depth { depth.new ≡ depth.old + 1 }
{
    push(places, depth, clamp_to(kind, words[address]));
    None
}

/// Pops an operand into the word at an address.
#[inline(always)]
pub(crate) fn store(
    address: usize,
    kind: Kind,
    words: &mut [i64],
    touched: &mut Touched,
    places: &Places,
    depth: &mut usize,
) -> Option<usize>
    requires place { address < length words.old }
    requires size { length words.old ≤ touched.old.size }
    requires some { 0 < depth.old }
    requires held { depth.old ≤ 1024 }
    ensures value { (dt : ℤ) → (index : ℕ) → (was : Bool)
        → does dt (Instr.Store address kind)
        (here index places.now depth.old words.old was touched.old)
        ≡ Some (here (index + 1) places.now depth.new words.new was touched.new) }
    ensures next { result ≡ None }
    ensures depth { depth.new + 1 ≡ depth.old }
    ensures size { touched.new.size ≡ touched.old.size }
{
    let value = clamp_to(kind, pop(places, depth));
    put(words, touched, address, value);
    None
}

/// Does a LoadAt.
#[inline(always)]
pub(crate) fn load_element(
    instr: &Instr,
    words: &[i64],
    places: &mut Places,
    depth: &mut usize,
    flag: &mut bool,
) -> Option<usize>
    requires kind { IsLoadAt instr.now }
    requires words { HasWords (length words.now) instr.now }
    requires constants { HasConstants instr.now }
    requires some { 0 < depth.old }
    requires held { depth.old ≤ 1024 }
    ensures value { (dt : ℤ) → (index : ℕ) → (t : TouchedValue)
        → does dt instr.now (here index places.old depth.old words.now flag.old t)
        ≡ Some (here (index + 1) places.new depth.new words.now flag.new t) }
    ensures next { result ≡ None }
    ensures depth { depth.new ≡ depth.old }
{
    match *instr {
        Instr::LoadAt {
            address,
            kind,
            low,
            high,
        } => {
            let clamped = load_at(address, kind, low, high, words, places, depth);
            raise(flag, clamped);
            None
        }
        _ => unreachable!(),
    }
}

/// Does a StoreAt.
#[inline(always)]
pub(crate) fn store_element(
    instr: &Instr,
    words: &mut [i64],
    touched: &mut Touched,
    places: &Places,
    depth: &mut usize,
    flag: &mut bool,
) -> Option<usize>
    requires kind { IsStoreAt instr.now }
    requires words { HasWords (length words.old) instr.now }
    requires constants { HasConstants instr.now }
    requires size { length words.old ≤ touched.old.size }
    requires some { 2 ≤ depth.old }
    requires held { depth.old ≤ 1024 }
    ensures value { (dt : ℤ) → (index : ℕ)
        → does dt instr.now (here index places.now depth.old words.old flag.old touched.old)
        ≡ Some (here (index + 1) places.now depth.new words.new flag.new touched.new) }
    ensures next { result ≡ None }
    ensures depth { depth.new + 2 ≡ depth.old }
    ensures size { touched.new.size ≡ touched.old.size }
{
    match *instr {
        Instr::StoreAt {
            address,
            kind,
            low,
            high,
        } => {
            let clamped = store_at(address, kind, low, high, words, touched, places, depth);
            raise(flag, clamped);
            None
        }
        _ => unreachable!(),
    }
}

/// Raises the flag where a number was clamped.
#[inline(always)]
pub(crate) fn raise(flag: &mut bool, clamped: bool)
    ensures { flag.new ≡ flag.old || clamped }
{
    if clamped {
        *flag = true;
    }
}

// Pushes the element at the index on top, and says whether the index was clamped.
#[inline(always)]
fn load_at(
    address: usize,
    kind: Kind,
    low: i64,
    high: i64,
    words: &[i64],
    places: &mut Places,
    depth: &mut usize,
) -> bool
    requires bounds { AreBounds low high }
    requires place { address + unsigned_abs (high -ℤ low) < length words.now }
    requires operand { 0 < depth.old }
    requires room { depth.old ≤ 1024 }
    ensures value { load_at words.now address kind low high (waiting places.old depth.old)
        ≡ Some (record { stack = waiting places.new depth.new; flag = result }) }
    ensures depth { depth.new ≡ depth.old }
{
    let index = bounded(low, high, pop(places, depth));
    let word = words[element(address, low, index.value)];
    push(places, depth, clamp_to(kind, word));
    index.flag
}

// Stores the number on top at the index below it, and says whether the index was clamped.
#[inline(always)]
fn store_at(
    address: usize,
    kind: Kind,
    low: i64,
    high: i64,
    words: &mut [i64],
    touched: &mut Touched,
    places: &Places,
    depth: &mut usize,
) -> bool
    requires bounds { AreBounds low high }
    requires place { address + unsigned_abs (high -ℤ low) < length words.old }
    requires operands { 2 ≤ depth.old }
    requires held { depth.old ≤ 1024 }
    requires size { length words.old ≤ touched.old.size }
    ensures value { (dt : ℤ) → (index : ℕ) → (was : Bool)
        → does dt (Instr.StoreAt address kind low high)
        (here index places.now depth.old words.old was touched.old)
        ≡ Some (here (index + 1) places.now depth.new words.new (was || result) touched.new) }
    ensures depth { depth.new + 2 ≡ depth.old }
    ensures size { touched.new.size ≡ touched.old.size }
{
    let (index, value) = pop_two(places, depth);
    let index = bounded(low, high, index);
    let value = clamp_to(kind, value);
    put(words, touched, element(address, low, index.value), value);
    index.flag
}

// Stores a number, and notes it.
#[inline(always)]
pub(crate) fn put(words: &mut [i64], touched: &mut Touched, address: usize, value: i64)
    requires place { address < length words.old }
    requires size { length words.old ≤ touched.old.size }
    ensures words { words.new ≡ slice_set words.old address value }
    ensures touched { let before = slice_index_or words.old address (pos 0) in
        touched.new ≡ record touched.old { pairs = noted address before touched.old.pairs } }
{
    touched.note(address, words[address]);
    words[address] = value;
}

// The word of an element, at an index that lies within the bounds.
#[inline(always)]
fn element(address: usize, low: i64, index: i64) -> usize
    requires { address + unsigned_abs (index -ℤ low) < 2 ^ 63 }
    ensures { result ≡ element address low index }
{
    address + index.abs_diff(low) as usize
}

/// One call of a block, whose words are all noted.
#[inline(never)]
pub(crate) fn call(
    kind: BlockKind,
    address: usize,
    dt: i64,
    words: &mut [i64],
    touched: &mut Touched,
) -> Option<usize>
    requires place { address + field_count kind ≤ length words.old }
    requires from { pos 0 ≤ℤ dt }
    requires to { dt ≤ℤ pos 10_000 }
    requires size { length words.old ≤ touched.old.size }
    ensures next { result ≡ None }
    ensures words { let fields = words_at words.old address (field_count kind) in
        words.new ≡ with_words words.old address (step_block kind dt fields) }
    ensures touched { let fields = words_at words.old address (field_count kind) in
        touched.new ≡ record touched.old { pairs = noted_all address fields touched.old.pairs } }
{
    let end = address + field_count(kind);
    note_all(&words[address..end], address, touched);
    step_block(kind, &mut words[address..end], dt);
    None
}

// Notes each of some words in a row, the lowest first.
fn note_all(fields: &[i64], address: usize, touched: &mut Touched)
    requires fits { address + length fields.now < 2 ^ 64 }
    requires size { address + length fields.now ≤ touched.old.size }
    ensures { touched.new ≡ record touched.old { pairs = noted_all address fields.now touched.old.pairs } }
{
    for (n, field) in fields.iter().enumerate() {
        touched.note(address + n, *field);
    }
}
