ghost use Rattle.std.specs.Prelude.{◌≡◌, ◌<◌, ◌≤◌, ◌+◌, ◌↔◌, length, IsTrue, MatchOption};
ghost use Rattle.scan_machine.specs.Rules.{depth_at, rank, IsVerified, IsFirstBroken};
ghost use Rattle.scan_machine.specs.Inner.FirstFault.{HaveTargets, KeepsAlone, IsBrokenAt, IsSoundAt, AreSoundBelow, IsFirstAlone, HaveEmptyTargets, IsLoaded};

use crate::depths::{depth_after, first_loaded};
use crate::instructions::Instr;
use crate::rules::{has_constants, has_depth, has_loop, has_target, has_words};
use std::marker::Model;

/// A rule that each instruction of verified code keeps.
#[derive(Clone, Copy, Debug, PartialEq, Eq)]
pub enum CodeRule {
    /// All words that the instruction can touch are there.
    Address,
    /// A constant lies in its range.
    Constant,
    /// A jump goes forward and stays within the code; a loop goes back.
    Target,
    /// No operand lacks, at most 1,024 wait, and none waits where the code jumps or is jumped to.
    Depth,
    /// A loop's word is stored to by the loop alone, and loops nest.
    Loop,
}

/// The first instruction of a list that breaks a rule, and the first rule that it breaks.
#[derive(Clone, Copy, Debug, PartialEq, Eq)]
pub struct BadCode {
    /// The instruction's place in the list, or the list's length.
    pub index: usize,
    /// The first rule that is broken there.
    pub cause: CodeRule,
}

/// Code that keeps each rule. It has a number of words to work on.
#[derive(Drop)]
pub struct Code {
    instructions: Vec<Instr>,
    words: usize,
}

impl Model for Code {
    ghost use Rattle.scan_machine.specs.Codes.{CodeValue};
    ghost use Rattle.scan_machine.specs.Rules.{IsVerified};

    ghost Value = { CodeValue };

    ghost view = { λ c. record { list = c.instructions.items; words = c.words } };

    ghost invariant = { λ c. IsVerified c.instructions.items c.words };
}

impl Code {
    ghost use Rattle.std.specs.Prelude.{◌≡◌, ◌↔◌, IsOk, IfErr, IfOk};
    ghost use Rattle.scan_machine.specs.Rules.{IsVerified, IsFirstBroken};

    /// The code of a list of instructions over so many words. `Err` says which instruction breaks
    /// which rule; the list is then dropped.
    pub fn verify(instructions: Vec<Instr>, words: usize) -> Result<Code, BadCode>
        ensures exactly { IsOk result ↔ IsVerified instructions.items words }
        ensures value { IfOk result (λ code. code ≡ record { list = instructions.items; words = words }) }
        ensures broken { IfErr result (λ bad. IsFirstBroken instructions.items words bad) }
    {
        match first_fault(&instructions, words) {
            Some(bad) => Err(bad),
            None => Ok(Code {
                instructions,
                words,
            }),
        }
    }

    /// The number of words that the code works on.
    pub fn words(&self) -> usize
        ensures { result ≡ self.now.words }
    {
        self.words
    }

    /// The instructions.
    pub fn instructions(&self) -> &[Instr]
        ensures value { result.now ≡ self.now.list }
        ensures kept { IsVerified self.now.list self.now.words }
    {
        self.instructions.as_slice()
    }
}

// Whether an instruction keeps a rule, where so many operands wait before it; they may wait at a
// target.
fn keeps(code: &[Instr], place: usize, words: usize, depth: usize, rule: CodeRule) -> bool
    requires place { place < length code.now }
    requires targets { HaveTargets code.now place }
    requires depth { depth ≡ depth_at code.now place }
    requires room { depth ≤ 1024 }
    ensures { IsTrue result ↔ KeepsAlone code.now words place rule }
{
    let instr = &code[place];
    match rule {
        CodeRule::Address => has_words(instr, words),
        CodeRule::Constant => has_constants(instr),
        CodeRule::Target => has_target(instr, place, code.len()),
        CodeRule::Depth => has_depth(instr, depth),
        CodeRule::Loop => has_loop(code, place),
    }
}

// The first rule that an instruction breaks, where so many operands wait before it; they may wait
// at a target.
fn broken_rule(code: &[Instr], place: usize, words: usize, depth: usize) -> Option<CodeRule>
    requires place { place < length code.now }
    requires targets { HaveTargets code.now place }
    requires depth { depth ≡ depth_at code.now place }
    requires room { depth ≤ 1024 }
    ensures { MatchOption result (IsSoundAt code.now words place) (IsBrokenAt code.now words place) }
{
    if !keeps(code, place, words, depth, CodeRule::Address) {
        Some(CodeRule::Address)
    } else if !keeps(code, place, words, depth, CodeRule::Constant) {
        Some(CodeRule::Constant)
    } else if !keeps(code, place, words, depth, CodeRule::Target) {
        Some(CodeRule::Target)
    } else if !keeps(code, place, words, depth, CodeRule::Depth) {
        Some(CodeRule::Depth)
    } else if !keeps(code, place, words, depth, CodeRule::Loop) {
        Some(CodeRule::Loop)
    } else {
        None
    }
}

// The first broken rule at the first place that breaks one; operands may wait at a target.
fn first_alone(code: &[Instr], words: usize) -> Option<BadCode>
    ensures { let all = AreSoundBelow code.now words (length code.now + 1) in
        MatchOption result all (IsFirstAlone code.now words) }
{
    let mut depth = 0;
    for index in 0..code.len() {
        if let Some(cause) = broken_rule(code, index, words, depth) {
            return Some(BadCode { index, cause });
        }
        depth = depth_after(depth, &code[index]);
    }
    if depth == 0 {
        None
    } else {
        Some(BadCode {
            index: code.len(),
            cause: CodeRule::Depth,
        })
    }
}

// Whether the rule stands before Depth.
fn is_before_depth(rule: CodeRule) -> bool
    ensures { IsTrue result ↔ (rank rule < 3) }
{
    matches!(
        rule,
        CodeRule::Address | CodeRule::Constant | CodeRule::Target
    )
}

// The first broken rule at the first place that breaks one.
fn first_fault(code: &[Instr], words: usize) -> Option<BadCode>
    ensures { MatchOption result (IsVerified code.now words) (IsFirstBroken code.now words) }
{
    match first_alone(code, words) {
        Some(bad) => Some(with_targets(code, words, bad)),
        None => {
            let target = first_loaded(code, code.len() + 1);
            if target <= code.len() {
                Some(BadCode {
                    index: target,
                    cause: CodeRule::Depth,
                })
            } else {
                None
            }
        }
    }
}

// The first fault, where this one is the first but for operands that wait at a target.
fn with_targets(code: &[Instr], words: usize, bad: BadCode) -> BadCode
    requires { IsFirstAlone code.now words bad }
    ensures { IsFirstBroken code.now words result }
{
    let target = first_loaded(code, bad.index + 1);
    let loaded = BadCode {
        index: target,
        cause: CodeRule::Depth,
    };
    if target < bad.index {
        loaded
    } else if target > bad.index {
        bad
    } else if is_before_depth(bad.cause) {
        bad
    } else {
        loaded
    }
}
