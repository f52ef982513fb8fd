ghost use Rattle.std.specs.Prelude.{◌≡◌, false, length, nat_le, option_to_list};
ghost use Rattle.cause_effect.specs.Matrices.{cause_names, effect_names, level_of, row_limit};
ghost use Rattle.cause_effect.specs.Standing.{is_among, is_link_among, linked, no_matrix, refusal_of, stated, unless, with_cause, with_effect, with_reset};
ghost use Rattle.cause_effect.specs.Inner.Steps.{Steps};

use crate::fault::{LineFault, MatrixCause};
use crate::statement::Statement;
use crate::words::reserved_word;
use indexmap::{IndexMap, IndexSet};
use std::alloc::Global;
use std::marker::Model;
use tri_base::Name;

// How many causes there may be, and how many effects.
const ROW_LIMIT: usize = 64;

/// At which level of its input a cause is active.
#[derive(Clone, Copy, Debug, PartialEq, Eq)]
pub enum Level {
    /// Where the input is TRUE.
    High,
    /// Where the input is FALSE.
    Low,
}

/// What an effect does when it isn't called any more.
#[derive(Clone, Copy, Debug, PartialEq, Eq)]
pub enum Mode {
    /// It stays TRUE until it is reset.
    Latch,
    /// It becomes FALSE.
    Follow,
}

/// A link: while the cause is active, the effect is called.
#[derive(Clone, Copy, Debug, PartialEq, Eq, Hash)]
pub struct Link {
    /// The name of the cause.
    pub cause: Name,
    /// The name of the effect.
    pub effect: Name,
}

/// A cause and effect matrix.
#[derive(Drop)]
pub struct Matrix {
    pub(crate) causes: IndexMap<Name, Level>,
    pub(crate) effects: IndexMap<Name, Mode>,
    pub(crate) reset: Option<Name>,
    pub(crate) links: IndexSet<Link>,
}

impl Model for Matrix {
    ghost use Rattle.cause_effect.specs.Matrices.{MatrixValue};

    ghost Value = { MatrixValue };

    ghost view = { λ m. record {
      causes = m.causes.entries;
      effects = m.effects.entries;
      reset = m.reset;
      links = m.links.keys;
    } };
}

impl Matrix {
    /// A matrix that declares nothing. It takes no memory, and keeps the allocator for later.
    pub(crate) fn new(alloc: Global) -> Matrix
        ensures { result ≡ no_matrix }
    {
        Matrix {
            causes: IndexMap::new(alloc),
            effects: IndexMap::new(alloc),
            reset: None,
            links: IndexSet::new(alloc),
        }
    }

    /// At which level of its input a cause is active.
    pub(crate) fn level(&self, cause: &Name) -> Level
        ensures { result ≡ level_of self.now cause.now }
    {
        self.causes.get(cause).copied().unwrap_or(Level::High)
    }

    /// Takes a line of the right shape.
    pub(crate) fn take(&mut self, statement: Statement) -> Result<(), LineFault>
        ensures { Steps (stated self.old statement) result self.new }
    {
        match statement {
            Statement::Heading | Statement::End => Ok(()),
            Statement::Cause(name, level) => self.take_cause(name, level),
            Statement::Effect(name, mode) => self.take_effect(name, mode),
            Statement::Reset(name) => self.take_reset(name),
            Statement::Link(link) => self.take_link(link),
        }
    }

    /// Takes a CAUSE line.
    fn take_cause(&mut self, name: Name, level: Level) -> Result<(), LineFault>
        ensures { Steps (unless
            (refusal_of self.old name (nat_le row_limit (length self.old.causes)))
            (with_cause self.old name level)) result self.new }
    {
        if let Some(cause) = self.refusal(&name, self.causes.len() >= ROW_LIMIT) {
            return Err(LineFault::Cause(cause));
        }
        let Ok(_) = self.causes.insert(name, level) else {
            return Err(LineFault::NoMemory);
        };
        Ok(())
    }

    /// Takes an EFFECT line.
    fn take_effect(&mut self, name: Name, mode: Mode) -> Result<(), LineFault>
        ensures { Steps (unless
            (refusal_of self.old name (nat_le row_limit (length self.old.effects)))
            (with_effect self.old name mode)) result self.new }
    {
        if let Some(cause) = self.refusal(&name, self.effects.len() >= ROW_LIMIT) {
            return Err(LineFault::Cause(cause));
        }
        let Ok(_) = self.effects.insert(name, mode) else {
            return Err(LineFault::NoMemory);
        };
        Ok(())
    }

    /// Takes a RESET line.
    fn take_reset(&mut self, name: Name) -> Result<(), LineFault>
        ensures { Steps (unless (refusal_of self.old name false) (with_reset self.old name))
            result self.new }
    {
        if let Some(cause) = self.refusal(&name, false) {
            return Err(LineFault::Cause(cause));
        }
        self.reset = Some(name);
        Ok(())
    }

    /// Takes a LINK line.
    fn take_link(&mut self, link: Link) -> Result<(), LineFault>
        ensures { Steps (linked self.old link) result self.new }
    {
        if self.has_link(&link) {
            return Err(LineFault::Cause(MatrixCause::Twice));
        }
        if !self.is_cause(&link.cause) || !self.is_effect(&link.effect) {
            return Err(LineFault::Cause(MatrixCause::Unknown));
        }
        let Ok(_) = self.links.insert(link) else {
            return Err(LineFault::NoMemory);
        };
        Ok(())
    }

    /// Why a name can't be declared, where there is room for it or not.
    fn refusal(&self, name: &Name, full: bool) -> Option<MatrixCause>
        ensures { result ≡ refusal_of self.now name.now full }
    {
        if reserved_word(name.bytes()).is_some() {
            return Some(MatrixCause::Reserved);
        }
        if self.is_cause(name) || self.is_effect(name) || self.is_reset(name) {
            return Some(MatrixCause::Twice);
        }
        full.then_some(MatrixCause::Full)
    }

    /// Whether a name is that of a cause.
    fn is_cause(&self, name: &Name) -> bool
        ensures { result ≡ is_among (cause_names self.now) name.now }
    {
        self.causes.contains_key(name)
    }

    /// Whether a name is that of an effect.
    fn is_effect(&self, name: &Name) -> bool
        ensures { result ≡ is_among (effect_names self.now) name.now }
    {
        self.effects.contains_key(name)
    }

    /// Whether a name is that of the reset.
    fn is_reset(&self, name: &Name) -> bool
        ensures { result ≡ is_among (option_to_list self.now.reset) name.now }
    {
        match &self.reset {
            Some(reset) => name == reset,
            None => false,
        }
    }

    /// Whether a link is there.
    fn has_link(&self, link: &Link) -> bool
        ensures { result ≡ is_link_among self.now.links link.now }
    {
        self.links.contains(link)
    }
}
