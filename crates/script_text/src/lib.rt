//! The text of a script: the script that it spells, or the first line that no script has there, and
//! what each leg sees of it.
#![tactic(auto)]

mod act;
mod fault;
mod find_moment;
mod leg_lines;
mod moment;
mod read;
mod reader;
mod row;
mod script;
mod tape;

pub use act::Act;
pub use fault::{ScriptCause, ScriptFault};
pub use moment::{Moment, Opener, ScanLine, Setting};
pub use read::read_script;
pub use script::Script;
pub use tape::Tape;
