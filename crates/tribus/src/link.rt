//! A link between two threads: a box, the end that puts, the end that takes, and what is known once
//! both ends are back.

ghost use Rattle.std.specs.Prelude.{◌≡◌, ◌≤◌, ◌<◌, ◌+◌, ◌∷◌, ◌++◌, [], length, true, IfOk};
ghost use mathlib.Core.List.{IsPrefix};
ghost use Rattle.crossbeam_queue.specs.Passes.{view, IsPassOf};
ghost use Rattle.tribus.specs.Ends.{end};

use crate::rule::{Ends, Left, LinkRule, Log, Sent, Taken};
use crossbeam_queue::{Pass, RuledArrayQueue};
use crossbeam_utils::Backoff;
use std::alloc::{AllocError, Global};
use std::marker::Model;
use std::sync::{Arc, Wait};

/// The box of a link.
type Line<T> = RuledArrayQueue<T, Log<T>, LinkRule>;

/// A link whose box has so many places, kept until both its ends are back. Contracts see which link
/// it is.
#[derive(Drop)]
pub struct Link<T, const PLACES: usize> {
    line: Arc<Line<T>>,
}

/// The end that puts. Contracts see its link, and what was put, oldest first.
#[derive(Drop)]
pub struct Sender<T> {
    line: Arc<Line<T>>,
    pass: Pass<T, Log<T>>,
}

/// The end that takes. Contracts see its link, and what was taken, oldest first.
#[derive(Drop)]
pub struct Receiver<T> {
    line: Arc<Line<T>>,
    pass: Pass<T, Log<T>>,
}

/// A link whose ends are back. It has nothing that a program reads. Contracts see what was put,
/// what was taken, and what was left in the box.
#[derive(Drop)]
pub struct SettledLink<T> {
    pass: Pass<T, Log<T>>,
}

impl<T, const PLACES: usize> Model for Link<T, PLACES> {
    ghost use Rattle.std.specs.Prelude.{◌≡◌};
    ghost use Rattle.std.specs.Arc.{arc_value};
    ghost use Rattle.atomic_table.specs.Seated.{TableId, table_id_coded};
    ghost use Rattle.crossbeam_queue.specs.Passes.{ruled_capacity};

    ghost Value = { TableId };

    ghost coded = { table_id_coded };

    ghost view = { λ l. (arc_value l.line).table.shared.table_id };

    ghost invariant = { λ l. ruled_capacity (arc_value l.line) ≡ PLACES };
}

impl<T> Model for Sender<T> {
    ghost use Rattle.std.specs.Prelude.{◌≡◌, true, false, []};
    ghost use Rattle.std.specs.Arc.{arc_value};
    ghost use Rattle.crossbeam_queue.specs.Passes.{view as seen, IsPassOf};
    ghost use Rattle.tribus.specs.Ends.{End, end};
    ghost use Rattle.tribus.specs.Inner.Codes.{end_code};
    ghost use Rattle.tribus.specs.Inner.Rules.{log};

    ghost Value = { End T };

    ghost coded = { end_code T.code };

    ghost view = { λ s. end s.pass.table_id (seen s.pass).sent };

    ghost invariant = { λ s. IsPassOf (arc_value s.line) s.pass
        × (seen s.pass ≡ log true false (seen s.pass).sent [] []) };
}

impl<T> Model for Receiver<T> {
    ghost use Rattle.std.specs.Prelude.{◌≡◌, true, false, []};
    ghost use Rattle.std.specs.Arc.{arc_value};
    ghost use Rattle.crossbeam_queue.specs.Passes.{view as seen, IsPassOf};
    ghost use Rattle.tribus.specs.Ends.{End, end};
    ghost use Rattle.tribus.specs.Inner.Codes.{end_code};
    ghost use Rattle.tribus.specs.Inner.Rules.{log};

    ghost Value = { End T };

    ghost coded = { end_code T.code };

    ghost view = { λ s. end s.pass.table_id (seen s.pass).taken };

    ghost invariant = { λ s. IsPassOf (arc_value s.line) s.pass
        × (seen s.pass ≡ log false true [] (seen s.pass).taken []) };
}

impl<T> Model for SettledLink<T> {
    ghost use Rattle.std.specs.Prelude.{◌≡◌, ◌++◌};
    ghost use Rattle.crossbeam_queue.specs.Passes.{view as seen};
    ghost use Rattle.tribus.specs.Ends.{Trace, trace};
    ghost use Rattle.tribus.specs.Inner.Codes.{trace_code};

    ghost Value = { Trace T };

    ghost coded = { trace_code T.code };

    ghost view = { λ s. trace (seen s.pass).sent (seen s.pass).taken (seen s.pass).left };

    ghost invariant = { λ s. (seen s.pass).sent ≡ (seen s.pass).taken ++ (seen s.pass).left };
}

/// A link with nothing in its box, and its two ends.
pub fn open_link<T: Drop, const PLACES: usize>(
    alloc: Global,
) -> Result<(Link<T, PLACES>, Sender<T>, Receiver<T>), AllocError>
    requires { 0 < PLACES }
    ensures { IfOk result (λ l. (l.1 ≡ end l.0 []) × (l.2 ≡ end l.0 [])) }
{
    let (line, mut sender) = Line::<T>::ruled(alloc, PLACES)?;
    let receiver = line.another::<Ends>(&mut sender);
    let line = Arc::new(alloc, line)?;
    let first = Arc::try_clone(&line)?;
    let second = Arc::try_clone(&line)?;
    Ok((
        Link { line },
        Sender {
            line: first,
            pass: sender,
        },
        Receiver {
            line: second,
            pass: receiver,
        },
    ))
}

impl<T: Drop> Sender<T> {
    /// Puts an item into the box, once there is a place. After a try that finds none it pauses.
    pub fn put<R: Wait>(&mut self, rt: &R, item: T)
        ensures { self.new ≡ record self.old { list = self.old.list ++ item ∷ [] } }
    {
        let backoff = Backoff::new();
        let mut waiting = item;
        for _ in rt.forever() {
            match self.line.try_push_as::<Sent>(&mut self.pass, waiting) {
                Ok(()) => return,
                Err(back) => waiting = back,
            }
            backoff.snooze();
        }
        unreachable!()
    }
}

impl<T: Drop> Receiver<T> {
    /// Takes the oldest item out of the box, once there is one. After a try that finds none it
    /// pauses.
    pub fn take<R: Wait>(&mut self, rt: &R) -> T
        ensures { self.new ≡ record self.old { list = self.old.list ++ result ∷ [] } }
    {
        let backoff = Backoff::new();
        for _ in rt.forever() {
            if let Some(item) = self.line.try_pop_as::<Taken>(&mut self.pass) {
                return item;
            }
            backoff.snooze();
        }
        unreachable!()
    }
}

/// Takes an item out of the box of a link whose ends are back, where one is left.
fn take_left<T: Drop, R: Wait>(rt: &R, line: &Line<T>, pass: &mut Pass<T, Log<T>>)
    requires pass { IsPassOf line.now pass.old }
    requires joined { ((view pass.old).puts ≡ true) × ((view pass.old).takes ≡ true) }
    requires more { length (view pass.old).taken + length (view pass.old).left
        < length (view pass.old).sent }
    ensures pass { IsPassOf line.now pass.new }
    ensures joined { ((view pass.new).puts ≡ true) × ((view pass.new).takes ≡ true) }
    ensures lists { ((view pass.new).sent ≡ (view pass.old).sent)
        × ((view pass.new).taken ≡ (view pass.old).taken) }
    ensures left { length (view pass.new).left ≡ length (view pass.old).left + 1 }
    ensures front { IsPrefix ((view pass.new).taken ++ (view pass.new).left)
        (view pass.new).sent }
{
    if line.pop_as::<Left, R>(rt, pass).is_none() {
        unreachable!()
    }
}

impl<T: Drop, const PLACES: usize> Link<T, PLACES> {
    /// Joins the two ends, looks how many items are left in the box, and takes them out.
    pub fn settle<R: Wait>(self, rt: &R, sender: Sender<T>, receiver: Receiver<T>) -> SettledLink<T>
        requires sender { sender.link ≡ self }
        requires receiver { receiver.link ≡ self }
        ensures lists { (result.sent ≡ sender.list) × (result.taken ≡ receiver.list) }
        ensures whole { result.sent ≡ result.taken ++ result.left }
        ensures left { length result.left ≤ PLACES }
    {
        let Link { line } = self;
        let Sender {
            line: _first,
            pass: mut joined,
        } = sender;
        let Receiver {
            line: _second,
            pass: other,
        } = receiver;
        line.absorb::<Ends>(&mut joined, other);
        let count = line.len_as::<Left, R>(rt, &mut joined);
        for _ in 0..count {
            take_left(rt, &line, &mut joined);
        }
        SettledLink { pass: joined }
    }
}
