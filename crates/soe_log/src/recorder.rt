use crate::discrete::{DiscretePoint, discrete_points, value_of};
use crate::event::Event;
use crate::log::Log;
use chassis::Chassis;
use std::alloc::Global;
use std::marker::Model;
use std::snapshot::Snapshot;
use tri_base::{NoMemory, Words};

/// Records the changes of the discrete points of a chassis, scan by scan: the first 4,096 of them,
/// and how many more there were.
#[derive(Drop)]
pub struct Recorder {
    chassis: Snapshot<Chassis>,
    points: Vec<DiscretePoint>,
    // The last value of each discrete point.
    last: Vec<bool>,
    time: i64,
    log: Log,
}

impl Model for Recorder {
    ghost use Rattle.soe_log.specs.Recording.{RecorderData};
    ghost use Rattle.soe_log.specs.Inner.Kept.{IsKept};

    ghost Value = { RecorderData };

    ghost view = { λ r. record {
      points = r.chassis.value;
      time = r.time;
      last = r.last.items;
      events = r.log.events;
      lost = r.log.lost;
    } };

    ghost invariant = { IsKept };
}

impl Recorder {
    ghost use Rattle.std.specs.Prelude.{◌≡◌, ◌≤◌, ◌≤ℤ◌, ◌+◌, ◌∷◌, [], ◌++◌, List, pos, length, IfOk};
    ghost use Rattle.tri_base.specs.Limits.{scan_time_limit};
    ghost use Rattle.soe_log.specs.Recording.{ScanShown, event_limit, lost_limit, new_recorder, note_scan_of, recorder_after, scan_event_limit, time_limit};
    ghost use Rattle.soe_log.specs.Inner.Noted.{points_noted};

    /// A recorder that has no event, over the points of a chassis, each of which was FALSE. It
    /// takes the memory for all that it will keep.
    pub fn new(alloc: Global, chassis: &Chassis) -> Result<Recorder, NoMemory>
        ensures new { IfOk result (λ recorder. recorder ≡ new_recorder chassis.now) }
        ensures start { IfOk result (λ recorder. recorder ≡ recorder_after chassis.now []) }
    {
        let points = discrete_points(alloc, chassis.points())?;
        let last = vec![in alloc; false; points.len()]?;
        let log = Log::new(alloc)?;
        Ok(Recorder {
            chassis: Snapshot::of(chassis),
            points,
            last,
            time: 0,
            log,
        })
    }

    /// Records what changed in a scan, which lasted `dt` milliseconds. Scans are counted from 1.
    /// The inputs and outputs have one word for each such point, in the order of the chassis, which
    /// is that of `new`. It takes no memory, and looks at the words of discrete points alone.
    pub fn note_scan(
        &mut self,
        chassis: &Chassis,
        scan: u32,
        dt: i64,
        inputs: &Words,
        outputs: &Words,
    )
        requires chassis { self.old.points ≡ chassis.now }
        requires dt { (pos 0 ≤ℤ dt) × (dt ≤ℤ scan_time_limit) }
        requires time { self.old.time ≤ℤ time_limit }
        requires lost { self.old.lost ≤ lost_limit }
        ensures scan { let shown : ScanShown =
            record { time = dt; inputs = inputs.now.list; outputs = outputs.now.list } in
            self.new ≡ note_scan_of self.old scan shown }
        ensures few { self.new.lost ≤ self.old.lost + scan_event_limit }
        // So the recorder of a play goes on by one scan.
        ensures play { let shown : ScanShown =
            record { time = dt; inputs = inputs.now.list; outputs = outputs.now.list } in
            (scans : List ScanShown) → self.old ≡ recorder_after chassis.now scans
            → scan ≡ length scans + 1
            → self.new ≡ recorder_after chassis.now (scans ++ shown ∷ []) }
    {
        self.time += dt;
        self.note_points(scan, inputs, outputs);
    }

    /// Records what changed in a scan whose time is there.
    fn note_points(&mut self, scan: u32, inputs: &Words, outputs: &Words)
        requires { self.old.lost ≤ lost_limit }
        ensures { self.new ≡ points_noted self.old scan inputs.now.list outputs.now.list }
    {
        for place in 0..self.points.len() {
            let point = self.points[place];
            let value = value_of(point, inputs, outputs);
            let older = self.last[place];
            self.last[place] = value;
            let event = Event {
                scan,
                time: self.time,
                point: point.place,
                value,
            };
            self.log.note(older, event);
        }
    }

    /// Lends the events that are kept, in the order of scans and then of the chassis.
    pub fn events(&self) -> &[Event]
        ensures events { result.now ≡ self.now.events }
        ensures few { length self.now.events ≤ event_limit }
    {
        self.log.events()
    }

    /// How many events there were behind those that are kept.
    pub fn lost(&self) -> u64
        ensures lost { result ≡ self.now.lost }
        ensures few { self.now.lost ≤ lost_limit + scan_event_limit }
    {
        self.log.lost()
    }
}
