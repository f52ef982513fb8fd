ghost use Rattle.std.specs.Prelude.{◌≡◌, ◌≤◌, ◌+◌, ◌++◌, length, OnOk, IfOk};
ghost use Rattle.tri_base.specs.declared.leg.Side.TheVariants.{Right};
ghost use Rattle.script_text.specs.LegScans.{scan_at, tape_of};
ghost use Rattle.plant_script.specs.Faces.{face};

use leg_packet::{Packet, write_in};
use script_text::{Script, Tape};
use std::alloc::Global;
use std::marker::Model;
use tri_base::{Leg, NoMemory, Side, Words};

// No chassis has more inputs.
const INPUT_LIMIT: usize = 256;

/// What a leg shows its right neighbour, scan by scan.
#[derive(Drop)]
pub(crate) struct Face {
    tape: Tape,
    // room for the readings of a scan
    readings: Words,
    packet: Packet,
}

impl Model for Face {
    ghost use Rattle.tri_base.specs.Rows.{HasRoom};
    ghost use Rattle.chassis.specs.Points.{point_limit};
    ghost use Rattle.single_controller.specs.Inner.Faces.{AreFew, FaceValue};

    ghost Value = { FaceValue };

    ghost view = { λ f. record { tape = f.tape; packet = f.packet } };

    ghost invariant = { λ f. record {
      few : AreFew f.tape;
      room : HasRoom point_limit f.readings;
    } };
}

impl Face {
    /// What a leg of a script shows. It has shown nothing yet.
    pub(crate) fn new(alloc: Global, script: &Script, leg: Leg) -> Result<Face, NoMemory>
        ensures { IfOk result (λ f. f.tape ≡ tape_of script.now.value leg) }
    {
        // A chassis has few inputs.
        let _points = script.chassis().points();
        let tape = script.tape(alloc, leg)?;
        let mut readings = Words::new(alloc);
        readings.reserve(INPUT_LIMIT)?;
        let packet = Packet::blank(alloc)?;
        Ok(Face {
            tape,
            readings,
            packet,
        })
    }

    /// Lends the leg's tape.
    pub(crate) fn tape(&self) -> &Tape
        ensures { result.now ≡ self.now.tape }
    {
        &self.tape
    }

    /// Lends the packet that the leg showed last.
    pub(crate) fn packet(&self) -> &Packet
        ensures { result.now ≡ self.now.packet }
    {
        &self.packet
    }

    /// Shows the packet of a scan. Only a packet of a script's line with more than 8,518 words
    /// takes memory.
    pub(crate) fn show(&mut self, scan: u32) -> Result<(), NoMemory>
        requires { (1 ≤ scan) × (scan ≤ length self.old.tape.scans) }
        ensures packet { OnOk result
            (self.new.packet ≡ face Right (scan_at self.old.tape scan)) }
        ensures tape { self.new.tape ≡ self.old.tape }
    {
        if let Some(words) = self.tape.shown(scan, Side::Right) {
            return self.packet.write_words(words);
        }
        self.readings.clear();
        add_readings(self.tape.readings(scan), &mut self.readings);
        write_in(&mut self.packet, self.tape.time(scan), &self.readings);
        Ok(())
    }
}

/// Adds readings as numbers of 64 bits.
fn add_readings(readings: &[i16], words: &mut Words)
    requires { length readings.now ≤ words.old.spare }
    ensures list { words.new.list ≡ words.old.list ++ readings.now }
    ensures room { words.new.spare + length readings.now ≡ words.old.spare }
{
    for reading in readings {
        words.add(i64::from(*reading));
    }
}
