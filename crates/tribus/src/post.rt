//! A leg's place at the bus.

ghost use Rattle.std.specs.Prelude.{◌≡◌};
ghost use Rattle.tribus.specs.SentTaken.{sent_more, taken_more};

use crate::link::{Receiver, Sender};
use leg_packet::Packet;
use std::marker::Model;
use std::sync::Wait;
use tri_base::Side;

/// A leg's place at the bus, from which it puts packets on both sides and takes them from both.
/// Contracts see the place, and the lists of what was put and taken on each side, oldest first.
#[derive(Drop)]
pub struct Post {
    pub(crate) to_left: Sender<Packet>,
    pub(crate) to_right: Sender<Packet>,
    pub(crate) from_left: Receiver<Packet>,
    pub(crate) from_right: Receiver<Packet>,
}

impl Model for Post {
    ghost use Rattle.tribus.specs.Posts.{PostValue};
    ghost use Rattle.tribus.specs.Inner.Codes.{post_code};

    ghost Value = { PostValue };

    ghost coded = { post_code };

    ghost view = { λ p. record {
      place = record {
        to_left = p.to_left.link;
        to_right = p.to_right.link;
        from_left = p.from_left.link;
        from_right = p.from_right.link;
      };
      lists = record {
        sent_left = p.to_left.list;
        sent_right = p.to_right.list;
        taken_left = p.from_left.list;
        taken_right = p.from_right.list;
      };
    } };
}

impl Post {
    /// Puts a packet into the box of a side, once that box is empty. It can't be refused, and takes
    /// no memory.
    pub fn put<R: Wait>(&mut self, rt: &R, side: Side, packet: Packet)
        ensures { self.new ≡ record self.old { lists = sent_more side packet self.old.lists } }
    {
        match side {
            Side::Left => self.to_left.put(rt, packet),
            Side::Right => self.to_right.put(rt, packet),
        }
    }

    /// Takes the packet out of the box of a side, once there is one. It can't be refused, and takes
    /// no memory.
    pub fn take<R: Wait>(&mut self, rt: &R, side: Side) -> Packet
        ensures { self.new ≡ record self.old { lists = taken_more side result self.old.lists } }
    {
        match side {
            Side::Left => self.from_left.take(rt),
            Side::Right => self.from_right.take(rt),
        }
    }
}
