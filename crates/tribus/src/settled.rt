//! What is known of the bus once its posts are back.

use crate::link::SettledLink;
use leg_packet::Packet;
use std::marker::Model;

/// A bus whose posts are back. It has nothing that a program reads. Contracts see what each post
/// put and took, and what was left in each box.
#[derive(Drop)]
pub struct Settled {
    pub(crate) a_to_c: SettledLink<Packet>,
    pub(crate) a_to_b: SettledLink<Packet>,
    pub(crate) b_to_a: SettledLink<Packet>,
    pub(crate) b_to_c: SettledLink<Packet>,
    pub(crate) c_to_b: SettledLink<Packet>,
    pub(crate) c_to_a: SettledLink<Packet>,
}

impl Model for Settled {
    ghost use Rattle.tri_base.specs.declared.leg.Triple.{Triple};
    ghost use Rattle.tribus.specs.Settling.{SettledPost, settled_post};
    ghost use Rattle.tribus.specs.Inner.Codes.{settled_code};

    ghost Value = { Triple SettledPost };

    ghost coded = { settled_code };

    ghost view = { λ s. record {
      a = settled_post s.a_to_c s.a_to_b s.c_to_a s.b_to_a;
      b = settled_post s.b_to_a s.b_to_c s.a_to_b s.c_to_b;
      c = settled_post s.c_to_b s.c_to_a s.b_to_c s.a_to_c;
    } };
}
