//! The bus: six boxes of one packet, and the posts at them.

ghost use Rattle.std.specs.Prelude.{◌≡◌, IfOk};
ghost use Rattle.tribus.specs.Posts.{first_posts, AreAtTheirPlaces};
ghost use Rattle.tribus.specs.Settling.{KeepsLists, LosesNothing, HasOneAtMost};

use crate::link::{Link, open_link};
use crate::post::Post;
use crate::settled::Settled;
use leg_packet::Packet;
use std::alloc::Global;
use std::marker::Model;
use std::sync::Wait;
use tri_base::{NoMemory, Triple};

/// How many packets a box holds.
const PACKET_LIMIT: usize = 1;

/// The links on which a leg puts.
#[derive(Drop)]
struct Outgoing {
    left: Link<Packet, PACKET_LIMIT>,
    right: Link<Packet, PACKET_LIMIT>,
}

/// Six boxes of one packet each, from each leg to both its neighbours, kept until the three posts
/// are back. Contracts see its three places.
#[derive(Drop)]
pub struct Bus {
    a: Outgoing,
    b: Outgoing,
    c: Outgoing,
}

impl Model for Bus {
    ghost use Rattle.tri_base.specs.declared.leg.Triple.{Triple};
    ghost use Rattle.tribus.specs.Posts.{PostPlace};
    ghost use Rattle.tribus.specs.Inner.Codes.{bus_code};

    ghost Value = { Triple PostPlace };

    ghost coded = { bus_code };

    ghost view = { λ s. record {
      a = record {
        to_left = s.a.left;
        to_right = s.a.right;
        from_left = s.c.right;
        from_right = s.b.left;
      };
      b = record {
        to_left = s.b.left;
        to_right = s.b.right;
        from_left = s.a.right;
        from_right = s.c.left;
      };
      c = record {
        to_left = s.c.left;
        to_right = s.c.right;
        from_left = s.b.right;
        from_right = s.a.left;
      };
    } };
}

/// A bus with six empty boxes, and its three posts. At NoMemory what was made of it is let go.
pub fn open_bus(alloc: Global) -> Result<(Bus, Triple<Post>), NoMemory>
    ensures { IfOk result (λ r. r.1 ≡ first_posts r.0) }
{
    let (a_left, a_to_c, c_from_a) = open_link(alloc)?;
    let (a_right, a_to_b, b_from_a) = open_link(alloc)?;
    let (b_left, b_to_a, a_from_b) = open_link(alloc)?;
    let (b_right, b_to_c, c_from_b) = open_link(alloc)?;
    let (c_left, c_to_b, b_from_c) = open_link(alloc)?;
    let (c_right, c_to_a, a_from_c) = open_link(alloc)?;
    let bus = Bus {
        a: Outgoing {
            left: a_left,
            right: a_right,
        },
        b: Outgoing {
            left: b_left,
            right: b_right,
        },
        c: Outgoing {
            left: c_left,
            right: c_right,
        },
    };
    let posts = Triple {
        a: Post {
            to_left: a_to_c,
            to_right: a_to_b,
            from_left: a_from_c,
            from_right: a_from_b,
        },
        b: Post {
            to_left: b_to_a,
            to_right: b_to_c,
            from_left: b_from_a,
            from_right: b_from_c,
        },
        c: Post {
            to_left: c_to_b,
            to_right: c_to_a,
            from_left: c_from_b,
            from_right: c_from_a,
        },
    };
    Ok((bus, posts))
}

impl Bus {
    /// Joins the two ends of each link, and takes out what is left in its box. The posts are those
    /// that came with this bus, each at its own place.
    pub fn settle<R: Wait>(self, rt: &R, posts: Triple<Post>) -> Settled
        requires { AreAtTheirPlaces self posts }
        ensures lists { KeepsLists posts result }
        ensures whole { LosesNothing result }
        ensures left { HasOneAtMost result }
    {
        let Bus { a, b, c } = self;
        let Triple {
            a: at_a,
            b: at_b,
            c: at_c,
        } = posts;
        let Post {
            to_left: a_to_c,
            to_right: a_to_b,
            from_left: a_from_c,
            from_right: a_from_b,
        } = at_a;
        let Post {
            to_left: b_to_a,
            to_right: b_to_c,
            from_left: b_from_a,
            from_right: b_from_c,
        } = at_b;
        let Post {
            to_left: c_to_b,
            to_right: c_to_a,
            from_left: c_from_b,
            from_right: c_from_a,
        } = at_c;
        Settled {
            a_to_c: a.left.settle(rt, a_to_c, c_from_a),
            a_to_b: a.right.settle(rt, a_to_b, b_from_a),
            b_to_a: b.left.settle(rt, b_to_a, a_from_b),
            b_to_c: b.right.settle(rt, b_to_c, c_from_b),
            c_to_b: c.left.settle(rt, c_to_b, b_from_c),
            c_to_a: c.right.settle(rt, c_to_a, a_from_c),
        }
    }
}
