ghost use Rattle.std.specs.Prelude.{◌≡◌};
ghost use Rattle.memory_compare.specs.Judging.{are_one_result, judge_of};

use leg_packet::{Packet, read_out};
use tri_base::Side;

/// What a running leg makes of its own result and its neighbours' results.
#[derive(Clone, Copy, Debug, PartialEq, Eq)]
pub enum Judgement {
    /// The leg agrees with a neighbour.
    Agrees {
        /// The side of the other neighbour, where that one differs.
        accused: Option<Side>,
    },
    /// Both neighbours have one running result, and the leg has another.
    Minority,
    /// No two agree, or the neighbours agree on what is no running result.
    NoVote,
}

/// Compares a leg's own result with what its neighbours put. It goes over each packet a fixed
/// number of times and takes no memory.
pub fn judge(own: &Packet, left: &Packet, right: &Packet) -> Judgement
    ensures { result ≡ judge_of own.now left.now right.now }
{
    let own_is_left = own.words() == left.words();
    let own_is_right = own.words() == right.words();
    match (own_is_left, own_is_right) {
        (true, true) => Judgement::Agrees { accused: None },
        (true, false) => Judgement::Agrees {
            accused: Some(Side::Right),
        },
        (false, true) => Judgement::Agrees {
            accused: Some(Side::Left),
        },
        (false, false) => {
            if both_run(left, right) {
                Judgement::Minority
            } else {
                Judgement::NoVote
            }
        }
    }
}

/// Whether two packets are one running result.
fn both_run(left: &Packet, right: &Packet) -> bool
    ensures { result ≡ are_one_result left.now right.now }
{
    left.words() == right.words() && read_out(left).is_some()
}
