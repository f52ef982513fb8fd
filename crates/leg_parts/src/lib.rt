//! What a leg is made of: its program and what it has learned, its result of a scan, the packets
//! that it puts, its vote, and its notes.
#![tactic(auto)]

mod leg_state;
mod log;
mod note_room;
mod own_result;
mod packets;
mod program_run;
mod rooms;
mod running;
mod votes;

pub use leg_state::{Closing, LegState};
pub use log::Log;
pub use own_result::OwnResult;
pub use packets::{absent_packet, face_packet, long_packets, own_face, result_packet};
pub use rooms::with_room;
pub use votes::vote_readings;
