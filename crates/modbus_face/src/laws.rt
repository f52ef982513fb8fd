//! What holds of all requests and replies, as contracts of functions that do nothing.

ghost use Rattle.std.specs.Prelude.{List, ℕ, ℤ};
ghost use Rattle.tri_base.specs.declared.point.Point.{Point};
ghost use Rattle.modbus_face.specs.Laws.{HasEachBit, HasFramedReply, HasItsParts, ReadsBack};

/// A framed request is the frame of its parts.
pub fn requests_are_their_parts()
    ensures { (request : List ℕ) → HasItsParts request }
{}

/// A reply is framed as a request is, with a length of its own, and has the request's transaction
/// and unit.
pub fn replies_are_framed()
    ensures { (request : List ℕ) (points : List Point) (inputs outputs : List ℤ)
        → HasFramedReply request points inputs outputs }
{}

/// Each value that is read as a bit stands at its place in the data, from the lowest bit of the
/// first byte on.
pub fn bits_stand_in_order()
    ensures { (values : List ℤ) → HasEachBit values }
{}

/// A count that is read as a register is what the register says as a signed number.
pub fn registers_read_back()
    ensures { (value : ℤ) → ReadsBack value }
{}
