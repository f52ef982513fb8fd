ghost use Rattle.std.specs.Prelude.{◌≡◌, ◌↔◌, List, ℤ, IfErr, IsOk, IsSome, None, OnErr, OnOk, Some, false, true};
ghost use Rattle.leg_laws.specs.Configs.{need_of};
ghost use Rattle.leg_laws.specs.declared.need.Need.TheVariants.{Put, Take};
ghost use Rattle.leg_laws.specs.ExchangeSteps.{Puts, Takes};
ghost use Rattle.lockstep.specs.Refusals.{is_put};
ghost use Rattle.lockstep.specs.Inner.Around.{ServesAround, can_serve_around};

use engine_face::Engine;
use leg_core::LegRun;
use leg_laws::Need;
use leg_packet::Packet;
use tri_base::Side;

/// Why a leg can't step: a put finds its box full, a take finds it empty, or the leg is done.
#[derive(Clone, Copy, Debug, PartialEq, Eq)]
pub struct NotEnabled {
    /// What the leg needs.
    pub need: Need,
    /// Whether the box was full: so it is for a put alone.
    pub full: bool,
}

/// Serves a leg's need, over its own boxes and those that it takes from.
pub(crate) fn serve<E: Engine>(
    leg: &mut LegRun<E>,
    left: &mut Option<Packet>,
    right: &mut Option<Packet>,
    from_left: &mut Option<Packet>,
    from_right: &mut Option<Packet>,
) -> Result<(), NotEnabled>
    ensures enabled { IsOk result ↔ (can_serve_around (need_of leg.old) (record {
      leg = leg.old;
      left = left.old;
      right = right.old;
      from_left = from_left.old;
      from_right = from_right.old;
    }) ≡ true) }
    ensures served { OnOk result (ServesAround (E.meaning leg.old.points) (need_of leg.old)
        (record {
          leg = leg.old;
          left = left.old;
          right = right.old;
          from_left = from_left.old;
          from_right = from_right.old;
        }) (record {
          leg = leg.new;
          left = left.new;
          right = right.new;
          from_left = from_left.new;
          from_right = from_right.new;
        })) }
    ensures refused { IfErr result (λ e.
        (e.need ≡ need_of leg.old) × (e.full ≡ is_put (need_of leg.old))) }
    ensures unchanged { OnErr result ((leg.new ≡ leg.old) × (left.new ≡ left.old)
        × (right.new ≡ right.old) × (from_left.new ≡ from_left.old)
        × (from_right.new ≡ from_right.old)) }
{
    let need = leg.need();
    match need {
        Need::Put(Side::Left) => put(leg, Side::Left, left),
        Need::Put(Side::Right) => put(leg, Side::Right, right),
        Need::Take(Side::Left) => take(leg, Side::Left, from_left),
        Need::Take(Side::Right) => take(leg, Side::Right, from_right),
        Need::Done => Err(NotEnabled { need, full: false }),
    }
}

/// Whether a leg's need can be served, over these boxes.
pub(crate) fn can_serve<E: Engine>(
    leg: &LegRun<E>,
    left: &Option<Packet>,
    right: &Option<Packet>,
    from_left: &Option<Packet>,
    from_right: &Option<Packet>,
) -> bool
    ensures { result ≡ can_serve_around (need_of leg.now) (record {
      leg = leg.now;
      left = left.now;
      right = right.now;
      from_left = from_left.now;
      from_right = from_right.now;
    }) }
{
    match leg.need() {
        Need::Put(Side::Left) => left.is_none(),
        Need::Put(Side::Right) => right.is_none(),
        Need::Take(Side::Left) => from_left.is_some(),
        Need::Take(Side::Right) => from_right.is_some(),
        Need::Done => false,
    }
}

/// Puts a leg's packet into an empty box.
fn put<E: Engine>(
    leg: &mut LegRun<E>,
    side: Side,
    slot: &mut Option<Packet>,
) -> Result<(), NotEnabled>
    requires { need_of leg.old ≡ Put side }
    ensures enabled { IsOk result ↔ (slot.old ≡ None) }
    ensures served { OnOk result ((packet : List ℤ) × (slot.old ≡ None)
        × Puts (E.meaning leg.old.points) leg.old leg.new packet × (slot.new ≡ Some packet)) }
    ensures refused { IfErr result (λ e. (e.need ≡ need_of leg.old) × (e.full ≡ true)) }
    ensures unchanged { OnErr result ((leg.new ≡ leg.old) × (slot.new ≡ slot.old)) }
{
    if slot.is_some() {
        return Err(NotEnabled {
            need: leg.need(),
            full: true,
        });
    }
    *slot = Some(leg.give(side));
    Ok(())
}

/// Hands a leg the packet of a full box.
fn take<E: Engine>(
    leg: &mut LegRun<E>,
    side: Side,
    slot: &mut Option<Packet>,
) -> Result<(), NotEnabled>
    requires { need_of leg.old ≡ Take side }
    ensures enabled { IsOk result ↔ IsSome slot.old }
    ensures served { OnOk result ((packet : List ℤ) × (slot.old ≡ Some packet)
        × Takes (E.meaning leg.old.points) leg.old leg.new packet × (slot.new ≡ None)) }
    ensures refused { IfErr result (λ e. (e.need ≡ need_of leg.old) × (e.full ≡ false)) }
    ensures unchanged { OnErr result ((leg.new ≡ leg.old) × (slot.new ≡ slot.old)) }
{
    match slot.take() {
        Some(packet) => {
            leg.accept(side, packet);
            Ok(())
        }
        None => Err(NotEnabled {
            need: leg.need(),
            full: false,
        }),
    }
}
