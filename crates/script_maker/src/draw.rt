ghost use Rattle.std.specs.Prelude.{◌≡◌};
ghost use Rattle.script_maker.specs.Generated.{next_draw};

/// The draw behind another.
pub(crate) fn next_draw(x: u32) -> u32
    ensures { result ≡ next_draw x }
{
    ((1_664_525 * u64::from(x) + 1_013_904_223) % 4_294_967_296) as u32
}
