//! What a name stands for: the tag of a point, or the point.

ghost use Rattle.std.specs.Prelude.{◌≡◌, ◌<◌, IfSome};
ghost use Rattle.st_tree.specs.Typing.Points as spec;
ghost use Rattle.tag_layout.specs.Layout.{total_words};
ghost use Rattle.st_meaning.specs.Types.{type_of, word_type};
ghost use Rattle.tag_wiring.specs.Inner.Steps.{HaveWords, address_for};

use chassis::{Chassis, is_input};
use function_blocks::Kind;
use st_tree::DeclaredType;
use tag_layout::Layout;
use tri_base::{Name, Point};

/// The address of the tag of a point; None where no tag of VAR_EXTERNAL has the name.
pub fn point_address(layout: &Layout, name: &Name) -> Option<usize>
    requires { HaveWords layout.now }
    ensures value { result ≡ address_for layout.now name.now }
    ensures within { IfSome result (λ at. at < total_words layout.now) }
{
    let tag = layout.declared(name)?;
    if !tag.external {
        return None;
    }
    layout.address(name, 0)
}

/// The type of a tag of one word.
pub fn kind_of_tag(layout: &Layout, name: &Name) -> Kind
    ensures { result ≡ word_type (type_of layout.now name.now) }
{
    match layout.declared(name) {
        Some(tag) => word_kind(tag.declared),
        None => Kind::Dint,
    }
}

/// The type of one word; DINT where there are more.
fn word_kind(declared: DeclaredType) -> Kind
    ensures { result ≡ word_type (Some declared) }
{
    match declared {
        DeclaredType::Simple(kind) => kind,
        DeclaredType::Array { .. } | DeclaredType::Block(_) => Kind::Dint,
    }
}

/// The point with a name.
fn point_named(chassis: &Chassis, name: &Name) -> Option<Point>
    ensures { result ≡ spec.point_named chassis.now name.now }
{
    match chassis.find(name) {
        Some(place) => chassis.points().get(place).copied(),
        None => None,
    }
}

/// Whether a name is that of an input point.
#[tactic(auto, using(crate::proofs::Named::same_kinds))]
pub fn is_input_point(chassis: &Chassis, name: &Name) -> bool
    ensures { result ≡ spec.is_input_point chassis.now name.now }
{
    match point_named(chassis, name) {
        Some(point) => is_input(point.kind),
        None => false,
    }
}
