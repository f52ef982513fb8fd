//! The labels of CASE.

ghost use Rattle.std.specs.Prelude.{◌≡◌, ◌∷◌};
ghost use Rattle.st_tree.specs.Typing.Faults.{first_of};
ghost use Rattle.st_tree.specs.Typing.Statements.{label_faults, labels_faults};

use crate::first::soonest;
use crate::literals::range_fault;
use function_blocks::Kind;
use st_tree::Label;
use tri_base::TypeFault;

// A label, for a selector of this type.
#[tactic(auto, using(crate::proofs::Firsts::first_of_append))]
fn label_fault(kind: Kind, label: Label) -> Option<TypeFault>
    ensures { result ≡ first_of (label_faults kind label) }
{
    let high = match label.high {
        Some(high) => range_fault(kind, high),
        None => None,
    };
    soonest(range_fault(kind, label.low), high)
}

/// The labels of an element, for a selector of this type, if it has one.
pub fn labels_fault(kind: Option<Kind>, first: Label, more: &[Label]) -> Option<TypeFault>
    ensures { result ≡ first_of (labels_faults kind (first ∷ more.now)) }
{
    let Some(kind) = kind else {
        return None;
    };
    let mut fault = None;
    for label in more {
        fault = soonest(fault, label_fault(kind, *label));
    }
    soonest(label_fault(kind, first), fault)
}
