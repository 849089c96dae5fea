// A change: what a step leaves of what is known before it.
ghost use Rattle.std.specs.Prelude.{◌≡◌, ◌↔◌, ℤ, IsTrue};
ghost use Rattle.fr_rules.specs.Step.{compare};
ghost use Rattle.fr_notes.specs.Change.{Turns, narrowed_to};

use crate::claim::Claim;
use crate::comparison::negated;
use fr_program::{Comparison, ObjId, Operand, Range, VarId};
use fr_rules::Way;

/// What a step by one row makes of an alternative: the depths after it, at most one object's new
/// claim, and at most two variables' new ranges. All else is as before.
#[derive(Clone, Copy)]
pub struct Change {
    pub crit: u32,
    pub susp: u32,
    pub claim: Option<(ObjId, Claim)>,
    pub first: Option<(VarId, Range)>,
    pub second: Option<(VarId, Range)>,
}

/// The variable's new range, where the operand is one.
pub fn narrowed_to(operand: Operand, range: Range) -> Option<(VarId, Range)>
    ensures { result ≡ narrowed_to operand range }
{
    match operand {
        Operand::Number(_) => None,
        Operand::Variable(variable) => Some((variable, range)),
    }
}

/// The comparison that is true where an `if` goes this way.
pub fn comparison_for(comparison: Comparison, way: Way) -> Comparison
    ensures { (u v : ℤ) → (IsTrue (compare result u v) ↔ Turns way comparison u v) }
{
    match way {
        Way::Then => comparison,
        Way::Else => negated(comparison),
    }
}
