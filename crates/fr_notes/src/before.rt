// What a step before an instruction leaves of what is known before it.
ghost use Rattle.std.specs.Prelude.{◌≡◌, ◌⊎◌, ℕ, Option, Some, None};
ghost use Rattle.fr_program.specs.declared.instr.Form.{Form as FormOf};
ghost use Rattle.fr_program.specs.declared.instr.CreatedKind.{CreatedKind as CreatedKindOf};
ghost use Rattle.fr_program.specs.declared.instr.DeletedKind.{DeletedKind as DeletedKindOf};
ghost use Rattle.fr_program.specs.Program.{Program};
ghost use Rattle.fr_program.specs.Fault.{IsFaultless, IsConstant, NamesThings, OperandsFit};
ghost use Rattle.fr_rules.specs.State.{kind_of};
ghost use Rattle.fr_notes.specs.Known.{KnownFits, IsPossible, joint_range};
ghost use Rattle.fr_notes.specs.Reckoning.{HasNumbersIn};
ghost use Rattle.fr_notes.specs.Spot.{LeavesBefore};

use crate::change::{Change, narrowed_to};
use crate::claim::Claim;
use crate::inside::is_given_unheld;
use crate::known::Known;
use fr_program::{
    App, Call, Comparison, Instr, Kind, ObjId, ObjectCall, Operand, Operator, Range, VarId,
};
use fr_rules::Way;

/// An entry of the critical section: no step while another actor is in it.
pub fn entered(known: &Known) -> Option<Change>
    ensures { (P : Program) (form : FormOf) →
        LeavesBefore P known.now (Instr.Call (Call.EnterCritical form)) Way.Then result }
{
    if known.is_other_critical() {
        return None;
    }
    Some(Change {
        crit: known.crit() + 1,
        ..known.unchanged()
    })
}

/// An exit from the critical section.
pub fn left(known: &Known) -> Option<Change>
    ensures { (P : Program) (form : FormOf) →
        LeavesBefore P known.now (Instr.Call (Call.ExitCritical form)) Way.Then result }
{
    let depth = known.crit();
    if depth == 0 {
        return None;
    }
    Some(Change {
        crit: depth - 1,
        ..known.unchanged()
    })
}

/// A suspension of the scheduler.
pub fn suspended(known: &Known) -> Change
    ensures { (P : Program) →
        LeavesBefore P known.now (Instr.Call Call.SuspendAll) Way.Then (Some result) }
{
    Change {
        susp: known.susp() + 1,
        ..known.unchanged()
    }
}

/// The end of a suspension.
pub fn resumed(known: &Known) -> Option<Change>
    ensures { (P : Program) →
        LeavesBefore P known.now (Instr.Call Call.ResumeAll) Way.Then result }
{
    let depth = known.susp();
    if depth == 0 {
        return None;
    }
    Some(Change {
        susp: depth - 1,
        ..known.unchanged()
    })
}

/// A create of an object that isn't known to be live; one that fails leaves it dead.
pub fn created(known: &Known, object: ObjId, way: Way) -> Option<Change>
    ensures { (P : Program) (kind : CreatedKindOf) (or_else : Option ℕ) →
        LeavesBefore P known.now (Instr.Call (Call.Create kind object or_else)) way result }
{
    if !known.holding(object.0).can_be_dead() {
        return None;
    }
    match way {
        Way::Then => Some(known.claiming(object, Claim::Alive)),
        Way::Else => Some(known.claiming(object, Claim::Gone)),
    }
}

/// A delete of an object that isn't known to be dead, whoever holds it.
pub fn deleted(known: &Known, object: ObjId) -> Option<Change>
    ensures { (P : Program) (kind : DeletedKindOf) →
        LeavesBefore P known.now (Instr.Call (Call.Delete kind object)) Way.Then result }
{
    let _living = known.holding(object.0).living()?;
    Some(known.claiming(object, Claim::Gone))
}

/// The begin of a call on an object, which is live then.
pub fn begun(known: &Known, kind: Kind, call: &ObjectCall) -> Option<Change>
    ensures { (P : Program) → kind_of P call.now.object.0 ≡ kind →
        LeavesBefore P known.now (Instr.Call (Call.On call.now)) Way.Then result }
{
    let holding = known.holding(call.object.0).living()?;
    if is_given_unheld(kind, call, holding) {
        return None;
    }
    Some(known.claiming(call.object, holding.claim()))
}

/// A `set`, also one that leaves its variable out of its declared range.
pub fn set(
    known: &Known,
    target: VarId,
    operator: Operator,
    left: Operand,
    right: Operand,
) -> Change
    requires possible { IsPossible known.now }
    requires numbers { HasNumbersIn (joint_range known.now) }
    requires product { operator ≡ Operator.Times → IsConstant left ⊎ IsConstant right }
    ensures { (P : Program) →
        LeavesBefore P known.now (Instr.Set target left operator right) Way.Then (Some result) }
{
    let range = known.result(operator, left, right);
    Change {
        first: Some((target, range)),
        ..known.unchanged()
    }
}

/// A `pick`: the variable gets some number from the lower bound to the upper one.
pub fn picked(known: &Known, target: VarId, lo: i64, hi: i64) -> Option<Change>
    ensures { (P : Program) → LeavesBefore P known.now (Instr.Pick target lo hi) Way.Then result }
{
    let range = Range::new(i128::from(lo), i128::from(hi))?;
    Some(Change {
        first: Some((target, range)),
        ..known.unchanged()
    })
}

/// One of the ways of an `if`: both sides are narrowed.
pub fn branched(
    known: &Known,
    comparison: Comparison,
    way: Way,
    left: Operand,
    right: Operand,
) -> Option<Change>
    requires possible { IsPossible known.now }
    requires numbers { HasNumbersIn (joint_range known.now) }
    ensures { (P : Program) (target : ℕ) →
        LeavesBefore P known.now (Instr.If left comparison right target) way result }
{
    let (one, other) = known.branch(comparison, way, left, right)?;
    Some(Change {
        first: narrowed_to(left, one),
        second: narrowed_to(right, other),
        ..known.unchanged()
    })
}
