// What a step by a row of the step table leaves of what is known before it.
ghost use Rattle.std.specs.Prelude.{◌≡◌, ◌<◌, Some, IfSome, IfNone, length};
ghost use Rattle.fr_program.specs.Fault.{IsFaultless, NamesThings, OperandsFit};
ghost use Rattle.fr_program.specs.Program.{Program};
ghost use Rattle.fr_program.specs.Lookup.{IsPoint, instr_of};
ghost use Rattle.fr_notes.specs.Known.{KnownFits, IsLeft, NeverSteps};
ghost use Rattle.fr_notes.specs.Spot.{LeavesBefore, condition_known};

use crate::before::{
    begun, branched, created, deleted, entered, left, picked, resumed, set, suspended,
};
use crate::change::Change;
use crate::inside::change_inside;
use crate::known::Known;
use fr_program::{App, Call, Instr, Point, Side};
use fr_rules::{Condition, Way, first_forbidden};

/// The condition of the mover, which is at this point.
pub fn condition_at(app: &App, known: &Known, point: Point) -> Condition
    requires { point.actor.0 < length app.now.actors }
    ensures { result ≡ condition_known app.now known.now point }
{
    Condition {
        interrupt: app.is_interrupt(point.actor),
        critical: known.crit(),
        suspended: known.susp(),
        holds: known.holds_some(),
    }
}

/// The rows of a call that works: its only step, or its begin.
fn called(app: &App, known: &Known, call: &Call) -> Option<Change>
    requires { NamesThings app.now (Instr.Call call.now) }
    ensures { LeavesBefore app.now known.now (Instr.Call call.now) Way.Then result }
{
    match call {
        Call::EnterCritical(_) => entered(known),
        Call::ExitCritical(_) => left(known),
        Call::SuspendAll => Some(suspended(known)),
        Call::ResumeAll => resumed(known),
        Call::Yield => Some(known.unchanged()),
        Call::Delay(_) => Some(known.unchanged()),
        Call::DeleteSelf => Some(known.unchanged()),
        Call::Create { object, .. } => created(known, *object, Way::Then),
        Call::Delete { object, .. } => deleted(known, *object),
        Call::On(call) => begun(known, app.kind(call.object), call),
    }
}

/// The rows of a call that fails in its only step: of a create alone.
fn call_failed(known: &Known, call: &Call) -> Option<Change>
    ensures { (P : Program) → LeavesBefore P known.now (Instr.Call call.now) Way.Else result }
{
    match call {
        Call::Create { object, .. } => created(known, *object, Way::Else),
        _ => None,
    }
}

/// The rows before an instruction which no rule stops that the mover's condition decides.
fn change_before(app: &App, known: &Known, instr: &Instr, way: Way) -> Option<Change>
    requires faultless { IsFaultless app.now }
    requires fits { KnownFits app.now known.now }
    requires names { NamesThings app.now instr.now }
    requires operands { OperandsFit instr.now }
    ensures { LeavesBefore app.now known.now instr.now way result }
{
    match (instr, way) {
        (
            Instr::If {
                left,
                comparison,
                right,
                ..
            },
            _,
        ) => { branched(known, *comparison, way, *left, *right) }
        (Instr::Call(call), Way::Then) => called(app, known, call),
        (Instr::Call(call), Way::Else) => call_failed(known, call),
        (_, Way::Else) => None,
        (
            Instr::Set {
                target,
                left,
                operator,
                right,
            },
            Way::Then,
        ) => { Some(set(known, *target, *operator, *left, *right)) }
        (Instr::Pick { target, lo, hi }, Way::Then) => picked(known, *target, *lo, *hi),
        (Instr::Goto { .. }, Way::Then) => Some(known.unchanged()),
        (Instr::Return, Way::Then) => Some(known.unchanged()),
    }
}

/// What a step of the mover by this row leaves of what is known: None exactly where no state with
/// what is known has such a step.
pub fn change_by(app: &App, known: &Known, point: Point, instr: &Instr, way: Way) -> Option<Change>
    requires fits { KnownFits app.now known.now }
    requires point { IsPoint app.now point }
    requires instr { instr_of app.now point ≡ Some instr.now }
    ensures some { IfSome result (λ change. IsLeft app.now known.now point way change) }
    ensures none { IfNone result (NeverSteps app.now known.now point way) }
{
    app.recall_faultless();
    match point.side {
        Side::Before => {
            let condition = condition_at(app, known, point);
            match first_forbidden(app, condition, instr) {
                Some(_) => None,
                None => change_before(app, known, instr, way),
            }
        }
        Side::Inside => match instr {
            Instr::Call(Call::On(call)) => change_inside(app, known, call, way),
            _ => None,
        },
    }
}
