// The rules that a point keeps by itself.
ghost use Rattle.std.specs.Prelude.{◌≡◌, ◌<◌, ◌↔◌, ◌≤ℤ◌, length, IsTrue, IsFalse};
ghost use Rattle.std.specs.Option.{option_map};
ghost use Rattle.fr_program.specs.Lookup.{variable_at};
ghost use Rattle.fr_program.specs.Fault.{NamesThings, OperandsFit};
ghost use Rattle.fr_rules.specs.Rule.{used_object};
ghost use Rattle.fr_notes.specs.Fits.{AlternativeFits};
ghost use Rattle.fr_notes.specs.Known.{IsPossible, joint_range};
ghost use Rattle.fr_notes.specs.Reckoning.{HasNumbersIn};
ghost use Rattle.fr_edge.specs.Alternatives.{RuleOutcome, NoteOutcome, AnyRule, IsDecided, IsUndecided, gives_unheld, uses_dead, creates_live, SendsIn, SendsOutBy, StaysIn, IsOutBy, lesser_of};

use fr_notes::{Alternative, Holding, Known, Spot, condition_at, is_given_unheld};
use fr_program::{Act, App, Attempt, Call, Instr, Kind, ObjId, Range, Side, VarId};
use fr_rules::{Rule, first_forbidden};

/// The least of the rules that the actor's condition decides, before an instruction.
fn decided_rule(spot: &Spot, alternative: &Alternative) -> Option<Rule>
    requires fits { AlternativeFits spot.now.app.now alternative.now }
    ensures { RuleOutcome spot.now.app.now spot.now.point alternative.now IsDecided result }
{
    spot.app.recall_faultless();
    let known = Known::alone(alternative);
    match spot.point.side {
        Side::Before => {
            let condition = condition_at(spot.app, &known, spot.point);
            first_forbidden(spot.app, condition, spot.instr)
        }
        Side::Inside => None,
    }
}

/// Rule 3: whether a mutex is given that the mover isn't known to hold.
fn gives_unheld(app: &App, known: &Known, instr: &Instr) -> bool
    requires { NamesThings app.now instr.now }
    ensures { result ≡ gives_unheld app.now known.now instr.now }
{
    match instr {
        Instr::Call(Call::On(call)) => {
            is_given_unheld(app.kind(call.object), call, known.holding(call.object.0))
        }
        _ => false,
    }
}

/// The object that is used: by a delete before it, by an object call before it and inside it.
fn used_object(instr: &Instr, side: Side) -> Option<ObjId>
    ensures { option_map (λ o. o.0) result ≡ used_object instr.now side }
{
    match (instr, side) {
        (Instr::Call(Call::Delete { object, .. }), Side::Before) => Some(*object),
        (Instr::Call(Call::On(call)), _) => Some(call.object),
        _ => None,
    }
}

/// Rule 7: whether an object is used that can be dead.
fn uses_dead(known: &Known, instr: &Instr, side: Side) -> bool
    ensures { result ≡ uses_dead known.now instr.now side }
{
    match used_object(instr, side) {
        Some(object) => known.holding(object.0).can_be_dead(),
        None => false,
    }
}

/// Rule 8, of creates alone: whether an object is created that can be live.
fn creates_live(known: &Known, instr: &Instr, side: Side) -> bool
    ensures { result ≡ creates_live known.now instr.now side }
{
    match (instr, side) {
        (Instr::Call(Call::Create { object, .. }), Side::Before) => {
            !matches!(known.holding(object.0), Holding::Lifeless)
        }
        _ => false,
    }
}

/// Whether the range is inside the variable's declared one.
fn is_in_declared(app: &App, variable: VarId, range: Range) -> bool
    requires { variable.0 < length app.now.variables }
    ensures { IsTrue result ↔ (((variable_at app.now variable.0).lo ≤ℤ range.lo) × (range.hi ≤ℤ (variable_at app.now variable.0).hi)) }
{
    range.within(app.range(variable))
}

/// Whether each number that a send to a queue can put is in the queue's range.
fn sends_in_range(known: &Known, act: Act, kind: Kind) -> bool
    requires { IsPossible known.now }
    ensures sends { IsTrue result → SendsIn known.now act kind }
    ensures leaves { IsFalse result → SendsOutBy known.now act kind }
{
    match (act, kind) {
        (
            Act::Try {
                attempt: Attempt::QueueSend(value),
                ..
            },
            Kind::Queue { lo, hi, .. },
        ) => {
            let sent = known.operand(value);
            i128::from(lo) <= sent.lo && sent.hi <= i128::from(hi)
        }
        _ => true,
    }
}

/// Rule 12: whether each number that a `set` or a send to a queue can put is in its declared range.
fn stays_in_range(app: &App, known: &Known, instr: &Instr, side: Side) -> bool
    requires possible { IsPossible known.now }
    requires numbers { HasNumbersIn (joint_range known.now) }
    requires names { NamesThings app.now instr.now }
    requires operands { OperandsFit instr.now }
    ensures stays { IsTrue result → StaysIn app.now known.now side instr.now }
    ensures leaves { IsFalse result → IsOutBy app.now known.now side instr.now }
{
    match (instr, side) {
        (
            Instr::Set {
                target,
                left,
                operator,
                right,
            },
            Side::Before,
        ) => {
            let result = known.result(*operator, *left, *right);
            is_in_declared(app, *target, result)
        }
        (Instr::Call(Call::On(call)), Side::Inside) => {
            sends_in_range(known, call.act, app.kind(call.object))
        }
        _ => true,
    }
}

/// The least of the other rules that is breached in some state in which the alternative holds.
fn undecided_rule(spot: &Spot, alternative: &Alternative) -> Option<Rule>
    requires fits { AlternativeFits spot.now.app.now alternative.now }
    ensures { RuleOutcome spot.now.app.now spot.now.point alternative.now IsUndecided result }
{
    let (app, instr, side) = (spot.app, spot.instr, spot.point.side);
    app.recall_faultless();
    let known = Known::alone(alternative);
    if gives_unheld(app, &known, instr) {
        return Some(Rule::GivenByHolder);
    }
    if uses_dead(&known, instr, side) {
        return Some(Rule::IsLive);
    }
    if creates_live(&known, instr, side) {
        return Some(Rule::LifeInOrder);
    }
    if stays_in_range(app, &known, instr, side) {
        None
    } else {
        Some(Rule::InRange)
    }
}

/// The rule with the lesser number, where there are two.
fn lesser(one: Option<Rule>, other: Option<Rule>) -> Option<Rule>
    ensures { result ≡ lesser_of one other }
{
    match (one, other) {
        (Some(one), Some(other)) => {
            if one.number() <= other.number() {
                Some(one)
            } else {
                Some(other)
            }
        }
        (None, other) => other,
        (one, None) => one,
    }
}

/// The least rule that is breached in some state in which the alternative holds.
fn rule_breached(spot: &Spot, alternative: &Alternative) -> Option<Rule>
    requires fits { AlternativeFits spot.now.app.now alternative.now }
    ensures { RuleOutcome spot.now.app.now spot.now.point alternative.now AnyRule result }
{
    lesser(
        decided_rule(spot, alternative),
        undecided_rule(spot, alternative),
    )
}

/// The least rule that is breached in some state in which the note holds.
pub fn least_rule(spot: &Spot) -> Option<Rule>
    ensures { NoteOutcome spot.now.app.now spot.now.point spot.now.note.now (length spot.now.note.now) result }
{
    let mut least = None;
    for alternative in spot.note.alternatives() {
        least = lesser(least, rule_breached(spot, alternative));
    }
    least
}
