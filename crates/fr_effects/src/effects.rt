// What a step can change of what the notes of other actors say.
ghost use Rattle.std.specs.Prelude.{◌≡◌, ◌<◌, ◌⊎◌, ◌↔◌, ℤ, IsTrue, All, Some, length, slice_get};
ghost use Rattle.fr_program.specs.declared.ids.Point.{Point as PointOf};
ghost use Rattle.fr_program.specs.Fault.{IsConstant, NamesThings};
ghost use Rattle.fr_program.specs.Points.{points_of};
ghost use Rattle.fr_rules.specs.Rule.{result_of};
ghost use Rattle.fr_notes.specs.Fits.{AlternativeFits, NoteFits};
ghost use Rattle.fr_notes.specs.Note.{Within, claim_of, range_of};
ghost use Rattle.fr_notes.specs.Reckoning.{CanBeIn};
ghost use Rattle.fr_notes.specs.View.{ends_of};
ghost use Rattle.fr_effects.specs.Effects.{effect_inside, effect_of, effect_at, target_of, made_of, IsComputable, Bears, EachBears, AllBear, HasTarget, Stays, IsFree, IsUnclaimed};

use fr_notes::{Alternative, Claim, Known, Note};
use fr_program::{
    Act, App, Attempt, Call, Instr, Kind, ObjId, Operand, Operator, Range, Side, VarId,
};

/// What the steps from a side of an instruction can change of what the notes of other actors say.
#[derive(Clone, Copy)]
pub enum Effect {
    /// Nothing.
    Nothing,
    /// Whether the object is live.
    Life(ObjId),
    /// The variable, which gets a value from `lo` to `hi`.
    Gives {
        into: VarId,
        lo: i64,
        hi: i64,
    },
    /// The variable, which gets what a `set` computes.
    Sets {
        target: VarId,
        left: Operand,
        operator: Operator,
        right: Operand,
    },
}

impl Effect {
    /// The number of the variable that it writes.
    pub fn target(self) -> Option<usize>
        ensures { result ≡ target_of self }
    {
        match self {
            Effect::Gives { into, .. } => Some(into.0),
            Effect::Sets { target, .. } => Some(target.0),
            _ => None,
        }
    }

    /// The number of the object that it creates or deletes.
    pub fn made(self) -> Option<usize>
        ensures { result ≡ made_of self }
    {
        match self {
            Effect::Life(object) => Some(object.0),
            _ => None,
        }
    }
}

/// What the end of an object call can change: a receive gives its variable a value of the queue, a
/// call that moves bytes their number.
fn effect_inside(act: Act, kind: Kind) -> Effect
    ensures { result ≡ effect_inside act kind }
{
    match (act, kind) {
        (
            Act::Try {
                attempt: Attempt::QueueReceive(into),
                ..
            },
            Kind::Queue { lo, hi, .. },
        ) => Effect::Gives { into, lo, hi },
        (
            Act::Move {
                length,
                result: Some(into),
                ..
            },
            _,
        ) => Effect::Gives {
            into,
            lo: 0,
            hi: i64::from(length),
        },
        _ => Effect::Nothing,
    }
}

/// What the steps from this side of an instruction can change. Calls that take or give a mutex change
/// nothing: while another actor's note says that it holds one, nobody else takes or gives it.
pub fn effect_of(app: &App, side: Side, instr: &Instr) -> Effect
    requires { NamesThings app.now instr.now }
    ensures { result ≡ effect_of app.now side instr.now }
{
    match (side, instr) {
        (
            Side::Before,
            Instr::Set {
                target,
                left,
                operator,
                right,
            },
        ) => Effect::Sets {
            target: *target,
            left: *left,
            operator: *operator,
            right: *right,
        },
        (Side::Before, Instr::Pick { target, lo, hi }) => Effect::Gives {
            into: *target,
            lo: *lo,
            hi: *hi,
        },
        (Side::Before, Instr::Call(Call::Create { object, .. })) => Effect::Life(*object),
        (Side::Before, Instr::Call(Call::Delete { object, .. })) => Effect::Life(*object),
        (Side::Inside, Instr::Call(Call::On(call))) => {
            effect_inside(call.act, app.kind(call.object))
        }
        _ => Effect::Nothing,
    }
}

/// What the steps from the point with this number can change.
pub fn effect_at(app: &App, number: usize) -> Effect
    requires { number < length (points_of app.now) }
    ensures is { (q : PointOf) → slice_get (points_of app.now) number ≡ Some q →
        result ≡ effect_at app.now q }
    ensures computable { IsComputable result }
    ensures target { HasTarget app.now result }
{
    app.recall_faultless();
    let point = app.point(number);
    match app.instr(point) {
        Some(instr) => effect_of(app, point.side, instr),
        None => Effect::Nothing,
    }
}

/// Whether the alternative says no more of the object than that the actor doesn't hold it.
fn says_nothing(alternative: &Alternative, object: ObjId) -> bool
    ensures { IsTrue result ↔ claim_of alternative.now object.0 ≡ Claim.NotHeld }
{
    matches!(alternative.claim(object), Claim::NotHeld)
}

/// Whether the range has all that a `set` computes where the mover's alternative holds.
fn computes_within(
    app: &App,
    mover: &Alternative,
    left: Operand,
    operator: Operator,
    right: Operand,
    range: Range,
) -> bool
    requires mover { AlternativeFits app.now mover.now }
    requires product { operator ≡ Operator.Times → IsConstant left ⊎ IsConstant right }
    ensures { IsTrue result ↔ ((u v : ℤ) → CanBeIn (range_of mover.now) left u → CanBeIn (range_of mover.now) right v → Within (ends_of range) (result_of operator u v)) }
{
    app.recall_faultless();
    let span = Known::alone(mover).result(operator, left, right);
    span.within(range)
}

/// Whether the alternative holds after the effect where it held before, if the mover's alternative
/// holds before too.
fn bears(app: &App, effect: Effect, mover: &Alternative, alternative: &Alternative) -> bool
    requires mover { AlternativeFits app.now mover.now }
    requires computable { IsComputable effect }
    ensures { IsTrue result ↔ Bears effect mover.now alternative.now }
{
    match effect {
        Effect::Nothing => true,
        Effect::Life(object) => says_nothing(alternative, object),
        Effect::Gives { into, lo, hi } => {
            let range = alternative.range(into);
            range.has(lo) && range.has(hi)
        }
        Effect::Sets {
            target,
            left,
            operator,
            right,
        } => {
            let range = alternative.range(target);
            computes_within(app, mover, left, operator, right, range)
        }
    }
}

/// Whether each alternative of the note holds after the effect where it held before.
fn each_bears(app: &App, effect: Effect, mover: &Alternative, note: &Note) -> bool
    requires mover { AlternativeFits app.now mover.now }
    requires computable { IsComputable effect }
    ensures { IsTrue result ↔ EachBears effect mover.now note.now }
{
    note.alternatives().iter().all(
        |alternative|
            requires mover { AlternativeFits app.now mover.now }
            requires computable { IsComputable effect }
        { bears(app, effect, mover, alternative) },
    )
}

/// Whether each alternative of the note holds after the effect where it held before, whichever
/// alternative of the mover's note holds.
pub fn all_bear(app: &App, effect: Effect, others: &Note, note: &Note) -> bool
    requires others { NoteFits app.now others.now }
    requires computable { IsComputable effect }
    ensures { IsTrue result ↔ AllBear effect others.now note.now }
{
    others.alternatives().iter().all(
        |mover|
            requires mover { AlternativeFits app.now mover.now }
            requires computable { IsComputable effect }
        { each_bears(app, effect, mover, note) },
    )
}

/// Whether each value that the effect can give its variable, where the mover's alternative holds, is in
/// the variable's declared range.
pub fn stays(app: &App, effect: Effect, mover: &Alternative) -> bool
    requires mover { AlternativeFits app.now mover.now }
    requires computable { IsComputable effect }
    requires target { HasTarget app.now effect }
    ensures { IsTrue result ↔ Stays app.now effect mover.now }
{
    match effect {
        Effect::Gives { into, lo, hi } => {
            let range = app.range(into);
            range.has(lo) && range.has(hi)
        }
        Effect::Sets {
            target,
            left,
            operator,
            right,
        } => {
            let range = app.range(target);
            computes_within(app, mover, left, operator, right, range)
        }
        _ => true,
    }
}

/// Whether the alternative says no more of the variable than its declared range.
fn leaves_free(app: &App, alternative: &Alternative, variable: VarId) -> bool
    requires { variable.0 < length app.now.variables }
    ensures { IsTrue result ↔ IsFree app.now variable.0 alternative.now }
{
    app.range(variable).within(alternative.range(variable))
}

/// Whether no alternative of the note says more of the variable than its declared range.
pub fn is_free(app: &App, note: &Note, variable: VarId) -> bool
    requires { variable.0 < length app.now.variables }
    ensures { IsTrue result ↔ All (λ n. IsFree app.now variable.0 n) note.now }
{
    note.alternatives().iter().all(
        |alternative|
            requires { variable.0 < length app.now.variables }
        { leaves_free(app, alternative, variable) },
    )
}

/// Whether no alternative of the note says more of the object than that the actor doesn't hold it.
pub fn is_unclaimed(note: &Note, object: ObjId) -> bool
    ensures { IsTrue result ↔ All (λ n. IsUnclaimed object.0 n) note.now }
{
    note.alternatives()
        .iter()
        .all(|alternative| says_nothing(alternative, object))
}
