// What the end of an object call leaves of what is known before it.
ghost use Rattle.std.specs.Prelude.{◌≡◌, ◌<◌, ◌<ℤ◌, IfSome, IfNone, length};
ghost use Rattle.fr_program.specs.declared.ids.Side.TheVariants.{Inside};
ghost use Rattle.fr_program.specs.declared.instr.Instr.TheVariants.{Call as Calls};
ghost use Rattle.fr_program.specs.declared.instr.Call.TheVariants.{On};
ghost use Rattle.fr_notes.specs.Known.{KnownFits};
ghost use Rattle.fr_notes.specs.Holding.{taken_by, given_by, worked_by, can_fail_on, is_given_unheld};
ghost use Rattle.fr_notes.specs.Results.{size_of, least_moved, results_of, failed_into, IsSmall};
ghost use Rattle.fr_notes.specs.Spot.{LeavesAt, EndLeaves};

use crate::change::Change;
use crate::holding::Holding;
use crate::known::Known;
use fr_program::{Act, App, Attempt, BufferKind, End, Kind, ObjectCall, Range, Timing, VarId};
use fr_rules::{Way, can_time_out, given_kind, is_unsuited};

/// What a take that works makes of a live object; None where it can't work.
fn taken(kind: Kind, holding: Holding) -> Option<Holding>
    requires { IsSmall holding }
    ensures { result ≡ taken_by kind holding }
{
    match (kind, holding) {
        (Kind::Mutex | Kind::Recursive, Holding::Living) => Some(Holding::Own(1)),
        (Kind::Recursive, Holding::Own(count)) => Some(Holding::Own(count + 1)),
        (Kind::Binary | Kind::Counting { .. }, Holding::Living) => Some(Holding::Living),
        _ => None,
    }
}

/// What a give that works makes of a live object; None where it can't work.
fn given(kind: Kind, holding: Holding) -> Option<Holding>
    ensures { result ≡ given_by kind holding }
{
    match (kind, holding) {
        (Kind::Mutex, Holding::Own(_)) => Some(Holding::Living),
        (Kind::Recursive, Holding::Own(count)) => {
            if count <= 1 {
                Some(Holding::Living)
            } else {
                Some(Holding::Own(count - 1))
            }
        }
        (Kind::Binary | Kind::Counting { .. }, Holding::Living) => Some(Holding::Living),
        _ => None,
    }
}

/// Whether the call is a give of a mutex, in the form that suits it, which the mover isn't known to
/// hold.
pub fn is_given_unheld(kind: Kind, call: &ObjectCall, holding: Holding) -> bool
    ensures { result ≡ is_given_unheld kind call.now holding }
{
    if let Holding::Own(_) = holding {
        return false;
    }
    matches!(
        (kind, given_kind(call.act, call.timing)),
        (Kind::Mutex, Some(Kind::Mutex)) | (Kind::Recursive, Some(Kind::Recursive))
    )
}

/// How many bytes a buffer holds.
fn size_of(kind: Kind) -> i64
    ensures { result ≡ size_of kind }
{
    match kind {
        Kind::Stream { size } | Kind::Message { size } => size,
        _ => 0,
    }
}

/// The least number of bytes that a call of this length moves where it works.
fn least_moved(end: End, buffer: BufferKind, length: u32) -> u32
    ensures { result ≡ least_moved end buffer length }
{
    match (buffer, end) {
        (BufferKind::Stream, _) => 0,
        (BufferKind::Message, End::Reader) => 1,
        (BufferKind::Message, End::Writer) => length,
    }
}

/// The numbers that a call that works can give a variable; None where there is none, and then it
/// can't work.
fn results_of(kind: Kind, act: Act) -> Option<Range>
    ensures some { IfSome result (λ span. (span.lo ≡ (results_of kind act).0) × (span.hi ≡ (results_of kind act).1)) }
    ensures none { IfNone result ((results_of kind act).1 <ℤ (results_of kind act).0) }
{
    match (act, kind) {
        (
            Act::Move {
                end,
                kind: buffer,
                length,
                ..
            },
            _,
        ) => Range::new(
            i128::from(least_moved(end, buffer, length)),
            i128::from(length).min(i128::from(size_of(kind))),
        ),
        (Act::Try { .. }, Kind::Queue { lo, hi, .. }) => {
            Range::new(i128::from(lo), i128::from(hi))
        }
        (Act::Try { .. }, _) => Some(Range::only(0)),
    }
}

/// Whether an act on a live object of this kind can fail.
fn can_fail(kind: Kind, timing: Timing, act: Act) -> bool
    ensures { result ≡ can_fail_on kind timing act }
{
    match act {
        Act::Try { attempt, .. } => match attempt {
            Attempt::Give(_) => matches!(kind, Kind::Binary | Kind::Counting { .. }),
            Attempt::Reset(_) => true,
            _ => can_time_out(timing),
        },
        Act::Move { kind: buffer, .. } => matches!(buffer, BufferKind::Message),
    }
}

/// The variable to which a call that fails gives 0.
fn failed_into(act: Act) -> Option<VarId>
    ensures { result ≡ failed_into act }
{
    match act {
        Act::Try { .. } => None,
        Act::Move { result, .. } => result,
    }
}

/// An object call inside which an actor is: the call, the kind of its object, which is live, and what
/// is known of that object.
#[derive(Clone, Copy)]
struct Ending {
    call: ObjectCall,
    kind: Kind,
    holding: Holding,
}

impl Ending {
    /// What is known of the object where the call works; None where it can't work.
    fn worked(self) -> Option<Holding>
        requires { IsSmall self.holding }
        ensures { result ≡ worked_by self.kind self.call.act self.holding }
    {
        match self.call.act {
            Act::Try {
                attempt: Attempt::Take(_),
                ..
            } => taken(self.kind, self.holding),
            Act::Try {
                attempt: Attempt::Give(_),
                ..
            } => given(self.kind, self.holding),
            _ => Some(self.holding),
        }
    }

    /// The end of a call that works.
    fn works(self, known: &Known) -> Option<Change>
        requires { IsSmall self.holding }
        ensures { EndLeaves known.now self.kind self.holding self.call Way.Then result }
    {
        let holding = self.worked()?;
        let range = results_of(self.kind, self.call.act)?;
        let into = self.call.act.written();
        Some(known.resulting(self.call.object, holding.claim(), into, range))
    }

    /// The end of a call that fails: it gives 0 to its variable, if it has one.
    fn fails(self, known: &Known) -> Option<Change>
        ensures { EndLeaves known.now self.kind self.holding self.call Way.Else result }
    {
        if !can_fail(self.kind, self.call.timing, self.call.act) {
            return None;
        }
        let into = failed_into(self.call.act);
        Some(known.resulting(self.call.object, self.holding.claim(), into, Range::only(0)))
    }
}

/// The rows of an actor that is inside a call on this object: None where the object is dead, where
/// the call doesn't suit it, and where a mutex is given that the actor doesn't hold.
pub fn change_inside(app: &App, known: &Known, call: &ObjectCall, way: Way) -> Option<Change>
    requires object { call.now.object.0 < length app.now.objects }
    requires fits { KnownFits app.now known.now }
    ensures { LeavesAt app.now known.now Inside (Calls (On call.now)) way result }
{
    let kind = app.kind(call.object);
    let holding = known.holding(call.object.0).living()?;
    if is_unsuited(kind, call.timing, call.act) {
        return None;
    }
    if is_given_unheld(kind, call, holding) {
        return None;
    }
    let ending = Ending {
        call: *call,
        kind,
        holding,
    };
    match way {
        Way::Then => ending.works(known),
        Way::Else => ending.fails(known),
    }
}
