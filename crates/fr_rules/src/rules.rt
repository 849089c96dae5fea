// The twelve rules of use, and those of them that an actor's kind, its depths and its mutexes decide.
ghost use Rattle.std.specs.Prelude.{◌≡◌};
ghost use Rattle.std.specs.Option.{option_map};
ghost use Rattle.fr_program.specs.Fault.{NamesThings};
ghost use Rattle.fr_rules.specs.Rule.{number_of, is_at_once, allowed_in_critical, allowed_suspended, suits_form, is_unsuited, is_at_end, forbids, first_forbidden};

use fr_program::{Act, App, Attempt, BlockTime, Call, End, Instr, Kind, SemaphoreForm, Timing};

/// The twelve rules of use, in the order of their numbers.
#[derive(Clone, Copy, PartialEq, Eq)]
pub enum Rule {
    /// 1: one actor at most is inside a send or a reset of a buffer.
    OneWriter,
    /// 2: one actor at most is inside a receive or a reset of a buffer.
    OneReader,
    /// 3: a mutex is given by the actor that holds it.
    GivenByHolder,
    /// 4: a call in a critical section is one that is allowed there.
    AllowedInCritical,
    /// 5: a call while the scheduler is suspended is one that is allowed then.
    AllowedSuspended,
    /// 6: an interrupt calls only what is made for interrupts.
    AllowedInInterrupt,
    /// 7: an object that is used is live.
    IsLive,
    /// 8: an object is deleted while nobody is inside a call on it, and created while it isn't live.
    LifeInOrder,
    /// 9: a take or a give suits the kind of semaphore.
    SuitsSemaphore,
    /// 10: a critical section is left, and the scheduler resumed, only from a depth above 0.
    DepthAboveZero,
    /// 11: an actor ends in order: an interrupt by a return, a task by a delete of itself, and
    /// with nothing held.
    EndsInOrder,
    /// 12: a number that is written is in the declared range.
    InRange,
}

impl Rule {
    /// All twelve, in the order of their numbers.
    pub const ALL: [Rule; 12] = [
        Rule::OneWriter,
        Rule::OneReader,
        Rule::GivenByHolder,
        Rule::AllowedInCritical,
        Rule::AllowedSuspended,
        Rule::AllowedInInterrupt,
        Rule::IsLive,
        Rule::LifeInOrder,
        Rule::SuitsSemaphore,
        Rule::DepthAboveZero,
        Rule::EndsInOrder,
        Rule::InRange,
    ];

    /// The rule's number, 1 to 12.
    pub fn number(self) -> u8
        ensures { result ≡ number_of self }
    {
        match self {
            Rule::OneWriter => 1,
            Rule::OneReader => 2,
            Rule::GivenByHolder => 3,
            Rule::AllowedInCritical => 4,
            Rule::AllowedSuspended => 5,
            Rule::AllowedInInterrupt => 6,
            Rule::IsLive => 7,
            Rule::LifeInOrder => 8,
            Rule::SuitsSemaphore => 9,
            Rule::DepthAboveZero => 10,
            Rule::EndsInOrder => 11,
            Rule::InRange => 12,
        }
    }
}

/// What some rules ask of the actor that is about to act.
#[derive(Clone, Copy)]
pub struct Condition {
    /// It is an interrupt, and no task.
    pub interrupt: bool,
    /// Its depth in the critical section, 0 where it isn't in it.
    pub critical: u32,
    /// How often it has suspended the scheduler.
    pub suspended: u32,
    /// It holds some mutex.
    pub holds: bool,
}

/// Whether the call answers at once: without a block time, or with one of 0.
fn is_at_once(timing: Timing) -> bool
    ensures { result ≡ is_at_once timing }
{
    match timing {
        Timing::Waits(time) => matches!(time, BlockTime::Ticks(0)),
        Timing::Now | Timing::FromIsr => true,
    }
}

/// Whether the call is allowed in the critical section.
fn allowed_in_critical(call: &Call) -> bool
    ensures { result ≡ allowed_in_critical call.now }
{
    match call {
        Call::EnterCritical(_) | Call::ExitCritical(_) => true,
        Call::On(call) => matches!(call.act, Act::Move { .. }) && is_at_once(call.timing),
        _ => false,
    }
}

/// Whether the call is allowed while the scheduler is suspended.
fn allowed_suspended(call: &Call) -> bool
    ensures { result ≡ allowed_suspended call.now }
{
    matches!(
        call,
        Call::EnterCritical(_) | Call::ExitCritical(_) | Call::SuspendAll | Call::ResumeAll
    )
}

/// Whether a take or a give in this form and with this timing suits the kind: a recursive mutex the
/// recursive form, no other kind that form, and neither kind of mutex the forms for interrupts.
fn suits_form(kind: Kind, timing: Timing, form: SemaphoreForm) -> bool
    ensures { result ≡ suits_form kind timing form }
{
    match (kind, timing) {
        (Kind::Recursive | Kind::Mutex, Timing::FromIsr) => false,
        (Kind::Recursive, _) => matches!(form, SemaphoreForm::Recursive),
        _ => matches!(form, SemaphoreForm::Plain),
    }
}

/// Whether it is a take or a give that doesn't suit the kind of semaphore.
pub fn is_unsuited(kind: Kind, timing: Timing, act: Act) -> bool
    ensures { result ≡ is_unsuited kind timing act }
{
    match act {
        Act::Try {
            attempt: Attempt::Take(form) | Attempt::Give(form),
            ..
        } => !suits_form(kind, timing, form),
        _ => false,
    }
}

/// Whether a call that does this is at this end of its buffer: a send at the writer's, a receive at the
/// reader's, a reset at both.
pub fn is_at_end(end: End, act: Act) -> bool
    ensures { result ≡ is_at_end end act }
{
    match act {
        Act::Move { end: at, .. } => at == end,
        Act::Try { attempt, .. } => matches!(attempt, Attempt::Reset(_)),
    }
}

/// Whether the rule forbids an actor in this condition the instruction before which it is: one of the
/// rules 4, 5, 6, 9, 10 and 11, which the condition decides. No other rule forbids anything by the
/// condition alone. The instruction's numbers name things of the application.
pub fn forbids(app: &App, condition: Condition, instr: &Instr, rule: Rule) -> bool
    requires { NamesThings app.now instr.now }
    ensures { result ≡ forbids app.now condition instr.now rule }
{
    match instr {
        Instr::Call(call) => forbids_call(app, condition, call, rule),
        Instr::Return => match rule {
            Rule::EndsInOrder => !condition.interrupt || condition.critical > 0,
            _ => false,
        },
        _ => false,
    }
}

/// Whether the rule forbids an actor in this condition the call.
fn forbids_call(app: &App, condition: Condition, call: &Call, rule: Rule) -> bool
    requires { NamesThings app.now (Instr.Call call.now) }
    ensures { result ≡ forbids app.now condition (Instr.Call call.now) rule }
{
    match (rule, call) {
        (Rule::AllowedInCritical, _) => condition.critical > 0 && !allowed_in_critical(call),
        (Rule::AllowedSuspended, _) => condition.suspended > 0 && !allowed_suspended(call),
        (Rule::AllowedInInterrupt, _) => condition.interrupt && !call.is_from_isr(),
        (Rule::SuitsSemaphore, Call::On(call)) => {
            is_unsuited(app.kind(call.object), call.timing, call.act)
        }
        (Rule::DepthAboveZero, Call::ExitCritical(_)) => condition.critical == 0,
        (Rule::DepthAboveZero, Call::ResumeAll) => condition.suspended == 0,
        (Rule::EndsInOrder, Call::DeleteSelf) => {
            condition.holds || condition.critical > 0 || condition.suspended > 0
        }
        _ => false,
    }
}

/// The least of the rules 4, 5, 6, 9, 10 and 11 that an actor in this condition breaches before the
/// instruction, or None where it breaches none of them. The instruction's numbers name things of
/// the application. The rules are those of the FreeRTOS Reference Manual on critical sections,
/// suspension, interrupts, kinds of semaphores and the end of a task, as this project's profile
/// joins them.
pub fn first_forbidden(app: &App, condition: Condition, instr: &Instr) -> Option<Rule>
    requires { NamesThings app.now instr.now }
    ensures { result ≡ first_forbidden app.now condition instr.now }
{
    match instr {
        Instr::Return => if !condition.interrupt || condition.critical > 0 {
            Some(Rule::EndsInOrder)
        } else {
            None
        },
        Instr::Call(call) => first_forbidden_call(app, condition, call),
        _ => None,
    }
}

/// The least rule that forbids the call in this condition, or None.
fn first_forbidden_call(app: &App, condition: Condition, call: &Call) -> Option<Rule>
    requires { NamesThings app.now (Instr.Call call.now) }
    ensures { result ≡ first_forbidden app.now condition (Instr.Call call.now) }
{
    if condition.critical > 0 && !allowed_in_critical(call) {
        return Some(Rule::AllowedInCritical);
    }
    if condition.suspended > 0 && !allowed_suspended(call) {
        return Some(Rule::AllowedSuspended);
    }
    if condition.interrupt && !call.is_from_isr() {
        return Some(Rule::AllowedInInterrupt);
    }
    match call {
        Call::On(call) => {
            if is_unsuited(app.kind(call.object), call.timing, call.act) {
                Some(Rule::SuitsSemaphore)
            } else {
                None
            }
        }
        Call::ExitCritical(_) => if condition.critical == 0 {
            Some(Rule::DepthAboveZero)
        } else {
            None
        },
        Call::ResumeAll => if condition.suspended == 0 {
            Some(Rule::DepthAboveZero)
        } else {
            None
        },
        Call::DeleteSelf => {
            if condition.holds || condition.critical > 0 || condition.suspended > 0 {
                Some(Rule::EndsInOrder)
            } else {
                None
            }
        }
        _ => None,
    }
}

/// The number of the least of the rules 4, 5, 6, 9, 10 and 11 that is breached before the
/// instruction, by an actor that is an interrupt or not, is in the critical section at depth `crit`
/// (0: it isn't in it), has suspended the scheduler `susp` times, and holds some mutex or none; None
/// where none of them is. The instruction's numbers name things of the application.
pub fn rule_of(
    app: &App,
    interrupt: bool,
    crit: u32,
    susp: u32,
    holds: bool,
    instr: &Instr,
) -> Option<u8>
    requires { NamesThings app.now instr.now }
    ensures { result ≡ option_map number_of (first_forbidden app.now (record { interrupt = interrupt; critical = crit; suspended = susp; holds = holds }) instr.now) }
{
    let condition = Condition {
        interrupt,
        critical: crit,
        suspended: susp,
        holds,
    };
    first_forbidden(app, condition, instr).map(|rule| rule.number())
}
