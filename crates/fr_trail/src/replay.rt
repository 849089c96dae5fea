// The steps of a run, each from where it was taken, and where the run leads.
ghost use Rattle.std.specs.Prelude.{IfOk};
ghost use Rattle.fr_rules.specs.State.{IsWellFormed};

use fr_calls::{Place, State, the_start_is_well_formed};
use fr_explained::Item;
use fr_program::{App, Call, Instr, Point, Side};
use fr_states::{StepTaken, take_step};
use fr_wording::actor_place;
use std::alloc::{AllocError, Global};

/// A step of a run.
#[derive(Clone, Copy)]
pub(crate) struct StepSeen {
    /// Where its actor was.
    pub point: Point,
    pub choice: i64,
    /// How many events came before it.
    pub events: usize,
}

/// A run, step by step.
#[derive(Drop)]
pub(crate) struct Replayed {
    pub visits: Vec<StepSeen>,
    /// The state after it.
    pub state: State,
}

/// The call that has its effect by the step from a point with this line: the end of an object call, and the one step of any other.
pub(crate) fn effect_at(point: Point, instr: &Instr) -> Option<Call> {
    match instr {
        Instr::Call(Call::On(_)) if point.side == Side::Before => None,
        Instr::Call(call) => Some(*call),
        _ => None,
    }
}

/// The step from this state, after so many events; None where its actor is done.
fn visit_in(app: &App, state: &State, step: StepTaken, events: usize) -> Option<StepSeen>
    requires { IsWellFormed app.now state.now }
{
    match actor_place(app, state, step.actor) {
        Place::At { pc, side } => Some(StepSeen {
            point: Point {
                actor: step.actor,
                pc,
                side,
            },
            choice: step.choice,
            events,
        }),
        Place::Done => None,
    }
}

/// Takes the step, after so many events, and adds it to the visits.
fn take(
    app: &App,
    state: &mut State,
    visits: &mut Vec<StepSeen>,
    step: StepTaken,
    events: usize,
) -> Result<(), AllocError>
    requires { IsWellFormed app.now state.old }
    ensures { IfOk result (λ _. IsWellFormed app.now state.new) }
{
    if let Some(visit) = visit_in(app, state, step, events) {
        visits.push(visit)?;
    }
    let _is_taken = take_step(app, state, step)?;
    Ok(())
}

/// The run, step by step.
pub(crate) fn replay(alloc: Global, app: &App, run: &[Item]) -> Result<Replayed, AllocError>
    ensures { IfOk result (λ replayed. IsWellFormed app.now replayed.state) }
{
    app.recall_faultless();
    the_start_is_well_formed();
    let mut state = State::start(alloc, app)?;
    let (mut visits, mut events) = (Vec::new(alloc), 0usize);
    for item in run {
        match item {
            Item::Event => events = events.saturating_add(1),
            Item::Step(step) => take(app, &mut state, &mut visits, *step, events)?,
        }
    }
    Ok(Replayed { visits, state })
}
