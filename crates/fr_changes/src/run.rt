// The steps of a run, and where actors are after them.
ghost use Rattle.std.specs.Prelude.{◌≡◌, IfOk, All, map};
ghost use Rattle.fr_rules.specs.State.{IsWellFormed, start};
ghost use Rattle.fr_changes.specs.Explained.{steps_in, AreExplained, IsAfter, IsBefore, IsExplainedRun, IsIn};

use crate::changes::{ExplainedStep, step_explained};
use fr_calls::{State, the_start_is_well_formed};
use fr_program::{ActorId, App};
use fr_states::{StepTaken, take_step};
use fr_waits::Wait;
use fr_wording::{Sources, Standing, standing_in};
use std::alloc::{AllocError, Global};
use std::mem::drop;

/// A run from the start.
#[derive(Drop)]
pub struct ExplainedRun {
    /// Its steps, from the start on.
    pub steps: Vec<ExplainedStep>,
    /// Where those actors then are that were asked for.
    pub lasts: Vec<Standing>,
}

/// Takes a step, and explains it.
fn step_told(
    alloc: Global,
    app: &App,
    sources: &Sources,
    state: &mut State,
    step: StepTaken,
) -> Result<ExplainedStep, AllocError>
    requires { IsWellFormed app.now state.old }
    ensures formed { IfOk result (λ _. IsWellFormed app.now state.new) }
    ensures step { IfOk result (λ told. told.taken ≡ step) }
    ensures before { IfOk result (IsBefore app.now state.old) }
    ensures after { IfOk result (λ told. IsAfter app.now state.old told.taken state.new) }
{
    let before = state.copied()?;
    let _is_taken = take_step(app, state, step)?;
    step_explained(alloc, app, sources, step, &before, state)
}

/// These steps of a run, each with where its actor was and what it changed, and the state after them.
fn explained(
    alloc: Global,
    app: &App,
    sources: &Sources,
    taken: &[StepTaken],
) -> Result<(Vec<ExplainedStep>, State), AllocError>
    ensures steps { IfOk result (λ r. steps_in r.0.items ≡ taken.now) }
    ensures states { IfOk result (λ r. AreExplained app.now (start app.now) r.0.items r.1) }
    ensures formed { IfOk result (λ r. IsWellFormed app.now r.1) }
{
    app.recall_faultless();
    the_start_is_well_formed();
    let mut state = State::start(alloc, app)?;
    let mut steps = Vec::new(alloc);
    for step in taken {
        steps.push(step_told(alloc, app, sources, &mut state, *step)?)?;
    }
    Ok((steps, state))
}

/// Where these actors are in the state.
fn standings_in(
    alloc: Global,
    app: &App,
    sources: &Sources,
    actors: &[ActorId],
    state: &State,
) -> Result<Vec<Standing>, AllocError>
    requires { IsWellFormed app.now state.now }
    ensures actors { IfOk result (λ lasts. map (λ s. s.actor) lasts.items ≡ actors.now) }
    ensures places { IfOk result (λ lasts. All (IsIn app.now state.now) lasts.items) }
{
    let mut lasts = Vec::new(alloc);
    for actor in actors {
        lasts.push(standing_in(alloc, app, sources, *actor, state)?)?;
    }
    Ok(lasts)
}

/// A run of the application: each of these steps with where its actor was and what it changed, and where these actors are after them.
/// `sources` says where the application's lines are in a source. Its error is that an allocation was refused.
pub fn explain_steps(
    alloc: Global,
    app: &App,
    sources: &Sources,
    taken: &[StepTaken],
    actors: &[ActorId],
) -> Result<ExplainedRun, AllocError>
    ensures steps { IfOk result (λ run. steps_in run.steps.items ≡ taken.now) }
    ensures states { IfOk result (λ run. IsExplainedRun app.now run.steps.items run.lasts.items) }
    ensures actors { IfOk result (λ run. map (λ s. s.actor) run.lasts.items ≡ actors.now) }
{
    let (steps, state) = explained(alloc, app, sources, taken)?;
    let lasts = standings_in(alloc, app, sources, actors, &state);
    drop(state);
    Ok(ExplainedRun {
        steps,
        lasts: lasts?,
    })
}

/// The actors of a cycle of waits. Its error is that an allocation was refused.
pub fn waiting_actors(alloc: Global, cycle: &[Wait]) -> Result<Vec<ActorId>, AllocError>
    ensures { IfOk result (λ actors. actors.items ≡ map (λ w. w.actor) cycle.now) }
{
    cycle.iter().map(|wait| wait.actor).collect(alloc)
}
