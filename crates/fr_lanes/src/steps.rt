// A run into a breach or a deadlock, step by step.
ghost use Rattle.std.specs.Prelude.{◌≡◌, ◌⊎◌, IfOk};
ghost use Rattle.fr_rules.specs.State.{IsWellFormed};
ghost use Rattle.fr_rules.specs.Step.{Step};

use crate::actors::{count_text, put_point};
use crate::body::Body;
use crate::code::Code;
use fr_calls::{Place, Rule, State, the_start_is_well_formed};
use fr_changes::{ExplainedRun, ExplainedStep, explain_steps, waiting_actors};
use fr_page::{
    ActorAfter, Doing, Moved, PointShown, PointState, RowShown, Track, TrackKind, WaitShown,
};
use fr_program::{ActorId, App, Point, Side};
use fr_states::{StepTaken, take_step};
use fr_waits::Wait;
use fr_wording::{
    Depth, Standing, actor_place, depth_in, depths_of, object_name, rule_text, state_told,
};
use std::alloc::{AllocError, Global};

/// How many steps are shown at the beginning of a run, and how many at its end.
const FIRST_STEPS: usize = 100;

const LAST_STEPS: usize = 400;

/// The point at which an actor is; its first line where it is done.
fn point_of(at: &Standing) -> Point {
    at.point.unwrap_or(Point {
        actor: at.actor,
        pc: 0,
        side: Side::Before,
    })
}

/// What a bar of a lane is about.
fn track_of(alloc: Global, app: &App, depth: Depth) -> Result<Track, AllocError> {
    let (kind, name) = match depth {
        Depth::Critical => (
            TrackKind::Critical,
            String::from_str(alloc, "critical section")?,
        ),
        Depth::Suspended => (
            TrackKind::Suspended,
            String::from_str(alloc, "scheduler suspended")?,
        ),
        Depth::Held(object) => {
            let name = object_name(app, object);
            (TrackKind::Held, format!(in alloc; "holds {name}")?)
        }
    };
    Ok(Track { name, kind })
}

/// Adds to each actor of the page what its bars can be about.
pub fn put_tracks(
    alloc: Global,
    body: &mut Body,
    app: &App,
    depths: &[Depth],
) -> Result<(), AllocError> {
    for actor in &mut body.actors {
        for depth in depths {
            actor.tracks.push(track_of(alloc, app, *depth)?)?;
        }
    }
    Ok(())
}

/// Where an actor is in a state, without its name: the line by its number, the side and the code, or that it is done.
fn place_shown(
    alloc: Global,
    app: &App,
    code: &Code,
    actor: ActorId,
    state: &State,
) -> Result<String, AllocError>
    requires { IsWellFormed app.now state.now }
{
    match actor_place(app, state, actor) {
        Place::At { pc, side } => {
            let line = code.line(alloc, app, Point { actor, pc, side })?;
            format!(in alloc; "{pc} {}: {line}", side.text())
        }
        Place::Done => String::from_str(alloc, "done"),
    }
}

/// An actor in a state.
fn actor_after(
    alloc: Global,
    app: &App,
    code: &Code,
    depths: &[Depth],
    actor: ActorId,
    state: &State,
) -> Result<ActorAfter, AllocError>
    requires { IsWellFormed app.now state.now }
{
    let mut shown = Vec::new(alloc);
    for depth in depths {
        shown.push(depth_in(app, state, actor, *depth))?;
    }
    Ok(ActorAfter {
        place: place_shown(alloc, app, code, actor, state)?,
        depths: shown,
    })
}

/// A row of the run with the state after it, in which an actor did something.
pub fn row_of(
    alloc: Global,
    app: &App,
    code: &Code,
    depths: &[Depth],
    name: String,
    moved: Option<Moved>,
    state: &State,
) -> Result<RowShown, AllocError>
    requires { IsWellFormed app.now state.now }
{
    let mut after = Vec::new(alloc);
    for number in 0..app.actors().len() {
        after.push(actor_after(alloc, app, code, depths, ActorId(number), state)?)?;
    }
    Ok(RowShown {
        name,
        omitted: 0,
        moved,
        after,
        facts: state_told(alloc, app, state)?,
    })
}

/// What an actor does in a step.
fn move_of(
    alloc: Global,
    app: &App,
    code: &Code,
    step: &ExplainedStep,
) -> Result<Moved, AllocError> {
    let choice = match step.taken.choice {
        0 => String::new(alloc),
        choice => format!(in alloc; "choice {choice}")?,
    };
    Ok(Moved {
        actor: step.taken.actor.0,
        line: point_of(&step.before).pc,
        code: code.shown(alloc, app, point_of(&step.before))?,
        choice,
        change: step.change(alloc)?,
        doing: Doing::Step,
    })
}

/// Which row of a run this is, and where it is among the others.
#[derive(Clone, Copy)]
pub struct RowPosition {
    /// The number of the row, from 0, and how many there are.
    pub row: usize,
    pub rows: usize,
    /// The number of the step in it, from 0.
    pub step: usize,
}

/// Whether the page shows the row with this number of so many: the first 100 and the last 400.
pub fn is_shown(number: usize, count: usize) -> bool {
    number < FIRST_STEPS || number >= count.saturating_sub(LAST_STEPS)
}

/// How many rows the page leaves out right before the one with this number of so many.
pub fn omitted_before(number: usize, count: usize) -> usize {
    let last = count.saturating_sub(LAST_STEPS);
    if number == last {
        last.saturating_sub(FIRST_STEPS)
    } else {
        0
    }
}

/// Takes the step, and adds its row where the page shows it. Nothing changes where the actor has no such step.
pub fn put_step(
    alloc: Global,
    body: &mut Body,
    app: &App,
    code: &Code,
    depths: &[Depth],
    spot: RowPosition,
    step: &ExplainedStep,
    state: &mut State,
) -> Result<(), AllocError>
    requires { IsWellFormed app.now state.old }
    ensures formed { IfOk result (λ _. IsWellFormed app.now state.new) }
    ensures step { IfOk result (λ _. ((body.new ≡ body.old) × (state.new ≡ state.old))
        ⊎ Step app.now state.old step.now.taken.actor.0 step.now.taken.choice state.new) }
{
    if !take_step(app, state, step.taken)? {
        return Ok(());
    }
    if !is_shown(spot.row, spot.rows) {
        return Ok(());
    }
    let moved = move_of(alloc, app, code, step)?;
    let name = format!(in alloc; "step {}", spot.step.saturating_add(1))?;
    let mut row = row_of(alloc, app, code, depths, name, Some(moved), state)?;
    row.omitted = omitted_before(spot.row, spot.rows);
    Ok(body.steps.push(row)?)
}

/// Adds the row of the start, and gives the start.
pub fn put_start(
    alloc: Global,
    body: &mut Body,
    app: &App,
    code: &Code,
    depths: &[Depth],
) -> Result<State, AllocError>
    ensures { IfOk result (λ state. IsWellFormed app.now state) }
{
    app.recall_faultless();
    the_start_is_well_formed();
    let state = State::start(alloc, app)?;
    let name = String::from_str(alloc, "start")?;
    body.steps
        .push(row_of(alloc, app, code, depths, name, None, &state)?)?;
    Ok(state)
}

/// Adds the rows of the steps from the start on, and gives the state after them.
fn put_steps(
    alloc: Global,
    body: &mut Body,
    app: &App,
    code: &Code,
    depths: &[Depth],
    steps: &[ExplainedStep],
) -> Result<State, AllocError>
    ensures { IfOk result (λ state. IsWellFormed app.now state) }
{
    let mut state = put_start(alloc, body, app, code, depths)?;
    for (number, step) in steps.iter().enumerate() {
        let spot = RowPosition {
            row: number,
            rows: steps.len(),
            step: number,
        };
        put_step(alloc, body, app, code, depths, spot, step, &mut state)?;
    }
    Ok(state)
}

/// What a report says of a breach of this rule.
pub fn rule_told(alloc: Global, rule: Rule) -> Result<String, AllocError> {
    let (number, text) = (rule.number(), rule_text(rule));
    format!(in alloc; "rule {number}: {text}")
}

/// The name of a row after the last step.
fn end_name(doing: Doing) -> &'static str {
    match doing {
        Doing::Step => "step",
        Doing::Event => "event",
        Doing::Breach => "breach",
        Doing::Wait => "deadlock",
    }
}

/// Adds where an actor is after the run, with what is so there: to the run, and to the actor's line of code.
pub fn put_end(
    alloc: Global,
    body: &mut Body,
    app: &App,
    code: &Code,
    depths: &[Depth],
    at: &Standing,
    end: (Doing, &str),
    last: &State,
) -> Result<(), AllocError>
    requires { IsWellFormed app.now last.now }
{
    let (doing, said) = end;
    let point = point_of(at);
    let moved = Moved {
        actor: at.actor.0,
        line: point.pc,
        code: code.shown(alloc, app, point)?,
        choice: String::new(alloc),
        change: String::from_str(alloc, said)?,
        doing,
    };
    let name = String::from_str(alloc, end_name(doing))?;
    body.steps
        .push(row_of(alloc, app, code, depths, name, Some(moved), last)?)?;
    let shown = PointShown {
        number: app.number(point).unwrap_or(0),
        side: String::from_str(alloc, point.side.text())?,
        notes: Vec::new(alloc),
        standing: PointState::Fails(String::from_str(alloc, said)?),
        explanation: Vec::new(alloc),
    };
    put_point(body, point, shown)
}

/// Adds the steps of a run to the body, and gives the state after them.
fn put_taken(
    alloc: Global,
    body: &mut Body,
    app: &App,
    code: &Code,
    depths: &[Depth],
    run: &ExplainedRun,
) -> Result<State, AllocError>
    ensures { IfOk result (λ state. IsWellFormed app.now state) }
{
    put_tracks(alloc, body, app, depths)?;
    let count = run.steps.len();
    body.counts
        .push(count_text(alloc, count, "step", "steps")?)?;
    put_steps(alloc, body, app, code, depths, &run.steps)
}

/// Adds a run into a breach to the body: its steps, after which this actor breaches the rule.
pub fn put_run(
    alloc: Global,
    body: &mut Body,
    app: &App,
    code: &Code,
    steps: &[StepTaken],
    actor: ActorId,
    rule: Rule,
) -> Result<(), AllocError> {
    let (depths, said) = (depths_of(alloc, app)?, rule_told(alloc, rule)?);
    let run = explain_steps(alloc, app, &code.sources, steps, &[actor])?;
    let last = put_taken(alloc, body, app, code, &depths, &run)?;
    match run.lasts.first() {
        Some(at) => {
            let end = (Doing::Breach, said.as_str());
            put_end(alloc, body, app, code, &depths, at, end, &last)
        }
        None => Ok(()),
    }
}

/// Adds where the actors are that wait for one another.
fn put_waits(
    alloc: Global,
    body: &mut Body,
    app: &App,
    code: &Code,
    depths: &[Depth],
    waiting: (&[Standing], &[Wait]),
    last: &State,
) -> Result<(), AllocError>
    requires { IsWellFormed app.now last.now }
{
    let (standings, cycle) = waiting;
    for (at, wait) in standings.iter().zip(cycle) {
        let mutex = object_name(app, wait.mutex);
        let said = format!(in alloc; "waits for {mutex} for ever")?;
        put_end(
            alloc,
            body,
            app,
            code,
            depths,
            at,
            (Doing::Wait, &said),
            last,
        )?;
    }
    Ok(())
}

/// The arrows of a cycle: each actor waits for a mutex that the next one holds, and the last one for a mutex of the first.
fn arrows_of(alloc: Global, app: &App, cycle: &[Wait]) -> Result<Vec<WaitShown>, AllocError> {
    let mut arrows = Vec::new(alloc);
    for (number, wait) in cycle.iter().enumerate() {
        let next = cycle.get(number.saturating_add(1)).or(cycle.first());
        arrows.push(WaitShown {
            actor: wait.actor.0,
            holder: next.map_or(wait.actor.0, |next| next.actor.0),
            mutex: String::from_str(alloc, object_name(app, wait.mutex))?,
        })?;
    }
    Ok(arrows)
}

/// Adds a run into a deadlock to the body: its steps, and the cycle of those that wait after them.
pub fn put_deadlock(
    alloc: Global,
    body: &mut Body,
    app: &App,
    code: &Code,
    steps: &[StepTaken],
    cycle: &[Wait],
) -> Result<(), AllocError> {
    let (depths, actors) = (depths_of(alloc, app)?, waiting_actors(alloc, cycle)?);
    let run = explain_steps(alloc, app, &code.sources, steps, &actors)?;
    let last = put_taken(alloc, body, app, code, &depths, &run)?;
    let waiting = (run.lasts.as_slice(), cycle);
    put_waits(alloc, body, app, code, &depths, waiting, &last)?;
    body.waits = arrows_of(alloc, app, cycle)?;
    Ok(())
}
