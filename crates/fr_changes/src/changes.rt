// What a step of a run changed, in words.
ghost use Rattle.std.specs.Prelude.{◌≡◌, IfOk};
ghost use Rattle.fr_rules.specs.State.{IsWellFormed};
ghost use Rattle.fr_changes.specs.Explained.{IsBefore};

use fr_calls::{Content, Place, State, Stock, value_in};
use fr_notes::Subject;
use fr_program::{ActorId, App, ObjId, Point, VarId};
use fr_states::StepTaken;
use fr_wording::{
    Sources, Standing, actor_name, actor_place, add_text, content_in, fact, has_changed,
    object_name, outcome_text, put_content, put_held, put_listed, standing_in, subject_at,
    subject_count, variable_name,
};
use std::alloc::{AllocError, Global};

/// Whether this is what a live mutex has.
fn is_mutex(content: &Content) -> bool {
    matches!(content.stock(), Stock::Free | Stock::Held { .. })
}

/// Appends what an object has after a step of this actor: of a mutex that was live before, how often the actor
/// holds it.
fn put_object(
    text: &mut String,
    app: &App,
    actor: ActorId,
    before: &State,
    after: &State,
    object: ObjId,
) -> Result<(), AllocError>
    requires before { IsWellFormed app.now before.now }
    requires after { IsWellFormed app.now after.now }
{
    let (name, of) = (actor_name(app, actor), object_name(app, object));
    match (
        content_in(app, before, object),
        content_in(app, after, object),
    ) {
        (Some(was), Some(is)) if is_mutex(was) && is_mutex(is) => {
            put_held(text, name, of, is.count_held(actor))
        }
        (_, Some(is)) => {
            text.push_str(of)?;
            put_content(text, app, " is ", is)
        }
        _ => Ok(()),
    }
}

/// What an object has after a step of this actor.
fn object_text(
    alloc: Global,
    app: &App,
    actor: ActorId,
    before: &State,
    after: &State,
    object: ObjId,
) -> Result<String, AllocError>
    requires before { IsWellFormed app.now before.now }
    requires after { IsWellFormed app.now after.now }
{
    let mut text = String::new(alloc);
    put_object(&mut text, app, actor, before, after, object)?;
    Ok(text)
}

/// The value of a variable after a step, and the one before it.
fn variable_text(
    alloc: Global,
    app: &App,
    before: &State,
    after: &State,
    variable: VarId,
) -> Result<String, AllocError>
    requires before { IsWellFormed app.now before.now }
    requires after { IsWellFormed app.now after.now }
{
    let name = variable_name(app, variable);
    let (was, is) = (
        value_in(app, before, variable),
        value_in(app, after, variable),
    );
    format!(in alloc; "{name} is {is}, it was {was}")
}

/// What is so of something that a step of this actor changed.
fn change_text(
    alloc: Global,
    app: &App,
    actor: ActorId,
    before: &State,
    after: &State,
    subject: Subject,
) -> Result<String, AllocError>
    requires before { IsWellFormed app.now before.now }
    requires after { IsWellFormed app.now after.now }
{
    match subject {
        Subject::Critical | Subject::Suspended => fact(alloc, app, actor, after, subject),
        Subject::Object(object) => object_text(alloc, app, actor, before, after, object),
        Subject::Variable(variable) => variable_text(alloc, app, before, after, variable),
    }
}

/// What a step of this actor changed, an item each; no item where it changed nothing but the actor's place.
fn changes_of(
    alloc: Global,
    app: &App,
    actor: ActorId,
    before: &State,
    after: &State,
) -> Result<Vec<String>, AllocError>
    requires before { IsWellFormed app.now before.now }
    requires after { IsWellFormed app.now after.now }
{
    let mut changes = Vec::new(alloc);
    for place in 0..subject_count(app) {
        let subject = subject_at(app, place);
        if has_changed(alloc, app, actor, before, after, subject)? {
            let change = change_text(alloc, app, actor, before, after, subject)?;
            add_text(&mut changes, change)?;
        }
    }
    if let Place::Done = actor_place(app, after, actor) {
        let done = format!(in alloc; "{} is done", actor_name(app, actor))?;
        add_text(&mut changes, done)?;
    }
    Ok(changes)
}

/// How the call at a point went, where the step is one of a call that can go one way or another, or that
/// begins; no text of any other.
fn call_text(
    alloc: Global,
    app: &App,
    point: Option<Point>,
    choice: i64,
) -> Result<String, AllocError> {
    if let Some(point) = point
        && let Some(instr) = app.instr(point)
    {
        return outcome_text(alloc, point.side, instr, choice);
    }
    Ok(String::new(alloc))
}

/// A step of a run into a breach.
#[derive(Drop)]
pub struct ExplainedStep {
    pub taken: StepTaken,
    /// Where its actor is before it.
    pub before: Standing,
    /// What it changes, an item each; no item where it changes nothing but the actor's place.
    pub changes: Vec<String>,
    /// How its call went, where it is a step of one that can go one way or another, or that begins.
    pub outcome: String,
}

impl ExplainedStep {
    /// What it changes, in words; where it changes nothing but the actor's place, how the call went. Its error is that an allocation was
    /// refused. The words are this project's own.
    pub fn change(&self, alloc: Global) -> Result<String, AllocError> {
        let mut text = String::new(alloc);
        put_listed(&mut text, &self.changes, "; ", &self.outcome)?;
        Ok(text)
    }
}

/// The step, which leads from the one state to the other.
pub(crate) fn step_explained(
    alloc: Global,
    app: &App,
    sources: &Sources,
    taken: StepTaken,
    before: &State,
    after: &State,
) -> Result<ExplainedStep, AllocError>
    requires before { IsWellFormed app.now before.now }
    requires after { IsWellFormed app.now after.now }
    ensures step { IfOk result (λ step. step.taken ≡ taken) }
    ensures place { IfOk result (IsBefore app.now before.now) }
{
    let (actor, choice) = (taken.actor, taken.choice);
    let changes = changes_of(alloc, app, actor, before, after)?;
    let before = standing_in(alloc, app, sources, actor, before)?;
    let outcome = call_text(alloc, app, before.point, choice)?;
    Ok(ExplainedStep {
        taken,
        before,
        changes,
        outcome,
    })
}
