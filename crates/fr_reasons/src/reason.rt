// Why a verdict is no: what follows its report, where it is asked for.
ghost use Rattle.std.specs.Prelude.{◌≡◌, IfOk, IfSome, None};
ghost use Rattle.fr_judge.specs.declared.part.Verdict.TheVariants.{Yes};
ghost use Rattle.fr_rules.specs.State.{IsWellFormed};
ghost use Rattle.fr_ends.specs.Fits.{CertificateFits};
ghost use Rattle.fr_reasons.specs.Shown.{IsFormedStep, AreFormedSteps, IsFormed, IsScene, IsSpot};

mod culprits;
mod guards;
mod notes;
mod places;
mod rules;
mod scene;
mod words;

use culprits::{add_deleters, add_lackers, add_set, add_way};
use fr_calls::{Rule, State, the_start_is_well_formed};
use fr_ends::{Certificate, EndName, Guard};
use fr_judge::{Part, Verdict};
use fr_notes::{Spot, Subject};
use fr_program::{App, Point};
use fr_request::Detail;
use fr_witness::{Taken, Witness, spot_of, witness};
use fr_wording::{Explained, Explanation, ShownState, Sources, outcome_text, standing_in};
use guards::{guard_text, guarded_by, unguarded_text};
pub use notes::{never_deleted, note_told};
use notes::{add_broken, claims_of, rival_of};
use places::add_actors;
use rules::forbidden_text;
use scene::Scene;
use std::alloc::{AllocError, Global};
use std::mem::drop;

/// Adds a line that explains.
fn add_item(items: &mut Vec<Explained>, item: Explained) -> Result<(), AllocError> {
    Ok(items.push(item)?)
}

/// Adds a state, and where each actor is in it if all is asked for.
fn add_state(
    items: &mut Vec<Explained>,
    scene: &Scene,
    of: ShownState,
    state: &State,
) -> Result<(), AllocError>
    requires { IsWellFormed scene.now.app.now state.now }
{
    let facts = scene.shown(state)?;
    add_item(items, Explained::State { of, facts })?;
    match scene.detail {
        Detail::Relevant => Ok(()),
        Detail::Whole => add_actors(scene.alloc, items, scene.app, state),
    }
}

/// Adds what a step changes, if it changes more than the actor's place.
fn add_changed(items: &mut Vec<Explained>, scene: &Scene, taken: &Taken) -> Result<(), AllocError>
    requires { IsFormedStep scene.now.app.now taken.now }
{
    let facts = scene.changed(taken.actor, &taken.before, &taken.after)?;
    if facts.is_empty() {
        Ok(())
    } else {
        add_item(items, Explained::Changed(facts))
    }
}

/// Adds a step, what it changes and where it leads.
fn add_step(
    items: &mut Vec<Explained>,
    scene: &Scene,
    mover: &Spot,
    taken: &Taken,
) -> Result<(), AllocError>
    requires { IsFormedStep scene.now.app.now taken.now }
{
    let (alloc, actor, choice) = (scene.alloc, taken.actor, Some(taken.choice));
    let outcome = outcome_text(alloc, mover.point.side, mover.instr, taken.choice)?;
    add_item(
        items,
        Explained::Step {
            actor,
            choice,
            outcome,
        },
    )?;
    add_changed(items, scene, taken)?;
    let after = standing_in(alloc, scene.app, scene.sources, actor, &taken.after)?;
    add_item(items, Explained::Then(after))
}

/// Adds the steps that undo the note of `victim`, one after the other.
fn add_steps(
    items: &mut Vec<Explained>,
    scene: &Scene,
    mover: &Spot,
    victim: &Spot,
    steps: &[Taken],
) -> Result<(), AllocError>
    requires steps { AreFormedSteps scene.now.app.now steps.now }
    requires spot { IsSpot scene.now.app.now victim.now }
{
    let is_own = mover.point.actor.0 == victim.point.actor.0;
    let of = if is_own {
        ShownState::OneNote
    } else {
        ShownState::BothNotes
    };
    for taken in steps {
        add_state(items, scene, of, &taken.before)?;
        add_step(items, scene, mover, taken)?;
        add_broken(items, scene, of, victim, &taken.after)?;
    }
    add_item(items, Explained::Allowed(of))
}

/// Adds the steps that undo a note, for a part that is about another point.
fn add_leaving(
    items: &mut Vec<Explained>,
    scene: &Scene,
    part: Part,
    steps: &[Taken],
) -> Result<(), AllocError>
    requires steps { AreFormedSteps scene.now.app.now steps.now }
    requires scene { IsScene scene.now }
{
    match (part, &scene.other) {
        (Part::Goes(_), Some(target)) => add_steps(items, scene, &scene.spot, target, steps),
        (Part::Spoiled(_), Some(other)) => add_steps(items, scene, other, &scene.spot, steps),
        _ => Ok(()),
    }
}

/// Adds what the note of a spot says.
fn add_note(items: &mut Vec<Explained>, scene: &Scene, spot: &Spot) -> Result<(), AllocError> {
    let (of, actor) = (ShownState::OneNote, spot.point.actor);
    let claims = claims_of(scene.alloc, scene.app, spot, &[])?;
    add_item(items, Explained::Says { of, actor, claims })
}

/// Adds the point of another actor that can be at the same end, with both notes; nothing where there is
/// none.
fn add_rival(
    items: &mut Vec<Explained>,
    scene: &Scene,
    certificate: &Certificate,
    end: EndName,
) -> Result<(), AllocError>
    requires { CertificateFits scene.now.app.now certificate.now }
{
    let Some(rival) = rival_of(scene.app, certificate, scene.spot.point.actor, end) else {
        return Ok(());
    };
    add_note(items, scene, &scene.spot)?;
    add_item(items, Explained::Beside(scene.standing_at(rival.point)?))?;
    add_note(items, scene, &rival)
}

/// Adds whose the guard of an end is, and that it isn't the actor's.
fn add_guard(
    items: &mut Vec<Explained>,
    scene: &Scene,
    end: EndName,
    guard: &Guard,
    state: &State,
) -> Result<(), AllocError>
    requires { IsWellFormed scene.now.app.now state.now }
{
    let (alloc, app) = (scene.alloc, scene.app);
    let who = guard_text(alloc, app, guard)?;
    add_item(items, Explained::Guard { end, who })?;
    let so = unguarded_text(alloc, app, guard, scene.spot.point.actor, state)?;
    add_item(items, Explained::But(so))
}

/// Adds whom the actor can meet at an end whose guard it lacks.
fn add_met(
    items: &mut Vec<Explained>,
    scene: &Scene,
    certificate: &Certificate,
    end: EndName,
    guard: &Guard,
) -> Result<(), AllocError>
    requires { CertificateFits scene.now.app.now certificate.now }
{
    if !scene.blames {
        return add_rival(items, scene, certificate, end);
    }
    add_way(items, scene, guard, scene.spot.point)?;
    add_rival(items, scene, certificate, end)?;
    add_lackers(items, scene, certificate, end, guard)
}

/// Adds that the guard of an end isn't the actor's, and whom it can meet there.
fn add_lacking(
    items: &mut Vec<Explained>,
    scene: &Scene,
    certificate: &Certificate,
    end: EndName,
    state: &State,
) -> Result<(), AllocError>
    requires formed { IsWellFormed scene.now.app.now state.now }
    requires fits { CertificateFits scene.now.app.now certificate.now }
{
    add_state(items, scene, ShownState::OneNote, state)?;
    let Some(guard) = certificate.ends.guard(end) else {
        return Ok(());
    };
    add_guard(items, scene, end, guard, state)?;
    add_met(items, scene, certificate, end, guard)?;
    add_item(items, Explained::Allowed(ShownState::OneNote))
}

/// Adds that the guard of an end isn't the actor's, by a state in which it isn't, or that none is listed.
fn add_unguarded(
    items: &mut Vec<Explained>,
    scene: &Scene,
    certificate: &Certificate,
    end: EndName,
    state: Option<&State>,
) -> Result<(), AllocError>
    requires formed { IfSome state (λ s. IsWellFormed scene.now.app.now s.now) }
    requires fits { CertificateFits scene.now.app.now certificate.now }
{
    match state {
        Some(state) => add_lacking(items, scene, certificate, end, state),
        None => {
            add_item(items, Explained::Unguarded(end))?;
            add_rival(items, scene, certificate, end)
        }
    }
}

/// Adds a state in which the actor breaches a rule, and what it is that the rule forbids.
fn add_breaking(
    items: &mut Vec<Explained>,
    scene: &Scene,
    certificate: &Certificate,
    rule: Rule,
    state: &State,
) -> Result<(), AllocError>
    requires formed { IsWellFormed scene.now.app.now state.now }
    requires fits { CertificateFits scene.now.app.now certificate.now }
{
    add_state(items, scene, ShownState::OneNote, state)?;
    let so = forbidden_text(scene.alloc, scene.app, &scene.spot, state, rule)?;
    add_item(items, Explained::But(so))?;
    if scene.blames && rule == Rule::IsLive {
        add_deleters(items, scene, certificate)?;
    }
    add_item(items, Explained::Allowed(ShownState::OneNote))
}

/// Adds a state from which another actor puts a variable out of its declared range, where every range of
/// a note ends.
fn add_beyond(
    items: &mut Vec<Explained>,
    scene: &Scene,
    other: &Spot,
    state: &State,
) -> Result<(), AllocError>
    requires { IsWellFormed scene.now.app.now state.now }
{
    let (actor, choice) = (other.point.actor, None);
    add_state(items, scene, ShownState::BothNotes, state)?;
    let outcome = forbidden_text(scene.alloc, scene.app, other, state, Rule::InRange)?;
    add_item(
        items,
        Explained::Step {
            actor,
            choice,
            outcome,
        },
    )?;
    add_item(items, Explained::Allowed(ShownState::BothNotes))
}

/// Adds a state in which a rule is breached, by the actor itself or by another one's step.
fn add_breach(
    items: &mut Vec<Explained>,
    scene: &Scene,
    certificate: &Certificate,
    part: Part,
    state: &State,
) -> Result<(), AllocError>
    requires formed { IsWellFormed scene.now.app.now state.now }
    requires fits { CertificateFits scene.now.app.now certificate.now }
{
    match (part, &scene.other) {
        (Part::Rule(rule), _) => add_breaking(items, scene, certificate, rule, state),
        (_, Some(other)) => add_beyond(items, scene, other, state),
        _ => Ok(()),
    }
}

/// Adds a state with the notes of both points.
fn add_both(
    items: &mut Vec<Explained>,
    scene: &Scene,
    certificate: &Certificate,
    state: &State,
) -> Result<(), AllocError>
    requires formed { IsWellFormed scene.now.app.now state.now }
    requires fits { CertificateFits scene.now.app.now certificate.now }
{
    add_state(items, scene, ShownState::BothNotes, state)?;
    if scene.blames {
        add_deleters(items, scene, certificate)?;
    }
    add_item(items, Explained::Allowed(ShownState::BothNotes))
}

/// Adds the start, and what the note says otherwise.
fn add_start(items: &mut Vec<Explained>, scene: &Scene, state: &State) -> Result<(), AllocError>
    requires formed { IsWellFormed scene.now.app.now state.now }
    requires scene { IsScene scene.now }
{
    add_state(items, scene, ShownState::Start, state)?;
    add_broken(items, scene, ShownState::Start, &scene.spot, state)
}

/// Adds what the witness of a part shows.
fn add_witness(
    items: &mut Vec<Explained>,
    scene: &Scene,
    certificate: &Certificate,
    part: Part,
    witness: &Witness,
) -> Result<(), AllocError>
    requires formed { IsFormed scene.now.app.now witness.now }
    requires scene { IsScene scene.now }
    requires fits { CertificateFits scene.now.app.now certificate.now }
{
    match (witness, part) {
        (Witness::Start(state), _) => add_start(items, scene, state),
        (Witness::Breaks(state), _) => add_breach(items, scene, certificate, part, state),
        (Witness::Leaves(steps), _) => add_leaving(items, scene, part, steps),
        (Witness::Unguarded(state), Part::Guard(end)) => {
            add_unguarded(items, scene, certificate, end, state.as_ref())
        }
        (Witness::Both(state), _) => add_both(items, scene, certificate, state),
        _ => Ok(()),
    }
}

/// The other point that a part is about, if it is about one.
fn other_of<'a>(app: &'a App, certificate: &'a Certificate, part: Part) -> Option<Spot<'a>>
    requires { CertificateFits app.now certificate.now }
    ensures { IfSome result (IsSpot app.now) }
{
    match part {
        Part::Goes(point) | Part::Near(point) | Part::Spoiled(point) => {
            spot_of(app, certificate, point)
        }
        _ => None,
    }
}

/// What the guard names that a part is about, if it is about one.
fn guarded_in(certificate: &Certificate, part: Part) -> Option<Subject> {
    match part {
        Part::Guard(end) => guarded_by(certificate.ends.guard(end)?),
        _ => None,
    }
}

/// Adds a point, with its line of code.
fn add_place(items: &mut Vec<Explained>, scene: &Scene, point: Point) -> Result<(), AllocError> {
    add_item(items, Explained::Place(scene.standing_at(point)?))
}

/// Adds the points that a part is about, each with its line of code: not the point that it goes to,
/// which follows its step. First of all comes the `set` that spoils the point, where it is out of its range itself.
fn add_points(
    items: &mut Vec<Explained>,
    scene: &Scene,
    certificate: &Certificate,
    part: Part,
) -> Result<(), AllocError>
    requires { CertificateFits scene.now.app.now certificate.now }
{
    let point = scene.spot.point;
    if let Part::Spoiled(by) = part
        && scene.blames
    {
        add_set(items, scene, certificate, by)?;
    }
    add_place(items, scene, point)?;
    match &scene.other {
        Some(other) if other.point.actor.0 != point.actor.0 => {
            add_place(items, scene, other.point)
        }
        _ => Ok(()),
    }
}

/// Adds a state that shows why the part fails, as `witness` of fr_witness finds it, or that none was found.
fn add_found(
    items: &mut Vec<Explained>,
    scene: &Scene,
    certificate: &Certificate,
    part: Part,
) -> Result<(), AllocError>
    requires scene { IsScene scene.now }
    requires fits { CertificateFits scene.now.app.now certificate.now }
{
    let (app, point) = (scene.app, scene.spot.point);
    app.recall_faultless();
    the_start_is_well_formed();
    match witness(scene.alloc, app, certificate, Verdict::No { point, part })? {
        Some(found) => {
            let added = add_witness(items, scene, certificate, part, &found);
            drop(found);
            added
        }
        None => add_item(items, Explained::NotFound),
    }
}

/// Why a part fails at the scene's point.
fn explained(
    scene: &Scene,
    certificate: &Certificate,
    part: Part,
) -> Result<Explanation, AllocError>
    requires scene { IsScene scene.now }
    requires fits { CertificateFits scene.now.app.now certificate.now }
{
    let mut items = Vec::new(scene.alloc);
    add_points(&mut items, scene, certificate, part)?;
    add_found(&mut items, scene, certificate, part)?;
    Ok(Explanation { items })
}

/// Why a verdict is no, in the order in which it is told: a state that the notes allow, and where the part is about
/// a step the step, as `witness` of fr_witness finds them; each point with its line of code, what the note says, and
/// what is so. None where the verdict is yes. The certificate fits the application; `sources` says where its lines are in a source.
/// Where `blames` asks for it, lines are named that a person would change: those at which a guard could have been got, by all points that
/// lack it; those that delete the object of a call; and first the `set` that spoils the point, where that is out of its range itself. Its
/// error is that an allocation was refused.
pub fn explain(
    alloc: Global,
    app: &App,
    certificate: &Certificate,
    sources: &Sources,
    verdict: Verdict,
    detail: Detail,
    blames: bool,
) -> Result<Option<Explanation>, AllocError>
    requires { CertificateFits app.now certificate.now }
    ensures { IfOk result (λ found. verdict ≡ Yes → found ≡ None) }
{
    let Verdict::No { point, part } = verdict else {
        return Ok(None);
    };
    let Some(spot) = spot_of(app, certificate, point) else {
        return Ok(None);
    };
    let scene = Scene {
        alloc,
        app,
        sources,
        detail,
        blames,
        spot,
        other: other_of(app, certificate, part),
        guarded: guarded_in(certificate, part),
    };
    Ok(Some(explained(&scene, certificate, part)?))
}
