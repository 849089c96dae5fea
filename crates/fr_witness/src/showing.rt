// The search for what shows that the part that a verdict names isn't kept.
ghost use Rattle.std.specs.Prelude.{Some, ◌≡◌, ◌↔◌, IfOk, IfSome, IfNone, IsTrue};
ghost use Rattle.fr_program.specs.Lookup.{IsPoint};
ghost use Rattle.fr_rules.specs.State.{IsWellFormed};
ghost use Rattle.fr_notes.specs.Fits.{AlternativeFits};
ghost use Rattle.fr_notes.specs.Noted.{NotedBy};
ghost use Rattle.fr_ends.specs.Certificate.{HasGuard, value_for};
ghost use Rattle.fr_ends.specs.Fits.{CertificateFits};
ghost use Rattle.fr_ends.specs.View.{guard_of, values_of};
ghost use Rattle.fr_witness.specs.Spot.{IsSaidAt, IsSpot};
ghost use Rattle.fr_witness.specs.Witness.{IsWitness, Shows};

use crate::claims::note_holds;
use crate::evidence::Witness;
use crate::hunt::Hunt;
use crate::scene::{is_noted_by, plain_state};
use crate::variants::Variants;
use fr_calls::{Rule, State, the_start_is_well_formed};
use fr_ends::{Certificate, EndName, Guard, value_for};
use fr_judge::{Part, Verdict};
use fr_notes::{Alternative, Case, MOST_ALTERNATIVES, Spot};
use fr_program::{ActorId, App, Point, Side};
use std::alloc::{AllocError, Global};
use std::collections::BTreeMap;

/// The point with its instruction and its note; None where the application has no such point.
pub fn spot_of<'a>(app: &'a App, certificate: &'a Certificate, point: Point) -> Option<Spot<'a>>
    requires { CertificateFits app.now certificate.now }
    ensures some { IfSome result (λ s. (s.point ≡ point) × IsSpot app.now certificate.now s) }
    ensures none { IfNone result (IsPoint app.now point → ⊥) }
{
    let number = app.number(point)?;
    let notes = &certificate.notes;
    (Case { app, notes }).spot(number)
}

/// The start, where the note of the actor's first point doesn't hold of it.
fn start_of(
    alloc: Global,
    app: &App,
    certificate: &Certificate,
    spot: &Spot,
) -> Result<Option<Witness>, AllocError>
    requires { IsSpot app.now certificate.now spot.now }
    ensures { IfOk result (λ found. IfSome found (λ w.
        Shows app.now certificate.now spot.now.point Part.Entry w)) }
{
    app.recall_faultless();
    the_start_is_well_formed();
    let state = State::start(alloc, app)?;
    Ok(if note_holds(app, spot.note, spot.point.actor, &state) {
        None
    } else {
        Some(Witness::Start(state))
    })
}

/// A state with the point's note in which its actor breaches the rule.
fn breaking<'a>(
    alloc: Global,
    app: &'a App,
    certificate: &Certificate,
    spot: &Spot<'a>,
    rule: Rule,
) -> Result<Option<Witness>, AllocError>
    requires spot { IsSpot app.now certificate.now spot.now }
    ensures { IfOk result (λ found. IfSome found (λ w.
        Shows app.now certificate.now spot.now.point (Part.Rule rule) w)) }
{
    for says in spot.note.alternatives() {
        let hunt = Hunt {
            app,
            mover: spot.point,
            instr: spot.instr,
            says,
            other: None,
            lands: None,
            victim: spot.point.actor,
        };
        if let Some(state) = hunt.breach(alloc, rule)? {
            return Ok(Some(Witness::Breaks(state)));
        }
    }
    Ok(None)
}

/// Steps from the point to another one of its actor that leave nothing of the other one's note.
fn leaving<'a>(
    alloc: Global,
    app: &'a App,
    certificate: &Certificate,
    spot: &Spot<'a>,
    target: &Spot<'a>,
) -> Result<Option<Witness>, AllocError>
    requires spot { IsSpot app.now certificate.now spot.now × IsSpot app.now certificate.now target.now }
    ensures { IfOk result (λ found. IfSome found (λ w.
        Shows app.now certificate.now spot.now.point (Part.Goes target.now.point) w)) }
{
    for says in spot.note.alternatives() {
        let hunt = Hunt {
            app,
            mover: spot.point,
            instr: spot.instr,
            says,
            other: None,
            lands: Some(target.point),
            victim: spot.point.actor,
        };
        if let Some(steps) = hunt.steps(alloc, target.note)? {
            return Ok(Some(Witness::Leaves(steps)));
        }
    }
    Ok(None)
}

/// How many pairs of alternatives two notes have at the most.
const MOST_PAIRS: usize = MOST_ALTERNATIVES * MOST_ALTERNATIVES;

/// An alternative of each of the two notes, by the number of the pair; None where a note has fewer.
fn pair_of<'a>(
    app: &App,
    certificate: &Certificate,
    spot: &Spot<'a>,
    other: &Spot<'a>,
    number: usize,
) -> Option<(&'a Alternative, &'a Alternative)>
    requires { IsSpot app.now certificate.now spot.now × IsSpot app.now certificate.now other.now }
    ensures says { IfSome result (λ p. IsSaidAt app.now certificate.now spot.now.point p.0.now) }
    ensures told { IfSome result (λ p. IsSaidAt app.now certificate.now other.now.point p.1.now) }
{
    let _ = app;
    let _ = certificate;
    let says = spot.note.alternatives().get(number / MOST_ALTERNATIVES)?;
    let told = other.note.alternatives().get(number % MOST_ALTERNATIVES)?;
    Some((says, told))
}

/// Steps of the other point's actor that leave nothing of the point's note; or a state in which the other
/// point's actor is about to put a variable out of its declared range.
fn spoiling<'a>(
    alloc: Global,
    app: &'a App,
    certificate: &Certificate,
    spot: &Spot<'a>,
    other: &Spot<'a>,
) -> Result<Option<Witness>, AllocError>
    requires spot { IsSpot app.now certificate.now spot.now × IsSpot app.now certificate.now other.now }
    ensures { IfOk result (λ found. IfSome found (λ w.
        Shows app.now certificate.now spot.now.point (Part.Spoiled other.now.point) w)) }
{
    for number in 0..MOST_PAIRS {
        let Some((says, told)) = pair_of(app, certificate, spot, other, number) else {
            continue;
        };
        let hunt = Hunt {
            app,
            mover: other.point,
            instr: other.instr,
            says: told,
            other: Some((spot.point, says)),
            lands: None,
            victim: spot.point.actor,
        };
        if let Some(steps) = hunt.steps(alloc, spot.note)? {
            return Ok(Some(Witness::Leaves(steps)));
        }
        if let Side::Before = other.point.side
            && let Some(state) = hunt.breach(alloc, Rule::InRange)?
        {
            return Ok(Some(Witness::Breaks(state)));
        }
    }
    Ok(None)
}

/// A state with the notes of both points.
fn both<'a>(
    alloc: Global,
    app: &App,
    certificate: &Certificate,
    spot: &Spot<'a>,
    other: &Spot<'a>,
) -> Result<Option<Witness>, AllocError>
    requires spot { IsSpot app.now certificate.now spot.now × IsSpot app.now certificate.now other.now }
    ensures { IfOk result (λ found. IfSome found (λ w.
        Shows app.now certificate.now spot.now.point (Part.Near other.now.point) w)) }
{
    for number in 0..MOST_PAIRS {
        let Some((says, told)) = pair_of(app, certificate, spot, other, number) else {
            continue;
        };
        let state = plain_state(alloc, app, (spot.point, says), Some((other.point, told)))?;
        if is_noted_by(app, spot.point, says, &state)
            && is_noted_by(app, other.point, told, &state)
        {
            return Ok(Some(Witness::Both(state)));
        }
    }
    Ok(None)
}

/// Whether it is the actor's turn, where the variable has this value.
fn has_turn(values: &BTreeMap<ActorId, i64>, actor: ActorId, value: i64) -> bool
    ensures { IsTrue result ↔ (value_for (values_of values.now) actor.0 ≡ Some value) }
{
    match value_for(values, actor) {
        Some(listed) => listed == value,
        None => false,
    }
}

/// Whether the guard, where it names what the application has, doesn't hold of the actor in the state.
fn lacks_guard(app: &App, guard: &Guard, actor: ActorId, state: &State) -> bool
    requires { IsWellFormed app.now state.now }
    ensures { IsTrue result → HasGuard (guard_of guard.now) actor.0 state.now → ⊥ }
{
    match guard {
        Guard::Sole(only) => actor.0 != only.0,
        Guard::Mutex(mutex) => {
            mutex.0 < app.objects().len() && state.content(*mutex).count_held(actor) == 0
        }
        Guard::Critical => state.depth(actor) == 0,
        Guard::Turn(variable, values) => {
            variable.0 < app.variables().len() && !has_turn(values, actor, state.value(*variable))
        }
    }
}

/// A state with the alternative in which the guard doesn't hold of the point's actor.
fn unguarded_by(
    alloc: Global,
    app: &App,
    certificate: &Certificate,
    spot: &Spot,
    says: &Alternative,
    guard: &Guard,
) -> Result<Option<State>, AllocError>
    requires spot { IsSpot app.now certificate.now spot.now }
    requires says { AlternativeFits app.now says.now }
    ensures { IfOk result (λ found. IfSome found (λ S.
        NotedBy app.now spot.now.point says.now S × (HasGuard (guard_of guard.now) spot.now.point.actor.0 S → ⊥))) }
{
    let point = spot.point;
    let plain = plain_state(alloc, app, (point, says), None)?;
    let variants = Variants::turning(alloc, says, guard)?;
    for number in 0..variants.count() {
        let state = variants.state(alloc, app, &plain, number)?;
        if is_noted_by(app, point, says, &state) && lacks_guard(app, guard, point.actor, &state) {
            return Ok(Some(state));
        }
    }
    Ok(None)
}

/// No guard is listed for the end, or a state with the point's note in which it doesn't hold of the actor.
fn unguarded(
    alloc: Global,
    app: &App,
    certificate: &Certificate,
    spot: &Spot,
    end: EndName,
) -> Result<Option<Witness>, AllocError>
    requires spot { IsSpot app.now certificate.now spot.now }
    requires fits { CertificateFits app.now certificate.now }
    ensures { IfOk result (λ found. IfSome found (λ w.
        Shows app.now certificate.now spot.now.point (Part.Guard end) w)) }
{
    let Some(guard) = certificate.ends.guard(end) else {
        return Ok(Some(Witness::Unguarded(None)));
    };
    for says in spot.note.alternatives() {
        if let Some(state) = unguarded_by(alloc, app, certificate, spot, says, guard)? {
            return Ok(Some(Witness::Unguarded(Some(state))));
        }
    }
    Ok(None)
}

/// What shows that the part isn't kept at the point.
fn witness_of<'a>(
    alloc: Global,
    app: &'a App,
    certificate: &'a Certificate,
    spot: &Spot<'a>,
    part: Part,
) -> Result<Option<Witness>, AllocError>
    requires spot { IsSpot app.now certificate.now spot.now }
    requires fits { CertificateFits app.now certificate.now }
    ensures { IfOk result (λ found. IfSome found (λ w. Shows app.now certificate.now spot.now.point part w)) }
{
    let another = match part {
        Part::Goes(point) | Part::Near(point) | Part::Spoiled(point) => {
            spot_of(app, certificate, point)
        }
        _ => None,
    };
    match (part, another) {
        (Part::Entry, _) => start_of(alloc, app, certificate, spot),
        (Part::Rule(rule), _) => breaking(alloc, app, certificate, spot, rule),
        (Part::Goes(_), Some(target)) => leaving(alloc, app, certificate, spot, &target),
        (Part::Guard(end), _) => unguarded(alloc, app, certificate, spot, end),
        (Part::Near(_), Some(other)) => both(alloc, app, certificate, spot, &other),
        (Part::Spoiled(_), Some(other)) => spoiling(alloc, app, certificate, spot, &other),
        _ => Ok(None),
    }
}

/// What shows that the verdict's part isn't kept: the start, a state, or steps from states, all of which
/// are well formed and have the notes that they should have. The certificate fits the application.
/// None where the verdict is yes, or where no such state was found: how it is looked for isn't exact,
/// what is found is. Its error is that an allocation was refused.
pub fn witness(
    alloc: Global,
    app: &App,
    certificate: &Certificate,
    verdict: Verdict,
) -> Result<Option<Witness>, AllocError>
    requires fits { CertificateFits app.now certificate.now }
    ensures { IfOk result (λ found. IsWitness app.now certificate.now verdict found) }
{
    let Verdict::No { point, part } = verdict else {
        return Ok(None);
    };
    match spot_of(app, certificate, point) {
        Some(spot) => witness_of(alloc, app, certificate, &spot, part),
        None => Ok(None),
    }
}
