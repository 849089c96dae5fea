// What notes say, and what of it isn't so in a state.
ghost use Rattle.std.specs.Prelude.{◌<◌, length};
ghost use Rattle.fr_rules.specs.State.{IsWellFormed};
ghost use Rattle.fr_notes.specs.Fits.{AlternativeFits};
ghost use Rattle.fr_ends.specs.Fits.{CertificateFits};
ghost use Rattle.fr_reasons.specs.Shown.{IsSpot};

use super::add_item;
use super::scene::{Scene, says_of};
use super::words::{can_hold, otherwise_text, put_claim, put_said};
use fr_calls::State;
use fr_ends::{Certificate, EndName, is_inside_end};
use fr_notes::{Alternative, Claim, Note, Notes, Spot, Subject};
use fr_program::{ActorId, App, Call, Instr, ObjId, Point};
use fr_witness::{claim_broken, spot_of};
use fr_wording::{Explained, ShownState, add_text, subject_at, subject_count};
use std::alloc::{AllocError, Global};

/// What an alternative says of the subject, as a list of one claim.
fn one_claim(
    alloc: Global,
    app: &App,
    actor: ActorId,
    says: &Alternative,
    subject: Subject,
) -> Result<Vec<String>, AllocError> {
    let (mut claim, mut claims) = (String::new(alloc), Vec::new(alloc));
    put_said(&mut claim, app, actor, says, subject)?;
    add_text(&mut claims, claim)?;
    Ok(claims)
}

/// Adds what an alternative says that isn't so in the state, and what is.
fn add_broken_by(
    items: &mut Vec<Explained>,
    scene: &Scene,
    of: ShownState,
    actor: ActorId,
    says: &Alternative,
    state: &State,
) -> Result<(), AllocError>
    requires formed { IsWellFormed scene.now.app.now state.now }
    requires fits { AlternativeFits scene.now.app.now says.now }
    requires actor { actor.0 < length scene.now.app.now.actors }
{
    let (alloc, app) = (scene.alloc, scene.app);
    let Some(subject) = claim_broken(app, says, actor, state) else {
        return Ok(());
    };
    let claims = one_claim(alloc, app, actor, says, subject)?;
    add_item(items, Explained::Says { of, actor, claims })?;
    let so = otherwise_text(alloc, app, actor, says, state, subject)?;
    add_item(items, Explained::But(so))
}

/// Adds for each alternative of the actor's note that doesn't hold in a state of this kind what it says, and
/// what is so.
pub(super) fn add_broken(
    items: &mut Vec<Explained>,
    scene: &Scene,
    of: ShownState,
    spot: &Spot,
    state: &State,
) -> Result<(), AllocError>
    requires formed { IsWellFormed scene.now.app.now state.now }
    requires spot { IsSpot scene.now.app.now spot.now }
{
    let (actor, alternatives) = (spot.point.actor, spot.note.alternatives());
    if alternatives.is_empty() {
        let claims = Vec::new(scene.alloc);
        return add_item(items, Explained::Says { of, actor, claims });
    }
    for says in alternatives {
        add_broken_by(items, scene, of, actor, says, state)?;
    }
    Ok(())
}

/// The subject, where it is one of these objects and the alternative says of it that it is live.
fn live_among(says: &Alternative, subject: Subject, live: &[ObjId]) -> Option<ObjId> {
    let Subject::Object(object) = subject else {
        return None;
    };
    for other in live {
        if other.0 == object.0 && says.claim(object) == Claim::Alive {
            return Some(object);
        }
    }
    None
}

/// Whether an alternative says something of the subject, beside that these objects are live.
fn says_more(
    app: &App,
    actor: ActorId,
    says: &Alternative,
    subject: Subject,
    live: &[ObjId],
) -> bool {
    match live_among(says, subject, live) {
        Some(object) => can_hold(app, actor, object),
        None => says_of(app, says, subject),
    }
}

/// Appends what an alternative says of the subject, beside that these objects are live.
fn put_more(
    text: &mut String,
    app: &App,
    actor: ActorId,
    says: &Alternative,
    subject: Subject,
    live: &[ObjId],
) -> Result<(), AllocError> {
    match live_among(says, subject, live) {
        Some(object) => put_claim(text, app, actor, object, Claim::NotHeld),
        None => put_said(text, app, actor, says, subject),
    }
}

/// Appends what an alternative says, beside what is so of every state, and that these objects are live.
fn put_alternative(
    text: &mut String,
    app: &App,
    actor: ActorId,
    says: &Alternative,
    live: &[ObjId],
) -> Result<(), AllocError> {
    let mut before = "";
    for place in 0..subject_count(app) {
        let subject = subject_at(app, place);
        if says_more(app, actor, says, subject, live) {
            text.push_str(before)?;
            put_more(text, app, actor, says, subject, live)?;
            before = "; ";
        }
    }
    text.push_str(if before.is_empty() { "nothing" } else { "" })
}

/// What an alternative says, beside what is so of every state, and that these objects are live.
fn alternative_text(
    alloc: Global,
    app: &App,
    actor: ActorId,
    says: &Alternative,
    live: &[ObjId],
) -> Result<String, AllocError> {
    let mut text = String::new(alloc);
    put_alternative(&mut text, app, actor, says, live)?;
    Ok(text)
}

/// What the note of a spot says, an item for each alternative, beside that these objects are live.
pub(super) fn claims_of(
    alloc: Global,
    app: &App,
    spot: &Spot,
    live: &[ObjId],
) -> Result<Vec<String>, AllocError> {
    let mut claims = Vec::new(alloc);
    for says in spot.note.alternatives() {
        let claim = alternative_text(alloc, app, spot.point.actor, says, live)?;
        add_text(&mut claims, claim)?;
    }
    Ok(claims)
}

/// What the note of a point says in words, an item for each alternative, beside that the objects in `live` are live; no item where the
/// actor is never there, or where the application has no such point. The certificate fits the application. Its error is that an allocation was
/// refused. The words are this project's own.
pub fn note_told(
    alloc: Global,
    app: &App,
    certificate: &Certificate,
    point: Point,
    live: &[ObjId],
) -> Result<Vec<String>, AllocError>
    requires { CertificateFits app.now certificate.now }
{
    match spot_of(app, certificate, point) {
        Some(spot) => claims_of(alloc, app, &spot, live),
        None => Ok(Vec::new(alloc)),
    }
}

/// Whether the line deletes the object.
pub(super) fn deletes(instr: &Instr, object: ObjId) -> bool {
    match instr {
        Instr::Call(Call::Delete { object: other, .. }) => other.0 == object.0,
        _ => false,
    }
}

/// Whether the object is live by the note, and the line doesn't delete it.
fn stays_live(instr: &Instr, note: &Note, object: ObjId) -> bool {
    let mut alternatives = note.alternatives().iter();
    !deletes(instr, object)
        && alternatives.all(|says| matches!(says.claim(object), Claim::Alive | Claim::HeldTimes(_)))
}

/// Whether so it is at each point.
fn is_lasting(app: &App, notes: &Notes, object: ObjId) -> bool {
    for number in 0..app.points() {
        match (app.instr(app.point(number)), notes.get(number)) {
            (Some(instr), Some(note)) if stays_live(instr, note, object) => {}
            _ => return false,
        }
    }
    true
}

/// The objects that are live from the start on, deleted by no line and live by each note, so that a page says once that they are live. Its
/// error is that an allocation was refused.
pub fn never_deleted(alloc: Global, app: &App, notes: &Notes) -> Result<Vec<ObjId>, AllocError> {
    let mut live = Vec::new(alloc);
    for (number, declared) in app.objects().iter().enumerate() {
        if declared.live && is_lasting(app, notes, ObjId(number)) {
            live.push(ObjId(number))?;
        }
    }
    Ok(live)
}

/// Whether an actor at this spot is inside a call at the end of a buffer, and its note doesn't say that it is never there.
pub(super) fn is_inside(spot: &Spot, end: EndName) -> bool {
    !spot.note.alternatives().is_empty() && is_inside_end(spot.app, spot.point, end)
}

/// The first point of another actor that can be inside a call at the end of the buffer.
pub(super) fn rival_of<'a>(
    app: &'a App,
    certificate: &'a Certificate,
    actor: ActorId,
    end: EndName,
) -> Option<Spot<'a>>
    requires { CertificateFits app.now certificate.now }
{
    for number in 0..app.points() {
        if let Some(spot) = spot_of(app, certificate, app.point(number)) {
            if spot.point.actor.0 != actor.0 && is_inside(&spot, end) {
                return Some(spot);
            }
        }
    }
    None
}
