// Which lines a person would change: where else a guard is missing and could be got, which lines delete an object, and which `set` is
// out of its range before it spoils a note.
ghost use Rattle.fr_ends.specs.Fits.{CertificateFits};

use super::add_item;
use super::notes::{deletes, is_inside};
use super::scene::Scene;
use fr_calls::Rule;
use fr_ends::{Certificate, EndName, Guard, note_says};
use fr_judge::{Part, Verdict};
use fr_program::{Act, Attempt, Call, Instr, Point, Side};
use fr_witness::{Witness, spot_of, witness};
use fr_wording::{Explained, Named};
use std::alloc::AllocError;
use std::mem::drop;

/// The most points that are listed.
const MOST_LISTED: u64 = 20;

/// Whether the line gives its actor the guard, or tests it.
fn gives(instr: &Instr, guard: &Guard) -> bool {
    match (guard, instr) {
        (Guard::Mutex(mutex), Instr::Call(Call::On(call))) => {
            call.object.0 == mutex.0
                && matches!(
                    call.act,
                    Act::Try {
                        attempt: Attempt::Take(_),
                        ..
                    }
                )
        }
        (Guard::Critical, Instr::Call(Call::EnterCritical(_))) => true,
        (Guard::Turn(variable, _), Instr::If { left, right, .. }) => {
            left.variable() == Some(*variable) || right.variable() == Some(*variable)
        }
        _ => false,
    }
}

/// The last line before this one that gives the guard, else the first one after it.
fn line_for(code: &[Instr], guard: &Guard, pc: usize) -> Option<usize> {
    let mut found = None;
    for (at, instr) in code.iter().enumerate() {
        if (at < pc || found.is_none()) && gives(instr, guard) {
            found = Some(at);
        }
    }
    found
}

/// Adds a line that a person would change.
fn add_named(
    items: &mut Vec<Explained>,
    scene: &Scene,
    as_what: Named,
    point: Point,
) -> Result<(), AllocError> {
    let at = scene.standing_at(point)?;
    add_item(items, Explained::Named { as_what, at })
}

/// Adds the line at which the actor of a point could have got the guard: one that gives it, or the point's own where it has
/// none. Nothing where the guard is one actor's alone.
pub(super) fn add_way(
    items: &mut Vec<Explained>,
    scene: &Scene,
    guard: &Guard,
    point: Point,
) -> Result<(), AllocError> {
    let (actor, side) = (point.actor, Side::Before);
    let Some(owner) = scene.app.actors().get(actor.0) else {
        return Ok(());
    };
    if matches!(guard, Guard::Sole(_)) {
        return Ok(());
    }
    let (as_what, pc) = match line_for(&owner.code, guard, point.pc) {
        Some(pc) => (Named::GetsAt, pc),
        None => (Named::GetsAhead, point.pc),
    };
    add_named(items, scene, as_what, Point { actor, pc, side })
}

/// The point with this number, if it is another one inside the end whose note doesn't say that its actor has the guard.
fn lacker_at(
    scene: &Scene,
    certificate: &Certificate,
    point: Point,
    end: EndName,
    guard: &Guard,
) -> Option<Point>
    requires { CertificateFits scene.now.app.now certificate.now }
{
    let spot = spot_of(scene.app, certificate, point)?;
    let is_other = is_inside(&spot, end) && point != scene.spot.point;
    if is_other && !note_says(spot.note, point.actor, guard) {
        Some(point)
    } else {
        None
    }
}

/// Adds each other point inside the end whose note doesn't say that its actor has the guard, with the line at which it could
/// have got it.
pub(super) fn add_lackers(
    items: &mut Vec<Explained>,
    scene: &Scene,
    certificate: &Certificate,
    end: EndName,
    guard: &Guard,
) -> Result<(), AllocError>
    requires { CertificateFits scene.now.app.now certificate.now }
{
    let (app, mut listed) = (scene.app, 0u64);
    for number in 0..app.points() {
        if let Some(point) = lacker_at(scene, certificate, app.point(number), end, guard) {
            listed = listed.saturating_add(1);
            if listed <= MOST_LISTED {
                add_named(items, scene, Named::Lacks, point)?;
                add_way(items, scene, guard, point)?;
            }
        }
    }
    if listed > MOST_LISTED {
        return add_item(items, Explained::More(listed - MOST_LISTED));
    }
    Ok(())
}

/// Adds each line that deletes the object of the call at the scene's point, as far as its actor can be there.
pub(super) fn add_deleters(
    items: &mut Vec<Explained>,
    scene: &Scene,
    certificate: &Certificate,
) -> Result<(), AllocError>
    requires { CertificateFits scene.now.app.now certificate.now }
{
    let Some(object) = scene.spot.instr.object() else {
        return Ok(());
    };
    for number in 0..scene.app.points() {
        if let Some(spot) = spot_of(scene.app, certificate, scene.app.point(number))
            && deletes(spot.instr, object)
            && !spot.note.alternatives().is_empty()
        {
            add_named(items, scene, Named::Deletes, spot.point)?;
        }
    }
    Ok(())
}

/// Whether the `set` at this point is out of its range itself.
fn is_out_of_range(
    scene: &Scene,
    certificate: &Certificate,
    point: Point,
) -> Result<bool, AllocError>
    requires { CertificateFits scene.now.app.now certificate.now }
{
    let part = Part::Rule(Rule::InRange);
    let found = witness(
        scene.alloc,
        scene.app,
        certificate,
        Verdict::No { point, part },
    )?;
    let is_out = matches!(found, Some(Witness::Breaks(_)));
    drop(found);
    Ok(is_out)
}

/// Adds that the `set` at this point is out of its range itself, if it is.
pub(super) fn add_set(
    items: &mut Vec<Explained>,
    scene: &Scene,
    certificate: &Certificate,
    point: Point,
) -> Result<(), AllocError>
    requires { CertificateFits scene.now.app.now certificate.now }
{
    if is_out_of_range(scene, certificate, point)? {
        add_named(items, scene, Named::OutOfRange, point)
    } else {
        Ok(())
    }
}
