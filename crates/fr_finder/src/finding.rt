// Finding a certificate.
ghost use Rattle.std.specs.Prelude.{◌↔◌, IfOk, IfSome, IsErrOf};
ghost use Rattle.std.specs.Bool.{OnTrue, OnFalse};
ghost use Rattle.fr_notes.specs.Fits.{NotesFit};
ghost use Rattle.fr_ends.specs.Fits.{CertificateFits};
ghost use Rattle.fr_finder.specs.Found.{IsNoRounds};
ghost use Rattle.fr_finder.specs.declared.fault.FindFault.TheVariants.{Rounds};

use crate::arrivals::points_before;
use crate::fault::FindFault;
use crate::guards::ends;
use crate::rounds::next_round;
use crate::start::start;
use fr_ends::Certificate;
use fr_notes::{Alternative, Note, Notes};
use fr_program::App;
use std::alloc::{AllocError, Global};
use std::thread::Threads;

/// The most rounds that can be asked for.
const MOST_ROUNDS: usize = 64;

/// Whether so many rounds can be asked for: 1 to 64.
pub fn is_rounds(rounds: usize) -> bool
    ensures yes { OnTrue result (IsNoRounds rounds → ⊥) }
    ensures no { OnFalse result (IsNoRounds rounds) }
{
    1 <= rounds && rounds <= MOST_ROUNDS
}

/// Whether the two say the same.
fn is_same_alternative(one: &Alternative, other: &Alternative) -> bool {
    one.critical() == other.critical()
        && one.suspended() == other.suspended()
        && one.claims() == other.claims()
        && one.ranges() == other.ranges()
}

/// Whether the two have the same alternatives, in the same order.
fn is_same_note(one: &Note, other: &Note) -> bool {
    let (one, other) = (one.alternatives(), other.alternatives());
    one.len() == other.len()
        && one
            .iter()
            .zip(other)
            .all(|(one, other)| is_same_alternative(one, other))
}

/// Whether both rounds have the same note for each point.
fn is_same(app: &App, one: &Notes, other: &Notes) -> bool {
    for number in 0..app.points() {
        match (one.get(number), other.get(number)) {
            (Some(one), Some(other)) => {
                if !is_same_note(one, other) {
                    return false;
                }
            }
            (_, _) => return false,
        }
    }
    true
}

/// The first round that is the same as the one before it, if one of so many is.
fn stable_round<R: Threads + Sync>(
    rt: &R,
    alloc: Global,
    app: &App,
    rounds: usize,
) -> Result<Option<Notes>, AllocError>
    ensures { IfOk result (λ found. IfSome found (λ notes. NotesFit app.now notes)) }
{
    let arrivals = points_before(alloc, app)?;
    let mut notes = start(alloc, app)?;
    for round in 0..rounds {
        let next = next_round(rt, alloc, app, &arrivals, &notes, round)?;
        if is_same(app, &next, &notes) {
            return Ok(Some(next));
        }
        notes = next;
    }
    Ok(None)
}

/// The certificate that is guessed for an application in at most so many rounds. Whether it passes is
/// for the judge to say.
///
/// Each round has a note for each point: what all steps leave that lead there by the round before,
/// and what the steps of other actors leave of that round's note. The guess is the first round that
/// is the same as the one before it. Each end of a buffer gets the first guard that all notes inside
/// it imply: one actor alone, a mutex, the critical section, a turn. Where they imply none it gets the
/// first actor that can be inside it; an end that nobody can be inside gets none. The rounds are computed by
/// several threads, and the answer doesn't depend on them. It is this project's own method.
///
/// # Errors
///
/// `Rounds` exactly where `rounds` isn't 1 to 64. `NotStable` where no round in that number is the
/// same as the one before it. `Memory` where an allocation was refused.
pub fn find<R: Threads + Sync>(
    rt: &R,
    alloc: Global,
    app: &App,
    rounds: usize,
) -> Result<Certificate, FindFault>
    ensures fits { IfOk result (λ certificate. CertificateFits app.now certificate) }
    ensures rounds { IsErrOf result Rounds ↔ IsNoRounds rounds }
{
    if !is_rounds(rounds) {
        return Err(FindFault::Rounds);
    }
    let Some(notes) = stable_round(rt, alloc, app, rounds)? else {
        return Err(FindFault::NotStable);
    };
    let ends = ends(alloc, app, &notes)?;
    Ok(Certificate { notes, ends })
}
