// Rounds: each point's next note from the whole round before.
ghost use Rattle.std.specs.Prelude.{◌≡◌, ◌<◌, Some, All, IfOk, length};
ghost use Rattle.fr_program.specs.Points.{points_of};
ghost use Rattle.fr_notes.specs.Fits.{AlternativeFits, NoteFits, NotesFit};
ghost use Rattle.fr_notes.specs.Known.{IsPossible, KnownFits};
ghost use Rattle.fr_finder.specs.Spots.{IsPlaced, IsSpot};

use crate::arrivals::{rows, target};
use crate::effect::{Effect, Reach, effects};
use crate::landing::{left_to_mover, left_to_other};
use crate::merging::{Growth, merge};
use crate::spot::spot_at;
use fr_notes::{Alternative, Change, Known, Note, Notes, Spot, can_meet, change_by, keeps, spares};
use fr_program::App;
use fr_rules::Way;
use rayon::prelude::*;
use std::alloc::{AllocError, Global};
use std::thread::Threads;

/// In so many rounds ranges grow as little as they have to. Then an end that has to grow becomes the
/// declared one at once.
const EXACT_ROUNDS: usize = 8;

/// How few points are worth a thread of their own.
const LEAST_PIECE: usize = 8;

/// The round before, and what its steps can change of other actors' notes.
#[derive(Clone, Copy)]
struct Before<'a> {
    app: &'a App,
    notes: &'a Notes,
    /// For each point the points that lead to it.
    arrivals: &'a [Vec<usize>],
    effects: &'a [Effect],
    growth: Growth,
}

/// Whether some alternative holds of the mover after each step that makes this change.
fn is_kept(known: &Known, change: &Change, note: &[Alternative]) -> bool
    requires { IsPossible known.now }
{
    for alternative in note {
        if keeps(known, change, alternative) {
            return true;
        }
    }
    false
}

/// Whether some alternative holds of the other actor after each step that makes this change.
fn is_spared(known: &Known, other: &Alternative, change: &Change, note: &[Alternative]) -> bool
    requires possible { IsPossible known.now }
    requires other { known.now.other ≡ Some other.now }
{
    for alternative in note {
        if spares(known, other, change, alternative) {
            return true;
        }
    }
    false
}

/// Merges what a step by this row leaves of the mover.
fn land(
    alloc: Global,
    before: Before,
    source: &Spot,
    alternative: &Alternative,
    way: Way,
    note: &mut Vec<Alternative>,
) -> Result<(), AllocError>
    requires placed { IsPlaced before.app.now source.now.point source.now.instr.now }
    requires fits { AlternativeFits before.app.now alternative.now }
    requires note { NoteFits before.app.now note.old.items }
    ensures { NoteFits before.entry.app.now note.new.items }
{
    let known = Known::alone(alternative);
    let Some(change) = change_by(before.app, &known, source.point, source.instr, way) else {
        return Ok(());
    };
    if is_kept(&known, &change, note) {
        return Ok(());
    }
    match left_to_mover(alloc, before.app, &known, &change, None)? {
        Some(landing) => merge(alloc, before.app, note, landing, before.growth),
        None => Ok(()),
    }
}

/// Merges what steps by this row leave, if they lead to the point with this number.
fn land_at(
    alloc: Global,
    before: Before,
    source: &Spot,
    alternative: &Alternative,
    way: Way,
    number: usize,
    note: &mut Vec<Alternative>,
) -> Result<(), AllocError>
    requires placed { IsPlaced before.app.now source.now.point source.now.instr.now }
    requires fits { AlternativeFits before.app.now alternative.now }
    requires note { NoteFits before.app.now note.old.items }
    ensures { NoteFits before.entry.app.now note.new.items }
{
    if target(before.app, source.point, source.instr, way) == Some(number) {
        land(alloc, before, source, alternative, way, note)
    } else {
        Ok(())
    }
}

/// Merges what the steps from one point of the actor leave.
fn arrive_from(
    alloc: Global,
    before: Before,
    source: &Spot,
    number: usize,
    note: &mut Vec<Alternative>,
) -> Result<(), AllocError>
    requires spot { IsSpot before.app.now source.now.point source.now.instr.now source.now.note.now }
    requires note { NoteFits before.app.now note.old.items }
    ensures { NoteFits before.entry.app.now note.new.items }
{
    let [first, second] = rows(source.instr);
    for alternative in source.note.alternatives() {
        land_at(alloc, before, source, alternative, first, number, note)?;
        land_at(alloc, before, source, alternative, second, number, note)?;
    }
    Ok(())
}

/// Merges what the actor's own steps to the point leave.
fn arrive(
    alloc: Global,
    before: Before,
    number: usize,
    note: &mut Vec<Alternative>,
) -> Result<(), AllocError>
    requires fit { NotesFit before.app.now before.notes.now }
    requires note { NoteFits before.app.now note.old.items }
    ensures { NoteFits before.entry.app.now note.new.items }
{
    let Some(sources) = before.arrivals.get(number) else {
        return Ok(());
    };
    for source in sources {
        if let Some(source) = spot_at(before.app, before.notes, *source) {
            arrive_from(alloc, before, &source, number, note)?;
        }
    }
    Ok(())
}

/// Merges what a step of another actor by this row leaves.
fn spread(
    alloc: Global,
    before: Before,
    mover: &Spot,
    known: &Known,
    other: &Alternative,
    way: Way,
    note: &mut Vec<Alternative>,
) -> Result<(), AllocError>
    requires placed { IsPlaced before.app.now mover.now.point mover.now.instr.now }
    requires fits { KnownFits before.app.now known.now }
    requires other { known.now.other ≡ Some other.now }
    requires note { NoteFits before.app.now note.old.items }
    ensures { NoteFits before.entry.app.now note.new.items }
{
    let Some(change) = change_by(before.app, known, mover.point, mover.instr, way) else {
        return Ok(());
    };
    if is_spared(known, other, &change, note) {
        return Ok(());
    }
    match left_to_other(alloc, before.app, known, other, &change, None)? {
        Some(landing) => merge(alloc, before.app, note, landing, before.growth),
        None => Ok(()),
    }
}

/// Merges what the steps of another actor leave where both alternatives hold.
fn spread_beside(
    alloc: Global,
    before: Before,
    mover: &Spot,
    alternative: &Alternative,
    other: &Alternative,
    note: &mut Vec<Alternative>,
) -> Result<(), AllocError>
    requires placed { IsPlaced before.app.now mover.now.point mover.now.instr.now }
    requires alternative { AlternativeFits before.app.now alternative.now }
    requires other { AlternativeFits before.app.now other.now }
    requires note { NoteFits before.app.now note.old.items }
    ensures { NoteFits before.entry.app.now note.new.items }
{
    if !can_meet(alternative, other) {
        return Ok(());
    }
    let known = Known::beside(alternative, other);
    let [first, second] = rows(mover.instr);
    spread(alloc, before, mover, &known, other, first, note)?;
    spread(alloc, before, mover, &known, other, second, note)
}

/// Merges what the steps from another actor's point leave, where one alternative of its note holds.
fn spread_to_each(
    alloc: Global,
    before: Before,
    mover: &Spot,
    alternative: &Alternative,
    old: &Note,
    note: &mut Vec<Alternative>,
) -> Result<(), AllocError>
    requires placed { IsPlaced before.app.now mover.now.point mover.now.instr.now }
    requires alternative { AlternativeFits before.app.now alternative.now }
    requires old { NoteFits before.app.now old.now }
    requires note { NoteFits before.app.now note.old.items }
    ensures { NoteFits before.entry.app.now note.new.items }
{
    for other in old.alternatives() {
        spread_beside(alloc, before, mover, alternative, other, note)?;
    }
    Ok(())
}

/// The same, for one effect.
fn spread_effect(
    alloc: Global,
    before: Before,
    effect: &Effect,
    old: &Note,
    note: &mut Vec<Alternative>,
) -> Result<(), AllocError>
    requires fit { NotesFit before.app.now before.notes.now }
    requires old { NoteFits before.app.now old.now }
    requires note { NoteFits before.app.now note.old.items }
    ensures { NoteFits before.entry.app.now note.new.items }
{
    let Some(mover) = spot_at(before.app, before.notes, effect.number) else {
        return Ok(());
    };
    match mover.note.alternatives().get(effect.place) {
        Some(alternative) => spread_to_each(alloc, before, &mover, alternative, old, note),
        None => Ok(()),
    }
}

/// Whether each alternative of the note allows what the effect changes.
fn is_allowed(effect: &Effect, note: &Note) -> bool {
    match effect.reach {
        Reach::Nothing => true,
        Reach::Objects => note.alternatives().is_empty(),
        Reach::Writes(variable, range) => note
            .alternatives()
            .iter()
            .all(|alternative| range.within(alternative.range(variable))),
    }
}

/// Merges what the steps of actors leave whose numbers are from `first` up to, without it, `end`.
fn spread_all(
    alloc: Global,
    before: Before,
    first: usize,
    end: usize,
    old: &Note,
    note: &mut Vec<Alternative>,
) -> Result<(), AllocError>
    requires fit { NotesFit before.app.now before.notes.now }
    requires old { NoteFits before.app.now old.now }
    requires note { NoteFits before.app.now note.old.items }
    ensures { NoteFits before.entry.app.now note.new.items }
{
    for effect in before.effects {
        let actor = effect.actor.0;
        if first <= actor && actor < end && !is_allowed(effect, old) {
            spread_effect(alloc, before, effect, old, note)?;
        }
    }
    Ok(())
}

/// The note's alternatives once more.
fn copied_all(alloc: Global, note: &Note) -> Result<Vec<Alternative>, AllocError>
    ensures { IfOk result (λ copy. copy.items ≡ note.now) }
{
    let mut copy = Vec::new(alloc);
    for alternative in note.alternatives() {
        copy.push(alternative.copied(alloc)?)?;
    }
    Ok(copy)
}

/// The next note of a point.
fn next_note(alloc: Global, before: Before, number: usize) -> Result<Note, AllocError>
    requires number { number < length (points_of before.app.now) }
    requires fit { NotesFit before.app.now before.notes.now }
    ensures { IfOk result (λ note. NoteFits before.entry.app.now note) }
{
    let actor = before.app.point(number).actor.0;
    let old = before.notes.at(before.app, number);
    let mut note = copied_all(alloc, old)?;
    spread_all(alloc, before, 0, actor, old, &mut note)?;
    arrive(alloc, before, number, &mut note)?;
    spread_all(
        alloc,
        before,
        actor.saturating_add(1),
        usize::MAX,
        old,
        &mut note,
    )?;
    Ok(Note::of(note))
}

/// The next notes of all points, each by itself.
fn next_notes<R: Threads + Sync>(
    rt: &R,
    alloc: Global,
    before: Before,
) -> Result<Vec<Note>, AllocError>
    requires { NotesFit before.app.now before.notes.now }
    ensures points { IfOk result (λ notes. length notes.items ≡ length (points_of before.entry.app.now)) }
    ensures fit { IfOk result (λ notes. All (λ note. NoteFits before.entry.app.now note) notes.items) }
{
    let notes: Result<Vec<Note>, AllocError> = (0..before.app.points())
        .into_par_iter()
        .with_min_len(LEAST_PIECE)
        .map(
            |number: usize| -> Result<Note, AllocError>
                requires number { number < length (points_of before.app.now) }
                requires fit { NotesFit before.app.now before.notes.now }
                ensures { IfOk result (λ note. NoteFits before.entry.app.now note) }
            { next_note(alloc, before, number) },
        )
        .collect(rt, alloc)?;
    notes
}

/// The round after so many, which comes from the whole round before.
pub fn next_round<R: Threads + Sync>(
    rt: &R,
    alloc: Global,
    app: &App,
    arrivals: &[Vec<usize>],
    notes: &Notes,
    rounds: usize,
) -> Result<Notes, AllocError>
    requires { NotesFit app.now notes.now }
    ensures { IfOk result (λ notes. NotesFit app.now notes) }
{
    let effects = effects(alloc, app, notes)?;
    let growth = if rounds < EXACT_ROUNDS {
        Growth::Exact
    } else {
        Growth::Whole
    };
    let before = Before {
        app,
        notes,
        arrivals,
        effects: &effects,
        growth,
    };
    let next = next_notes(rt, alloc, before)?;
    match Notes::build(alloc, app, next) {
        Ok(notes) => Ok(notes),
        Err(_) => unreachable!(),
    }
}
