// The guards of the ends of buffers, from the notes.
ghost use Rattle.std.specs.Prelude.{◌<◌, IfOk, IfSome, length, map};
ghost use Rattle.fr_notes.specs.Fits.{NotesFit};
ghost use Rattle.fr_ends.specs.Fits.{EndFits, EndsFit};
ghost use Rattle.fr_ends.specs.View.{end_of};

use crate::spot::spot_at;
use fr_ends::{EndGuard, EndName, Ends, Guard, is_inside_end, is_listed, note_says};
use fr_notes::{Alternative, Note, Notes, Spot};
use fr_program::{ActorId, App, End, ObjId, VarId};
use std::alloc::{AllocError, Global};
use std::collections::BTreeMap;

/// An actor that can be inside an end of a buffer, with its note there.
#[derive(Clone, Copy)]
struct Insider<'a> {
    actor: ActorId,
    note: &'a Note,
}

/// Whether some actor can be at the point, inside this end.
fn is_inside(spot: &Spot, end: EndName) -> bool {
    !spot.note.alternatives().is_empty() && is_inside_end(spot.app, spot.point, end)
}

/// All actors that can be inside this end, with their notes there.
fn insiders<'a>(
    alloc: Global,
    app: &'a App,
    notes: &'a Notes,
    end: EndName,
) -> Result<Vec<Insider<'a>>, AllocError>
    requires { NotesFit app.now notes.now }
{
    let mut insiders = Vec::new(alloc);
    for number in 0..app.points() {
        if let Some(spot) = spot_at(app, notes, number) {
            if is_inside(&spot, end) {
                insiders.push(Insider {
                    actor: spot.point.actor,
                    note: spot.note,
                })?;
            }
        }
    }
    Ok(insiders)
}

/// The end's guard, if it fits the application.
fn fitting(app: &App, end: EndName, guard: Guard) -> Option<EndGuard>
    ensures { IfSome result (λ g. EndFits app.now (end_of g)) }
{
    let guard = EndGuard { end, guard };
    if guard.fits(app) { Some(guard) } else { None }
}

/// Whether the note of each of them says that the guard holds of its actor.
fn all_have(insiders: &[Insider], guard: &Guard) -> bool {
    insiders
        .iter()
        .all(|insider| note_says(insider.note, insider.actor, guard))
}

/// The mutex with the least number that each of them holds.
fn common_mutex(app: &App, insiders: &[Insider]) -> Option<Guard> {
    for mutex in 0..app.objects().len() {
        let guard = Guard::Mutex(ObjId(mutex));
        if all_have(insiders, &guard) {
            return Some(guard);
        }
    }
    None
}

/// The one number that the variable can have, by an alternative.
fn number_in(alternative: &Alternative, variable: usize) -> Option<i64> {
    let range = alternative.range(VarId(variable));
    if range.lo != range.hi {
        return None;
    }
    match i64::try_from(range.lo) {
        Ok(number) => Some(number),
        Err(_) => None,
    }
}

/// The one number that the variable can have, by a note.
fn only_number(note: &Note, variable: usize) -> Option<i64> {
    let number = number_in(note.alternatives().first()?, variable)?;
    if note.alternatives().iter().all(|alternative| number_in(alternative, variable)
        == Some(number))
    {
        Some(number)
    } else {
        None
    }
}

/// Adds an actor's value; whether it has no other one.
fn add_value(
    values: &mut BTreeMap<ActorId, i64>,
    actor: ActorId,
    value: i64,
) -> Result<bool, AllocError> {
    match values.get(&actor) {
        Some(earlier) => Ok(*earlier == value),
        None => {
            values.insert(actor, value)?;
            Ok(true)
        }
    }
}

/// The variable's one value for each of them.
fn turn_values(
    alloc: Global,
    insiders: &[Insider],
    variable: usize,
) -> Result<Option<BTreeMap<ActorId, i64>>, AllocError> {
    let mut values = BTreeMap::new(alloc);
    for insider in insiders {
        let Some(value) = only_number(insider.note, variable) else {
            return Ok(None);
        };
        if !add_value(&mut values, insider.actor, value)? {
            return Ok(None);
        }
    }
    Ok(Some(values))
}

/// The turn of the variable with the least number that has one value for each of them, another one
/// for each actor.
fn common_turn(
    alloc: Global,
    app: &App,
    insiders: &[Insider],
    end: EndName,
) -> Result<Option<EndGuard>, AllocError>
    ensures { IfOk result (λ found. IfSome found (λ g. EndFits app.now (end_of g))) }
{
    for variable in 0..app.variables().len() {
        if let Some(values) = turn_values(alloc, insiders, variable)? {
            if let Some(guard) = fitting(app, end, Guard::Turn(VarId(variable), values)) {
                return Ok(Some(guard));
            }
        }
    }
    Ok(None)
}

/// Adds the number that the note of one of them says the variable has, unless its actor has another one, or another
/// actor has this one.
fn add_turn(
    values: &mut BTreeMap<ActorId, i64>,
    insider: &Insider,
    variable: usize,
) -> Result<(), AllocError> {
    if let Some(value) = only_number(insider.note, variable) {
        let is_taken = values.values().any(|other| *other == value);
        if !is_taken && !values.contains_key(&insider.actor) {
            values.insert(insider.actor, value)?;
        }
    }
    Ok(())
}

/// The turn of the variable for those whose notes say which number it has.
fn turn_of_some(alloc: Global, insiders: &[Insider], variable: usize) -> Result<Guard, AllocError> {
    let mut values = BTreeMap::new(alloc);
    for insider in insiders {
        add_turn(&mut values, insider, variable)?;
    }
    Ok(Guard::Turn(VarId(variable), values))
}

/// The guards that some of them can have: each mutex, the critical section, each actor alone, each variable's turn.
fn guards_of_some(
    alloc: Global,
    app: &App,
    insiders: &[Insider],
) -> Result<Vec<Guard>, AllocError> {
    let mut guards = Vec::new(alloc);
    for object in 0..app.objects().len() {
        guards.push(Guard::Mutex(ObjId(object)))?;
    }
    guards.push(Guard::Critical)?;
    for actor in 0..app.actors().len() {
        guards.push(Guard::Sole(ActorId(actor)))?;
    }
    for variable in 0..app.variables().len() {
        guards.push(turn_of_some(alloc, insiders, variable)?)?;
    }
    Ok(guards)
}

/// For how many of them the note says that the guard holds of the actor.
fn count_with(insiders: &[Insider], guard: &Guard) -> usize {
    insiders
        .iter()
        .filter(|insider| note_says(insider.note, insider.actor, guard))
        .count()
}

/// The guard that fits and that most of them have, the first of several.
fn guard_of_most(
    alloc: Global,
    app: &App,
    insiders: &[Insider],
    end: EndName,
) -> Result<Option<EndGuard>, AllocError>
    ensures { IfOk result (λ found. IfSome found (λ g. EndFits app.now (end_of g))) }
{
    let (mut best, mut most) = (Guard::Critical, 0);
    for guard in guards_of_some(alloc, app, insiders)? {
        let count = count_with(insiders, &guard);
        let guard = EndGuard { end, guard };
        if count > most && guard.fits(app) {
            (best, most) = (guard.guard, count);
        }
    }
    Ok(fitting(app, end, best))
}

/// The guard of an end that the notes inside it imply: one actor alone, a mutex, the critical section
/// or a turn, and where they imply none, the first actor alone, or what most of them imply, as it is
/// wanted. None where nobody can be inside.
fn guard_at(
    alloc: Global,
    app: &App,
    notes: &Notes,
    wanted: Wanted,
    end: EndName,
) -> Result<Option<EndGuard>, AllocError>
    requires { NotesFit app.now notes.now }
    ensures { IfOk result (λ found. IfSome found (λ g. EndFits app.now (end_of g))) }
{
    let insiders = insiders(alloc, app, notes, end)?;
    let Some(first) = insiders.first() else {
        return Ok(None);
    };
    let sole = Guard::Sole(first.actor);
    if all_have(&insiders, &sole) {
        return Ok(fitting(app, end, sole));
    }
    if let Some(mutex) = common_mutex(app, &insiders) {
        return Ok(fitting(app, end, mutex));
    }
    if all_have(&insiders, &Guard::Critical) {
        return Ok(fitting(app, end, Guard::Critical));
    }
    if let Some(turn) = common_turn(alloc, app, &insiders, end)? {
        return Ok(Some(turn));
    }
    match wanted {
        Wanted::OfMost => guard_of_most(alloc, app, &insiders, end),
        Wanted::Reached | Wanted::Called => Ok(fitting(app, end, sole)),
    }
}

/// Which ends get a guard, and which one where the notes inside an end imply none.
#[derive(Clone, Copy, PartialEq, Eq)]
enum Wanted {
    /// Those inside which somebody can be: the first actor alone.
    Reached,
    /// Those at which some line has a call: the first actor alone.
    Called,
    /// Those at which some line has a call: the guard that most of the notes imply.
    OfMost,
}

/// The actor whose call at this end has the least number, whether or not it is reached, as the end's
/// guard.
fn first_caller(app: &App, notes: &Notes, end: EndName) -> Option<EndGuard>
    requires { NotesFit app.now notes.now }
    ensures { IfSome result (λ g. EndFits app.now (end_of g)) }
{
    for number in 0..app.points() {
        if let Some(spot) = spot_at(app, notes, number) {
            if is_inside_end(app, spot.point, end) {
                return fitting(app, end, Guard::Sole(spot.point.actor));
            }
        }
    }
    None
}

/// Adds a guard, unless the end has one.
fn add(app: &App, ends: &mut Vec<EndGuard>, guard: EndGuard) -> Result<(), AllocError>
    requires ends { EndsFit app.now (map end_of ends.old.items) }
    requires guard { EndFits app.now (end_of guard) }
    ensures { EndsFit app.now (map end_of ends.new.items) }
{
    let _ = app;
    if !is_listed(ends, guard.end) {
        ends.push(guard)?;
    }
    Ok(())
}

/// Adds the guard of an end, where one is wanted.
fn add_end(
    alloc: Global,
    app: &App,
    notes: &Notes,
    wanted: Wanted,
    end: EndName,
    ends: &mut Vec<EndGuard>,
) -> Result<(), AllocError>
    requires notes { NotesFit app.now notes.now }
    requires ends { EndsFit app.now (map end_of ends.old.items) }
    ensures { EndsFit app.now (map end_of ends.new.items) }
{
    let guard = match (guard_at(alloc, app, notes, wanted, end)?, wanted) {
        (None, Wanted::Called | Wanted::OfMost) => first_caller(app, notes, end),
        (guard, _) => guard,
    };
    match guard {
        Some(guard) => add(app, ends, guard),
        None => Ok(()),
    }
}

/// Adds the guards of both ends of a buffer, the writer's first.
fn add_both(
    alloc: Global,
    app: &App,
    notes: &Notes,
    wanted: Wanted,
    buffer: ObjId,
    ends: &mut Vec<EndGuard>,
) -> Result<(), AllocError>
    requires notes { NotesFit app.now notes.now }
    requires ends { EndsFit app.now (map end_of ends.old.items) }
    ensures { EndsFit app.now (map end_of ends.new.items) }
{
    let writer = EndName {
        buffer,
        end: End::Writer,
    };
    let reader = EndName {
        buffer,
        end: End::Reader,
    };
    add_end(alloc, app, notes, wanted, writer, ends)?;
    add_end(alloc, app, notes, wanted, reader, ends)
}

/// The guards of all ends that are wanted.
fn ends_wanted(alloc: Global, app: &App, notes: &Notes, wanted: Wanted) -> Result<Ends, AllocError>
    requires { NotesFit app.now notes.now }
    ensures { IfOk result (λ ends. EndsFit app.now ends) }
{
    let mut ends = Vec::new(alloc);
    for buffer in 0..app.objects().len() {
        add_both(alloc, app, notes, wanted, ObjId(buffer), &mut ends)?;
    }
    match Ends::build(alloc, app, ends) {
        Ok(ends) => Ok(ends),
        Err(_) => unreachable!(),
    }
}

/// The guards of all ends of buffers inside which somebody can be.
pub fn ends(alloc: Global, app: &App, notes: &Notes) -> Result<Ends, AllocError>
    requires { NotesFit app.now notes.now }
    ensures { IfOk result (λ ends. EndsFit app.now ends) }
{
    ends_wanted(alloc, app, notes, Wanted::Reached)
}

/// The guards of all ends of buffers inside which somebody can be; and for each other end at which some line has a call, the
/// first actor with such a call.
pub fn all_ends(alloc: Global, app: &App, notes: &Notes) -> Result<Ends, AllocError>
    requires { NotesFit app.now notes.now }
    ensures { IfOk result (λ ends. EndsFit app.now ends) }
{
    ends_wanted(alloc, app, notes, Wanted::Called)
}

/// The guards of all ends of buffers inside which somebody can be. Where the notes inside an end don't all imply one guard, it gets
/// the guard that most of them imply, so that it fails only at the points that lack it.
pub fn ends_of_most(alloc: Global, app: &App, notes: &Notes) -> Result<Ends, AllocError>
    requires { NotesFit app.now notes.now }
    ensures { IfOk result (λ ends. EndsFit app.now ends) }
{
    ends_wanted(alloc, app, notes, Wanted::OfMost)
}
