// What steps can change of other actors' notes.
ghost use Rattle.fr_notes.specs.Fits.{AlternativeFits, NotesFit};
ghost use Rattle.fr_finder.specs.Spots.{IsPlaced, IsSpot};

use crate::spot::spot_at;
use fr_notes::{Alternative, Change, Known, Notes, Spot, change_by};
use fr_program::{ActorId, App, Instr, Point, Range, VarId};
use fr_rules::Way;
use std::alloc::{AllocError, Global};

/// What a step from a point can change of other actors' notes, where one alternative of its own note
/// holds.
#[derive(Clone, Copy)]
pub struct Effect {
    /// The point's actor and number.
    pub actor: ActorId,
    pub number: usize,
    /// The alternative's place in the point's note.
    pub place: usize,
    pub reach: Reach,
}

/// What a step changes.
#[derive(Clone, Copy)]
pub enum Reach {
    /// Nothing that another note says.
    Nothing,
    /// The variable gets a number of this range.
    Writes(VarId, Range),
    /// An object is created or deleted.
    Objects,
}

/// What either of two rows changes.
fn either(one: Reach, other: Reach) -> Reach {
    match (one, other) {
        (Reach::Nothing, reach) | (reach, Reach::Nothing) => reach,
        (Reach::Writes(variable, range), Reach::Writes(_, other)) => {
            Reach::Writes(variable, range.hull(other))
        }
        (_, _) => Reach::Objects,
    }
}

/// What a change changes of other notes, as far as it lies in the declared range.
fn reach_of(app: &App, change: &Change) -> Reach {
    match (change.first, change.claim) {
        (Some((variable, range)), _) => {
            if variable.0 >= app.variables().len() {
                return Reach::Nothing;
            }
            match range.meet(app.range(variable)) {
                Some(range) => Reach::Writes(variable, range),
                None => Reach::Nothing,
            }
        }
        (None, Some(_)) => Reach::Objects,
        (None, None) => Reach::Nothing,
    }
}

/// What a step by this row changes of other notes.
fn reach_by(app: &App, alternative: &Alternative, point: Point, instr: &Instr, way: Way) -> Reach
    requires placed { IsPlaced app.now point instr.now }
    requires fits { AlternativeFits app.now alternative.now }
{
    match change_by(app, &Known::alone(alternative), point, instr, way) {
        Some(change) => reach_of(app, &change),
        None => Reach::Nothing,
    }
}

/// What a step from the point changes of other notes, where the alternative holds.
fn reach_from(app: &App, alternative: &Alternative, point: Point, instr: &Instr) -> Reach
    requires placed { IsPlaced app.now point instr.now }
    requires fits { AlternativeFits app.now alternative.now }
{
    either(
        reach_by(app, alternative, point, instr, Way::Then),
        reach_by(app, alternative, point, instr, Way::Else),
    )
}

/// Adds what the point's steps change, by each alternative of its note.
fn add_effects(
    app: &App,
    number: usize,
    spot: &Spot,
    effects: &mut Vec<Effect>,
) -> Result<(), AllocError>
    requires { IsSpot app.now spot.now.point spot.now.instr.now spot.now.note.now }
{
    for (place, alternative) in spot.note.alternatives().iter().enumerate() {
        let reach = reach_from(app, alternative, spot.point, spot.instr);
        if !matches!(reach, Reach::Nothing) {
            effects.push(Effect {
                actor: spot.point.actor,
                number,
                place,
                reach,
            })?;
        }
    }
    Ok(())
}

/// What the steps of all points can change of other actors' notes, in the points' order.
pub fn effects(alloc: Global, app: &App, notes: &Notes) -> Result<Vec<Effect>, AllocError>
    requires { NotesFit app.now notes.now }
{
    let mut effects = Vec::new(alloc);
    for number in 0..app.points() {
        if let Some(spot) = spot_at(app, notes, number) {
            add_effects(app, number, &spot, &mut effects)?;
        }
    }
    Ok(effects)
}
