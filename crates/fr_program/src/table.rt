// The points of an application in order, and the number of the first point of each instruction.
ghost use Rattle.std.specs.Prelude.{◌≡◌, ◌++◌, length, map, OnOk, IfOk, IfErr};
ghost use Rattle.fr_program.specs.Points.{points_from, points_along, points_at};
ghost use Rattle.fr_program.specs.PointNumbers.{starts_from, starts_along};
ghost use Rattle.fr_program.specs.View.{actor_of};

use crate::fault::BuildFault;
use crate::ids::{ActorId, Point, Side};
use crate::instr::{Call, Instr};
use crate::parts::Actor;
use std::alloc::Global;

/// Every point, in the order of its number, and by actor and instruction the number of the point
/// before that instruction.
#[derive(Drop)]
pub struct Table {
    pub points: Vec<Point>,
    pub starts: Vec<Vec<usize>>,
}

/// The table of the points of these actors.
pub fn table_of(alloc: Global, actors: &[Actor]) -> Result<Table, BuildFault>
    ensures points { IfOk result (λ t. t.points.items ≡ points_from 0 (map actor_of actors.now)) }
    ensures starts { IfOk result
        (λ t. map (λ v. v.items) t.starts.items ≡ starts_from 0 (map actor_of actors.now)) }
    ensures err { IfErr result (λ f. f ≡ BuildFault.Memory) }
{
    let mut points = Vec::new(alloc);
    let mut starts = Vec::new(alloc);
    for (a, actor) in actors.iter().enumerate() {
        starts.push(push_points_of_code(alloc, &mut points, ActorId(a), &actor.code)?)?;
    }
    Ok(Table { points, starts })
}

/// Appends the points of an actor's code, and gives for each instruction the number of the point before it.
fn push_points_of_code(
    alloc: Global,
    points: &mut Vec<Point>,
    actor: ActorId,
    code: &[Instr],
) -> Result<Vec<usize>, BuildFault>
    ensures points { OnOk result
        (points.new.items ≡ points.old.items ++ points_along actor.0 0 code.now) }
    ensures starts { IfOk result
        (λ starts. starts.items ≡ starts_along (length points.old.items) code.now) }
    ensures err { IfErr result (λ f. f ≡ BuildFault.Memory) }
{
    let mut starts = Vec::new(alloc);
    for (pc, instr) in code.iter().enumerate() {
        starts.push(points.len())?;
        push_points_at(points, actor, pc, *instr)?;
    }
    Ok(starts)
}

/// Appends the points of an instruction: the one before it and, for an object call, the one inside it.
fn push_points_at(
    points: &mut Vec<Point>,
    actor: ActorId,
    pc: usize,
    instr: Instr,
) -> Result<(), BuildFault>
    ensures points { OnOk result
        (points.new.items ≡ points.old.items ++ points_at actor.0 pc instr) }
    ensures err { IfErr result (λ f. f ≡ BuildFault.Memory) }
{
    points.push(Point {
        actor,
        pc,
        side: Side::Before,
    })?;
    if let Instr::Call(Call::On { .. }) = instr {
        points.push(Point {
            actor,
            pc,
            side: Side::Inside,
        })?;
    }
    Ok(())
}
