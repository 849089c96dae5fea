// The order in which an actor's points are worked through, and the points that loops come back to.
use crate::lists::mark;
use fr_program::{ActorId, App, Call, Instr, Point, Side};
use std::alloc::{AllocError, Global};

/// Where an instruction that is not the next one can follow.
fn jump(instr: &Instr) -> Option<usize> {
    match instr {
        Instr::If { target, .. } | Instr::Goto { target } => Some(*target),
        Instr::Return => Some(0),
        Instr::Call(Call::Create { or_else, .. }) => *or_else,
        Instr::Call(Call::On(call)) => call.act.else_target(),
        _ => None,
    }
}

/// Where the next instruction can follow.
fn next(pc: usize, instr: &Instr) -> Option<usize> {
    match instr {
        Instr::Goto { .. } | Instr::Return | Instr::Call(Call::DeleteSelf) => None,
        _ => pc.checked_add(1),
    }
}

/// Marks the point before this instruction.
fn mark_before(app: &App, marks: &mut Vec<bool>, actor: usize, pc: usize) {
    let point = Point {
        actor: ActorId(actor),
        pc,
        side: Side::Before,
    };
    if let Some(number) = app.number(point) {
        mark(marks, number);
    }
}

/// Marks the points that backward steps of the actor lead to.
fn mark_heads(app: &App, marks: &mut Vec<bool>, actor: usize, code: &[Instr]) {
    for (pc, instr) in code.iter().enumerate() {
        if let Some(target) = jump(instr) {
            if target <= pc {
                mark_before(app, marks, actor, target);
            }
        }
    }
}

/// By point: whether a backward step of its own actor leads to it.
pub fn heads(alloc: Global, app: &App) -> Result<Vec<bool>, AllocError> {
    let mut heads = vec![in alloc; false; app.points()]?;
    for (actor, listed) in app.actors().iter().enumerate() {
        mark_heads(app, &mut heads, actor, &listed.code);
    }
    Ok(heads)
}

/// How far the walk has come at an instruction.
#[derive(Clone, Copy)]
enum Stage {
    /// Neither what is next nor what is jumped to was walked to.
    New,
    /// What is next was walked to.
    Next,
    /// Both were.
    Both,
}

/// A walk through an actor's code, each instruction after all that follow it.
#[derive(Drop)]
struct Walk<'a> {
    code: &'a [Instr],
    seen: Vec<bool>,
    open: Vec<(usize, Stage)>,
    /// The instructions that are done with, in that order.
    done: Vec<usize>,
}

impl<'a> Walk<'a> {
    /// Walks to an instruction, if there is one and it wasn't walked to before.
    fn enter(&mut self, pc: Option<usize>) -> Result<(), AllocError> {
        let Some(pc) = pc else {
            return Ok(());
        };
        if let Some(seen) = self.seen.get_mut(pc) {
            if !*seen {
                *seen = true;
                self.open.push((pc, Stage::New))?;
            }
        }
        Ok(())
    }

    /// Goes on at the instruction that was walked to last. Whether there was one.
    fn go_on(&mut self) -> Result<bool, AllocError> {
        let Some((pc, stage)) = self.open.pop() else {
            return Ok(false);
        };
        let Some(instr) = self.code.get(pc) else {
            return Ok(true);
        };
        let (stage, follower) = match stage {
            Stage::New => (Stage::Next, next(pc, instr)),
            Stage::Next => (Stage::Both, jump(instr)),
            Stage::Both => {
                self.done.push(pc)?;
                return Ok(true);
            }
        };
        self.open.push((pc, stage))?;
        self.enter(follower)?;
        Ok(true)
    }
}

/// The instructions that can be reached, each after all that follow it.
fn postorder(alloc: Global, code: &[Instr]) -> Result<Vec<usize>, AllocError> {
    let mut walk = Walk {
        code,
        seen: vec![in alloc; false; code.len()]?,
        open: Vec::new(alloc),
        done: Vec::new(alloc),
    };
    walk.enter(Some(0))?;
    for _ in 0..u64::MAX {
        if !walk.go_on()? {
            break;
        }
    }
    Ok(walk.done)
}

/// Gives the point of an instruction its place.
fn set_place(app: &App, places: &mut Vec<usize>, point: Point, place: usize) {
    if let Some(number) = app.number(point) {
        if let Some(cell) = places.get_mut(number) {
            *cell = place;
        }
    }
}

/// Gives the points of an actor their places.
fn set_all_places(
    alloc: Global,
    app: &App,
    places: &mut Vec<usize>,
    actor: ActorId,
    code: &[Instr],
) -> Result<(), AllocError> {
    let order = postorder(alloc, code)?;
    let mut place: usize = 0;
    for pc in order.iter().rev() {
        let (pc, side) = (*pc, Side::Before);
        set_place(app, places, Point { actor, pc, side }, place);
        let side = Side::Inside;
        set_place(
            app,
            places,
            Point { actor, pc, side },
            place.saturating_add(1),
        );
        place = place.saturating_add(2);
    }
    Ok(())
}

/// By point: its place in an order in which the steps of its actor mostly lead forward. Points that
/// can't be reached have any.
pub fn places_in_order(alloc: Global, app: &App) -> Result<Vec<usize>, AllocError> {
    let mut places = vec![in alloc; usize::MAX; app.points()]?;
    for (actor, listed) in app.actors().iter().enumerate() {
        set_all_places(alloc, app, &mut places, ActorId(actor), &listed.code)?;
    }
    Ok(places)
}
