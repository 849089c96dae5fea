// Updates of shared variables that can be lost: an actor copies the variable and then sets it from the copy, and another actor can set it
// in between.
use crate::warning::Warning;
use fr_formats::WarningKind;
use fr_notes::{Notes, some_meet};
use fr_program::{Act, ActorId, App, Call, Instr, Operand, Point, Side, VarId};
use fr_wording::{actor_name, variable_name};
use std::alloc::{AllocError, Global};
use std::mem::replace;

/// A line that copies a shared variable into one of the actor's own.
#[derive(Clone, Copy)]
struct Copied {
    actor: ActorId,
    pc: usize,
    shared: VarId,
    copy: VarId,
}

/// The lines from a copy to the line that sets the shared variable from it.
#[derive(Drop)]
struct Update {
    copied: Copied,
    /// The line that sets the variable.
    pc: usize,
    /// That line, and those between that lead to it.
    between: Vec<usize>,
}

/// Whether the variable belongs to no actor.
fn is_shared(app: &App, x: VarId) -> bool {
    match app.variables().get(x.0) {
        Some(variable) => variable.owner.is_none(),
        None => false,
    }
}

/// The shared variable that the operand is.
fn shared_in(app: &App, operand: Operand) -> Option<VarId> {
    match operand {
        Operand::Variable(x) if is_shared(app, x) => Some(x),
        _ => None,
    }
}

/// What the line copies, if it copies a shared variable.
fn copied_at(app: &App, actor: ActorId, pc: usize, instr: &Instr) -> Option<Copied> {
    let Instr::Set {
        target,
        left,
        right,
        ..
    } = *instr
    else {
        return None;
    };
    if is_shared(app, target) {
        return None;
    }
    let shared = shared_in(app, left).or(shared_in(app, right))?;
    Some(Copied {
        actor,
        pc,
        shared,
        copy: target,
    })
}

/// Whether the line sets the shared variable from its copy.
fn is_store(instr: &Instr, copied: Copied) -> bool {
    match *instr {
        Instr::Set {
            target,
            left,
            right,
            ..
        } => {
            target == copied.shared
                && (left.variable() == Some(copied.copy) || right.variable() == Some(copied.copy))
        }
        _ => false,
    }
}

/// The variable to which the line gives a number, and whether it does so inside a call.
fn written_by(instr: &Instr) -> Option<(VarId, Side)> {
    match *instr {
        Instr::Set { target, .. } | Instr::Pick { target, .. } => Some((target, Side::Before)),
        Instr::Call(Call::On(call)) => {
            let act: Act = call.act;
            Some((act.written()?, Side::Inside))
        }
        _ => None,
    }
}

/// Whether the line gives the variable a number that isn't worked out from the one that it has.
fn overwrites(instr: &Instr, x: VarId) -> bool {
    match *instr {
        Instr::Set { left, right, .. }
            if left.variable() == Some(x) || right.variable() == Some(x) => false,
        _ => instr.written() == Some(x),
    }
}

/// The lines to which the line at this place can lead, one or two.
fn lines_after(instr: &Instr, pc: usize) -> (Option<usize>, Option<usize>) {
    let next = pc.checked_add(1);
    match *instr {
        Instr::If { target, .. } => (next, Some(target)),
        Instr::Goto { target } => (Some(target), None),
        Instr::Return | Instr::Call(Call::DeleteSelf) => (None, None),
        Instr::Call(Call::Create { or_else, .. }) => (next, or_else),
        Instr::Call(Call::On(call)) => (next, call.act.else_target()),
        _ => (next, None),
    }
}

/// A walk through an actor's code, as from a copy on.
#[derive(Drop)]
pub(crate) struct Walk {
    pub next: Vec<usize>,
    pub seen: Vec<bool>,
    /// The lines that were looked at.
    visited: Vec<usize>,
    /// Which lines lead to one that sets the variable from the copy.
    leads: Vec<bool>,
    /// The line that sets the variable from the copy, once one was met.
    store: Option<usize>,
}

impl Walk {
    /// A walk through code of this length that hasn't begun.
    pub(crate) fn none(alloc: Global, length: usize) -> Result<Walk, AllocError> {
        let seen = vec![in alloc; false; length]?;
        let leads = vec![in alloc; false; length]?;
        Ok(Walk {
            next: Vec::new(alloc),
            seen,
            visited: Vec::new(alloc),
            leads,
            store: None,
        })
    }

    /// Goes on from the line.
    pub(crate) fn follow(&mut self, instr: &Instr, pc: usize) -> Result<(), AllocError> {
        let (one, other) = lines_after(instr, pc);
        if let Some(pc) = one {
            self.next.push(pc)?;
        }
        if let Some(pc) = other {
            self.next.push(pc)?;
        }
        Ok(())
    }

    /// Whether the line wasn't looked at before; from now on it was.
    pub(crate) fn is_first_look(&mut self, pc: usize) -> bool {
        match self.seen.get_mut(pc) {
            Some(seen) => !replace(seen, true),
            None => false,
        }
    }

    /// Looks at the line, and goes on from it unless it sets the variable, or gives the copy another number.
    fn visit(&mut self, code: &[Instr], pc: usize, copied: Copied) -> Result<(), AllocError> {
        let Some(instr) = code.get(pc) else {
            return Ok(());
        };
        if !self.is_first_look(pc) || overwrites(instr, copied.copy) {
            return Ok(());
        }
        self.visited.push(pc)?;
        if is_store(instr, copied) {
            self.store = Some(self.store.map_or(pc, |first| first.min(pc)));
            self.set_leading(pc);
            return Ok(());
        }
        self.follow(instr, pc)
    }

    /// Notes that the line leads to one that sets the variable.
    fn set_leading(&mut self, pc: usize) {
        if let Some(leads) = self.leads.get_mut(pc) {
            *leads = true;
        }
    }

    /// Whether the line, if there is one, leads to one that sets the variable.
    fn is_leading(&self, pc: Option<usize>) -> bool {
        match pc {
            Some(pc) => self.leads.get(pc) == Some(&true),
            None => false,
        }
    }

    /// Whether the line goes to one that leads there.
    fn goes_there(&self, code: &[Instr], pc: usize) -> bool {
        match code.get(pc) {
            Some(instr) => {
                let (one, other) = lines_after(instr, pc);
                self.is_leading(one) || self.is_leading(other)
            }
            None => false,
        }
    }

    /// Marks each line that was looked at and goes to one that leads there. Says whether a line was marked.
    fn mark(&mut self, code: &[Instr]) -> bool {
        let mut has_marked = false;
        for place in (0..self.visited.len()).rev() {
            let Some(pc) = self.visited.get(place).copied() else {
                continue;
            };
            if !self.is_leading(Some(pc)) && self.goes_there(code, pc) {
                self.set_leading(pc);
                has_marked = true;
            }
        }
        has_marked
    }

    /// Walks from this copy on.
    fn walk(&mut self, code: &[Instr], copied: Copied) -> Result<(), AllocError> {
        if let Some(instr) = code.get(copied.pc) {
            self.follow(instr, copied.pc)?;
        }
        // Each line is visited once, and leads to two at the most.
        for _ in 0..code.len().saturating_mul(2).saturating_add(2) {
            let Some(pc) = self.next.pop() else {
                break;
            };
            self.visit(code, pc, copied)?;
        }
        Ok(())
    }

    /// Walks from this copy on, and says what update begins with it, if one does.
    fn update(
        &mut self,
        alloc: Global,
        code: &[Instr],
        copied: Copied,
    ) -> Result<Option<Update>, AllocError> {
        self.walk(code, copied)?;
        let Some(pc) = self.store else {
            return Ok(None);
        };
        for _ in 0..code.len() {
            if !self.mark(code) {
                break;
            }
        }
        let between = self.leading(alloc)?;
        Ok(Some(Update {
            copied,
            pc,
            between,
        }))
    }

    /// The lines that lead to one that sets the variable, that line with them.
    fn leading(&self, alloc: Global) -> Result<Vec<usize>, AllocError> {
        let mut leading = Vec::new(alloc);
        for pc in &self.visited {
            if self.is_leading(Some(*pc)) {
                leading.push(*pc)?;
            }
        }
        Ok(leading)
    }
}

/// The update that begins with this copy; None where no line that can follow sets the variable from it.
fn update_after(
    alloc: Global,
    code: &[Instr],
    copied: Copied,
) -> Result<Option<Update>, AllocError> {
    let mut walk = Walk::none(alloc, code.len())?;
    walk.update(alloc, code, copied)
}

/// Whether two actors can be at these two points at the same time, by what their notes say.
fn can_both_be_at(app: &App, notes: &Notes, one: Point, number: usize) -> bool {
    let Some(own) = app.number(one) else {
        return false;
    };
    match (notes.get(own), notes.get(number)) {
        (Some(note), Some(other)) => some_meet(note.alternatives(), other.alternatives()),
        _ => false,
    }
}

/// Whether another actor can be at the point with this number while the actor is at one of the lines of the update.
fn is_between(app: &App, notes: &Notes, update: &Update, number: usize) -> bool {
    let mut point = store_of(update);
    for pc in &update.between {
        point.pc = *pc;
        let inside = Point {
            side: Side::Inside,
            ..point
        };
        if can_both_be_at(app, notes, point, number) || can_both_be_at(app, notes, inside, number) {
            return true;
        }
    }
    false
}

/// Whether another actor sets the update's variable at the point.
fn sets_at(app: &App, update: &Update, point: Point) -> bool {
    if point.actor == update.copied.actor {
        return false;
    }
    match app.instr(point) {
        Some(instr) => written_by(instr) == Some((update.copied.shared, point.side)),
        None => false,
    }
}

/// The first point at which another actor can set the variable within the update.
fn loser_of(app: &App, notes: &Notes, update: &Update) -> Option<Point> {
    for number in 0..app.points() {
        let point = app.point(number);
        if sets_at(app, update, point) && is_between(app, notes, update, number) {
            return Some(point);
        }
    }
    None
}

/// The line of an update that can be lost, with the point at which another actor sets the variable.
fn line_of(alloc: Global, app: &App, update: &Update, by: Point) -> Result<String, AllocError> {
    let Copied {
        actor,
        pc,
        shared,
        ..
    } = update.copied;
    let (name, store) = (actor_name(app, actor), update.pc);
    let variable = variable_name(app, shared);
    let (other, line) = (actor_name(app, by.actor), by.pc);
    format!(in alloc;
        "warning: the update of {variable} by {name} {pc} and {name} {store} can be lost: {other} {line} sets it in between"
    )
}

/// The point at which the update sets the variable.
fn store_of(update: &Update) -> Point {
    Point {
        actor: update.copied.actor,
        pc: update.pc,
        side: Side::Before,
    }
}

/// Adds the warning for an update, if it can be lost.
fn add_update(
    alloc: Global,
    warnings: &mut Vec<Warning>,
    app: &App,
    notes: &Notes,
    update: &Update,
) -> Result<(), AllocError> {
    match loser_of(app, notes, update) {
        Some(by) => Ok(warnings.push(Warning {
            kind: WarningKind::LostUpdate,
            text: line_of(alloc, app, update, by)?,
            point: Some(store_of(update)),
        })?),
        None => Ok(()),
    }
}

/// Adds the warnings for the updates in an actor's code.
fn add_updates(
    alloc: Global,
    warnings: &mut Vec<Warning>,
    app: &App,
    notes: &Notes,
    (actor, code): (ActorId, &[Instr]),
) -> Result<(), AllocError> {
    for (pc, instr) in code.iter().enumerate() {
        if let Some(copied) = copied_at(app, actor, pc, instr)
            && let Some(update) = update_after(alloc, code, copied)?
        {
            add_update(alloc, warnings, app, notes, &update)?;
        }
    }
    Ok(())
}

/// Adds the warnings for updates that can be lost, a line each: an actor copies a shared variable, and sets it from the copy, which it
/// may have changed, and another actor can set it in between, by what their notes say. An error says that an allocation was refused.
/// The lines' form is this project's own.
pub(crate) fn lost_updates(
    alloc: Global,
    app: &App,
    notes: &Notes,
    warnings: &mut Vec<Warning>,
) -> Result<(), AllocError> {
    for (number, actor) in app.actors().iter().enumerate() {
        let place = (ActorId(number), actor.code.as_slice());
        add_updates(alloc, warnings, app, notes, place)?;
    }
    Ok(())
}
