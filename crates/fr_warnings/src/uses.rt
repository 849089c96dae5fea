// What the lines of an application use: the warnings for variables and objects that are never used, and for variables that are used one way.
use crate::warning::Warning;
use fr_formats::WarningKind;
use fr_program::{Act, App, Attempt, Call, Instr, ObjId, Operand, VarId};
use fr_wording::{object_name, variable_name};
use std::alloc::{AllocError, Global};

/// Whether each variable is read, whether it is written, and whether each object is named by a line of code.
#[derive(Drop)]
struct Uses {
    read: Vec<bool>,
    written: Vec<bool>,
    named: Vec<bool>,
}

/// Marks the place in the list, if it has it.
fn mark(list: &mut [bool], place: usize) {
    if let Some(used) = list.get_mut(place) {
        *used = true;
    }
}

/// Marks the variable that the operand is, if it is one.
fn mark_operand(list: &mut [bool], operand: Operand) {
    if let Operand::Variable(x) = operand {
        mark(list, x.0);
    }
}

/// Whether the place in the list is marked.
fn is_marked(list: &[bool], place: usize) -> bool {
    match list.get(place) {
        Some(used) => *used,
        None => false,
    }
}

impl Uses {
    /// Adds what an act reads and writes.
    fn add_act(&mut self, act: Act) {
        if let Act::Try {
            attempt: Attempt::QueueSend(value),
            ..
        } = act
        {
            mark_operand(&mut self.read, value);
        }
        if let Some(x) = act.written() {
            mark(&mut self.written, x.0);
        }
    }

    /// Adds what a call names, reads and writes.
    fn add_call(&mut self, call: Call) {
        if let Some(object) = call.object() {
            mark(&mut self.named, object.0);
        }
        if let Call::On(call) = call {
            self.add_act(call.act);
        }
    }

    /// Adds what a line reads, writes and names.
    fn add(&mut self, instr: &Instr) {
        match *instr {
            Instr::Set {
                target,
                left,
                right,
                ..
            } => {
                mark(&mut self.written, target.0);
                mark_operand(&mut self.read, left);
                mark_operand(&mut self.read, right);
            }
            Instr::If { left, right, .. } => {
                mark_operand(&mut self.read, left);
                mark_operand(&mut self.read, right);
            }
            Instr::Pick { target, .. } => mark(&mut self.written, target.0),
            Instr::Call(call) => self.add_call(call),
            _ => {}
        }
    }

    /// Adds what all lines of an actor's code read, write and name.
    fn add_all(&mut self, code: &[Instr]) {
        for instr in code {
            self.add(instr);
        }
    }
}

/// What the lines of an application use.
fn uses_in(alloc: Global, app: &App) -> Result<Uses, AllocError> {
    let read = vec![in alloc; false; app.variables().len()]?;
    let written = vec![in alloc; false; app.variables().len()]?;
    let named = vec![in alloc; false; app.objects().len()]?;
    let mut uses = Uses {
        read,
        written,
        named,
    };
    for actor in app.actors() {
        uses.add_all(&actor.code);
    }
    Ok(uses)
}

/// The warning for something, by its name and how it is used.
fn warning_for(
    alloc: Global,
    kind: WarningKind,
    what: &str,
    name: &str,
    how: &str,
) -> Result<Warning, AllocError> {
    Ok(Warning {
        kind,
        text: format!(in alloc; "warning: the {what} {name} is {how}")?,
        point: None,
    })
}

/// Adds the warnings for what isn't used.
fn add_unused(
    alloc: Global,
    warnings: &mut Vec<Warning>,
    app: &App,
    uses: &Uses,
) -> Result<(), AllocError> {
    let (kind, how) = (WarningKind::NeverUsed, "never used");
    for place in 0..app.variables().len() {
        if !is_marked(&uses.read, place) && !is_marked(&uses.written, place) {
            let name = variable_name(app, VarId(place));
            warnings.push(warning_for(alloc, kind, "variable", name, how)?)?;
        }
    }
    for place in 0..app.objects().len() {
        if !is_marked(&uses.named, place) {
            let name = object_name(app, ObjId(place));
            warnings.push(warning_for(alloc, kind, "object", name, how)?)?;
        }
    }
    Ok(())
}

/// Whether the variable has one value alone.
pub(crate) fn is_single(app: &App, x: VarId) -> bool {
    match app.variables().get(x.0) {
        Some(variable) => variable.lo >= variable.hi,
        None => false,
    }
}

/// How the variable is used one way, if it is.
fn one_way(app: &App, uses: &Uses, x: VarId) -> Option<&'static str> {
    match (is_marked(&uses.read, x.0), is_marked(&uses.written, x.0)) {
        (true, false) => Some("read and never written"),
        (false, true) if !is_single(app, x) => Some("written and never read"),
        _ => None,
    }
}

/// Adds the warnings for variables that are used one way.
fn add_one_way(
    alloc: Global,
    warnings: &mut Vec<Warning>,
    app: &App,
    uses: &Uses,
) -> Result<(), AllocError> {
    for place in 0..app.variables().len() {
        if let Some(how) = one_way(app, uses, VarId(place)) {
            let name = variable_name(app, VarId(place));
            warnings.push(warning_for(alloc, WarningKind::UsedOneWay, "variable", name, how)?)?;
        }
    }
    Ok(())
}

/// Adds the warnings for variables and objects that no line of code names, and for variables that are read and never written, or written
/// and never read, a line each. A wrong name can be the cause. A variable with one value in its range is written so that a rule is broken
/// there, and nobody has to read it. An error says that an allocation was refused. The lines' form is this project's own.
pub(crate) fn used_too_little(
    alloc: Global,
    app: &App,
    warnings: &mut Vec<Warning>,
) -> Result<(), AllocError> {
    let uses = uses_in(alloc, app)?;
    add_unused(alloc, warnings, app, &uses)?;
    add_one_way(alloc, warnings, app, &uses)
}
