// What stands against what, where the parts are no application.
use crate::lines::Lines;
use crate::misfit::kind_text;
use crate::shown::Start;
use crate::table::{line_at, name_of, number_at, push_entry};
use fr_code::{code_of, entries_at};
use fr_program::{
    Act, ActorId, BuildFault, Call, CodeLine, Instr, Kind, MOST_SIZE, Parts, VarId, Variable,
};
use fr_reader::{Key, parts_in};
use toml::{Table, Value};

/// The variable with this number.
fn variable_at(parts: &Parts, x: Option<VarId>) -> Option<&Variable> {
    parts.variables.get(x?.0)
}

/// Appends each shared variable of the instruction, place by place.
fn push_shared(out: &mut Lines, parts: &Parts, instr: Instr) {
    write!(out, "shared here: ");
    let mut between = "";
    for x in &instr.variables().by_place() {
        if let Some(variable) = variable_at(parts, *x)
            && variable.owner.is_none()
        {
            write!(out, "{between}{}", variable.name);
            between = ", ";
        }
    }
    out.say("; a line has one shared variable at most, in one place");
}

/// Appends each variable of the instruction that belongs to another actor than this one.
fn push_owners(out: &mut Lines, parts: &Parts, actor: ActorId, instr: Instr) {
    for x in &instr.variables().by_place() {
        if let Some(variable) = variable_at(parts, *x)
            && let Some(owner) = variable.owner
            && owner.0 != actor.0
            && let Some(other) = parts.actors.get(owner.0)
        {
            let (name, owner) = (variable.name.as_str(), other.name.as_str());
            out.say(format_args!("{name} is owned by {owner}"));
        }
    }
}

/// Appends the object of the instruction with its kind.
fn push_kind(out: &mut Lines, parts: &Parts, instr: Instr) {
    if let Some(id) = instr.object()
        && let Some(object) = parts.objects.get(id.0)
    {
        let (name, kind) = (object.name.as_str(), kind_text(object.kind));
        out.say(format_args!("{name} has the kind {kind}, which this call isn't for"));
    }
}

/// The range of what an instruction gives to its variable.
fn range_given(parts: &Parts, instr: Instr) -> Option<(i64, i64)> {
    match instr {
        Instr::Pick { lo, hi, .. } => Some((lo, hi)),
        Instr::Call(Call::On(call)) => match (call.act, parts.objects.get(call.object.0)?.kind) {
            (Act::Move { length, .. }, _) => Some((0, i64::from(length))),
            (_, Kind::Queue { lo, hi, .. }) => Some((lo, hi)),
            _ => None,
        },
        _ => None,
    }
}

/// Appends the range of the instruction's variable, and of what it is given.
fn push_ranges(out: &mut Lines, parts: &Parts, instr: Instr) {
    let named = instr.variables();
    if let Some(variable) = variable_at(parts, named.target.or(named.right))
        && let Some((least, most)) = range_given(parts, instr)
    {
        let (name, lo, hi) = (variable.name.as_str(), variable.lo, variable.hi);
        out.say(format_args!(
            "{name} is declared from {lo} to {hi}, and is given {least} to {most}"
        ));
    }
}

/// Appends what stands against what in the line with this number of this actor.
fn push_reason(out: &mut Lines, parts: &Parts, at: CodeLine, fault: BuildFault) {
    let Some(actor) = parts.actors.get(at.actor.0) else {
        return;
    };
    let Some(instr) = actor.code.get(at.pc) else {
        return;
    };
    let (name, lines) = (actor.name.as_str(), actor.code.len());
    match fault {
        BuildFault::BadRange(_) => out.say("the first number is above the second"),
        BuildFault::BadTarget(_) => {
            let last = lines.saturating_sub(1);
            out.say(format_args!("lines of {name}: {lines}, from 0 to {last}"));
        }
        BuildFault::TwoShared(_) => push_shared(out, parts, *instr),
        BuildFault::NotOwner(_) => push_owners(out, parts, at.actor, *instr),
        BuildFault::KindMismatch(_) => push_kind(out, parts, *instr),
        BuildFault::FromIsrInTask(_) => {
            out.say(format_args!("{name} is a task, and this call is for interrupts"));
        }
        BuildFault::ResultRange(_) => push_ranges(out, parts, *instr),
        BuildFault::Operands(_) => {
            out.say("its operands are one variable twice, or two variables of a product");
        }
        _ => {}
    }
}

/// Appends the line with this number of the actor with this number, and returns whether there is one.
fn push_code_line(out: &mut Lines, actor: &Value, index: usize) -> bool {
    let (name, line) = (name_of(actor).unwrap_or(""), line_at(actor, index));
    if let Some(line) = line {
        out.say(format_args!("{name} {index}: {}", Start(line)));
    }
    line.is_some()
}

/// Appends the line at which the parts have the fault, and what stands against what.
fn push_at_line(out: &mut Lines, whole: &Table, at: CodeLine, fault: BuildFault) {
    if let Some(actor) = entries_at(whole, Key::Actor).get(at.actor.0)
        && push_code_line(out, actor, at.pc)
    {
        match parts_in(out.alloc, whole) {
            Ok(parts) => push_reason(out, &parts, at, fault),
            Err(error) if error.is_memory() => out.refuse(),
            Err(_) => {}
        }
    }
}

/// Appends that the code of the actor with this number has no end.
fn push_falling_off(out: &mut Lines, whole: &Table, actor: ActorId) {
    let Some(actor) = entries_at(whole, Key::Actor).get(actor.0) else {
        return;
    };
    if push_code_line(out, actor, code_of(actor).len().saturating_sub(1)) {
        out.say("the last line has to be a goto, a return or vTaskDelete(NULL)");
    } else {
        let name = name_of(actor).unwrap_or("");
        out.say(format_args!("{name} has no line"));
    }
}

/// Appends how many things there are of each sort.
fn push_counts(out: &mut Lines, whole: &Table) {
    let actors = entries_at(whole, Key::Actor);
    let lines = actors.iter().map(|actor| code_of(actor).len()).max();
    let (actors, lines) = (actors.len(), lines.unwrap_or(0));
    let variables = entries_at(whole, Key::Variable).len();
    let objects = entries_at(whole, Key::Object).len();
    out.say(format_args!("actors: {actors}, at most 32; variables: {variables}, at most 64"));
    out.say(format_args!(
        "objects: {objects}, at most 64; lines of an actor: {lines}, at most 512"
    ));
}

/// Whether the numbers of a variable or an object are in their limits.
fn is_in_limits(table: &Value) -> bool {
    let lo = number_at(table, Key::Lo).unwrap_or(0);
    let hi = number_at(table, Key::Hi).unwrap_or(lo);
    let init = number_at(table, Key::Init).unwrap_or(lo);
    let size = number_at(table, Key::Size).unwrap_or(1);
    let first = number_at(table, Key::First).unwrap_or(0);
    (lo..=hi).contains(&init)
        && (1..=i64::from(MOST_SIZE)).contains(&size)
        && (0..=size).contains(&first)
}

/// Appends each variable and each object whose numbers are out of their limits, and the limits.
fn push_declarations(out: &mut Lines, whole: &Table) {
    for list in [Key::Variable, Key::Object] {
        for (index, table) in entries_at(whole, list).iter().enumerate() {
            if !is_in_limits(table) {
                push_entry(out, whole, list, index);
                push_numbers(out, table);
            }
        }
    }
    out.say(format_args!(
        "init is from lo to hi, first from 0 to size, and size from 1 to {MOST_SIZE}"
    ));
}

/// Appends the numbers of a variable or an object, and ends the line.
fn push_numbers(out: &mut Lines, table: &Value) {
    for key in [Key::Size, Key::First, Key::Lo, Key::Hi, Key::Init] {
        if let Some(number) = number_at(table, key) {
            write!(out, ", {} = {number}", key.text());
        }
    }
    out.end();
}

/// Appends what stands against what, where the parts in this table are no application.
pub(crate) fn push_build(out: &mut Lines, whole: &Table, fault: BuildFault) {
    match fault {
        BuildFault::Memory | BuildFault::Names(None) => {}
        BuildFault::TooMany => push_counts(out, whole),
        BuildFault::BadRange(None) => push_declarations(out, whole),
        BuildFault::FallsOff(actor) => push_falling_off(out, whole, actor),
        BuildFault::BadRange(Some(at))
        | BuildFault::BadTarget(at)
        | BuildFault::TwoShared(at)
        | BuildFault::NotOwner(at)
        | BuildFault::KindMismatch(at)
        | BuildFault::FromIsrInTask(at)
        | BuildFault::ResultRange(at)
        | BuildFault::Operands(at)
        | BuildFault::Names(Some(at)) => push_at_line(out, whole, at, fault),
    }
}
