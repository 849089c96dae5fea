// What no text can show of applications: faults that only parts can have, and the greatest sizes.
use fr_program::{
    Act, Actor, ActorId, ActorKind, App, BlockTime, BufferKind, BuildFault, Call, CodeLine, End,
    Instr, Kind, ObjId, Object, ObjectCall, Parts, Timing, VarId, Variable,
};
use std::alloc::{AllocError, Global};
use std::test::Fail;

const BACK: Instr = Instr::Goto { target: 0 };

/// The first line of the first actor.
const FIRST: CodeLine = CodeLine {
    actor: ActorId(0),
    pc: 0,
};

fn variable(alloc: Global, name: &str, owner: Option<ActorId>) -> Result<Variable, AllocError> {
    Ok(Variable {
        name: String::from_str(alloc, name)?,
        lo: 0,
        hi: 16,
        init: 0,
        owner,
    })
}

fn object(alloc: Global, name: &str, kind: Kind) -> Result<Object, AllocError> {
    Ok(Object {
        name: String::from_str(alloc, name)?,
        kind,
        live: true,
    })
}

/// A task with this code.
fn task(alloc: Global, name: &str, code: &[Instr]) -> Result<Actor, AllocError> {
    Ok(Actor {
        name: String::from_str(alloc, name)?,
        kind: ActorKind::Task,
        code: Vec::from_slice(alloc, code)?,
    })
}

/// The fault by which the parts are refused, if they are.
fn fault(alloc: Global, parts: Parts) -> Option<BuildFault> {
    match App::build(alloc, parts) {
        Ok(_) => None,
        Err((fault, _)) => Some(fault),
    }
}

/// No parts yet.
fn no_parts(alloc: Global) -> Parts {
    Parts {
        variables: Vec::new(alloc),
        objects: Vec::new(alloc),
        actors: Vec::new(alloc),
    }
}

fn add_variable(
    alloc: Global,
    parts: &mut Parts,
    name: &str,
    owner: Option<ActorId>,
) -> Result<(), AllocError> {
    let variable = variable(alloc, name, owner)?;
    Ok(parts.variables.push(variable)?)
}

fn add_object(alloc: Global, parts: &mut Parts, name: &str, kind: Kind) -> Result<(), AllocError> {
    let object = object(alloc, name, kind)?;
    Ok(parts.objects.push(object)?)
}

fn add_task(
    alloc: Global,
    parts: &mut Parts,
    name: &str,
    code: &[Instr],
) -> Result<(), AllocError> {
    let task = task(alloc, name, code)?;
    Ok(parts.actors.push(task)?)
}

/// Adds a task t with this instruction, a stream buffer sb, and a variable of this name and owner.
fn add_each(
    alloc: Global,
    parts: &mut Parts,
    instr: Instr,
    name: &str,
    owner: Option<ActorId>,
) -> Result<(), AllocError> {
    add_variable(alloc, parts, name, owner)?;
    add_object(alloc, parts, "sb", Kind::Stream { size: 64 })?;
    add_task(alloc, parts, "t", &[instr, BACK])
}

/// The fault of a task t with this instruction, a stream buffer sb, and a variable of this name and owner.
fn fault_of(
    alloc: Global,
    instr: Instr,
    name: &str,
    owner: Option<ActorId>,
) -> Result<Option<BuildFault>, AllocError> {
    let mut parts = no_parts(alloc);
    add_each(alloc, &mut parts, instr, name, owner)?;
    Ok(fault(alloc, parts))
}

/// A send of so many bytes to the object with this number.
fn send(object: usize, length: u32) -> Instr {
    Instr::Call(Call::On(ObjectCall {
        object: ObjId(object),
        timing: Timing::Waits(BlockTime::Ticks(10)),
        act: Act::Move {
            end: End::Writer,
            kind: BufferKind::Stream,
            length,
            result: None,
        },
    }))
}

fn pick(variable: usize) -> Instr {
    Instr::Pick {
        target: VarId(variable),
        lo: 0,
        hi: 1,
    }
}

#[test]
fn lines_that_no_text_has(rt: HostRuntime) -> Result<(), Fail> {
    for (instr, wanted) in [
        (send(0, 0), Some(BuildFault::BadRange(Some(FIRST)))),
        (send(0, 65536), Some(BuildFault::BadRange(Some(FIRST)))),
        (send(0, 1), None),
        (send(0, 65535), None),
        (send(1, 8), Some(BuildFault::Names(Some(FIRST)))),
        (pick(0), None),
        (pick(1), Some(BuildFault::Names(Some(FIRST)))),
        (Instr::Call(Call::Yield), None),
    ] {
        assert_eq!(rt; fault_of(rt.alloc(), instr, "x", None)?, wanted);
    }
    Ok(())
}

#[test]
fn names_and_owners(rt: HostRuntime) -> Result<(), Fail> {
    let refused = Some(BuildFault::Names(None));
    for (name, wanted) in [
        ("t", refused),
        ("goto", refused),
        ("a23456789b123456789c123456789d123", refused),
        ("1a", refused),
        ("", refused),
        ("goto_1", None),
        ("a23456789b123456789c123456789d12", None),
        ("_", None),
    ] {
        assert_eq!(rt; fault_of(rt.alloc(), BACK, name, None)?, wanted, "{name}");
    }
    assert_eq!(rt; fault_of(rt.alloc(), BACK, "x", Some(ActorId(1)))?, refused);
    assert_eq!(rt; fault_of(rt.alloc(), BACK, "x", Some(ActorId(0)))?, None);
    Ok(())
}

/// So many variables, objects and tasks, and so many instructions in each task.
#[derive(Clone, Copy)]
struct Sizes {
    variables: usize,
    objects: usize,
    tasks: usize,
    instrs: usize,
}

/// Adds a variable, an object and a task with this number, where there are so many.
fn add_numbered(
    alloc: Global,
    parts: &mut Parts,
    sizes: Sizes,
    code: &[Instr],
    number: usize,
) -> Result<(), AllocError> {
    if number < sizes.variables {
        let name = format!(in alloc; "v{number}")?;
        add_variable(alloc, parts, &name, None)?;
    }
    if number < sizes.objects {
        let name = format!(in alloc; "o{number}")?;
        add_object(alloc, parts, &name, Kind::Mutex)?;
    }
    if number < sizes.tasks {
        let name = format!(in alloc; "t{number}")?;
        add_task(alloc, parts, &name, code)?;
    }
    Ok(())
}

/// Adds all of them.
fn add_sizes(alloc: Global, parts: &mut Parts, sizes: Sizes) -> Result<(), AllocError> {
    let code = vec![in alloc; BACK; sizes.instrs]?;
    for number in 0..65 {
        add_numbered(alloc, parts, sizes, &code, number)?;
    }
    Ok(())
}

/// The fault of an application of these sizes.
fn fault_of_sizes(alloc: Global, sizes: Sizes) -> Result<Option<BuildFault>, AllocError> {
    let mut parts = no_parts(alloc);
    add_sizes(alloc, &mut parts, sizes)?;
    Ok(fault(alloc, parts))
}

#[test]
fn greatest_sizes(rt: HostRuntime) -> Result<(), Fail> {
    let too_many = Some(BuildFault::TooMany);
    for (variables, objects, tasks, instrs, wanted) in [
        (64, 64, 32, 512, None),
        (65, 0, 1, 1, too_many),
        (0, 65, 1, 1, too_many),
        (0, 0, 33, 1, too_many),
        (0, 0, 1, 513, too_many),
    ] {
        let sizes = Sizes {
            variables,
            objects,
            tasks,
            instrs,
        };
        assert_eq!(rt; fault_of_sizes(rt.alloc(), sizes)?, wanted);
    }
    Ok(())
}
