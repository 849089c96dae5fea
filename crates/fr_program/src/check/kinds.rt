// Calls on objects of another kind, and calls that are for interrupts.
ghost use Rattle.std.specs.Prelude.{◌≡◌, ◌≤◌, ◌↔◌, IsTrue};
ghost use Rattle.fr_program.specs.Uses.{makes_kind, drops_kind, attempts_on, acts_on, is_semaphore, is_buffer};
ghost use Rattle.fr_program.specs.Fault.{is_for, SuitsKind, SuitsActor};
ghost use Rattle.fr_program.specs.View.{actor_of, program_of};

use crate::instr::{Act, Attempt, BufferKind, Call, CreatedKind, DeletedKind, Instr};
use crate::parts::{Actor, ActorKind, Kind, Parts};

/// Whether the instruction's object, where there is one, is of a kind that the call is for.
pub fn suits_kind(parts: &Parts, instr: Instr) -> bool
    ensures { IsTrue result ↔ SuitsKind (program_of parts.now) instr }
{
    let Instr::Call(call) = instr else {
        return true;
    };
    let Some(object) = call.object() else {
        return true;
    };
    match parts.objects.get(object.0) {
        Some(found) => is_for(call, found.kind),
        None => true,
    }
}

/// Whether the call is for objects of the kind; also if it is for none.
fn is_for(call: Call, kind: Kind) -> bool
    ensures { result ≡ is_for call kind }
{
    match call {
        Call::Create { kind: created, .. } => makes_kind(created, kind),
        Call::Delete { kind: deleted, .. } => drops_kind(deleted, kind),
        Call::On(call) => acts_on(call.act, kind),
        _ => true,
    }
}

/// Whether this create makes objects of the kind.
fn makes_kind(created: CreatedKind, kind: Kind) -> bool
    ensures { result ≡ makes_kind created kind }
{
    match (created, kind) {
        (CreatedKind::Queue, Kind::Queue { .. }) => true,
        (CreatedKind::Binary, Kind::Binary) => true,
        (CreatedKind::Counting, Kind::Counting { .. }) => true,
        (CreatedKind::Mutex, Kind::Mutex) => true,
        (CreatedKind::Recursive, Kind::Recursive) => true,
        (CreatedKind::Stream, Kind::Stream { .. }) => true,
        (CreatedKind::Message, Kind::Message { .. }) => true,
        _ => false,
    }
}

/// Whether the kind is that of a semaphore or a mutex.
fn is_semaphore(kind: Kind) -> bool
    ensures { result ≡ is_semaphore kind }
{
    match kind {
        Kind::Binary => true,
        Kind::Counting { .. } => true,
        Kind::Mutex => true,
        Kind::Recursive => true,
        _ => false,
    }
}

/// Whether this delete is for objects of the kind.
fn drops_kind(deleted: DeletedKind, kind: Kind) -> bool
    ensures { result ≡ drops_kind deleted kind }
{
    match (deleted, kind) {
        (DeletedKind::Queue, Kind::Queue { .. }) => true,
        (DeletedKind::Semaphore, _) => is_semaphore(kind),
        (DeletedKind::Stream, Kind::Stream { .. }) => true,
        (DeletedKind::Message, Kind::Message { .. }) => true,
        _ => false,
    }
}

/// Whether the kind is that of this sort of buffer.
fn is_buffer(buffer: BufferKind, kind: Kind) -> bool
    ensures { result ≡ is_buffer buffer kind }
{
    match (buffer, kind) {
        (BufferKind::Stream, Kind::Stream { .. }) => true,
        (BufferKind::Message, Kind::Message { .. }) => true,
        _ => false,
    }
}

/// Whether what an object call tries is for objects of the kind.
fn attempts_on(attempt: Attempt, kind: Kind) -> bool
    ensures { result ≡ attempts_on attempt kind }
{
    match (attempt, kind) {
        (Attempt::QueueSend(_), Kind::Queue { .. }) => true,
        (Attempt::QueueReceive(_), Kind::Queue { .. }) => true,
        (Attempt::Take(_), _) => is_semaphore(kind),
        (Attempt::Give(_), _) => is_semaphore(kind),
        (Attempt::Reset(buffer), _) => is_buffer(buffer, kind),
        _ => false,
    }
}

/// Whether the object call is for objects of the kind.
fn acts_on(act: Act, kind: Kind) -> bool
    ensures { result ≡ acts_on act kind }
{
    match act {
        Act::Try { attempt, .. } => attempts_on(attempt, kind),
        Act::Move { kind: buffer, .. } => is_buffer(buffer, kind),
    }
}

/// Whether the actor may make the call: a task makes none that is for interrupts.
pub fn suits_actor(actor: &Actor, instr: Instr) -> bool
    ensures { IsTrue result ↔ SuitsActor (actor_of actor.now) instr }
{
    match (actor.kind, instr) {
        (ActorKind::Task, Instr::Call(call)) => !call.is_from_isr(),
        _ => true,
    }
}
