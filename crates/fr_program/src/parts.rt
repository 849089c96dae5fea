// What an application is made of: its variables, objects and actors, with the keys of its file as fields.
use crate::ids::ActorId;
use crate::instr::Instr;

/// What an object is, with the keys that only its kind has.
#[derive(Clone, Copy)]
pub enum Kind {
    /// Holds up to `size` values from `lo` to `hi`.
    Queue { size: i64, lo: i64, hi: i64 },
    Binary,
    /// Counts from 0 to `size`, and is at `first` when it is new.
    Counting { size: i64, first: i64 },
    Mutex,
    Recursive,
    /// Holds up to `size` bytes.
    Stream { size: i64 },
    /// Holds messages of up to `size` bytes in all.
    Message { size: i64 },
}

/// Whether an actor is a task or an interrupt's handler.
#[derive(Clone, Copy, PartialEq)]
pub enum ActorKind {
    Task,
    Interrupt,
}

/// A variable: a whole number from `lo` to `hi`, at `init` when the scheduler starts. One with an
/// owner is named in its owner's code alone; one with none is shared.
#[derive(Drop)]
pub struct Variable {
    pub name: String,
    pub lo: i64,
    pub hi: i64,
    pub init: i64,
    pub owner: Option<ActorId>,
}

/// A kernel object, and whether it exists when the scheduler starts.
#[derive(Drop)]
pub struct Object {
    pub name: String,
    pub kind: Kind,
    pub live: bool,
}

/// A task or an interrupt, with its code.
#[derive(Drop)]
pub struct Actor {
    pub name: String,
    pub kind: ActorKind,
    pub code: Vec<Instr>,
}

/// What an application is made of. A thing's number is its place in its list.
#[derive(Drop)]
pub struct Parts {
    pub variables: Vec<Variable>,
    pub objects: Vec<Object>,
    pub actors: Vec<Actor>,
}
