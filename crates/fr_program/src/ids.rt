// Numbers that name variables, objects and actors, and the points at which an actor can stand.
ghost use Rattle.std.specs.Prelude.{◌≡◌};

/// A variable, by its place in the list of variables, from 0.
#[derive(Clone, Copy, Debug, PartialEq, Eq)]
pub struct VarId(pub usize);

/// An object, by its place in the list of objects, from 0.
#[derive(Clone, Copy, Debug, PartialEq, Eq)]
pub struct ObjId(pub usize);

/// An actor, by its place in the list of actors, from 0.
#[derive(Clone, Copy, Debug, PartialEq, Eq, PartialOrd, Ord)]
pub struct ActorId(pub usize);

/// Before an instruction, or inside an object call: between its begin and its end.
#[derive(Clone, Copy, Debug, PartialEq, Eq)]
pub enum Side {
    Before,
    Inside,
}

impl Side {
    ghost use Rattle.fr_program.specs.Uses.{side_text};

    /// The side's name, as listings and reports have it.
    pub fn text(self) -> &'static str
        ensures { result.now ≡ side_text self }
    {
        match self {
            Side::Before => "before",
            Side::Inside => "inside",
        }
    }
}

/// Where an actor that has not ended stands: a side of one of its instructions.
#[derive(Clone, Copy, PartialEq, Eq)]
pub struct Point {
    pub actor: ActorId,
    /// The instruction's place in the actor's code, from 0.
    pub pc: usize,
    pub side: Side,
}
