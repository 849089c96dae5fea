// What a note speaks of.
use fr_program::{ObjId, VarId};

/// What a note speaks of: the actor's depth in the critical section, how deep it has suspended the
/// scheduler, an object that it holds or that is live or dead, the range of a variable.
#[derive(Clone, Copy, PartialEq, Eq)]
pub enum Subject {
    Critical,
    Suspended,
    Object(ObjId),
    Variable(VarId),
}
