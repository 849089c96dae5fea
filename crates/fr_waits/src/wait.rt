// Who waits for which mutex.
use fr_program::{ActorId, ObjId};

/// An actor that waits for a mutex.
#[derive(Clone, Copy, Debug, PartialEq, Eq)]
pub struct Wait {
    pub actor: ActorId,
    pub mutex: ObjId,
}
