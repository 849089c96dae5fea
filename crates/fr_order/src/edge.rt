// Edges between mutexes.
use fr_program::{ObjId, Point};

/// While an actor is inside the take at this point, which waits without limit, it can hold `held` and
/// wait for `taken`.
#[derive(Clone, Copy)]
pub struct Edge {
    pub held: ObjId,
    pub taken: ObjId,
    pub point: Point,
}
