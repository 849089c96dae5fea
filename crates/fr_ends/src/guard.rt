// What an actor has while it is inside a call at an end of a buffer.
ghost use Rattle.std.specs.Prelude.{◌↔◌, IsTrue};

use crate::ends::EndName;
use crate::fits::end_fits;
use fr_program::{ActorId, App, ObjId, VarId};
use std::collections::BTreeMap;

/// What keeps two actors from one end of a buffer: in no state do two actors have it.
#[derive(Drop)]
pub enum Guard {
    /// One actor alone.
    Sole(ActorId),
    /// Whoever holds the mutex, a plain or a recursive one.
    Mutex(ObjId),
    /// Whoever is in the critical section.
    Critical,
    /// The actor whose value the variable has. An actor that isn't listed never has the guard.
    Turn(VarId, BTreeMap<ActorId, i64>),
}

/// The guard of one end of one buffer.
#[derive(Drop)]
pub struct EndGuard {
    pub end: EndName,
    pub guard: Guard,
}

impl EndGuard {
    ghost use Rattle.fr_ends.specs.Fits.{EndFits};
    ghost use Rattle.fr_ends.specs.View.{end_of};

    /// Whether it is the guard of an end of one of the application's buffers, and names what the
    /// application has. Takes no memory.
    pub fn fits(&self, app: &App) -> bool
        ensures { IsTrue result ↔ EndFits app.now (end_of self.now) }
    {
        end_fits(app, self)
    }
}
