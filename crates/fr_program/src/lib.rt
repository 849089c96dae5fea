// Applications: variables, kernel objects, tasks and interrupts with their code, and the points at which an actor
// can stand. An `App` has no build fault, and its points and their numbers are inverse to each other; all other
// crates rest on this one.
#![tactic(auto)]

mod app;
mod check;
mod fault;
mod ids;
mod instr;
mod parts;
mod range;
mod table;

pub use app::App;
pub use check::{MOST_SIZE, MOST_TICKS, Uses, is_name};
pub use fault::{BuildFault, CodeLine};
pub use ids::{ActorId, ObjId, Point, Side, VarId};
pub use instr::{
    Act, Attempt, BlockTime, BufferKind, Call, Comparison, CreatedKind, DeletedKind, End, Form,
    Instr, ObjectCall, Operand, Operator, SemaphoreForm, Timing,
};
pub use parts::{Actor, ActorKind, Kind, Object, Parts, Variable};
pub use range::Range;
