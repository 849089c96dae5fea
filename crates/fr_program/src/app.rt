// Checked applications, and their points.
ghost use Rattle.std.specs.Prelude.{◌≡◌, ◌≢◌, ◌<◌, ◌+◌, ◌^◌, ◌↔◌, ℕ, length, slice_get, Some, map, IfOk, IfErr, IfSome, IfNone, OnOk};
ghost use Rattle.fr_program.specs.Lookup.{HasSide, IsPoint};
ghost use Rattle.fr_program.specs.Points.{points_of, point_number, side_number};
ghost use Rattle.fr_program.specs.PointNumbers.{starts_from, PointsAreNumbered};
ghost use Rattle.fr_program.specs.Fault.{IsFreeOf, IsFaultless};
ghost use Rattle.fr_program.specs.View.{actor_of, program_of};

use crate::check::check_parts;
use crate::fault::BuildFault;
use crate::ids::{ActorId, ObjId, Point, Side, VarId};
use crate::instr::{Call, Instr};
use crate::parts::{Actor, ActorKind, Kind, Object, Parts, Variable};
use crate::range::Range;
use crate::table::{Table, table_of};
use std::alloc::Global;
use std::marker::Model;

/// An application in which no build fault is present.
#[derive(Drop)]
pub struct App {
    parts: Parts,
    /// Every point, in the order of its number.
    points: Vec<Point>,
    /// By actor and instruction, the number of the point before it.
    starts: Vec<Vec<usize>>,
}

impl Model for App {
    ghost use Rattle.fr_program.specs.Program.{Program};

    ghost Value = { Program };

    ghost use Rattle.fr_program.specs.View.{program_of};

    ghost view = { λ a. program_of a.parts };

    ghost use Rattle.fr_program.specs.Built.{IsBuilt};

    ghost invariant = { IsBuilt };
}

impl App {
    ghost use Rattle.std.specs.Option.{option_copied};
    ghost use Rattle.fr_program.specs.Lookup.{instr_of, object_at, variable_at, actor_at, is_interrupt};
    ghost use Rattle.fr_program.specs.View.{variable_of, object_of};

    /// The application that the parts say: Ok exactly where no build fault is present and no
    /// allocation was refused. The tables of points and the list of names take memory. Names are
    /// compared pair by pair, which is cheap since more than 160 are refused before.
    ///
    /// On a refusal the parts come back unchanged, with a fault that is present at the line or the
    /// actor that it names. Where several are present, which one is named is open. `Memory` says that
    /// an allocation was refused. Which parts are refused is this project's profile.
    pub fn build(alloc: Global, parts: Parts) -> Result<App, (BuildFault, Parts)>
        ensures same { IfOk result (λ app. app ≡ program_of parts) }
        ensures faultless { IfOk result (λ app. IsFaultless app) }
        ensures present { IfErr result
            (λ e. e.0 ≢ BuildFault.Memory → IsFreeOf (program_of parts) e.0 → ⊥) }
        ensures returned { IfErr result (λ e. e.1 ≡ parts) }
    {
        match checked_table(alloc, &parts) {
            Ok(Table { points, starts }) => Ok(App {
                parts,
                points,
                starts,
            }),
            Err(fault) => Err((fault, parts)),
        }
    }

    /// How many points the application has.
    pub fn points(&self) -> usize
        ensures { result ≡ length (points_of self.now) }
    {
        self.points.len()
    }

    /// The point with the number `k`, which is below `points`.
    pub fn point(&self, k: usize) -> Point
        requires { k < length (points_of self.now) }
        ensures { slice_get (points_of self.now) k ≡ Some result }
    {
        self.points[k]
    }

    /// Recalls that an application has no build fault.
    pub fn recall_faultless(&self)
        ensures { IsFaultless self.now }
    {
        let _ = &self.parts;
    }

    /// Recalls that points and their numbers are inverse to each other.
    pub fn recall_numbered(&self)
        ensures { PointsAreNumbered self.now }
    {}

    /// The number of a point, or None where the application has no such point. Numbers go by
    /// actor, then by instruction, `Before` then `Inside`.
    pub fn number(&self, point: Point) -> Option<usize>
        ensures some { IfSome result
            (λ k. IsPoint self.now point × (k ≡ point_number self.now point)) }
        ensures none { IfNone result (IsPoint self.now point → ⊥) }
        ensures inverse { (k : ℕ) →
            ((result ≡ Some k) ↔ (slice_get (points_of self.now) k ≡ Some point)) }
    {
        match self.instr(point) {
            Some(instr) => {
                let start = self.starts[point.actor.0][point.pc];
                number_from(start, *instr, point.side)
            }
            None => None,
        }
    }

    /// The instruction of a point, or None where the application has no such place.
    pub fn instr(&self, point: Point) -> Option<&Instr>
        ensures { option_copied result ≡ instr_of self.now point }
    {
        self.parts.actors.get(point.actor.0)?.code.get(point.pc)
    }

    /// What the object is, which is one of the application's.
    pub fn kind(&self, object: ObjId) -> Kind
        requires { object.0 < length self.now.objects }
        ensures { result ≡ (object_at self.now object.0).kind }
    {
        self.parts.objects[object.0].kind
    }

    /// The variable with this number, which is one of the application's.
    pub fn variable(&self, x: VarId) -> &Variable
        requires { x.0 < length self.now.variables }
        ensures { variable_of result.now ≡ variable_at self.now x.0 }
    {
        &self.parts.variables[x.0]
    }

    /// The declared range of a variable of the application.
    pub fn range(&self, x: VarId) -> Range
        requires { x.0 < length self.now.variables }
        ensures lo { result.lo ≡ (variable_at self.now x.0).lo }
        ensures hi { result.hi ≡ (variable_at self.now x.0).hi }
    {
        let variable = &self.parts.variables[x.0];
        Range {
            lo: i128::from(variable.lo),
            hi: i128::from(variable.hi),
        }
    }

    /// Whether an actor of the application is an interrupt.
    pub fn is_interrupt(&self, actor: ActorId) -> bool
        requires { actor.0 < length self.now.actors }
        ensures { result ≡ is_interrupt (actor_at self.now actor.0).kind }
    {
        match self.parts.actors[actor.0].kind {
            ActorKind::Task => false,
            ActorKind::Interrupt => true,
        }
    }

    /// The variables, by number.
    pub fn variables(&self) -> &[Variable]
        ensures { map variable_of result.now ≡ self.now.variables }
    {
        &self.parts.variables
    }

    /// The objects, by number.
    pub fn objects(&self) -> &[Object]
        ensures { map object_of result.now ≡ self.now.objects }
    {
        &self.parts.objects
    }

    /// The actors, by number.
    pub fn actors(&self) -> &[Actor]
        ensures { map actor_of result.now ≡ self.now.actors }
    {
        &self.parts.actors
    }
}

/// The number of the point on this side of an instruction whose first point has the number `start`; None
/// where the instruction has no such side.
fn number_from(start: usize, instr: Instr, side: Side) -> Option<usize>
    requires { HasSide instr side → start + side_number side < 2 ^ 64 }
    ensures some { IfSome result (λ k. HasSide instr side × (k ≡ start + side_number side)) }
    ensures none { IfNone result (HasSide instr side → ⊥) }
{
    match (side, instr) {
        (Side::Before, _) => Some(start),
        (Side::Inside, Instr::Call(Call::On { .. })) => Some(start + 1),
        _ => None,
    }
}

/// The table of the points of these parts; else a fault that is present in them, or `Memory` where an
/// allocation was refused.
fn checked_table(alloc: Global, parts: &Parts) -> Result<Table, BuildFault>
    ensures points { IfOk result (λ t. t.points.items ≡ points_of (program_of parts.now)) }
    ensures starts { IfOk result
        (λ t. map (λ v. v.items) t.starts.items ≡ starts_from 0 (program_of parts.now).actors) }
    ensures faultless { OnOk result (IsFaultless (program_of parts.now)) }
    ensures present { IfErr result
        (λ f. f ≢ BuildFault.Memory → IsFreeOf (program_of parts.now) f → ⊥) }
{
    check_parts(alloc, parts)?;
    table_of(alloc, &parts.actors)
}
