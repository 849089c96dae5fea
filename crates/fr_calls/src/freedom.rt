// Whether an actor is free to step: it breaches no rule at whose breach there is no step.
ghost use Rattle.std.specs.Prelude.{◌≡◌, ◌<◌, ◌↔◌, length, IsTrue, IsFalse};
ghost use Rattle.fr_program.specs.Fault.{NamesThings};
ghost use Rattle.fr_rules.specs.State.{IsWellFormed};
ghost use Rattle.fr_rules.specs.Rule.{GivesUnheld, UsesDead, condition_of};
ghost use Rattle.fr_rules.specs.Step.{SuitsInside, IsFree};

use crate::state::State;
use fr_program::{ActorId, App, Call, Instr, Kind, Point, Side};
use fr_rules::{Condition, first_forbidden, given_kind, is_unsuited};

/// Whether the actor isn't inside a take or a give that doesn't suit the kind of semaphore.
fn suits_inside(app: &App, side: Side, instr: &Instr) -> bool
    requires { NamesThings app.now instr.now }
    ensures { IsTrue result ↔ SuitsInside app.now side instr.now }
{
    match (side, instr) {
        (Side::Inside, Instr::Call(Call::On(call))) => {
            !is_unsuited(app.kind(call.object), call.timing, call.act)
        }
        _ => true,
    }
}

impl State {
    /// Whether it is a give of a mutex that the actor doesn't hold.
    pub(crate) fn gives_unheld(&self, app: &App, point: Point, instr: &Instr) -> bool
        requires formed { IsWellFormed app.now self.now }
        requires names { NamesThings app.now instr.now }
        ensures { IsTrue result ↔ GivesUnheld app.now self.now point.actor.0 instr.now }
    {
        let Instr::Call(Call::On(call)) = instr else {
            return false;
        };
        let asks = match (given_kind(call.act, call.timing), app.kind(call.object)) {
            (Some(Kind::Mutex), Kind::Mutex) | (Some(Kind::Recursive), Kind::Recursive) => true,
            _ => false,
        };
        asks && self.content(call.object).count_held(point.actor) == 0
    }

    /// Whether the actor is before a delete, or before or inside an object call, of an object that
    /// isn't live.
    pub(crate) fn uses_dead(&self, app: &App, side: Side, instr: &Instr) -> bool
        requires formed { IsWellFormed app.now self.now }
        requires names { NamesThings app.now instr.now }
        ensures { IsTrue result ↔ UsesDead self.now instr.now side }
    {
        match (side, instr) {
            (Side::Before, Instr::Call(Call::Delete { object, .. })) => {
                self.content(*object).is_dead()
            }
            (_, Instr::Call(Call::On(call))) => self.content(call.object).is_dead(),
            _ => false,
        }
    }

    /// What some rules ask of the actor, in this state.
    pub(crate) fn condition(&self, app: &App, actor: ActorId) -> Condition
        requires formed { IsWellFormed app.now self.now }
        requires actor { actor.0 < length app.now.actors }
        ensures { result ≡ condition_of app.now self.now actor.0 }
    {
        Condition {
            interrupt: app.is_interrupt(actor),
            critical: self.depth(actor),
            suspended: self.suspension(actor),
            holds: self.holds_some(actor),
        }
    }

    /// Whether the actor, which stands at this point before or inside this instruction, is free to
    /// step.
    pub(crate) fn is_free(&self, app: &App, point: Point, instr: &Instr) -> bool
        requires formed { IsWellFormed app.now self.now }
        requires names { NamesThings app.now instr.now }
        requires actor { point.actor.0 < length app.now.actors }
        ensures { IsTrue result ↔ IsFree app.now self.now point.actor.0 point.side instr.now }
    {
        if self.gives_unheld(app, point, instr) || self.uses_dead(app, point.side, instr) {
            return false;
        }
        if let Side::Inside = point.side {
            return suits_inside(app, point.side, instr);
        }
        let condition = self.condition(app, point.actor);
        first_forbidden(app, condition, instr).is_none()
    }
}
