// What a step changes of a state: a place, a number, a depth or an object.
ghost use Rattle.std.specs.Prelude.{◌≡◌, ◌≤◌, ◌<◌, ◌+◌, ◌-◌, ℤ, List, ◌∷◌, length, IfSome, IfNone, IsSome, OnOk, OnErr};
ghost use Rattle.fr_program.specs.Limits.{KindInLimits};
ghost use Rattle.fr_calls.specs.View.{placed};
ghost use Rattle.fr_rules.specs.State.{Dead, Values, content_of, suspension_of, depth_of, count_held, new_content, write, becomes, suspend_at, in_critical, critical_at, goes_to};
ghost use Rattle.fr_rules.specs.Step.{taken, given, queued, sent_bytes, received_bytes, sent_message, received_message, with_result, Puts};

use crate::content::Content;
use crate::state::{Place, State};
use fr_program::{ActorId, Kind, ObjId, VarId};
use std::alloc::AllocError;

impl State {
    /// The actor is at this place now.
    pub(crate) fn go_to(&mut self, actor: ActorId, place: Place)
        requires { actor.0 < length self.old.places }
        ensures { self.new ≡ goes_to actor.0 (placed place) self.old }
    {
        self.places[actor.0] = place;
    }

    /// The variable has this number now.
    pub(crate) fn write(&mut self, x: VarId, value: i64)
        requires { x.0 < length self.old.values }
        ensures { self.new ≡ write x.0 value self.old }
    {
        self.values[x.0] = value;
    }

    /// The number that a call gives goes to its variable, where the line names one.
    pub(crate) fn put_result(&mut self, into: Option<VarId>, value: i64)
        requires { IfSome into (λ x. x.0 < length self.old.values) }
        ensures { self.new ≡ with_result into value self.old }
    {
        if let Some(x) = into {
            self.write(x, value);
        }
    }

    /// The actor is one deeper in the critical section.
    pub(crate) fn enter(&mut self, actor: ActorId)
        requires { depth_of self.old actor.0 ≤ 255 }
        ensures { self.new ≡ in_critical actor.0 (depth_of self.old actor.0 + 1) self.old }
    {
        let depth = self.depth(actor);
        self.critical = Some((actor, depth + 1));
    }

    /// The actor is one less deep in the critical section, at 0 nobody is in it.
    pub(crate) fn leave(&mut self, actor: ActorId)
        ensures { self.new ≡ critical_at actor.0 (depth_of self.old actor.0 - 1) self.old }
    {
        let depth = self.depth(actor).saturating_sub(1);
        self.critical = if depth == 0 {
            None
        } else {
            Some((actor, depth))
        };
    }

    /// The actor has suspended the scheduler once more.
    pub(crate) fn suspend(&mut self, actor: ActorId)
        requires actor { actor.0 < length self.old.suspended }
        requires small { suspension_of self.old actor.0 ≤ 255 }
        ensures { self.new ≡ suspend_at actor.0 (suspension_of self.old actor.0 + 1) self.old }
    {
        self.suspended[actor.0] += 1;
    }

    /// The actor has resumed the scheduler once.
    pub(crate) fn resume(&mut self, actor: ActorId)
        requires { actor.0 < length self.old.suspended }
        ensures { self.new ≡ suspend_at actor.0 (suspension_of self.old actor.0 - 1) self.old }
    {
        self.suspended[actor.0] = self.suspended[actor.0].saturating_sub(1);
    }

    /// The object is new.
    pub(crate) fn create(&mut self, object: ObjId, kind: Kind)
        requires object { object.0 < length self.old.objects }
        requires limits { KindInLimits kind }
        ensures { self.new ≡ becomes object.0 (new_content kind) self.old }
    {
        self.objects[object.0] = Content::new(self.alloc, kind);
    }

    /// The object is dead, its content and its holder gone.
    pub(crate) fn delete(&mut self, object: ObjId)
        requires { object.0 < length self.old.objects }
        ensures { self.new ≡ becomes object.0 Dead self.old }
    {
        self.objects[object.0] = Content::dead();
    }

    /// The actor takes the object.
    pub(crate) fn take(&mut self, object: ObjId, kind: Kind, actor: ActorId)
        requires object { object.0 < length self.old.objects }
        requires can { IsSome (taken kind actor.0 (content_of self.old object.0)) }
        requires small { count_held actor.0 (content_of self.old object.0) ≤ 255 }
        ensures { Puts object.0 (taken kind actor.0 (content_of self.old object.0)) self.old self.new }
    {
        let content = &mut self.objects[object.0];
        content.take(kind, actor);
    }

    /// The object is given.
    pub(crate) fn give(&mut self, object: ObjId, kind: Kind)
        requires object { object.0 < length self.old.objects }
        requires can { IsSome (given kind (content_of self.old object.0)) }
        requires limits { KindInLimits kind }
        ensures { Puts object.0 (given kind (content_of self.old object.0)) self.old self.new }
    {
        let content = &mut self.objects[object.0];
        content.give(kind);
    }

    /// The value is put last in the queue; where memory is refused, all is as it was.
    pub(crate) fn put(&mut self, object: ObjId, kind: Kind, value: i64) -> Result<(), AllocError>
        requires object { object.0 < length self.old.objects }
        requires can { IsSome (queued value kind (content_of self.old object.0)) }
        ensures ok { OnOk result
            (Puts object.0 (queued value kind (content_of self.old object.0)) self.old self.new) }
        ensures err { OnErr result (self.new ≡ self.old) }
    {
        let content = &mut self.objects[object.0];
        content.put(kind, value)
    }

    /// The queue's first value is taken, if it has one.
    pub(crate) fn take_first(&mut self, object: ObjId) -> Option<i64>
        requires { object.0 < length self.old.objects }
        ensures some { IfSome result (λ v. (rest : List ℤ) × (content_of self.old object.0 ≡ Values (v ∷ rest))
            × (self.new ≡ becomes object.0 (Values rest) self.old)) }
        ensures none { IfNone result
            ((v : ℤ) (rest : List ℤ) → content_of self.old object.0 ≡ Values (v ∷ rest) → ⊥) }
    {
        let content = &mut self.objects[object.0];
        content.take_first()
    }

    /// So many bytes are sent to the stream buffer.
    pub(crate) fn send_bytes(&mut self, object: ObjId, kind: Kind, bytes: u32)
        requires object { object.0 < length self.old.objects }
        requires can { IsSome (sent_bytes bytes kind (content_of self.old object.0)) }
        requires limits { KindInLimits kind }
        ensures { Puts object.0 (sent_bytes bytes kind (content_of self.old object.0)) self.old self.new }
    {
        let content = &mut self.objects[object.0];
        content.send_bytes(kind, bytes);
    }

    /// So many bytes are received from the stream buffer.
    pub(crate) fn receive_bytes(&mut self, object: ObjId, bytes: u32)
        requires object { object.0 < length self.old.objects }
        requires can { IsSome (received_bytes bytes (content_of self.old object.0)) }
        ensures { Puts object.0 (received_bytes bytes (content_of self.old object.0)) self.old self.new }
    {
        let content = &mut self.objects[object.0];
        content.receive_bytes(bytes);
    }

    /// A message of this length is put last; where memory is refused, all is as it was.
    pub(crate) fn send_message(
        &mut self,
        object: ObjId,
        kind: Kind,
        size: u32,
    ) -> Result<(), AllocError>
        requires object { object.0 < length self.old.objects }
        requires can { IsSome (sent_message size kind (content_of self.old object.0)) }
        requires limits { KindInLimits kind }
        ensures ok { OnOk result
            (Puts object.0 (sent_message size kind (content_of self.old object.0)) self.old self.new) }
        ensures err { OnErr result (self.new ≡ self.old) }
    {
        let content = &mut self.objects[object.0];
        content.send_message(kind, size)
    }

    /// The first message, which has this length, is taken.
    pub(crate) fn receive_message(&mut self, object: ObjId, size: u32)
        requires object { object.0 < length self.old.objects }
        requires can { IsSome (received_message size (content_of self.old object.0)) }
        ensures { Puts object.0 (received_message size (content_of self.old object.0)) self.old self.new }
    {
        let content = &mut self.objects[object.0];
        content.receive_message(size);
    }
}
