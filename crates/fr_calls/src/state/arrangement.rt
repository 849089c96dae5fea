// States that are put together by hand: each change leaves a state that fits the application. And a second state that is
// the same.
ghost use Rattle.std.specs.Prelude.{◌≡◌, ◌≤◌, ◌<◌, ◌↔◌, ◌≤ℤ◌, ℕ, ℤ, pos, length, sum, All, IsTrue, IsFalse, IfOk, OnOk};
ghost use Rattle.fr_program.specs.Lookup.{IsPoint};
ghost use Rattle.fr_rules.specs.State.{IsWellFormed, At, Done, CanHave, kind_of, write, becomes, suspend_at, critical_at, goes_to};

use crate::content::{Content, Stock};
use crate::state::{Place, State};
use fr_program::{ActorId, App, Kind, ObjId, Point, VarId};
use std::alloc::{AllocError, Global};
use std::collections::VecDeque;

/// Whether so many things fit in this size.
fn fits_in(count: usize, size: i64) -> bool
    ensures { IsTrue result ↔ (pos count ≤ℤ size) }
{
    (count as i128) <= i128::from(size)
}

/// Whether each number is this one or a greater one.
fn are_from(values: &VecDeque<i64>, lo: i64) -> bool
    ensures { IsTrue result ↔ All (λ v. lo ≤ℤ v) values.now.items }
{
    values.iter().all(|value| lo <= *value)
}

/// Whether each number is this one or a lesser one.
fn are_up_to(values: &VecDeque<i64>, hi: i64) -> bool
    ensures { IsTrue result ↔ All (λ v. v ≤ℤ hi) values.now.items }
{
    values.iter().all(|value| *value <= hi)
}

/// Whether each number is in this range.
fn are_within(values: &VecDeque<i64>, lo: i64, hi: i64) -> bool
    ensures { IsTrue result ↔ All (λ v. (lo ≤ℤ v) × (v ≤ℤ hi)) values.now.items }
{
    are_from(values, lo) && are_up_to(values, hi)
}

/// Whether each message has a byte or more.
fn are_long(lengths: &VecDeque<u32>) -> bool
    ensures { IsTrue result ↔ All (λ n. 1 ≤ n) lengths.now.items }
{
    lengths.iter().all(|length| *length >= 1)
}

/// Whether an object of this kind can have it. A mutex's holder is an actor of the application.
fn can_have(app: &App, kind: Kind, content: &Content) -> bool
    ensures { IsTrue result ↔ CanHave app.now kind content.now }
{
    match (kind, content.stock()) {
        (_, Stock::Dead) => true,
        (Kind::Queue { size, lo, hi }, Stock::Values(values)) => {
            fits_in(values.len(), size) && are_within(values, lo, hi)
        }
        (Kind::Binary, Stock::Count(count)) => *count <= 1,
        (Kind::Counting { size, .. }, Stock::Count(count)) => i64::from(*count) <= size,
        (Kind::Mutex | Kind::Recursive, Stock::Free) => true,
        (Kind::Mutex, Stock::Held { holder, count }) => {
            holder.0 < app.actors().len() && *count == 1
        }
        (Kind::Recursive, Stock::Held { holder, count }) => {
            holder.0 < app.actors().len() && *count >= 1
        }
        (Kind::Stream { size }, Stock::Bytes(bytes)) => i64::from(*bytes) <= size,
        (Kind::Message { size }, Stock::Lengths(messages)) => {
            i128::from(messages.total()) <= i128::from(size) && are_long(messages.lengths())
        }
        _ => false,
    }
}

impl Content {
    /// The same content once more.
    fn copied(&self) -> Result<Content, AllocError>
        ensures { IfOk result (λ c. c ≡ self.now) }
    {
        Ok(Content::of(match self.stock() {
            Stock::Dead => Stock::Dead,
            Stock::Values(values) => Stock::Values(values.clone()?),
            Stock::Count(count) => Stock::Count(*count),
            Stock::Free => Stock::Free,
            Stock::Held { holder, count } => Stock::Held {
                holder: *holder,
                count: *count,
            },
            Stock::Bytes(bytes) => Stock::Bytes(*bytes),
            Stock::Lengths(messages) => Stock::Lengths(messages.copied()?),
        }))
    }
}

/// The contents become the same as others; the list's memory is used again.
fn copy_contents(contents: &mut Vec<Content>, others: &[Content]) -> Result<(), AllocError>
    ensures { OnOk result (contents.new.items ≡ others.now) }
{
    contents.clear();
    for content in others {
        contents.push(content.copied()?)?;
    }
    Ok(())
}

/// The same contents once more.
fn copied_contents(alloc: Global, contents: &[Content]) -> Result<Vec<Content>, AllocError>
    ensures { IfOk result (λ v. v.items ≡ contents.now) }
{
    let mut copies = Vec::new(alloc);
    for content in contents {
        copies.push(content.copied()?)?;
    }
    Ok(copies)
}

impl State {
    /// The same state once more. Its error is that an allocation was refused.
    pub fn copied(&self) -> Result<State, AllocError>
        ensures { IfOk result (λ state. state ≡ self.now) }
    {
        Ok(State {
            places: self.places.clone()?,
            values: self.values.clone()?,
            critical: self.critical,
            suspended: self.suspended.clone()?,
            objects: copied_contents(self.alloc, &self.objects)?,
            alloc: self.alloc,
        })
    }

    /// The state becomes the same as another one, and its lists' memory is used again. Where memory is
    /// refused, what it is then is open. Its error is that an allocation was refused.
    pub fn copy_from(&mut self, other: &State) -> Result<(), AllocError>
        ensures { OnOk result (self.new ≡ other.now) }
    {
        self.places.clear();
        self.places.extend_from_slice(&other.places)?;
        self.values.clear();
        self.values.extend_from_slice(&other.values)?;
        self.suspended.clear();
        self.suspended.extend_from_slice(&other.suspended)?;
        self.critical = other.critical;
        copy_contents(&mut self.objects, &other.objects)
    }

    /// Puts the point's actor at the point.
    pub fn stand_at(&mut self, app: &App, point: Point)
        requires formed { IsWellFormed app.now self.old }
        requires point { IsPoint app.now point }
        requires actor { point.actor.0 < length app.now.actors }
        ensures now { self.new ≡ goes_to point.actor.0 (At point.pc point.side) self.old }
        ensures formed { IsWellFormed app.now self.new }
    {
        self.go_to(
            point.actor,
            Place::At {
                pc: point.pc,
                side: point.side,
            },
        );
    }

    /// Makes the actor one that is done.
    pub fn finish(&mut self, app: &App, actor: ActorId)
        requires formed { IsWellFormed app.now self.old }
        requires actor { actor.0 < length app.now.actors }
        ensures now { self.new ≡ goes_to actor.0 Done self.old }
        ensures formed { IsWellFormed app.now self.new }
    {
        let _ = app;
        self.go_to(actor, Place::Done);
    }

    /// Puts this number into the variable.
    pub fn set_value(&mut self, app: &App, x: VarId, value: i64)
        requires formed { IsWellFormed app.now self.old }
        requires variable { x.0 < length app.now.variables }
        ensures now { self.new ≡ write x.0 value self.old }
        ensures formed { IsWellFormed app.now self.new }
    {
        let _ = app;
        self.write(x, value);
    }

    /// Puts the actor into the critical section at this depth; at 0, nobody is in it.
    pub fn set_depth(&mut self, app: &App, actor: ActorId, depth: u32)
        requires formed { IsWellFormed app.now self.old }
        requires actor { actor.0 < length app.now.actors }
        ensures now { self.new ≡ critical_at actor.0 depth self.old }
        ensures formed { IsWellFormed app.now self.new }
    {
        let _ = app;
        self.critical = if depth == 0 {
            None
        } else {
            Some((actor, depth))
        };
    }

    /// Gives the actor this suspension depth.
    pub fn set_suspension(&mut self, app: &App, actor: ActorId, depth: u32)
        requires formed { IsWellFormed app.now self.old }
        requires actor { actor.0 < length app.now.actors }
        ensures now { self.new ≡ suspend_at actor.0 depth self.old }
        ensures formed { IsWellFormed app.now self.new }
    {
        let _ = app;
        self.suspended[actor.0] = depth;
    }

    /// The object has this content now.
    fn replace(&mut self, object: ObjId, content: Content)
        requires { object.0 < length self.old.objects }
        ensures { self.new ≡ becomes object.0 content self.old }
    {
        self.objects[object.0] = content;
    }

    /// Gives the object this content, and says whether the object can have it; where it can't, the state is as it was.
    pub fn set_content(&mut self, app: &App, object: ObjId, content: Content) -> bool
        requires formed { IsWellFormed app.now self.old }
        requires object { object.0 < length app.now.objects }
        ensures can { IsTrue result ↔ CanHave app.now (kind_of app.now object.0) content }
        ensures set { IsTrue result → self.new ≡ becomes object.0 content self.old }
        ensures same { IsFalse result → self.new ≡ self.old }
        ensures formed { IsWellFormed app.now self.new }
    {
        let can = can_have(app, app.kind(object), &content);
        if can {
            self.replace(object, content);
        }
        can
    }
}
