// Writing the guards of ends.
ghost use Rattle.std.specs.Prelude.{◌≡◌, ◌<◌, All, IfOk, OnOk, length};
ghost use Rattle.serde_json.specs.Data.{number, string, object, no_members, member, put as with_member};
ghost use Rattle.serde_json.specs.Find.{of_integer};
ghost use Rattle.serde_json.specs.View.{view, items_view, members_view};
ghost use Rattle.fr_program.specs.Limits.{IsNumber};
ghost use Rattle.fr_program.specs.Lookup.{actor_at, object_at, variable_at};
ghost use Rattle.fr_ends.specs.Fits.{GuardFits, EndFits};
ghost use Rattle.fr_ends.specs.View.{values_of, guard_of, end_of};
ghost use Rattle.fr_ends.specs.Guard.{Turn};
ghost use Rattle.fr_cert.specs.Keys.{key_text};
ghost use Rattle.fr_cert.specs.Written.{with_values, guard_tree, end_tree, each_tree};

use crate::key::Key;
use fr_ends::{EndGuard, Ends, Guard};
use fr_program::{ActorId, App, ObjId, VarId};
use serde_json::{Map, Value, put};
use std::alloc::{AllocError, Global};
use std::collections::BTreeMap;

/// The name of an actor as a value.
fn actor_value(alloc: Global, app: &App, actor: ActorId) -> Result<Value, AllocError>
    requires { actor.0 < length app.now.actors }
    ensures { IfOk result (λ v. view v ≡ string (actor_at app.now actor.0).name) }
{
    Value::try_from_str(alloc, app.actors()[actor.0].name.as_str())
}

/// The name of an object as a value.
fn object_value(alloc: Global, app: &App, object: ObjId) -> Result<Value, AllocError>
    requires { object.0 < length app.now.objects }
    ensures { IfOk result (λ v. view v ≡ string (object_at app.now object.0).name) }
{
    Value::try_from_str(alloc, app.objects()[object.0].name.as_str())
}

/// The name of a variable as a value.
fn variable_value(alloc: Global, app: &App, variable: VarId) -> Result<Value, AllocError>
    requires { variable.0 < length app.now.variables }
    ensures { IfOk result (λ v. view v ≡ string (variable_at app.now variable.0).name) }
{
    Value::try_from_str(alloc, app.variables()[variable.0].name.as_str())
}

/// An object with this one member.
fn single(alloc: Global, key: Key, value: Value) -> Result<Value, AllocError>
    ensures { IfOk result (λ v. view v ≡ object (member (key_text key) (view value) no_members)) }
{
    let mut object = Map::new(alloc);
    put(&mut object, alloc, key.text(), value)?;
    Ok(Value::Object(object))
}

/// Adds the turn value under the actor's name.
fn add_value(
    alloc: Global,
    app: &App,
    named: &mut Map<String, Value>,
    actor: ActorId,
    value: i64,
) -> Result<(), AllocError>
    requires { actor.0 < length app.now.actors }
    ensures { OnOk result (members_view named.new.entries
        ≡ with_member (actor_at app.now actor.0).name (number (of_integer value)) (members_view named.old.entries)) }
{
    put(
        named,
        alloc,
        app.actors()[actor.0].name.as_str(),
        Value::from(value),
    )
}

/// The turn values, by the names of their actors.
fn values_value(
    alloc: Global,
    app: &App,
    values: &BTreeMap<ActorId, i64>,
) -> Result<Map<String, Value>, AllocError>
    requires { All (λ v. (v.0 < length app.now.actors) × IsNumber v.1) (values_of values.now) }
    ensures { IfOk result (λ m. members_view m.entries
        ≡ with_values app.now (values_of values.now) no_members) }
{
    let mut named = Map::new(alloc);
    for (actor, value) in values {
        add_value(alloc, app, &mut named, *actor, *value)?;
    }
    Ok(named)
}

/// The guard of a turn as a value.
fn turn_value(
    alloc: Global,
    app: &App,
    variable: VarId,
    values: &BTreeMap<ActorId, i64>,
) -> Result<Value, AllocError>
    requires { GuardFits app.now (Turn variable.0 (values_of values.now)) }
    ensures { IfOk result (λ v. view v ≡ guard_tree app.now (Turn variable.0 (values_of values.now))) }
{
    let named = values_value(alloc, app, values)?;
    let mut object = Map::new(alloc);
    put(
        &mut object,
        alloc,
        Key::Turn.text(),
        variable_value(alloc, app, variable)?,
    )?;
    put(&mut object, alloc, Key::Values.text(), Value::Object(named))?;
    Ok(Value::Object(object))
}

/// A guard as a value.
fn guard_value(alloc: Global, app: &App, guard: &Guard) -> Result<Value, AllocError>
    requires { GuardFits app.now (guard_of guard.now) }
    ensures { IfOk result (λ v. view v ≡ guard_tree app.now (guard_of guard.now)) }
{
    match guard {
        Guard::Sole(actor) => single(alloc, Key::Sole, actor_value(alloc, app, *actor)?),
        Guard::Mutex(mutex) => single(alloc, Key::Mutex, object_value(alloc, app, *mutex)?),
        Guard::Critical => Value::try_from_str(alloc, "critical"),
        Guard::Turn(variable, values) => turn_value(alloc, app, *variable, values),
    }
}

/// The guard of an end as a value.
fn end_value(alloc: Global, app: &App, end: &EndGuard) -> Result<Value, AllocError>
    requires { EndFits app.now (end_of end.now) }
    ensures { IfOk result (λ v. view v ≡ end_tree app.now (end_of end.now)) }
{
    let buffer = object_value(alloc, app, end.end.buffer)?;
    let name = Value::try_from_str(alloc, end.end.end.text())?;
    let guard = guard_value(alloc, app, &end.guard)?;
    let mut object = Map::new(alloc);
    put(&mut object, alloc, Key::Buffer.text(), buffer)?;
    put(&mut object, alloc, Key::End.text(), name)?;
    put(&mut object, alloc, Key::Guard.text(), guard)?;
    Ok(Value::Object(object))
}

/// The guards of ends as values, in the certificate's order.
pub(crate) fn ends_value(alloc: Global, app: &App, ends: &Ends) -> Result<Vec<Value>, AllocError>
    requires { All (EndFits app.now) ends.now }
    ensures { IfOk result (λ v. items_view v.items ≡ each_tree (end_tree app.now) ends.now) }
{
    let mut list = Vec::new(alloc);
    let listed = ends.listed();
    for end in listed {
        list.push(end_value(alloc, app, end)?)?;
    }
    Ok(list)
}
