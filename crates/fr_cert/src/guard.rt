// Reading the guard of an end.
ghost use Rattle.std.specs.Prelude.{◌≡◌, ◌↔◌, ◌⊎◌, ℕ, IsTrue, Some, None, IfOk, IfErr, codes, map};
ghost use Rattle.std.specs.Bool.{OnTrue, OnFalse};
ghost use Rattle.serde_json.specs.Find.{as_str};
ghost use Rattle.serde_json.specs.View.{view, members_view};
ghost use Rattle.fr_ends.specs.Certificate.{value_for};
ghost use Rattle.fr_ends.specs.Fits.{AreRising};
ghost use Rattle.fr_ends.specs.View.{guard_of, value_of, values_of};
ghost use Rattle.fr_cert.specs.Keys.{field, names_in};
ghost use Rattle.fr_cert.specs.Meaning.{IsGuardObject};
ghost use Rattle.fr_cert.specs.Faults.{Standing, InKeys, InNeeded, InName};
ghost use Rattle.fr_cert.specs.Present.{Has, InTurn, InGuardObject};

use crate::fault::CertFault;
use crate::key::{Key, Keyed};
use crate::names::{Name, Thing, named};
use crate::path::Path;
use crate::reader::{Member, Members, Reader, needed};
use crate::scope::Scope;
use crate::tree::{departs, found_at, integer_in, known_keys};
use fr_ends::Guard;
use fr_program::{ActorId, ObjId, VarId};
use serde_json::{Map, Value};
use std::alloc::{AllocError, Global};
use std::collections::BTreeMap;

/// The number of an actor's turn.
struct TurnNumber;

impl Reader for TurnNumber {
    ghost use Rattle.std.specs.Prelude.{ℤ};
    ghost use Rattle.fr_cert.specs.Meaning.{IsTurnNumber};
    ghost use Rattle.fr_cert.specs.Present.{InTurnValue};

    type Item = i64;

    ghost Seen = { ℤ };

    ghost seen = { λ z. z };

    ghost Means = { λ _ _. IsTurnNumber };

    ghost Faults = { λ _ _. InTurnValue };

    fn read(&self, scope: &Scope, value: &Value) -> Result<i64, CertFault> {
        match i64::try_from(integer_in(scope.alloc, value)?) {
            Ok(number) => Ok(number),
            Err(_) => Err(CertFault::Guard(Path::whole(scope.alloc))),
        }
    }
}

/// The number of the turn of the actor with this name.
struct NamedTurn;

impl Member for NamedTurn {
    ghost use Rattle.std.specs.Prelude.{ℤ};
    ghost use Rattle.fr_cert.specs.Shapes.{IsNamed};
    ghost use Rattle.fr_cert.specs.Meaning.{IsTurnNumber};
    ghost use Rattle.fr_cert.specs.Faults.{InNamed};
    ghost use Rattle.fr_cert.specs.Present.{InTurnValue};

    type Item = (ActorId, i64);

    ghost Seen = { ℕ × ℤ };

    ghost seen = { value_of };

    ghost Means = { λ _ P. IsNamed (names_in P).actors IsTurnNumber };

    ghost Faults = { λ _ P. InNamed (names_in P).actors InTurnValue };

    fn read(&self, scope: &Scope, name: &str, value: &Value) -> Result<(ActorId, i64), CertFault> {
        let (actor, number) = named(scope, Thing::Actor, name, value, &TurnNumber)?;
        Ok((ActorId(actor), number))
    }
}

/// What is given, by actor. Of an actor that is given twice it is the first.
fn by_actor(
    alloc: Global,
    mut given: Vec<(ActorId, i64)>,
) -> Result<BTreeMap<ActorId, i64>, AllocError>
    ensures rising { IfOk result (λ values. AreRising (values_of values)) }
    ensures same { IfOk result
        (λ values. (a : ℕ) → value_for (values_of values) a ≡ value_for (map value_of given.items) a) }
{
    let mut values = BTreeMap::new(alloc);
    while let Some((actor, number)) = given.pop() {
        values.insert(actor, number)?;
    }
    Ok(values)
}

/// The values of a turn.
struct TurnValues;

impl Reader for TurnValues {
    ghost use Rattle.std.specs.Prelude.{ℤ, List};
    ghost use Rattle.fr_cert.specs.Shapes.{IsObject};
    ghost use Rattle.fr_cert.specs.Meaning.{AreTurnValues};
    ghost use Rattle.fr_cert.specs.Faults.{InObject, InMembers, InNamed};
    ghost use Rattle.fr_cert.specs.Present.{InTurnValue};

    type Item = BTreeMap<ActorId, i64>;

    ghost Seen = { List (ℕ × ℤ) };

    ghost seen = { values_of };

    ghost Means = { λ _ P. IsObject (AreTurnValues (names_in P)) };

    ghost Faults = { λ _ P. InObject (InMembers (InNamed (names_in P).actors InTurnValue)) };

    fn read(&self, scope: &Scope, value: &Value) -> Result<BTreeMap<ActorId, i64>, CertFault> {
        let given = Members(NamedTurn).read(scope, value)?;
        Ok(by_actor(scope.alloc, given)?)
    }
}

/// The turn that the object means.
fn turn_of(scope: &Scope, object: &Map<String, Value>) -> Result<Guard, CertFault>
    ensures ok { IfOk result
        (λ guard. IsGuardObject (names_in scope.now) (members_view object.now.entries) (guard_of guard)) }
    ensures err { IfErr result
        (Standing (InTurn (names_in scope.now) (members_view object.now.entries))) }
{
    known_keys(scope.alloc, object, Keyed::Turn)?;
    let variable = needed(scope, object, Key::Turn, &Name(Thing::Variable))?;
    let values = needed(scope, object, Key::Values, &TurnValues)?;
    Ok(Guard::Turn(VarId(variable), values))
}

/// The guard of one actor alone that the object means.
fn sole_of(scope: &Scope, object: &Map<String, Value>) -> Result<Guard, CertFault>
    ensures ok { IfOk result
        (λ guard. IsGuardObject (names_in scope.now) (members_view object.now.entries) (guard_of guard)) }
    ensures err { IfErr result
        (Standing (λ f. InKeys Keyed.Sole (members_view object.now.entries) f
        ⊎ InNeeded Key.Sole (InName (names_in scope.now).actors) (members_view object.now.entries) f)) }
{
    known_keys(scope.alloc, object, Keyed::Sole)?;
    let actor = needed(scope, object, Key::Sole, &Name(Thing::Actor))?;
    Ok(Guard::Sole(ActorId(actor)))
}

/// The guard of whoever holds a mutex that the object means.
fn mutex_of(scope: &Scope, object: &Map<String, Value>) -> Result<Guard, CertFault>
    ensures ok { IfOk result
        (λ guard. IsGuardObject (names_in scope.now) (members_view object.now.entries) (guard_of guard)) }
    ensures err { IfErr result
        (Standing (λ f. InKeys Keyed.Mutex (members_view object.now.entries) f
        ⊎ InNeeded Key.Mutex (InName (names_in scope.now).objects) (members_view object.now.entries) f)) }
{
    known_keys(scope.alloc, object, Keyed::Mutex)?;
    let mutex = needed(scope, object, Key::Mutex, &Name(Thing::Object))?;
    Ok(Guard::Mutex(ObjId(mutex)))
}

/// Whether the object has this key.
fn has(object: &Map<String, Value>, key: Key) -> bool
    ensures some { OnTrue result (Has key (members_view object.now.entries)) }
    ensures none { OnFalse result (field key (members_view object.now.entries) ≡ None) }
{
    found_at(object, key).is_some()
}

/// The guard that the object means: which one it has to be, its first key says.
fn guard_in(scope: &Scope, object: &Map<String, Value>) -> Result<Guard, CertFault>
    ensures ok { IfOk result
        (λ guard. IsGuardObject (names_in scope.now) (members_view object.now.entries) (guard_of guard)) }
    ensures err { IfErr result
        (Standing (InGuardObject (names_in scope.now) (members_view object.now.entries))) }
{
    if has(object, Key::Sole) {
        return sole_of(scope, object);
    }
    if has(object, Key::Mutex) {
        return mutex_of(scope, object);
    }
    turn_of(scope, object)
}

/// Whether the value is the text `critical`.
fn is_critical(value: &Value) -> bool
    ensures { IsTrue result ↔ (as_str (view value.now) ≡ Some (codes "critical")) }
{
    match value.as_str() {
        Some(text) => text == "critical",
        None => false,
    }
}

/// A guard: the text `critical`, or an object.
pub(crate) struct GuardValue;

impl Reader for GuardValue {
    ghost use Rattle.fr_ends.specs.Guard.{Guard as GuardOf};
    ghost use Rattle.fr_cert.specs.Meaning.{IsGuard};
    ghost use Rattle.fr_cert.specs.Present.{InGuard};

    type Item = Guard;

    ghost Seen = { GuardOf };

    ghost seen = { guard_of };

    ghost Means = { λ _ P. IsGuard (names_in P) };

    ghost Faults = { λ _ P. InGuard (names_in P) };

    fn read(&self, scope: &Scope, value: &Value) -> Result<Guard, CertFault> {
        if let Some(object) = value.as_object() {
            return guard_in(scope, object);
        }
        if is_critical(value) {
            Ok(Guard::Critical)
        } else {
            Err(departs(scope.alloc))
        }
    }
}
