// Reading values of a JSON tree by shape, each departure with its path.
ghost use Rattle.std.specs.Prelude.{◌≡◌, ◌∷◌, [], false, Some, None, option_map, OnOk, IfOk, IfErr};
ghost use Rattle.serde_json.specs.Find.{as_array, as_object, as_str};
ghost use Rattle.serde_json.specs.View.{view, members_view, items_view};
ghost use Rattle.fr_cert.specs.Path.{key, at, step_of};
ghost use Rattle.fr_cert.specs.Keys.{key_text, field, integer_of, AreKnown};
ghost use Rattle.fr_cert.specs.Faults.{is_memory, Standing, Departs, deeper, InKeys, InInteger};

use crate::fault::CertFault;
use crate::key::{Key, Keyed, is_key_of};
use crate::path::{Path, Step};
use serde_json::{Map, Value};
use std::alloc::{AllocError, Global};

/// The value itself departs.
pub(crate) fn departs(alloc: Global) -> CertFault
    ensures { Departs [] result }
{
    CertFault::Shape(Path::whole(alloc))
}

/// The same fault, seen from a value that has the one with the fault at this step.
fn deeper(step: Step, fault: CertFault) -> Result<CertFault, AllocError>
    ensures { IfOk result (λ f. f ≡ deeper (step_of step) fault) }
{
    Ok(match fault {
        CertFault::Shape(path) => CertFault::Shape(path.within(step)?),
        CertFault::UnknownName(path, name) => CertFault::UnknownName(path.within(step)?, name),
        CertFault::Note(path) => CertFault::Note(path.within(step)?),
        CertFault::Guard(path) => CertFault::Guard(path.within(step)?),
        CertFault::EndTwice(path) => CertFault::EndTwice(path.within(step)?),
        CertFault::Alternatives(path) => CertFault::Alternatives(path.within(step)?),
        other => other,
    })
}

/// The same fault, seen from a value that has the one with the fault at a key.
pub(crate) fn within_key(alloc: Global, name: &str, fault: CertFault) -> CertFault
    ensures { Standing (λ f. f ≡ deeper (key name.now) fault) result }
{
    let Ok(name) = String::from_str(alloc, name) else {
        return CertFault::Memory;
    };
    match deeper(Step::Key(name), fault) {
        Ok(fault) => fault,
        Err(_) => CertFault::Memory,
    }
}

/// The same fault, seen from a value that has the one with the fault at a position.
pub(crate) fn within_position(index: usize, fault: CertFault) -> CertFault
    ensures { Standing (λ f. f ≡ deeper (at index) fault) result }
{
    match deeper(Step::At(index), fault) {
        Ok(fault) => fault,
        Err(_) => CertFault::Memory,
    }
}

/// The value at this key departs.
pub(crate) fn departs_at(alloc: Global, name: &str) -> CertFault
    ensures { Standing (Departs (key name.now ∷ [])) result }
{
    within_key(alloc, name, departs(alloc))
}

/// The value at this position departs.
pub(crate) fn departs_in(alloc: Global, index: usize) -> CertFault
    ensures { Standing (Departs (at index ∷ [])) result }
{
    within_position(index, departs(alloc))
}

/// What the object holds at the key.
pub(crate) fn found_at(map: &Map<String, Value>, key: Key) -> Option<&Value>
    ensures { option_map (λ v. view v.now) result ≡ field key (members_view map.now.entries) }
{
    map.get(key.text())
}

/// What the object holds at the key, taken out of it.
pub(crate) fn taken_at(map: &mut Map<String, Value>, key: Key) -> Option<Value>
    ensures { option_map view result ≡ field key (members_view map.old.entries) }
{
    map.remove(key.text())
}

/// The whole number that a value is: one for which the crate's `as_i64` or `as_u64` answers.
pub(crate) fn integer_of(value: &Value) -> Option<i128>
    ensures { result ≡ integer_of (view value.now) }
{
    match value.as_number() {
        Some(number) => number.as_i128(),
        None => None,
    }
}

/// The integer that the value has to be.
pub(crate) fn integer_in(alloc: Global, value: &Value) -> Result<i128, CertFault>
    ensures ok { IfOk result (λ z. integer_of (view value.now) ≡ Some z) }
    ensures err { IfErr result (InInteger (view value.now)) }
{
    match integer_of(value) {
        Some(number) => Ok(number),
        None => Err(departs(alloc)),
    }
}

/// The list that the value has to be.
pub(crate) fn list_in(alloc: Global, value: &Value) -> Result<&Vec<Value>, CertFault>
    ensures ok { IfOk result (λ v. as_array (view value.now) ≡ Some (items_view v.now.items)) }
    ensures err { IfErr result (λ f. (as_array (view value.now) ≡ None) × Departs [] f) }
{
    match value.as_array() {
        Some(list) => Ok(list),
        None => Err(departs(alloc)),
    }
}

/// The list that the value has to be, taken out of it.
pub(crate) fn list_of(alloc: Global, value: Value) -> Result<Vec<Value>, CertFault>
    ensures ok { IfOk result (λ list. as_array (view value) ≡ Some (items_view list.items)) }
    ensures err { IfErr result (λ f. (as_array (view value) ≡ None) × Departs [] f) }
{
    match value {
        Value::Array(list) => Ok(list),
        _ => Err(departs(alloc)),
    }
}

/// The text that the value has to be.
pub(crate) fn text_in(alloc: Global, value: &Value) -> Result<&str, CertFault>
    ensures ok { IfOk result (λ s. as_str (view value.now) ≡ Some s.now) }
    ensures err { IfErr result (λ f. (as_str (view value.now) ≡ None) × Departs [] f) }
{
    match value.as_str() {
        Some(text) => Ok(text),
        None => Err(departs(alloc)),
    }
}

/// The object that the value has to be.
pub(crate) fn object_in(alloc: Global, value: &Value) -> Result<&Map<String, Value>, CertFault>
    ensures ok { IfOk result
        (λ map. as_object (view value.now) ≡ Some (members_view map.now.entries)) }
    ensures err { IfErr result (λ f. (as_object (view value.now) ≡ None) × Departs [] f) }
{
    match value.as_object() {
        Some(object) => Ok(object),
        None => Err(departs(alloc)),
    }
}

/// The object that the value has to be, taken out of it.
pub(crate) fn object_of(alloc: Global, value: Value) -> Result<Map<String, Value>, CertFault>
    ensures ok { IfOk result (λ map. as_object (view value) ≡ Some (members_view map.entries)) }
    ensures err { IfErr result (λ f. (as_object (view value) ≡ None) × Departs [] f) }
{
    match value {
        Value::Object(object) => Ok(object),
        _ => Err(departs(alloc)),
    }
}

/// No key of the object is unknown at its place.
pub(crate) fn known_keys(
    alloc: Global,
    map: &Map<String, Value>,
    place: Keyed,
) -> Result<(), CertFault>
    ensures ok { OnOk result (AreKnown place (members_view map.now.entries)) }
    ensures err { IfErr result (Standing (InKeys place (members_view map.now.entries))) }
{
    for name in map.keys() {
        if !is_key_of(place, name.as_str()) {
            return Err(departs_at(alloc, name.as_str()));
        }
    }
    Ok(())
}
