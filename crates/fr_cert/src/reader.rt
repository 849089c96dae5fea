// Readers: one for each kind of value of the text, and how an object or a list that has such values is read by one.
ghost use Rattle.std.specs.Prelude.{◌≡◌, ◌⊎◌, IfOk, IfErr, IfSome, IfNone, Any, AllPairs, map};
ghost use Rattle.serde_json.specs.View.{view, items_view, members_view};
ghost use Rattle.fr_cert.specs.Shapes.{At, AtOrDefault, EachEntry, EachMember};
ghost use Rattle.fr_cert.specs.Faults.{Standing, InNeeded, InField, InEntries, InMembers, IsTwice};

use crate::fault::CertFault;
use crate::key::Key;
use crate::scope::Scope;
use crate::tree::{departs_at, found_at, list_in, object_in, within_key, within_position};
use serde_json::{Map, Value};
use std::alloc::Global;

/// A kind of value: what is read for one, or the fault that is in it.
pub(crate) trait Reader {
    ghost use Rattle.serde_json.specs.Data.{Data};
    ghost use Rattle.fr_program.specs.Program.{Program};
    ghost use Rattle.fr_cert.specs.declared.fault.CertFault.{CertFault as Refusal};

    type Item: Drop;

    // What an item is in the definitions.
    ghost Seen: { Type 0 };

    ghost seen: { Self.Item → Seen };

    // The value means this, in a text for the application.
    ghost Means: { Self → Program → Data → Seen → Type 0 };

    // The fault is in the value.
    ghost Faults: { Self → Program → Data → Refusal → Type 0 };

    fn read(&self, scope: &Scope, value: &Value) -> Result<Self::Item, CertFault>
        ensures ok { IfOk result (λ x. Means self.now scope.now (view value.now) (seen x)) }
        ensures err { IfErr result (Standing (Faults self.now scope.now (view value.now))) };
}

/// A kind of entry of a list, in which no two are alike.
pub(crate) trait Entry {
    ghost use Rattle.serde_json.specs.Data.{Data};
    ghost use Rattle.fr_program.specs.Program.{Program};
    ghost use Rattle.fr_cert.specs.declared.fault.CertFault.{CertFault as Refusal};

    type Item: Drop;

    ghost Seen: { Type 0 };

    ghost seen: { Self.Item → Seen };

    ghost Means: { Self → Program → Data → Seen → Type 0 };

    ghost Faults: { Self → Program → Data → Refusal → Type 0 };

    ghost AreAlike: { Seen → Seen → Type 0 };

    // The fault of an entry that is like one before it.
    ghost twice: { Refusal };

    fn read(&self, scope: &Scope, value: &Value) -> Result<Self::Item, CertFault>
        ensures ok { IfOk result (λ x. Means self.now scope.now (view value.now) (seen x)) }
        ensures err { IfErr result (Standing (Faults self.now scope.now (view value.now))) };

    /// The fault of an item that is like one of those before it.
    fn again(alloc: Global, before: &[Self::Item], item: &Self::Item) -> Option<CertFault>
        ensures none { IfNone result (Any (λ other. AreAlike (seen other) (seen item.now)) before.now → ⊥) }
        ensures some { IfSome result (λ f. (f ≡ twice) × Any (λ other. AreAlike (seen other) (seen item.now)) before.now) };
}

/// A kind of member of an object, with its name.
pub(crate) trait Member {
    ghost use Rattle.std.specs.Prelude.{ℕ, List};
    ghost use Rattle.serde_json.specs.Data.{Data};
    ghost use Rattle.fr_program.specs.Program.{Program};
    ghost use Rattle.fr_cert.specs.declared.fault.CertFault.{CertFault as Refusal};

    type Item: Drop;

    ghost Seen: { Type 0 };

    ghost seen: { Self.Item → Seen };

    ghost Means: { Self → Program → List ℕ → Data → Seen → Type 0 };

    ghost Faults: { Self → Program → List ℕ → Data → Refusal → Type 0 };

    fn read(&self, scope: &Scope, name: &str, value: &Value) -> Result<Self::Item, CertFault>
        ensures ok { IfOk result (λ x. Means self.now scope.now name.now (view value.now) (seen x)) }
        ensures err { IfErr result (Standing (Faults self.now scope.now name.now (view value.now))) };
}

/// What the object holds at a key, which it has to have.
pub(crate) fn needed<R: Reader>(
    scope: &Scope,
    object: &Map<String, Value>,
    key: Key,
    reader: &R,
) -> Result<R::Item, CertFault>
    ensures ok { IfOk result
        (λ x. At key (R.Means reader.now scope.now) (members_view object.now.entries) (R.seen x)) }
    ensures err { IfErr result
        (Standing (InNeeded key (R.Faults reader.now scope.now) (members_view object.now.entries))) }
{
    let Some(value) = found_at(object, key) else {
        return Err(departs_at(scope.alloc, key.text()));
    };
    match reader.read(scope, value) {
        Ok(item) => Ok(item),
        Err(fault) => Err(within_key(scope.alloc, key.text(), fault)),
    }
}

/// What the object holds at a key, or the default where it has no such key.
pub(crate) fn optional<R: Reader>(
    scope: &Scope,
    object: &Map<String, Value>,
    key: Key,
    default: R::Item,
    reader: &R,
) -> Result<R::Item, CertFault>
    ensures ok { IfOk result
        (λ x. AtOrDefault key (R.seen default) (R.Means reader.now scope.now) (members_view object.now.entries) (R.seen x)) }
    ensures err { IfErr result
        (Standing (InField key (R.Faults reader.now scope.now) (members_view object.now.entries))) }
{
    let Some(value) = found_at(object, key) else {
        return Ok(default);
    };
    match reader.read(scope, value) {
        Ok(item) => Ok(item),
        Err(fault) => Err(within_key(scope.alloc, key.text(), fault)),
    }
}

/// Each entry of a list, in its order, no two of them alike.
pub(crate) fn each_entry<E: Entry>(
    scope: &Scope,
    list: &Vec<Value>,
    reader: &E,
) -> Result<Vec<E::Item>, CertFault>
    ensures ok { IfOk result
        (λ v. EachEntry (E.Means reader.now scope.now) (items_view list.now.items) (map E.seen v.items)) }
    ensures apart { IfOk result (λ v. AllPairs (λ x y. E.AreAlike x y → ⊥) (map E.seen v.items)) }
    ensures err { IfErr result
        (Standing (λ f. InEntries (E.Faults reader.now scope.now) (items_view list.now.items) f
        ⊎ IsTwice (E.Means reader.now scope.now) E.AreAlike E.twice (items_view list.now.items) f)) }
{
    let mut items = Vec::new(scope.alloc);
    for (index, value) in list.iter().enumerate() {
        match reader.read(scope, value) {
            Ok(item) => match E::again(scope.alloc, &items, &item) {
                None => items.push(item)?,
                Some(fault) => return Err(within_position(index, fault)),
            },
            Err(fault) => return Err(within_position(index, fault)),
        }
    }
    Ok(items)
}

/// Each member of an object, in its order.
fn each_member<M: Member>(
    scope: &Scope,
    object: &Map<String, Value>,
    reader: &M,
) -> Result<Vec<M::Item>, CertFault>
    ensures ok { IfOk result
        (λ v. EachMember (M.Means reader.now scope.now) (members_view object.now.entries) (map M.seen v.items)) }
    ensures err { IfErr result
        (Standing (InMembers (M.Faults reader.now scope.now) (members_view object.now.entries))) }
{
    let mut items = Vec::new(scope.alloc);
    for (name, value) in object {
        items.push(reader.read(scope, name.as_str(), value)?)?;
    }
    Ok(items)
}

/// A list whose entries are all of one kind.
pub(crate) struct Entries<E>(pub(crate) E);

impl<E: Entry> Reader for Entries<E> {
    ghost use Rattle.std.specs.Prelude.{List};
    ghost use Rattle.fr_cert.specs.Shapes.{IsList};
    ghost use Rattle.fr_cert.specs.Faults.{InList};

    type Item = Vec<E::Item>;

    ghost Seen = { List E.Seen };

    ghost seen = { λ v. map E.seen v.items };

    ghost Means = { λ r P. IsList (λ ds xs. EachEntry (E.Means r.0 P) ds xs × AllPairs (λ x y. E.AreAlike x y → ⊥) xs) };

    ghost Faults = { λ r P. InList (λ ds f. InEntries (E.Faults r.0 P) ds f ⊎ IsTwice (E.Means r.0 P) E.AreAlike E.twice ds f) };

    fn read(&self, scope: &Scope, value: &Value) -> Result<Vec<E::Item>, CertFault> {
        each_entry(scope, list_in(scope.alloc, value)?, &self.0)
    }
}

/// An object whose members are all of one kind.
pub(crate) struct Members<M>(pub(crate) M);

impl<M: Member> Reader for Members<M> {
    ghost use Rattle.std.specs.Prelude.{List};
    ghost use Rattle.fr_cert.specs.Shapes.{IsObject};
    ghost use Rattle.fr_cert.specs.Faults.{InObject};

    type Item = Vec<M::Item>;

    ghost Seen = { List M.Seen };

    ghost seen = { λ v. map M.seen v.items };

    ghost Means = { λ r P. IsObject (EachMember (M.Means r.0 P)) };

    ghost Faults = { λ r P. InObject (InMembers (M.Faults r.0 P)) };

    fn read(&self, scope: &Scope, value: &Value) -> Result<Vec<M::Item>, CertFault> {
        each_member(scope, object_in(scope.alloc, value)?, &self.0)
    }
}
