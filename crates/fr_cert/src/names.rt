// Names in the text, and the numbers of the things that they name.
ghost use Rattle.std.specs.Prelude.{◌≡◌, [], Some, None, IfOk, IfErr, IfSome, IfNone, Any};
ghost use Rattle.serde_json.specs.View.{view};
ghost use Rattle.fr_instr.specs.Names.{place_of};
ghost use Rattle.fr_cert.specs.Keys.{names_in};
ghost use Rattle.fr_cert.specs.Named.{list_of};
ghost use Rattle.fr_cert.specs.Shapes.{IsNamed};
ghost use Rattle.fr_cert.specs.Faults.{Standing, IsUnknown, InNamed};

use crate::fault::CertFault;
use crate::path::Path;
use crate::reader::{Entry, Reader};
use crate::scope::Scope;
use crate::tree::{text_in, within_key};
use fr_program::ObjId;
use serde_json::Value;
use std::alloc::Global;

/// What a name can be the name of.
#[derive(Clone, Copy)]
pub(crate) enum Thing {
    Variable,
    Object,
    Actor,
}

/// The number of the thing with this name.
fn number_of(scope: &Scope, thing: Thing, name: &str) -> Option<usize>
    ensures { result ≡ place_of (list_of thing (names_in scope.now)) name.now }
{
    match thing {
        Thing::Variable => match scope.names.variable(name) {
            Some(variable) => Some(variable.0),
            None => None,
        },
        Thing::Object => match scope.names.object(name) {
            Some(object) => Some(object.0),
            None => None,
        },
        Thing::Actor => match scope.names.actor(name) {
            Some(actor) => Some(actor.0),
            None => None,
        },
    }
}

/// The name is that of nothing.
fn unknown(alloc: Global, name: &str) -> CertFault
    ensures { Standing (IsUnknown name.now) result }
{
    match String::from_str(alloc, name) {
        Ok(name) => CertFault::UnknownName(Path::whole(alloc), name),
        Err(_) => CertFault::Memory,
    }
}

/// The number of the thing that has to have this name.
fn number_named(scope: &Scope, thing: Thing, name: &str) -> Result<usize, CertFault>
    ensures ok { IfOk result (λ n. place_of (list_of thing (names_in scope.now)) name.now ≡ Some n) }
    ensures err { IfErr result
        (Standing (λ f. (place_of (list_of thing (names_in scope.now)) name.now ≡ None) × IsUnknown name.now f)) }
{
    match number_of(scope, thing, name) {
        Some(number) => Ok(number),
        None => Err(unknown(scope.alloc, name)),
    }
}

/// The number of the thing with this name, and what the value beside it means.
pub(crate) fn named<R: Reader>(
    scope: &Scope,
    thing: Thing,
    name: &str,
    value: &Value,
    reader: &R,
) -> Result<(usize, R::Item), CertFault>
    ensures ok { IfOk result
        (λ x. IsNamed (list_of thing (names_in scope.now)) (R.Means reader.now scope.now) name.now (view value.now) (x.0, R.seen x.1)) }
    ensures err { IfErr result
        (Standing (InNamed (list_of thing (names_in scope.now)) (R.Faults reader.now scope.now) name.now (view value.now))) }
{
    let number = number_named(scope, thing, name)?;
    match reader.read(scope, value) {
        Ok(item) => Ok((number, item)),
        Err(fault) => Err(within_key(scope.alloc, name, fault)),
    }
}

/// A name of such a thing.
pub(crate) struct Name(pub(crate) Thing);

impl Reader for Name {
    ghost use Rattle.std.specs.Prelude.{ℕ};
    ghost use Rattle.fr_cert.specs.Shapes.{Names};
    ghost use Rattle.fr_cert.specs.Faults.{InName};

    type Item = usize;

    ghost Seen = { ℕ };

    ghost seen = { λ n. n };

    ghost Means = { λ name P. Names (list_of name.0 (names_in P)) };

    ghost Faults = { λ name P. InName (list_of name.0 (names_in P)) };

    fn read(&self, scope: &Scope, value: &Value) -> Result<usize, CertFault> {
        number_named(scope, self.0, text_in(scope.alloc, value)?)
    }
}

/// An object's name, in a list of different ones.
pub(crate) struct ObjectName;

impl Entry for ObjectName {
    ghost use Rattle.std.specs.Prelude.{ℕ};
    ghost use Rattle.fr_cert.specs.Shapes.{Names};
    ghost use Rattle.fr_cert.specs.Faults.{InName};
    ghost use Rattle.fr_cert.specs.Views.{number_of};
    ghost use Rattle.fr_cert.specs.declared.fault.CertFault.TheVariants.{Note};

    type Item = ObjId;

    ghost Seen = { ℕ };

    ghost seen = { number_of };

    ghost Means = { λ _ P. Names (names_in P).objects };

    ghost Faults = { λ _ P. InName (names_in P).objects };

    ghost AreAlike = { λ n m. n ≡ m };

    ghost twice = { Note [] };

    fn read(&self, scope: &Scope, value: &Value) -> Result<ObjId, CertFault> {
        Ok(ObjId(Name(Thing::Object).read(scope, value)?))
    }

    fn again(alloc: Global, before: &[ObjId], object: &ObjId) -> Option<CertFault> {
        if before.iter().any(|other| other.0 == object.0) {
            Some(CertFault::Note(Path::whole(alloc)))
        } else {
            None
        }
    }
}
