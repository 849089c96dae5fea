// Reading the guards of ends.
ghost use Rattle.std.specs.Prelude.{◌≡◌, [], IfOk, IfErr, IfSome, IfNone, Any, map};
ghost use Rattle.serde_json.specs.View.{view, members_view};
ghost use Rattle.fr_ends.specs.Fits.{EndFits};
ghost use Rattle.fr_ends.specs.View.{end_of};
ghost use Rattle.fr_cert.specs.Keys.{names_in};
ghost use Rattle.fr_cert.specs.Meaning.{IsEnd};
ghost use Rattle.fr_cert.specs.Faults.{Standing};
ghost use Rattle.fr_cert.specs.Present.{InKeysOfEnd, InEnd};

use crate::fault::CertFault;
use crate::guard::GuardValue;
use crate::key::{Key, Keyed};
use crate::names::{Name, Thing};
use crate::path::Path;
use crate::reader::{Entries, Entry, Reader, needed};
use crate::scope::Scope;
use crate::tree::{departs, known_keys, object_in};
use fr_ends::{EndGuard, EndName, Ends, is_listed};
use fr_program::{End, ObjId};
use serde_json::{Map, Value};
use std::alloc::Global;

/// The name of an end.
struct EndText;

impl Reader for EndText {
    ghost use Rattle.fr_program.specs.declared.instr.End.{End as BufferEnd};
    ghost use Rattle.fr_cert.specs.Meaning.{IsEndName};
    ghost use Rattle.fr_cert.specs.Present.{InEndName};

    type Item = End;

    ghost Seen = { BufferEnd };

    ghost seen = { λ end. end };

    ghost Means = { λ _ _. IsEndName };

    ghost Faults = { λ _ _. InEndName };

    fn read(&self, scope: &Scope, value: &Value) -> Result<End, CertFault> {
        match value.as_str() {
            Some("writer") => Ok(End::Writer),
            Some("reader") => Ok(End::Reader),
            _ => Err(departs(scope.alloc)),
        }
    }
}

/// The guard of an end that the object means, key by key.
fn end_of(scope: &Scope, object: &Map<String, Value>) -> Result<EndGuard, CertFault>
    ensures ok { IfOk result
        (λ e. IsEnd (names_in scope.now) (members_view object.now.entries) (end_of e)) }
    ensures err { IfErr result
        (Standing (InKeysOfEnd (names_in scope.now) (members_view object.now.entries))) }
{
    known_keys(scope.alloc, object, Keyed::End)?;
    let buffer = needed(scope, object, Key::Buffer, &Name(Thing::Object))?;
    let end = needed(scope, object, Key::End, &EndText)?;
    let guard = needed(scope, object, Key::Guard, &GuardValue)?;
    Ok(EndGuard {
        end: EndName {
            buffer: ObjId(buffer),
            end,
        },
        guard,
    })
}

/// The guard of an end that the object means, which has to fit the application.
fn fitting_end(scope: &Scope, object: &Map<String, Value>) -> Result<EndGuard, CertFault>
    ensures ok { IfOk result
        (λ e. IsEnd (names_in scope.now) (members_view object.now.entries) (end_of e)) }
    ensures fits { IfOk result (λ e. EndFits scope.now (end_of e)) }
    ensures err { IfErr result (Standing (InEnd scope.now (members_view object.now.entries))) }
{
    let end = end_of(scope, object)?;
    if end.fits(scope.app) {
        Ok(end)
    } else {
        Err(CertFault::Guard(Path::whole(scope.alloc)))
    }
}

/// The guard of an end that fits.
struct FitEnd;

impl Entry for FitEnd {
    ghost use Rattle.fr_ends.specs.Guard.{EndGuard as EndGuardOf};
    ghost use Rattle.fr_cert.specs.Meaning.{IsFitEnd};
    ghost use Rattle.fr_cert.specs.Faults.{InObject};
    ghost use Rattle.fr_ends.specs.Fits.{AreOfOneEnd};
    ghost use Rattle.fr_cert.specs.declared.fault.CertFault.TheVariants.{EndTwice};

    type Item = EndGuard;

    ghost Seen = { EndGuardOf };

    ghost seen = { end_of };

    ghost Means = { λ _ P. IsFitEnd P };

    ghost Faults = { λ _ P. InObject (InEnd P) };

    ghost AreAlike = { AreOfOneEnd };

    ghost twice = { EndTwice [] };

    fn read(&self, scope: &Scope, value: &Value) -> Result<EndGuard, CertFault> {
        fitting_end(scope, object_in(scope.alloc, value)?)
    }

    fn again(alloc: Global, before: &[EndGuard], end: &EndGuard) -> Option<CertFault> {
        if is_listed(before, end.end) {
            Some(CertFault::EndTwice(Path::whole(alloc)))
        } else {
            None
        }
    }
}

/// The guards of ends, none of one end twice.
pub(crate) struct FitEnds;

impl Reader for FitEnds {
    ghost use Rattle.std.specs.Prelude.{List};
    ghost use Rattle.fr_ends.specs.Guard.{EndGuard as EndGuardOf};
    ghost use Rattle.fr_ends.specs.Fits.{EndsFit};
    ghost use Rattle.fr_cert.specs.Shapes.{IsList};
    ghost use Rattle.fr_cert.specs.Meaning.{AreFitEnds};
    ghost use Rattle.fr_cert.specs.Faults.{InList};
    ghost use Rattle.fr_cert.specs.Present.{InAllEnds};

    type Item = Ends;

    ghost Seen = { List EndGuardOf };

    ghost seen = { λ ends. ends };

    ghost Means = { λ _ P d ends. IsList (AreFitEnds P) d ends × EndsFit P ends };

    ghost Faults = { λ _ P. InList (InAllEnds P) };

    fn read(&self, scope: &Scope, value: &Value) -> Result<Ends, CertFault> {
        let ends = Entries(FitEnd).read(scope, value)?;
        Ok(Ends::of(scope.app, ends))
    }
}
