// Reading depths, and how often an object is held.
use crate::fault::CertFault;
use crate::names::{Thing, named};
use crate::path::Path;
use crate::reader::{Member, Reader};
use crate::scope::Scope;
use crate::tree::integer_in;
use fr_program::ObjId;
use serde_json::Value;

/// A depth, or a count.
pub(crate) struct Depth;

impl Reader for Depth {
    ghost use Rattle.std.specs.Prelude.{ℕ};
    ghost use Rattle.fr_cert.specs.Shapes.{IsDepth};
    ghost use Rattle.fr_cert.specs.Faults.{InDepth};

    type Item = u8;

    ghost Seen = { ℕ };

    ghost seen = { λ n. n };

    ghost Means = { λ _ _. IsDepth };

    ghost Faults = { λ _ _. InDepth };

    fn read(&self, scope: &Scope, value: &Value) -> Result<u8, CertFault> {
        match u8::try_from(integer_in(scope.alloc, value)?) {
            Ok(depth) => Ok(depth),
            Err(_) => Err(CertFault::Note(Path::whole(scope.alloc))),
        }
    }
}

/// How often the object with this name is held.
pub(crate) struct Count;

impl Member for Count {
    ghost use Rattle.std.specs.Prelude.{ℕ};
    ghost use Rattle.fr_cert.specs.Keys.{names_in};
    ghost use Rattle.fr_cert.specs.Shapes.{IsNamed, IsDepth};
    ghost use Rattle.fr_cert.specs.Faults.{InNamed, InDepth};
    ghost use Rattle.fr_cert.specs.Views.{count_of};

    type Item = (ObjId, u32);

    ghost Seen = { ℕ × ℕ };

    ghost seen = { count_of };

    ghost Means = { λ _ P. IsNamed (names_in P).objects IsDepth };

    ghost Faults = { λ _ P. InNamed (names_in P).objects InDepth };

    fn read(&self, scope: &Scope, name: &str, value: &Value) -> Result<(ObjId, u32), CertFault> {
        let (object, count) = named(scope, Thing::Object, name, value, &Depth)?;
        Ok((ObjId(object), u32::from(count)))
    }
}
