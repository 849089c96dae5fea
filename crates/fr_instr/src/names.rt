// The names of an application's variables, objects and actors, with their numbers.
ghost use Rattle.std.specs.Prelude.{◌≡◌, ◌≢◌, ◌++◌, All, AllPairs, IfOk, List, length, map, option_map, string_bytes};
ghost use Rattle.fr_program.specs.Limits.{IsName};
ghost use Rattle.fr_instr.specs.Names.{NamesOf, place_of, name_at, AreNames};
ghost use Rattle.fr_instr.specs.Views.{texts};

use fr_program::{ActorId, ObjId, VarId};
use indexmap::IndexSet;
use std::alloc::{AllocError, Global};
use std::marker::Model;

/// The names of an application's variables, objects and actors. A thing's number is its place in
/// its list, from 0.
#[derive(Drop)]
pub struct Names {
    variables: IndexSet<String>,
    objects: IndexSet<String>,
    actors: IndexSet<String>,
}

impl Model for Names {
    ghost use Rattle.std.specs.Prelude.{map, string_bytes};
    ghost use Rattle.fr_instr.specs.Names.{NamesOf, AreNames};

    ghost Value = { NamesOf };

    ghost view = { λ n. record {
      variables = map string_bytes n.variables.keys;
      objects = map string_bytes n.objects.keys;
      actors = map string_bytes n.actors.keys;
    } };

    ghost invariant = { λ n. AreNames (record {
      variables = map string_bytes n.variables.keys;
      objects = map string_bytes n.objects.keys;
      actors = map string_bytes n.actors.keys;
    }) };
}

impl Names {
    /// The names in these three lists. Each is a name, and is given once among all of them.
    ///
    /// Its error is that an allocation was refused.
    pub fn build(
        alloc: Global,
        variables: &[&str],
        objects: &[&str],
        actors: &[&str],
    ) -> Result<Names, AllocError>
        requires names { All IsName (texts variables.now ++ (texts objects.now ++ texts actors.now)) }
        requires once { AllPairs (λ x y. x ≢ y) (texts variables.now ++ (texts objects.now ++ texts actors.now)) }
        ensures variables { IfOk result (λ n. n.variables ≡ texts variables.now) }
        ensures objects { IfOk result (λ n. n.objects ≡ texts objects.now) }
        ensures actors { IfOk result (λ n. n.actors ≡ texts actors.now) }
    {
        let variables = numbered(alloc, variables)?;
        let objects = numbered(alloc, objects)?;
        let actors = numbered(alloc, actors)?;
        Ok(Names {
            variables,
            objects,
            actors,
        })
    }

    /// The variable with this name.
    pub fn variable(&self, name: &str) -> Option<VarId>
        ensures { option_map (λ x. x.0) result ≡ place_of self.now.variables name.now }
    {
        match number_of(&self.variables, name) {
            Some(i) => Some(VarId(i)),
            None => None,
        }
    }

    /// The object with this name.
    pub fn object(&self, name: &str) -> Option<ObjId>
        ensures { option_map (λ o. o.0) result ≡ place_of self.now.objects name.now }
    {
        match number_of(&self.objects, name) {
            Some(i) => Some(ObjId(i)),
            None => None,
        }
    }

    /// The actor with this name.
    pub fn actor(&self, name: &str) -> Option<ActorId>
        ensures { option_map (λ a. a.0) result ≡ place_of self.now.actors name.now }
    {
        match number_of(&self.actors, name) {
            Some(i) => Some(ActorId(i)),
            None => None,
        }
    }

    /// The variable whose name these bytes are.
    pub fn variable_named(&self, word: &[u8]) -> Option<VarId>
        ensures { option_map (λ x. x.0) result ≡ place_of self.now.variables word.now }
    {
        let variables = &self.variables;
        let Ok(name) = std::str::from_utf8(word) else {
            return None;
        };
        match number_of(variables, name) {
            Some(i) => Some(VarId(i)),
            None => None,
        }
    }

    /// The object whose name these bytes are.
    pub fn object_named(&self, word: &[u8]) -> Option<ObjId>
        ensures { option_map (λ o. o.0) result ≡ place_of self.now.objects word.now }
    {
        let objects = &self.objects;
        let Ok(name) = std::str::from_utf8(word) else {
            return None;
        };
        match number_of(objects, name) {
            Some(i) => Some(ObjId(i)),
            None => None,
        }
    }

    /// The actor whose name these bytes are.
    pub fn actor_named(&self, word: &[u8]) -> Option<ActorId>
        ensures { option_map (λ a. a.0) result ≡ place_of self.now.actors word.now }
    {
        let actors = &self.actors;
        let Ok(name) = std::str::from_utf8(word) else {
            return None;
        };
        match number_of(actors, name) {
            Some(i) => Some(ActorId(i)),
            None => None,
        }
    }

    /// How many actors there are.
    pub fn actor_count(&self) -> usize
        ensures { result ≡ length self.now.actors }
    {
        self.actors.len()
    }

    /// Recalls that each is a name, and is given once among all of them.
    pub(crate) fn recall_names(&self)
        ensures { AreNames self.now }
    {
        let _ = &self.variables;
    }

    /// The name of a variable, or no text where there is none.
    pub(crate) fn variable_text(&self, variable: VarId) -> &str
        ensures { result.now ≡ name_at self.now.variables variable.0 }
    {
        text_at(&self.variables, variable.0)
    }

    /// The name of an object, or no text where there is none.
    pub(crate) fn object_text(&self, object: ObjId) -> &str
        ensures { result.now ≡ name_at self.now.objects object.0 }
    {
        text_at(&self.objects, object.0)
    }
}

/// The names, each at its number.
fn numbered(alloc: Global, names: &[&str]) -> Result<IndexSet<String>, AllocError>
    requires { AllPairs (λ x y. x ≢ y) (texts names.now) }
    ensures { IfOk result (λ set. map string_bytes set.keys ≡ texts names.now) }
{
    let mut set = IndexSet::new(alloc);
    for name in names {
        set.insert(String::from_str(alloc, name)?)?;
    }
    Ok(set)
}

/// The place of the name among these.
fn number_of(names: &IndexSet<String>, name: &str) -> Option<usize>
    ensures { result ≡ place_of (map string_bytes names.now.keys) name.now }
{
    names.get_index_of(name)
}

/// The name at this place, or no text where there is none.
fn text_at(names: &IndexSet<String>, i: usize) -> &str
    ensures { result.now ≡ name_at (map string_bytes names.now.keys) i }
{
    match names.get_index(i) {
        Some(name) => name.as_str(),
        None => "",
    }
}
