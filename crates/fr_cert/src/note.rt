// Reading the note of a point.
ghost use Rattle.std.specs.Prelude.{◌≡◌, ◌≤◌, ◌<◌, ◌↔◌, ◌⊎◌, [], IsTrue, Some, None, IfOk, IfErr, OnOk, IfSome, IfNone, Any, codes, length};
ghost use Rattle.serde_json.specs.Events.{items_len};
ghost use Rattle.serde_json.specs.Find.{as_str, as_object};
ghost use Rattle.serde_json.specs.View.{view, items_view, members_view};
ghost use Rattle.fr_notes.specs.Fits.{AlternativeFits, NoteFits, most_alternatives};
ghost use Rattle.fr_cert.specs.Keys.{names_in};
ghost use Rattle.fr_cert.specs.Shapes.{EachEntry};
ghost use Rattle.fr_cert.specs.Meaning.{IsNoteText, IsAlternative, IsPlainNote, IsNote};
ghost use Rattle.fr_cert.specs.Faults.{Standing, InObject};
ghost use Rattle.fr_cert.specs.Present.{InKeysOfNote, InAlternative, InAlternatives, InNote};
ghost use Rattle.fr_cert.specs.Views.{text_of, refused_as};

use crate::fault::CertFault;
use crate::held::{Count, Depth};
use crate::key::{Key, Keyed};
use crate::names::ObjectName;
use crate::path::Path;
use crate::ranges::NamedRange;
use crate::reader::{Entries, Entry, Members, each_entry, optional};
use crate::scope::Scope;
use crate::tree::{departs, known_keys, object_in};
use fr_notes::{Alternative, MOST_ALTERNATIVES, Note, NoteFault, NoteParts};
use serde_json::{Map, Value};
use std::alloc::Global;

/// The parts that the object means, key by key.
fn parts_of(scope: &Scope, object: &Map<String, Value>) -> Result<NoteParts, CertFault>
    ensures ok { IfOk result
        (λ parts. IsNoteText (names_in scope.now) (members_view object.now.entries) (text_of parts)) }
    ensures err { IfErr result
        (Standing (InKeysOfNote (names_in scope.now) (members_view object.now.entries))) }
{
    known_keys(scope.alloc, object, Keyed::Note)?;
    let none = NoteParts::none(scope.alloc);
    Ok(NoteParts {
        held: optional(scope, object, Key::Held, none.held, &Members(Count))?,
        crit: optional(scope, object, Key::Crit, 0, &Depth)?,
        susp: optional(scope, object, Key::Susp, 0, &Depth)?,
        live: optional(scope, object, Key::Live, none.live, &Entries(ObjectName))?,
        dead: optional(scope, object, Key::Dead, none.dead, &Entries(ObjectName))?,
        range: optional(scope, object, Key::Range, none.range, &Members(NamedRange))?,
    })
}

/// What a certificate with a note that has this fault is refused for.
fn refused_as(alloc: Global, fault: NoteFault) -> CertFault
    ensures { result ≡ refused_as fault }
{
    match fault {
        NoteFault::Memory => CertFault::Memory,
        _ => CertFault::Note(Path::whole(alloc)),
    }
}

/// The one alternative that the object means.
fn alternative_of(scope: &Scope, object: &Map<String, Value>) -> Result<Alternative, CertFault>
    ensures ok { IfOk result (IsAlternative scope.now (members_view object.now.entries)) }
    ensures fits { IfOk result (AlternativeFits scope.now) }
    ensures err { IfErr result
        (Standing (InAlternative scope.now (members_view object.now.entries))) }
{
    match Alternative::build(scope.alloc, scope.app, parts_of(scope, object)?) {
        Ok(alternative) => Ok(alternative),
        Err(fault) => Err(refused_as(scope.alloc, fault)),
    }
}

/// One alternative of a note.
struct PlainNote;

impl Entry for PlainNote {
    ghost use Rattle.fr_notes.specs.Note.{Alternative as AlternativeOf};
    ghost use Rattle.fr_cert.specs.declared.fault.CertFault.TheVariants.{Memory};

    type Item = Alternative;

    ghost Seen = { AlternativeOf };

    ghost seen = { λ n. n };

    ghost Means = { λ _ P d n. IsPlainNote P d n × AlternativeFits P n };

    ghost Faults = { λ _ P. InObject (InAlternative P) };

    ghost AreAlike = { λ _ _. ⊥ };

    ghost twice = { Memory };

    fn read(&self, scope: &Scope, value: &Value) -> Result<Alternative, CertFault> {
        alternative_of(scope, object_in(scope.alloc, value)?)
    }

    fn again(_: Global, _: &[Alternative], _: &Alternative) -> Option<CertFault> {
        None
    }
}

/// The list has one to four entries.
#[tactic(auto, using(crate::proofs::EntryLemmas::view_length))]
fn check_few(alloc: Global, list: &Vec<Value>) -> Result<(), CertFault>
    ensures some { OnOk result (1 ≤ items_len (items_view list.now.items)) }
    ensures few { OnOk result (items_len (items_view list.now.items) ≤ most_alternatives) }
    ensures err { IfErr result
        (λ f. ((items_len (items_view list.now.items) ≡ 0) ⊎ (most_alternatives < items_len (items_view list.now.items)))
        × (f ≡ CertFault.Alternatives [])) }
{
    let entries = list.len();
    if entries == 0 {
        return Err(CertFault::Alternatives(Path::whole(alloc)));
    }
    if entries > MOST_ALTERNATIVES {
        return Err(CertFault::Alternatives(Path::whole(alloc)));
    }
    Ok(())
}

/// The alternatives that the entries of a list mean, in its order.
fn alternatives_of(scope: &Scope, list: &Vec<Value>) -> Result<Note, CertFault>
    ensures ok { IfOk result (EachEntry (IsPlainNote scope.now) (items_view list.now.items)) }
    ensures some { IfOk result (λ note. 1 ≤ length note) }
    ensures fits { IfOk result (NoteFits scope.now) }
    ensures err { IfErr result (Standing (InAlternatives scope.now (items_view list.now.items))) }
{
    check_few(scope.alloc, list)?;
    let alternatives = each_entry(scope, list, &PlainNote)?;
    Ok(Note::of(alternatives))
}

/// Whether the value is the text `never`.
fn is_never(value: &Value) -> bool
    ensures { IsTrue result ↔ (as_str (view value.now) ≡ Some (codes "never")) }
{
    match value.as_str() {
        Some(text) => text == "never",
        None => false,
    }
}

/// The note that a value which is no object means: `"never"`, or in version 2 a list.
fn other_note(scope: &Scope, version: u8, value: &Value) -> Result<Note, CertFault>
    requires { as_object (view value.now) ≡ None }
    ensures ok { IfOk result (IsNote scope.now version (view value.now)) }
    ensures fits { IfOk result (NoteFits scope.now) }
    ensures err { IfErr result (Standing (InNote scope.now version (view value.now))) }
{
    if is_never(value) {
        return Ok(Note::never(scope.alloc));
    }
    match value.as_array() {
        Some(list) if version == 2 => alternatives_of(scope, list),
        _ => Err(departs(scope.alloc)),
    }
}

/// The note of a point that the value means, in a version.
pub(crate) fn point_note(scope: &Scope, version: u8, value: &Value) -> Result<Note, CertFault>
    ensures ok { IfOk result (IsNote scope.now version (view value.now)) }
    ensures fits { IfOk result (NoteFits scope.now) }
    ensures err { IfErr result (Standing (InNote scope.now version (view value.now))) }
{
    match value.as_object() {
        Some(object) => Ok(Note::plain(scope.alloc, alternative_of(scope, object)?)?),
        None => other_note(scope, version, value),
    }
}
