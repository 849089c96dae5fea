// Reading the notes of all points. Many points have the same note: it is built once for entries that are the same, as
// far as they are close to one another, and each entry is let go as soon as it is read.
ghost use Rattle.std.specs.Prelude.{◌≡◌, ◌++◌, ◌∷◌, [], ℕ, List, Any, IfOk, IfErr, IfSome, OnOk, length};
ghost use Rattle.serde_json.specs.Events.{items_len};
ghost use Rattle.serde_json.specs.View.{view, items_view};
ghost use Rattle.serde_json.specs.declared.value.Value.{Value as ValueOf};
ghost use Rattle.fr_program.specs.Program.{Program};
ghost use Rattle.fr_program.specs.Points.{points_of};
ghost use Rattle.fr_notes.specs.Fits.{NotesFit};
ghost use Rattle.fr_notes.specs.Note.{Note as NoteOf};
ghost use Rattle.fr_cert.specs.Shapes.{IsList};
ghost use Rattle.fr_cert.specs.Meaning.{AreNotes};
ghost use Rattle.fr_cert.specs.Faults.{Standing, InEntries, InList};
ghost use Rattle.fr_cert.specs.Present.{InNote, InNotes};
ghost use Rattle.fr_cert.specs.NotesRead.{IsReadAt, AreRemembered, AreReadBy};

use crate::fault::CertFault;
use crate::note::point_note;
use crate::same::is_same;
use crate::scope::Scope;
use crate::tree::{list_of, within_position};
use fr_notes::{Note, Notes};
use fr_program::App;
use serde_json::Value;
use std::alloc::Global;

/// The most entries that are remembered at once.
const MOST_RECENT: usize = 8;

/// The notes that are read so far.
#[derive(Drop)]
struct NotesRead {
    /// The notes that were built.
    notes: Vec<Note>,
    /// For each entry the place of its note among them.
    places: Vec<usize>,
    /// The last entries for which a note was built, each with the place of that note.
    recent: Vec<(Value, usize)>,
}

/// The place of the note of an entry that is the same value, where one is remembered.
fn place_of(recent: &[(Value, usize)], value: &Value) -> Option<usize>
    ensures { IfSome result
        (λ place. Any (λ e. (view e.0 ≡ view value.now) × (e.1 ≡ place)) recent.now) }
{
    for (other, place) in recent {
        if is_same(value, other) {
            return Some(*place);
        }
    }
    None
}

/// Forgets what is remembered, where that is as much as is remembered at once.
fn make_room(recent: &mut Vec<(Value, usize)>)
    ensures { (P : Program) (version : ℕ) (notes : List NoteOf) →
        AreRemembered P version notes recent.old.items → AreRemembered P version notes recent.new.items }
{
    if recent.len() >= MOST_RECENT {
        recent.clear();
    }
}

impl NotesRead {
    /// The notes of no entry. Takes no memory.
    fn none(alloc: Global) -> NotesRead
        ensures { (P : Program) (version : ℕ) → AreReadBy P version [] result }
    {
        NotesRead {
            notes: Vec::new(alloc),
            places: Vec::new(alloc),
            recent: Vec::new(alloc),
        }
    }

    /// The place of the note that the value means, which is built and behind the others now.
    fn add(&mut self, scope: &Scope, version: u8, value: Value) -> Result<usize, CertFault>
        ensures read { IfOk result (λ place. (entries : List ValueOf) →
            AreReadBy scope.now version entries self.old →
            AreReadBy scope.now version entries self.new) }
        ensures place { IfOk result
            (λ place. IsReadAt scope.now version self.new.notes.items value place) }
        ensures err { IfErr result (Standing (InNote scope.now version (view value))) }
    {
        let note = point_note(scope, version, &value)?;
        let place = self.notes.len();
        self.notes.push(note)?;
        make_room(&mut self.recent);
        self.recent.push((value, place))?;
        Ok(place)
    }

    /// The same with the note of one entry more.
    fn read(&mut self, scope: &Scope, version: u8, value: Value) -> Result<(), CertFault>
        ensures read { OnOk result ((entries : List ValueOf) →
            AreReadBy scope.now version entries self.old →
            AreReadBy scope.now version (entries ++ value ∷ []) self.new) }
        ensures err { IfErr result (Standing (InNote scope.now version (view value))) }
    {
        if let Some(place) = place_of(&self.recent, &value) {
            self.places.push(place)?;
            return Ok(());
        }
        let place = self.add(scope, version, value)?;
        self.places.push(place)?;
        Ok(())
    }
}

/// The notes that the entries of a list mean, in its order.
fn each_note(scope: &Scope, version: u8, list: Vec<Value>) -> Result<NotesRead, CertFault>
    ensures read { IfOk result (AreReadBy scope.now version list.items) }
    ensures err { IfErr result
        (Standing (InEntries (InNote scope.now version) (items_view list.items))) }
{
    let mut notes = NotesRead::none(scope.alloc);
    for value in list {
        let index = notes.places.len();
        match notes.read(scope, version, value) {
            Ok(()) => {}
            Err(fault) => return Err(within_position(index, fault)),
        }
    }
    Ok(notes)
}

/// The list has one entry for each point.
fn check_count(app: &App, list: &Vec<Value>) -> Result<(), CertFault>
    ensures ok { OnOk result (items_len (items_view list.now.items) ≡ length (points_of app.now)) }
    ensures err { IfErr result
        (λ f. (items_len (items_view list.now.items) ≡ length (points_of app.now) → ⊥) × (f ≡ CertFault.PointCount)) }
{
    if list.len() == app.points() {
        Ok(())
    } else {
        Err(CertFault::PointCount)
    }
}

/// The notes of all points that the value means, in a version.
pub(crate) fn notes_in(scope: &Scope, version: u8, value: Value) -> Result<Notes, CertFault>
    ensures ok { IfOk result (IsList (AreNotes scope.now version) (view value)) }
    ensures fits { IfOk result (λ notes. NotesFit scope.now notes) }
    ensures err { IfErr result (Standing (InList (InNotes scope.now version) (view value))) }
{
    let list = list_of(scope.alloc, value)?;
    check_count(scope.app, &list)?;
    let read = each_note(scope, version, list)?;
    Ok(Notes::shared(scope.app, read.notes, read.places))
}
