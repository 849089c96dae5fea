// The notes of an application: one for each point.
ghost use Rattle.std.specs.Prelude.{◌≡◌, ◌≢◌, ◌<◌, ◌↔◌, [], IsTrue, IfOk, IfErr, OnOk, OnErr, Some, All, length, slice_get, slice_index_or};
ghost use Rattle.fr_program.specs.declared.ids.Point.{Point};
ghost use Rattle.fr_program.specs.Points.{points_of};
ghost use Rattle.fr_notes.specs.Places.{ArePlaces, notes_at};
ghost use Rattle.std.specs.Option.{option_copied};

use crate::fault::NotesFault;
use crate::fits::note_fits;
use crate::note::Note;
use fr_program::App;
use std::alloc::Global;
use std::marker::Model;

/// One note for each point of an application, by the points' numbers. Points with the same note can
/// share it.
#[derive(Drop)]
pub struct Notes {
    notes: Vec<Note>,
    /// For each point the place of its note among them, where points share notes. With no places each
    /// point has the note at the place of its number.
    places: Option<Vec<usize>>,
}

impl Model for Notes {
    ghost use Rattle.std.specs.Prelude.{List};
    ghost use Rattle.fr_notes.specs.Note.{Note as NoteOf};

    ghost Value = { List NoteOf };

    ghost use Rattle.fr_notes.specs.NotesView.{notes_of, HasPlaces};

    ghost view = { notes_of };

    ghost invariant = { HasPlaces };
}

/// The note of the point with this number, by the places of the points' notes.
fn placed_note<'a>(notes: &'a [Note], places: &[usize], number: usize) -> &'a Note
    requires places { ArePlaces notes.now places.now }
    requires number { number < length places.now }
    ensures { result.now ≡ slice_index_or (notes_at notes.now places.now) number [] }
{
    let place = places[number];
    &notes[place]
}

impl Notes {
    ghost use Rattle.fr_notes.specs.Fits.{NoteFits, NotesFit};
    ghost use Rattle.fr_notes.specs.Noted.{note_at};

    /// The notes of an application, one for each point, each `Never` or built for that application.
    /// `PointCount`: there are more or fewer notes than points. On a refusal the notes come back.
    /// Takes no memory.
    pub fn build(
        _alloc: Global,
        app: &App,
        notes: Vec<Note>,
    ) -> Result<Notes, (NotesFault, Vec<Note>)>
        ensures same { IfOk result (λ built. built ≡ notes.items) }
        ensures points { OnOk result (length notes.items ≡ length (points_of app.now)) }
        ensures fits { All (λ note. NoteFits app.now note) notes.items →
            IfOk result (λ built. NotesFit app.now built) }
        ensures fault { IfErr result (λ e. e.0 ≡ NotesFault.PointCount) }
        ensures other { OnErr result (length notes.items ≢ length (points_of app.now)) }
        ensures returned { IfErr result (λ e. e.1 ≡ notes) }
    {
        if notes.len() == app.points() {
            Ok(Notes {
                notes,
                places: None,
            })
        } else {
            Err((NotesFault::PointCount, notes))
        }
    }

    /// The notes of an application, of which there is one for each point. Takes no memory.
    pub fn of(_app: &App, notes: Vec<Note>) -> Notes
        requires { length notes.items ≡ length (points_of _app.now) }
        ensures { result ≡ notes.items }
    {
        Notes {
            notes,
            places: None,
        }
    }

    /// The notes of an application: for each point the one at this place, which other points can have
    /// too. Takes no memory.
    pub fn shared(_app: &App, notes: Vec<Note>, places: Vec<usize>) -> Notes
        requires points { length places.items ≡ length (points_of _app.now) }
        requires places { ArePlaces notes.items places.items }
        ensures { result ≡ notes_at notes.items places.items }
    {
        Notes {
            notes,
            places: Some(places),
        }
    }

    /// How many notes there are, as many as points.
    pub fn len(&self) -> usize
        ensures { result ≡ length self.now }
    {
        match &self.places {
            None => self.notes.len(),
            Some(places) => places.len(),
        }
    }

    /// The note of the point with this number, of which there is one.
    pub fn note(&self, number: usize) -> &Note
        requires { number < length self.now }
        ensures { result.now ≡ slice_index_or self.now number [] }
    {
        match &self.places {
            None => &self.notes[number],
            Some(places) => placed_note(&self.notes, places, number),
        }
    }

    /// The note of a point, or None where there is none with this number.
    pub fn get(&self, number: usize) -> Option<&Note>
        ensures { option_copied result ≡ slice_get self.now number }
    {
        if number < self.len() {
            Some(self.note(number))
        } else {
            None
        }
    }

    /// The note of the point with this number, in notes that fit the application.
    pub fn at(&self, app: &App, number: usize) -> &Note
        requires number { number < length (points_of app.now) }
        requires fit { NotesFit app.now self.now }
        ensures is { (p : Point) → slice_get (points_of app.now) number ≡ Some p →
            result.now ≡ note_at app.now self.now p }
        ensures fits { NoteFits app.now result.now }
    {
        app.recall_numbered();
        self.note(number)
    }

    /// Whether there is one note for each point, each of which could have been built for the
    /// application. Takes no memory.
    pub fn fits(&self, app: &App) -> bool
        ensures { IsTrue result ↔ NotesFit app.now self.now }
    {
        let count = self.len();
        if count != app.points() {
            return false;
        }
        for number in 0..count {
            if !note_fits(app, self.note(number)) {
                return false;
            }
        }
        true
    }
}
