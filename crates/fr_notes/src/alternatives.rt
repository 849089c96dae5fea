// Notes with several alternatives.
ghost use Rattle.std.specs.Prelude.{◌≡◌, ◌≢◌, ◌≤◌, ◌+◌, ◌↔◌, ◌++◌, [], IsTrue, All, Any, IfOk, IfErr, OnOk, length, vec_len, vec_capacity};
ghost use Rattle.fr_program.specs.Points.{points_of};
ghost use Rattle.fr_notes.specs.Alternatives.{IsPresent, joined};
ghost use Rattle.fr_notes.specs.Fits.{most_alternatives};

use crate::fault::NotesFault;
use crate::note::{Alternative, Note};
use crate::notes::Notes;
use fr_program::App;
use std::alloc::Global;
use std::marker::Model;

/// The most alternatives that a note has (this project's profile).
pub const MOST_ALTERNATIVES: usize = 4;

/// Why plain notes are not the alternatives of one note.
#[derive(Clone, Copy, Debug, PartialEq, Eq)]
pub enum AltsFault {
    /// An allocation was refused.
    Memory,
    /// There are more than four.
    TooMany,
    /// One of them is the note `Never`.
    HasNever,
}

/// The alternatives of a point's note: up to four plain notes, of which one holds. With none of them
/// it is the note `Never`.
#[derive(Drop)]
pub struct Alts {
    note: Note,
}

impl Model for Alts {
    ghost use Rattle.fr_notes.specs.Note.{Note as NoteOf};

    ghost Value = { NoteOf };

    ghost view = { λ a. a.note };
}

/// Whether the notes have at most four alternatives together.
fn are_few(notes: &[Note]) -> bool
    ensures { IsTrue result ↔ (length (joined notes.now) ≤ most_alternatives) }
{
    let mut count = 0;
    for note in notes {
        let more = note.alternatives().len();
        if more > MOST_ALTERNATIVES - count {
            return false;
        }
        count += more;
    }
    true
}

/// Whether one of the notes has no alternative.
fn has_never(notes: &[Note]) -> bool
    ensures { IsTrue result ↔ Any (λ note. note ≡ []) notes.now }
{
    notes.iter().any(|note| note.alternatives().is_empty())
}

/// Appends the alternatives of all notes, for which there is room.
fn join(alternatives: &mut Vec<Alternative>, notes: Vec<Note>)
    requires { vec_len alternatives.old + length (joined notes.items) ≤ vec_capacity alternatives.old }
    ensures { alternatives.new.items ≡ alternatives.old.items ++ joined notes.items }
{
    for note in notes {
        let mut more = note.into_alternatives();
        match alternatives.append(&mut more) {
            Ok(()) => {}
            Err(_) => unreachable!(),
        }
    }
}

impl Alts {
    ghost use Rattle.fr_program.specs.Program.{Program};
    ghost use Rattle.fr_notes.specs.Fits.{NoteFits};
    ghost use Rattle.fr_notes.specs.declared.alternatives.AltsFault.{AltsFault as AltsFaultOf};

    /// The note `Never`, with no alternative. Takes no memory.
    pub fn never(alloc: Global) -> Alts
        ensures { result ≡ [] }
    {
        Alts {
            note: Note::never(alloc),
        }
    }

    /// One note, as it is. Takes no memory.
    pub fn plain(note: Note) -> Alts
        ensures { result ≡ note }
    {
        Alts { note }
    }

    /// The alternatives that plain notes are: Ok exactly where neither fault is present and no
    /// allocation was refused. `TooMany`: there are more than four. `HasNever`: one of them is the note
    /// `Never`. Of both faults, which one is named is open; `Memory` is named only where neither is
    /// present. On a refusal the notes come back.
    pub fn build(alloc: Global, notes: Vec<Note>) -> Result<Alts, (AltsFault, Vec<Note>)>
        ensures same { IfOk result (λ alts. alts ≡ joined notes.items) }
        ensures few { OnOk result (length (joined notes.items) ≤ most_alternatives) }
        ensures some { OnOk result (All (λ note. note ≢ []) notes.items) }
        ensures fits { (P : Program) → All (NoteFits P) notes.items → IfOk result (NoteFits P) }
        ensures refused { IfErr result (λ e. e.0 ≢ AltsFault.Memory → IsPresent notes.items e.0) }
        ensures memory { IfErr result
            (λ e. e.0 ≡ AltsFault.Memory → (fault : AltsFaultOf) → IsPresent notes.items fault → ⊥) }
        ensures returned { IfErr result (λ e. e.1 ≡ notes) }
    {
        if has_never(&notes) {
            return Err((AltsFault::HasNever, notes));
        }
        if !are_few(&notes) {
            return Err((AltsFault::TooMany, notes));
        }
        match Vec::with_capacity(alloc, MOST_ALTERNATIVES) {
            Ok(mut alternatives) => {
                join(&mut alternatives, notes);
                Ok(Alts {
                    note: Note::of(alternatives),
                })
            }
            Err(_) => Err((AltsFault::Memory, notes)),
        }
    }
}

/// Appends the note of each list of alternatives, for which there is room.
fn take(notes: &mut Vec<Note>, alts: Vec<Alts>)
    requires { vec_len notes.old + length alts.items ≤ vec_capacity notes.old }
    ensures { notes.new.items ≡ notes.old.items ++ alts.items }
{
    for alts in alts {
        match notes.push(alts.note) {
            Ok(()) => {}
            Err(_) => unreachable!(),
        }
    }
}

impl Notes {
    ghost use Rattle.fr_notes.specs.Fits.{NoteFits, NotesFit};

    /// The notes of an application, one for each point, each with alternatives that were built for that
    /// application. `PointCount`: there are more or fewer notes than points. `Memory`: an allocation
    /// was refused. On a refusal the alternatives come back.
    pub fn build_alts(
        alloc: Global,
        app: &App,
        alts: Vec<Alts>,
    ) -> Result<Notes, (NotesFault, Vec<Alts>)>
        ensures same { IfOk result (λ built. built ≡ alts.items) }
        ensures points { OnOk result (length alts.items ≡ length (points_of app.now)) }
        ensures fits { All (λ note. NoteFits app.now note) alts.items →
            IfOk result (λ built. NotesFit app.now built) }
        ensures fault { IfErr result
            (λ e. e.0 ≡ NotesFault.PointCount → length alts.items ≢ length (points_of app.now)) }
        ensures memory { IfErr result
            (λ e. e.0 ≡ NotesFault.Memory → length alts.items ≡ length (points_of app.now)) }
        ensures returned { IfErr result (λ e. e.1 ≡ alts) }
    {
        if alts.len() != app.points() {
            return Err((NotesFault::PointCount, alts));
        }
        match Vec::with_capacity(alloc, alts.len()) {
            Ok(mut notes) => {
                take(&mut notes, alts);
                Ok(Notes::of(app, notes))
            }
            Err(_) => Err((NotesFault::Memory, alts)),
        }
    }
}
