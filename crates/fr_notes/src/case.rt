// An application with notes that fit it, and one of its points with its instruction and its note. Both are looked up
// and checked once; what takes them asks nothing more.
ghost use Rattle.std.specs.Prelude.{◌≡◌, ◌≤◌, IfSome, IfNone, Some, length, slice_get};
ghost use Rattle.fr_program.specs.Lookup.{HasSide, instr_of};
ghost use Rattle.fr_program.specs.Points.{points_of};
ghost use Rattle.fr_notes.specs.Facts.{fact_props};
ghost use Rattle.fr_notes.specs.Fits.{NoteFits, NotesFit};
ghost use Rattle.fr_notes.specs.Noted.{note_at};

use crate::note::Note;
use crate::notes::Notes;
use fr_program::{App, Instr, Point};

/// An application with notes that fit it.
#[derive(Clone, Copy)]
pub struct Case<'a> {
    pub app: &'a App,
    pub notes: &'a Notes,
    ghost fit: { NotesFit app.now notes.now } by { Prim.hlevel fact_props },
}

/// A point of an application with notes that fit it, with its instruction and its note.
#[derive(Clone, Copy)]
pub struct Spot<'a> {
    pub app: &'a App,
    pub notes: &'a Notes,
    pub point: Point,
    pub instr: &'a Instr,
    pub note: &'a Note,
    ghost fit: { NotesFit app.now notes.now } by { Prim.hlevel fact_props },
    ghost has_side: { HasSide instr.now point.side } by { Prim.hlevel fact_props },
    ghost has_instr: { instr_of app.now point ≡ Some instr.now },
    ghost has_note: { note.now ≡ note_at app.now notes.now point },
    ghost fits: { NoteFits app.now note.now } by { Prim.hlevel fact_props },
}

impl<'a> Case<'a> {
    /// The point with this number, or None where the application has no such point. Takes no memory.
    pub fn spot(&self, number: usize) -> Option<Spot<'a>>
        ensures some { IfSome result (λ s. (s.app ≡ self.now.app) × (s.notes ≡ self.now.notes) ×
            (slice_get (points_of self.now.app.now) number ≡ Some s.point)) }
        ensures none { IfNone result (length (points_of self.now.app.now) ≤ number) }
    {
        self.app.recall_numbered();
        if number >= self.app.points() {
            return None;
        }
        let point = self.app.point(number);
        let instr = self.app.instr(point)?;
        Some(Spot {
            app: self.app,
            notes: self.notes,
            point,
            instr,
            note: self.notes.at(self.app, number),
        })
    }
}
