// What other actors' steps do to the notes of an application, for many points of one application.
ghost use Rattle.std.specs.Prelude.{◌≡◌, ◌<◌, Some, length, slice_get};
ghost use Rattle.fr_program.specs.declared.ids.Point.{Point};
ghost use Rattle.fr_program.specs.Points.{points_of};
ghost use Rattle.fr_notes.specs.Fits.{NotesFit};
ghost use Rattle.fr_effects.specs.Disturbance.{IsSpoiler};
ghost use Rattle.fr_effects.specs.Index.{IsIndexOf};
ghost use Rattle.fr_interfere.specs.Rows.{AreHullsOf};

use crate::rows::Hulls;
use crate::spoilers::{first_listed, first_maker, first_writer, lesser};
use crate::staying::all_stay;
use fr_effects::Index;
use fr_notes::Notes;
use fr_program::App;
use std::marker::Model;

/// An application with notes that fit it and its index, and what was found once for all its points:
/// whether all steps keep each variable in its declared range, where the notes hold.
#[derive(Drop)]
pub struct Interference<'a> {
    app: &'a App,
    notes: &'a Notes,
    index: &'a Index,
    hulls: Option<&'a Hulls>,
    stay: bool,
}

impl<'a> Model for Interference<'a> {
    ghost use Rattle.fr_interfere.specs.Interference.{InterferenceOf, IsKnown, interference_of};

    ghost Value = { InterferenceOf };

    ghost view = { interference_of };

    ghost invariant = { IsKnown };
}

impl<'a> Interference<'a> {
    /// The application, with notes that fit it and its index. Each point that the index lists for what a
    /// note says is looked at by itself. Takes no memory.
    pub fn of(app: &'a App, notes: &'a Notes, index: &'a Index) -> Interference<'a>
        requires fit { NotesFit app.now notes.now }
        requires index { IsIndexOf app.now index.now }
        ensures app { result.app ≡ app.now }
        ensures notes { result.notes ≡ notes.now }
    {
        let stay = all_stay(app, notes, index);
        Interference {
            app,
            notes,
            index,
            hulls: None,
            stay,
        }
    }

    /// The same, for many points, with the hulls of the points that the index lists: points that by their
    /// hull can't disturb a note are not looked at one by one. The answers are those of `of`. Takes no memory.
    pub fn with(
        app: &'a App,
        notes: &'a Notes,
        index: &'a Index,
        hulls: &'a Hulls,
    ) -> Interference<'a>
        requires fit { NotesFit app.now notes.now }
        requires index { IsIndexOf app.now index.now }
        requires hulls { AreHullsOf app.now notes.now index.now hulls.now }
        ensures app { result.app ≡ app.now }
        ensures notes { result.notes ≡ notes.now }
    {
        let stay = all_stay(app, notes, index);
        Interference {
            app,
            notes,
            index,
            hulls: Some(hulls),
            stay,
        }
    }

    /// The application.
    pub fn app(&self) -> &'a App
        ensures { result.now ≡ self.now.app }
    {
        self.app
    }

    /// The index.
    pub fn index(&self) -> &'a Index
        ensures { IsIndexOf self.now.app result.now }
    {
        self.index
    }

    /// The least number of a point whose steps disturb the note of the point with this number; None
    /// where no step of another actor does. It looks at the points that change what the note says, and at
    /// the index's leavers, where one of them leaves a declared range though its own note holds. Takes no
    /// memory.
    pub fn spoiler(&self, number: usize) -> Option<usize>
        requires { number < length (points_of self.now.app) }
        ensures { (p : Point) → slice_get (points_of self.now.app) number ≡ Some p →
            IsSpoiler self.now.app self.now.notes p result }
    {
        let (app, notes, index, hulls) = (self.app, self.notes, self.index, self.hulls);
        app.recall_faultless();
        app.recall_numbered();
        let writer = first_writer(app, notes, index, hulls, number);
        let changer = lesser(writer, first_maker(app, notes, index, hulls, number));
        if self.stay {
            return changer;
        }
        lesser(changer, first_listed(app, notes, number, index.leavers()))
    }
}

/// The same as `spoiler`, by the index of that application: only its leavers are looked at, and the
/// points that change what the point's note says. Takes no memory.
pub fn spoiler_by(app: &App, notes: &Notes, index: &Index, number: usize) -> Option<usize>
    requires number { number < length (points_of app.now) }
    requires fit { NotesFit app.now notes.now }
    requires index { IsIndexOf app.now index.now }
    ensures { (p : Point) → slice_get (points_of app.now) number ≡ Some p →
        IsSpoiler app.now notes.now p result }
{
    Interference::of(app, notes, index).spoiler(number)
}
