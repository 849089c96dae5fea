// What is shown of a state: the things that the notes, the step and the guard speak of.
ghost use Rattle.std.specs.Prelude.{◌<◌, length};
ghost use Rattle.fr_rules.specs.State.{IsWellFormed};

use fr_calls::State;
use fr_notes::{Alternative, Claim, Note, Spot, Subject};
use fr_program::{ActorId, App, Point};
use fr_request::Detail;
use fr_wording::{
    Sources, Standing, add_text, fact, has_changed, standing_at, subject_at, subject_count,
    suspension_in,
};
use std::alloc::{AllocError, Global};

/// What states are shown for: one or two points, and perhaps a thing that a guard names.
#[derive(Clone, Copy)]
pub(super) struct Scene<'a> {
    pub alloc: Global,
    pub app: &'a App,
    /// Where its lines are in a source.
    pub sources: &'a Sources,
    pub detail: Detail,
    /// Whether lines are named that a person would change.
    pub blames: bool,
    pub spot: Spot<'a>,
    pub other: Option<Spot<'a>>,
    pub guarded: Option<Subject>,
}

/// Whether the alternative says something of the subject: more than that a depth is 0, that an object isn't
/// held, or that a variable is in its declared range.
pub(super) fn says_of(app: &App, says: &Alternative, subject: Subject) -> bool {
    match subject {
        Subject::Critical => says.critical() > 0,
        Subject::Suspended => says.suspended() > 0,
        Subject::Object(object) => says.claim(object) != Claim::NotHeld,
        Subject::Variable(variable) => {
            variable.0 < app.variables().len() && says.range(variable) != app.range(variable)
        }
    }
}

/// Whether the note says something of the subject.
fn note_says_of(app: &App, note: &Note, subject: Subject) -> bool {
    for says in note.alternatives() {
        if says_of(app, says, subject) {
            return true;
        }
    }
    false
}

/// Whether the note or the instruction of the point speaks of the subject.
fn speaks_of(spot: &Spot, subject: Subject) -> bool {
    let named = match subject {
        Subject::Critical | Subject::Suspended => false,
        Subject::Object(object) => spot.instr.object() == Some(object),
        Subject::Variable(variable) => spot.instr.variables().by_place().contains(&Some(variable)),
    };
    named || note_says_of(spot.app, spot.note, subject)
}

impl Scene<'_> {
    /// An actor at a point.
    pub(super) fn standing_at(&self, point: Point) -> Result<Standing, AllocError> {
        standing_at(self.alloc, self.app, self.sources, point)
    }

    /// Whether the subject is shown, for the actor of this spot.
    fn shows(&self, spot: &Spot, state: &State, subject: Subject) -> bool
        requires { IsWellFormed self.now.app.now state.now }
    {
        let (app, actor) = (self.app, spot.point.actor);
        let spoken = match subject {
            Subject::Critical => state.depth(actor) > 0,
            Subject::Suspended => suspension_in(app, state, actor) > 0,
            Subject::Object(_) | Subject::Variable(_) => match self.other {
                Some(other) => speaks_of(&other, subject),
                None => false,
            },
        };
        spoken
            || self.detail == Detail::Whole
            || self.guarded == Some(subject)
            || speaks_of(spot, subject)
    }

    /// Adds what is shown of a state for the actor of this spot: its depths, and where `things` says so
    /// objects and variables.
    fn add_shown(
        &self,
        facts: &mut Vec<String>,
        spot: &Spot,
        state: &State,
        things: bool,
    ) -> Result<(), AllocError>
        requires { IsWellFormed self.now.app.now state.now }
    {
        for place in 0..subject_count(self.app) {
            let subject = subject_at(self.app, place);
            let is_thing = matches!(subject, Subject::Object(_) | Subject::Variable(_));
            if (things || !is_thing) && self.shows(spot, state, subject) {
                let so = fact(self.alloc, self.app, spot.point.actor, state, subject)?;
                add_text(facts, so)?;
            }
        }
        Ok(())
    }

    /// What is shown of a state; no fact where nothing in it matters.
    pub(super) fn shown(&self, state: &State) -> Result<Vec<String>, AllocError>
        requires { IsWellFormed self.now.app.now state.now }
    {
        let mut facts = Vec::new(self.alloc);
        if let Some(other) = self.other {
            if other.point.actor.0 != self.spot.point.actor.0 {
                self.add_shown(&mut facts, &other, state, false)?;
            }
        }
        self.add_shown(&mut facts, &self.spot, state, true)?;
        Ok(facts)
    }

    /// What is otherwise after a step of this actor; no fact where it changed nothing but the actor's place.
    pub(super) fn changed(
        &self,
        actor: ActorId,
        before: &State,
        after: &State,
    ) -> Result<Vec<String>, AllocError>
        requires before { IsWellFormed self.now.app.now before.now }
        requires after { IsWellFormed self.now.app.now after.now }
    {
        let (alloc, app) = (self.alloc, self.app);
        let mut facts = Vec::new(alloc);
        for place in 0..subject_count(app) {
            let subject = subject_at(app, place);
            if has_changed(alloc, app, actor, before, after, subject)? {
                add_text(&mut facts, fact(alloc, app, actor, after, subject)?)?;
            }
        }
        Ok(facts)
    }
}
