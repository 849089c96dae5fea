// The search for a step that undoes alternatives of a note, or for a state in which a rule is breached.
ghost use Rattle.std.specs.Prelude.{◌≡◌, ◌<◌, ◌↔◌, IsTrue, All, IfOk, IfSome, length};
ghost use Rattle.fr_rules.specs.State.{IsWellFormed};
ghost use Rattle.fr_rules.specs.Rule.{Breach};
ghost use Rattle.fr_notes.specs.Fits.{AlternativeFits};
ghost use Rattle.fr_notes.specs.Noted.{IsAt};
ghost use Rattle.fr_notes.specs.Note.{HoldsOne};
ghost use Rattle.fr_witness.specs.Hunt.{HuntFits, IsSet, IsFound};

use crate::claims::holds_one;
use crate::scene::{is_at, is_noted_by, plain_state};
use crate::taken::{Taken, step_from};
use crate::variants::{Said, Variants};
use fr_calls::{Moves, Rule, State, Way};
use fr_notes::Alternative;
use fr_program::{ActorId, App, Instr, Point};
use std::alloc::{AllocError, Global};

/// What is looked for: a step of one actor, perhaps beside another one, after which alternatives don't hold of
/// an actor; or a state in which it breaches a rule.
#[derive(Clone, Copy)]
pub(crate) struct Hunt<'a> {
    pub app: &'a App,
    /// Where the actor that moves is, the instruction there, and an alternative of its note.
    pub mover: Point,
    pub instr: &'a Instr,
    pub says: &'a Alternative,
    /// Where another actor is, with an alternative of its note, where one is looked at.
    pub other: Option<(Point, &'a Alternative)>,
    /// Where the step has to lead, where that is asked.
    pub lands: Option<Point>,
    /// The actor of whom the alternatives are undone.
    pub victim: ActorId,
}

/// The choices that are tried: the least and the greatest.
fn ends_of(moves: Moves) -> [i64; 2] {
    match moves {
        Moves::None => [0, 0],
        Moves::Span { lo, hi } => [lo, hi],
        Moves::Pair { a, b } => [a, b],
    }
}

/// Whether none of the alternatives holds of the actor.
fn none_holds(app: &App, alternatives: &[Alternative], actor: ActorId, state: &State) -> bool
    requires formed { IsWellFormed app.now state.now }
    requires fits { All (λ n. AlternativeFits app.now n) alternatives.now }
    requires actor { actor.0 < length app.now.actors }
    ensures { IsTrue result → All (λ n. HoldsOne n actor.0 state.now → ⊥) alternatives.now }
{
    for alternative in alternatives {
        if holds_one(app, alternative, actor, state) {
            return false;
        }
    }
    true
}

/// Whether the row is this one, where one is asked.
fn is_way(wanted: Option<Way>, way: Way) -> bool
    ensures { IsTrue result → IfSome wanted (λ w. w ≡ way) }
{
    match wanted {
        Some(wanted) => wanted == way,
        None => true,
    }
}

impl<'a> Hunt<'a> {
    /// A plain state in which the actors should be where they should be.
    pub(crate) fn plain(&self, alloc: Global) -> Result<State, AllocError>
        requires { HuntFits self.now }
        ensures { IfOk result (λ state. IsWellFormed self.now.app.now state) }
    {
        plain_state(alloc, self.app, (self.mover, self.says), self.other)
    }

    /// What is said of the numbers that variables can have.
    pub(crate) fn said(&self) -> Said<'a> {
        Said {
            says: self.says,
            other: match self.other {
                Some((_, says)) => Some(says),
                None => None,
            },
        }
    }

    /// Whether the actors are where they should be, each with its alternative.
    pub(crate) fn is_set(&self, state: &State) -> bool
        requires formed { IsWellFormed self.now.app.now state.now }
        requires fit { HuntFits self.now }
        ensures { IsTrue result → IsSet self.now state.now }
    {
        let is_mover_there = is_noted_by(self.app, self.mover, self.says, state);
        match self.other {
            Some((point, says)) => is_mover_there && is_noted_by(self.app, point, says, state),
            None => is_mover_there,
        }
    }

    /// Whether the state after a step is at the point where it has to be.
    fn has_landed(&self, state: &State) -> bool
        requires formed { IsWellFormed self.now.app.now state.now }
        requires fit { HuntFits self.now }
        ensures { IsTrue result → IfSome self.now.lands (λ p. IsAt state.now p) }
    {
        match self.lands {
            Some(point) => is_at(self.app, state, point),
            None => true,
        }
    }

    /// The mover's step from this state by a choice, if it shows what is looked for: by this row, where
    /// one is asked, and with none of these alternatives left.
    fn try_step(
        &self,
        before: &State,
        choice: i64,
        way: Option<Way>,
        undone: &[Alternative],
    ) -> Result<Option<(Way, Taken)>, AllocError>
        requires formed { IsWellFormed self.now.app.now before.now }
        requires fit { HuntFits self.now }
        requires set { IsSet self.now before.now }
        requires undone { All (λ n. AlternativeFits self.now.app.now n) undone.now }
        ensures { IfOk result (λ found. IfSome found (λ t. IsFound self.now way undone.now t.0 t.1)) }
    {
        let Some((by, taken)) = step_from(self.app, before, self.mover.actor, choice)? else {
            return Ok(None);
        };
        let is_found = is_way(way, by)
            && self.has_landed(&taken.after)
            && none_holds(self.app, undone, self.victim, &taken.after);
        Ok(if is_found { Some((by, taken)) } else { None })
    }

    /// The first step that shows what is looked for, among these states and the least and the greatest
    /// choice in each of them; None where none does.
    pub(crate) fn find(
        &self,
        alloc: Global,
        plain: &State,
        variants: &Variants,
        way: Option<Way>,
        undone: &[Alternative],
    ) -> Result<Option<(Way, Taken)>, AllocError>
        requires formed { IsWellFormed self.now.app.now plain.now }
        requires fit { HuntFits self.now }
        requires undone { All (λ n. AlternativeFits self.now.app.now n) undone.now }
        ensures { IfOk result (λ found. IfSome found (λ t. IsFound self.now way undone.now t.0 t.1)) }
    {
        for number in 0..variants.count() {
            let state = variants.state(alloc, self.app, plain, number)?;
            if self.is_set(&state) {
                let [least, greatest] = ends_of(state.moves(self.app, self.mover.actor));
                if let Some(found) = self.try_step(&state, least, way, undone)? {
                    return Ok(Some(found));
                }
                if let Some(found) = self.try_step(&state, greatest, way, undone)? {
                    return Ok(Some(found));
                }
            }
        }
        Ok(None)
    }
}

impl<'a> Hunt<'a> {
    /// A state in which the mover breaches the rule; None where none was found.
    pub(crate) fn breach(&self, alloc: Global, rule: Rule) -> Result<Option<State>, AllocError>
        requires { HuntFits self.now }
        ensures { IfOk result (λ found. IfSome found (λ S.
            IsSet self.now S × Breach self.now.app.now S rule self.now.mover.actor.0)) }
    {
        let plain = self.plain(alloc)?;
        let variants = Variants::of(alloc, self.app, self.instr, self.said(), &[])?;
        for number in 0..variants.count() {
            let state = variants.state(alloc, self.app, &plain, number)?;
            if self.is_set(&state) && state.breaches(self.app, self.mover.actor, rule) {
                return Ok(Some(state));
            }
        }
        Ok(None)
    }
}
