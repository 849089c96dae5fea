// What some points have in common: where that keeps them from disturbing a note, none of them is looked at alone.
ghost use Rattle.std.specs.Prelude.{◌≡◌, ◌≢◌, ◌<◌, ◌↔◌, ℤ, true, false, IsTrue, List, All, Any, Some, IfOk, length, slice_get, slice_index_or};
ghost use Rattle.fr_program.specs.declared.ids.Point.{Point};
ghost use Rattle.fr_program.specs.Points.{points_of};
ghost use Rattle.fr_program.specs.Program.{Program};
ghost use Rattle.fr_notes.specs.declared.claim.Claim.{Claim as ClaimOf};
ghost use Rattle.fr_notes.specs.Fits.{AlternativeFits, NoteFits, NotesFit};
ghost use Rattle.fr_notes.specs.Known.{ClaimsMeet};
ghost use Rattle.fr_notes.specs.Note.{Alternative as AlternativeOf, Note as NoteOf, claim_of, range_of};
ghost use Rattle.fr_effects.specs.declared.effects.Effect.{Effect as EffectOf};
ghost use Rattle.fr_effects.specs.Effects.{IsComputable};
ghost use Rattle.fr_interfere.specs.Hull.{Has, GivesIn, CoversClaims, CoversRanges, Covers, IsUnder, AreUnder, IsShut, IsDenied, IsApart, Excludes, IsBorne, IsBorneByEach, Spares, IsClosedBy};

use fr_effects::{Effect, effect_at};
use fr_notes::{Alternative, Claim, Known, Note, Notes};
use fr_program::{ActorId, App, ObjId, Range, VarId};
use std::alloc::{AllocError, Global};

/// What is true of each of some points: of its note, and of what the steps from it write.
#[derive(Drop)]
pub struct Hull {
    /// Their actor, where they have one.
    actor: Option<ActorId>,
    /// Whether each of their alternatives is in the critical section.
    critical: bool,
    /// Of some objects, a claim that can meet all that a claim of one of their alternatives can meet.
    claims: Vec<(ObjId, Claim)>,
    /// Of some variables, a range with all numbers that one of their alternatives gives it.
    ranges: Vec<(VarId, Range)>,
    /// The number of the variable that each of their steps writes, where that is one.
    variable: Option<usize>,
    /// The least range of the numbers that their steps give variables; None where they give none.
    written: Option<Range>,
}

/// Whether no number is in the range and in the alternative's range of the same variable.
fn is_apart(entry: &(VarId, Range), alternative: &Alternative) -> bool
    ensures { IsTrue result ↔ IsApart entry.now alternative.now }
{
    let (variable, range) = *entry;
    let other = alternative.range(variable);
    range.hi < other.lo || other.hi < range.lo
}

/// Whether the claim can't meet the alternative's claim of the same object.
fn is_denied(entry: &(ObjId, Claim), alternative: &Alternative) -> bool
    ensures { IsTrue result ↔ IsDenied entry.now alternative.now }
{
    let (object, claim) = *entry;
    !claim.meets(alternative.claim(object))
}

/// A claim that can meet all that one of the two can meet.
fn common_claim(claim: Claim, other: Claim) -> Claim
    ensures one { (c : ClaimOf) → ClaimsMeet claim c → ClaimsMeet result c }
    ensures other { (c : ClaimOf) → ClaimsMeet other c → ClaimsMeet result c }
{
    match (claim, other) {
        (Claim::HeldTimes(count), Claim::HeldTimes(_)) => Claim::HeldTimes(count),
        (Claim::HeldTimes(_) | Claim::Alive, Claim::HeldTimes(_) | Claim::Alive) => Claim::Alive,
        (Claim::Gone, Claim::Gone) => Claim::Gone,
        (_, _) => Claim::NotHeld,
    }
}

/// The least range that has all numbers of both, where there are two.
fn common_written(written: Option<Range>, more: Option<Range>) -> Option<Range>
    ensures one { (v : ℤ) → Has written v → Has result v }
    ensures other { (v : ℤ) → Has more v → Has result v }
{
    match (written, more) {
        (Some(range), Some(other)) => Some(range.hull(other)),
        (None, other) => other,
        (one, None) => one,
    }
}

/// The least range of the numbers that the effect gives its variable where the alternative holds; None
/// where it gives none.
fn written_by(app: &App, effect: Effect, alternative: &Alternative) -> Option<Range>
    requires alternative { AlternativeFits app.now alternative.now }
    requires computable { IsComputable effect }
    ensures { GivesIn effect alternative.now result }
{
    app.recall_faultless();
    match effect {
        Effect::Nothing | Effect::Life(_) => None,
        Effect::Gives { lo, hi, .. } => Some(Range::only(lo).hull(Range::only(hi))),
        Effect::Sets {
            left,
            operator,
            right,
            ..
        } => Some(Known::alone(alternative).result(operator, left, right)),
    }
}

/// Whether all are in the critical section so far, and this alternative is too.
fn is_critical_too(so_far: bool, alternative: &Alternative) -> bool
    ensures { IsTrue result ↔ (so_far ≡ true) × (alternative.now.critical ≢ 0) }
{
    so_far && alternative.critical() > 0
}

/// The claims, so that they cover the alternative too.
fn cover_claims(claims: &mut [(ObjId, Claim)], alternative: &Alternative)
    ensures covers { CoversClaims claims.new alternative.now }
    ensures keeps { (m : AlternativeOf) → CoversClaims claims.old m → CoversClaims claims.new m }
{
    for entry in claims.iter_mut() {
        let (object, claim) = *entry;
        *entry = (object, common_claim(claim, alternative.claim(object)));
    }
}

/// The ranges, so that they cover the alternative too.
pub fn cover_ranges(ranges: &mut [(VarId, Range)], alternative: &Alternative)
    ensures covers { CoversRanges ranges.new alternative.now }
    ensures keeps { (m : AlternativeOf) → CoversRanges ranges.old m → CoversRanges ranges.new m }
{
    for entry in ranges.iter_mut() {
        let (variable, range) = *entry;
        *entry = (variable, range.hull(alternative.range(variable)));
    }
}

/// The claims of an alternative that say something of an object. Its error is that an allocation was refused.
pub fn claims_said(
    alloc: Global,
    alternative: &Alternative,
) -> Result<Vec<(ObjId, Claim)>, AllocError> {
    let mut claims = Vec::new(alloc);
    for (object, claim) in alternative.claims().iter().enumerate() {
        if !matches!(claim, Claim::NotHeld) {
            claims.push((ObjId(object), *claim))?;
        }
    }
    Ok(claims)
}

/// The ranges of an alternative that say something of a variable. Its error is that an allocation was refused.
pub fn ranges_said(
    alloc: Global,
    app: &App,
    alternative: &Alternative,
) -> Result<Vec<(VarId, Range)>, AllocError> {
    let mut ranges = Vec::new(alloc);
    for (variable, range) in alternative.ranges().iter().enumerate() {
        if is_narrower(app, VarId(variable), *range) {
            ranges.push((VarId(variable), *range))?;
        }
    }
    Ok(ranges)
}

/// Whether the range leaves out some number of the variable's declared range.
fn is_narrower(app: &App, variable: VarId, range: Range) -> bool {
    match app.variables().get(variable.0) {
        None => false,
        Some(declared) => {
            i128::from(declared.lo) < range.lo || range.hi < i128::from(declared.hi)
        }
    }
}

/// Whether one of the claims can't meet the alternative's claim of the same object.
pub fn excludes_claim(claims: &[(ObjId, Claim)], alternative: &Alternative) -> bool
    ensures { IsTrue result ↔ Any (λ e. IsDenied e alternative.now) claims.now }
{
    claims.iter().any(|entry| is_denied(entry, alternative))
}

/// Whether one of the ranges has no number of the alternative's range of the same variable.
pub fn excludes_range(ranges: &[(VarId, Range)], alternative: &Alternative) -> bool
    ensures { IsTrue result ↔ Any (λ e. IsApart e alternative.now) ranges.now }
{
    for entry in ranges {
        if is_apart(entry, alternative) {
            return true;
        }
    }
    false
}

/// Whether this one is set; past the last, it isn't.
fn is_set(flags: &[bool], place: usize) -> bool
    ensures { result ≡ slice_index_or flags.now place false }
{
    match flags.get(place) {
        Some(flag) => *flag,
        None => false,
    }
}

impl Hull {
    /// The hull of no point, which can say of a point what its first alternative says.
    fn before(alloc: Global, app: &App, notes: &Notes, number: usize) -> Result<Hull, AllocError>
        requires number { number < length (points_of app.now) }
        requires fit { NotesFit app.now notes.now }
    {
        let (claims, ranges) = match notes.at(app, number).alternatives().first() {
            Some(alternative) => (
                claims_said(alloc, alternative)?,
                ranges_said(alloc, app, alternative)?,
            ),
            None => (Vec::new(alloc), Vec::new(alloc)),
        };
        Ok(Hull {
            actor: Some(app.point(number).actor),
            critical: true,
            claims,
            ranges,
            variable: effect_at(app, number).target(),
            written: None,
        })
    }

    /// The hull with an alternative more, and with what the effect writes where that holds.
    fn cover(&mut self, app: &App, effect: Effect, alternative: &Alternative)
        requires alternative { AlternativeFits app.now alternative.now }
        requires computable { IsComputable effect }
        ensures actor { self.new.actor ≡ self.old.actor }
        ensures variable { self.new.variable ≡ self.old.variable }
        ensures covers { Covers self.new effect alternative.now }
        ensures keeps { (e : EffectOf) (m : AlternativeOf) → Covers self.old e m → Covers self.new e m }
    {
        let written = written_by(app, effect, alternative);
        self.critical = is_critical_too(self.critical, alternative);
        cover_claims(&mut self.claims, alternative);
        cover_ranges(&mut self.ranges, alternative);
        self.written = common_written(self.written, written);
    }

    /// The hull with all alternatives of a note more, and with what the effect writes where they hold.
    fn cover_note(&mut self, app: &App, effect: Effect, note: &Note)
        requires note { NoteFits app.now note.now }
        requires computable { IsComputable effect }
        ensures actor { self.new.actor ≡ self.old.actor }
        ensures variable { self.new.variable ≡ self.old.variable }
        ensures covers { All (λ m. Covers self.new effect m) note.now }
        ensures keeps { (e : EffectOf) (m : AlternativeOf) → Covers self.old e m → Covers self.new e m }
    {
        for alternative in note.alternatives() {
            self.cover(app, effect, alternative);
        }
    }

    /// The hull with a point more.
    fn cover_point(&mut self, app: &App, notes: &Notes, number: usize)
        requires number { number < length (points_of app.now) }
        requires fit { NotesFit app.now notes.now }
        ensures covers { (q : Point) → slice_get (points_of app.now) number ≡ Some q →
            IsUnder app.now notes.now self.new q }
        ensures keeps { (q : Point) → IsUnder app.now notes.now self.old q →
            IsUnder app.now notes.now self.new q }
    {
        let actor = app.point(number).actor;
        let effect = effect_at(app, number);
        self.cover_note(app, effect, notes.at(app, number));
        self.actor = self.actor.filter(|own| *own == actor);
        self.variable = self.variable.filter(|own| Some(*own) == effect.target());
    }

    /// The hull of the points with these numbers.
    pub fn of(
        alloc: Global,
        app: &App,
        notes: &Notes,
        numbers: &[usize],
    ) -> Result<Hull, AllocError>
        requires below { All (λ k. k < length (points_of app.now)) numbers.now }
        requires some { 0 < length numbers.now }
        requires fit { NotesFit app.now notes.now }
        ensures { IfOk result (λ hull. AreUnder app.now notes.now hull numbers.now) }
    {
        app.recall_numbered();
        let mut hull = Hull::before(alloc, app, notes, numbers[0])?;
        for number in numbers {
            hull.cover_point(app, notes, *number);
        }
        hull.trim(app);
        Ok(hull)
    }

    /// The hull without what says nothing.
    fn trim(&mut self, app: &App)
        ensures { (P : Program) (ns : List NoteOf) (q : Point) → IsUnder P ns self.old q →
            IsUnder P ns self.new q }
    {
        self.claims
            .retain(|(_object, claim)| !matches!(claim, Claim::NotHeld));
        self.ranges
            .retain(|(variable, range)| is_narrower(app, *variable, *range));
    }

    /// Whether each alternative that the hull covers is in the critical section, as this one is.
    fn excludes_entry(&self, alternative: &Alternative) -> bool
        ensures { IsTrue result ↔ IsShut self.now alternative.now }
    {
        self.critical && alternative.critical() > 0
    }

    /// Whether no alternative that the hull covers can meet this one.
    fn excludes(&self, alternative: &Alternative) -> bool
        ensures { IsTrue result ↔ Excludes self.now alternative.now }
    {
        if self.excludes_entry(alternative) {
            return true;
        }
        if excludes_range(&self.ranges, alternative) {
            return true;
        }
        excludes_claim(&self.claims, alternative)
    }

    /// Whether the alternative's range of the variable has each number that is written.
    fn is_borne(&self, variable: VarId, alternative: &Alternative) -> bool
        ensures { IsTrue result ↔ IsBorne self.now variable.0 alternative.now }
    {
        match self.written {
            None => true,
            Some(range) => range.within(alternative.range(variable)),
        }
    }

    /// Whether the points write one variable, and each alternative of the note has each number that is
    /// written.
    fn is_borne_by_each(&self, note: &Note) -> bool
        ensures { IsTrue result ↔ IsBorneByEach self.now note.now }
    {
        match self.variable {
            None => false,
            Some(variable) => note
                .alternatives()
                .iter()
                .all(|alternative| self.is_borne(VarId(variable), alternative)),
        }
    }

    /// Whether nothing that the hull covers can meet an alternative of the note.
    fn excludes_each(&self, note: &Note) -> bool
        ensures { IsTrue result ↔ All (λ n. Excludes self.now n) note.now }
    {
        for alternative in note.alternatives() {
            if !self.excludes(alternative) {
                return false;
            }
        }
        true
    }

    /// Whether the hull has this one actor.
    fn is_of(&self, actor: ActorId) -> bool
        ensures { IsTrue result ↔ self.now.actor ≡ Some actor }
    {
        self.actor == Some(actor)
    }

    /// The hull's one actor, where it has one.
    pub fn only_actor(&self) -> Option<ActorId>
        ensures { result ≡ self.now.actor }
    {
        self.actor
    }

    /// Whether the points are one actor's that is closed, and write one variable.
    pub fn is_closed(&self, closed: &[bool]) -> bool
        ensures { IsTrue result → IsClosedBy self.now closed.now }
    {
        match (self.actor, self.variable) {
            (Some(actor), Some(_variable)) => is_set(closed, actor.0),
            _ => false,
        }
    }

    /// Whether no point under the hull can disturb the actor's note, as far as the hull shows: the points
    /// are the actor's own, or write numbers of one variable that the note has, or can't meet the note.
    pub fn spares(&self, actor: ActorId, note: &Note) -> bool
        ensures { IsTrue result ↔ Spares self.now actor note.now }
    {
        if self.is_of(actor) {
            return true;
        }
        if self.is_borne_by_each(note) {
            return true;
        }
        self.excludes_each(note)
    }
}
