// The points that can make other actors' notes false, listed by what they change.
ghost use Rattle.std.specs.Prelude.{◌≡◌, ◌<◌, ◌+◌, ◌↔◌, ℕ, [], IsTrue, IfOk, OnOk, length, replicate};
ghost use Rattle.fr_program.specs.Points.{points_of};
ghost use Rattle.fr_notes.specs.Fits.{AlternativeFits};
ghost use Rattle.fr_notes.specs.Note.{range_of};
ghost use Rattle.fr_effects.specs.Effects.{declared_of, HasTarget, IsComputable};
ghost use Rattle.fr_effects.specs.Index.{CanLeave, IsIndexBelow, IsIndexOf, list_at};
ghost use Rattle.fr_effects.specs.Listing.{enlisted};

use crate::effects::{Effect, effect_at};
use fr_notes::{Alternative, Known, NoteParts};
use fr_program::{App, ObjId, VarId};
use std::alloc::{AllocError, Global};
use std::marker::Model;

/// A list of points' numbers for each of so many variables or objects.
#[derive(Drop)]
struct Listing {
    lists: Vec<Vec<usize>>,
}

impl Model for Listing {
    ghost use Rattle.std.specs.Prelude.{ℕ, List, map};

    ghost Value = { List (List ℕ) };

    ghost view = { λ l. map (λ list. list.items) l.lists.items };
}

impl Listing {
    /// So many empty lists.
    fn empty(alloc: Global, count: usize) -> Result<Listing, AllocError>
        ensures { IfOk result (λ l. l ≡ replicate count []) }
    {
        let mut lists = Vec::with_capacity(alloc, count)?;
        for _place in 0..count {
            lists.push(Vec::new(alloc))?;
        }
        Ok(Listing { lists })
    }

    /// Appends the number to the list at this place, where there is one.
    fn enlist(&mut self, place: Option<usize>, number: usize) -> Result<(), AllocError>
        ensures { OnOk result (self.new ≡ enlisted self.old place number) }
    {
        if let Some(place) = place {
            if let Some(list) = self.lists.get_mut(place) {
                list.push(number)?;
            }
        }
        Ok(())
    }

    /// The list at this place; an empty one past the last.
    fn at(&self, place: usize) -> &[usize]
        ensures { result.now ≡ list_at self.now place }
    {
        match self.lists.get(place) {
            Some(list) => list,
            None => &[],
        }
    }
}

/// The index of an application: the points that write each variable, the points that create or delete
/// each object, and the `set`s that can leave a declared range. Other actors' notes can become false by
/// steps from these points alone.
#[derive(Drop)]
pub struct Index {
    writers: Listing,
    lives: Listing,
    leavers: Vec<usize>,
}

impl Model for Index {
    ghost use Rattle.fr_effects.specs.Index.{IndexOf};

    ghost Value = { IndexOf };

    ghost use Rattle.fr_effects.specs.IndexView.{index_of};

    ghost view = { index_of };
}

/// Whether the effect is a `set` whose value, from some numbers of its operands' declared ranges, is
/// outside the declared range of its variable. `anywhere` has the declared ranges.
fn can_leave(app: &App, anywhere: &Alternative, effect: Effect) -> bool
    requires anywhere { AlternativeFits app.now anywhere.now }
    requires declared { (x : ℕ) → range_of anywhere.now x ≡ declared_of app.now x }
    requires computable { IsComputable effect }
    requires target { HasTarget app.now effect }
    ensures { IsTrue result ↔ CanLeave app.now effect }
{
    app.recall_faultless();
    let Effect::Sets {
        target,
        left,
        operator,
        right,
    } = effect
    else {
        return false;
    };
    let span = Known::alone(anywhere).result(operator, left, right);
    !span.within(app.range(target))
}

/// The alternative that says nothing: each variable is somewhere in its declared range.
fn anywhere(alloc: Global, app: &App) -> Result<Alternative, AllocError>
    ensures fits { IfOk result (λ n. AlternativeFits app.now n) }
    ensures declared { IfOk result (λ n. (x : ℕ) → range_of n x ≡ declared_of app.now x) }
{
    match Alternative::build(alloc, app, NoteParts::none(alloc)) {
        Ok(anywhere) => Ok(anywhere),
        Err(_) => Err(AllocError),
    }
}

impl Index {
    /// The index of an application. One pass over its points fills the lists.
    ///
    /// # Errors
    ///
    /// An allocation was refused.
    pub fn build(alloc: Global, app: &App) -> Result<Index, AllocError>
        ensures { IfOk result (IsIndexOf app.now) }
    {
        let anywhere = anywhere(alloc, app)?;
        let mut index = Index {
            writers: Listing::empty(alloc, app.variables().len())?,
            lives: Listing::empty(alloc, app.objects().len())?,
            leavers: Vec::new(alloc),
        };
        for number in 0..app.points() {
            index.enlist(app, &anywhere, number)?;
        }
        Ok(index)
    }

    /// Puts the point with this number into the lists that it belongs to.
    fn enlist(&mut self, app: &App, anywhere: &Alternative, number: usize) -> Result<(), AllocError>
        requires number { number < length (points_of app.now) }
        requires anywhere { AlternativeFits app.now anywhere.now }
        requires declared { (x : ℕ) → range_of anywhere.now x ≡ declared_of app.now x }
        requires index { IsIndexBelow app.now number self.old }
        ensures { OnOk result (IsIndexBelow app.now (number + 1) self.new) }
    {
        let _point = app.point(number);
        let effect = effect_at(app, number);
        self.writers.enlist(effect.target(), number)?;
        self.lives.enlist(effect.made(), number)?;
        if can_leave(app, anywhere, effect) {
            self.leavers.push(number)?;
        }
        Ok(())
    }

    /// The numbers, rising, of the points whose steps can write the variable. None for a variable that
    /// the application doesn't have. Takes no memory.
    pub fn writers(&self, variable: VarId) -> &[usize]
        ensures { result.now ≡ list_at self.now.writers variable.0 }
    {
        self.writers.at(variable.0)
    }

    /// The numbers, rising, of the points that create or delete the object. None for an object that the
    /// application doesn't have. Takes no memory.
    pub fn lives(&self, object: ObjId) -> &[usize]
        ensures { result.now ≡ list_at self.now.lives object.0 }
    {
        self.lives.at(object.0)
    }

    /// The numbers, rising, of the `set` points whose value is outside the declared range of its variable
    /// for some numbers of its operands' declared ranges. Takes no memory.
    pub fn leavers(&self) -> &[usize]
        ensures { result.now ≡ self.now.leavers }
    {
        &self.leavers
    }
}
