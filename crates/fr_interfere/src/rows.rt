// The lists of the index with the hulls of their points, so that many points are passed over at once.
ghost use Rattle.std.specs.Prelude.{◌≡◌, ◌<◌, ◌≤◌, ◌+◌, ℕ, List, All, IsTrue, false, Some, IfOk, OnOk, IfSome, length, slice_get, slice_index_or};
ghost use Rattle.std.specs.Option.{ForSome};
ghost use Rattle.fr_program.specs.declared.ids.Point.{Point};
ghost use Rattle.fr_program.specs.Lookup.{IsPoint};
ghost use Rattle.fr_program.specs.Points.{points_of};
ghost use Rattle.fr_program.specs.Program.{Program};
ghost use Rattle.fr_notes.specs.Fits.{NotesFit};
ghost use Rattle.fr_notes.specs.Note.{Note as NoteOf};
ghost use Rattle.fr_effects.specs.Index.{IndexOf, IsIndexOf, Lists, list_at};
ghost use Rattle.fr_interfere.specs.Rows.{AreListed, IsBlock, IsInSome, IsRun, IsInRun, IsBlockAt, IsRow, AreRows, WritesOne, HaveWriters, AreHullsOf, AreClosed, IsTold};
ghost use Rattle.fr_interfere.specs.Spoilers.{IsFirstOf, IsListed};

use crate::hull::Hull;
use crate::spoilers::{first_listed, lesser};
use fr_effects::{Index, effect_at, is_free};
use fr_notes::{Note, Notes};
use fr_program::{ActorId, App, ObjId, VarId};
use rayon::prelude::*;
use std::alloc::{AllocError, Global};
use std::thread::Threads;

/// Points of a list of the index, with their hull.
#[derive(Drop)]
pub struct Block {
    hull: Hull,
    numbers: Vec<usize>,
}

/// The hull of all points of a list of the index, and the same points actor by actor.
#[derive(Drop)]
pub struct Row {
    hull: Hull,
    blocks: Vec<Block>,
}

impl Block {
    /// The block of the points with these numbers.
    fn of(alloc: Global, app: &App, notes: &Notes, numbers: &[usize]) -> Result<Block, AllocError>
        requires listed { AreListed app.now numbers.now }
        requires some { 0 < length numbers.now }
        requires fit { NotesFit app.now notes.now }
        ensures block { IfOk result (λ b. IsBlock app.now notes.now b) }
        ensures numbers { IfOk result (λ b. b.numbers.items ≡ numbers.now) }
    {
        let hull = Hull::of(alloc, app, notes, numbers)?;
        let numbers = Vec::from_slice(alloc, numbers)?;
        Ok(Block { hull, numbers })
    }
}

/// The place behind the first points from this place on that are one actor's.
fn behind_actor(app: &App, numbers: &[usize], from: usize) -> usize
    requires below { All (λ k. k < length (points_of app.now)) numbers.now }
    requires there { from < length numbers.now }
    ensures above { from < result }
    ensures most { result ≤ length numbers.now }
{
    let actor = app.point(numbers[from]).actor;
    for place in from + 1..numbers.len() {
        if app.point(numbers[place]).actor != actor {
            return place;
        }
    }
    numbers.len()
}

/// The points with these numbers, actor by actor.
fn blocks_of(
    alloc: Global,
    app: &App,
    notes: &Notes,
    numbers: &[usize],
) -> Result<Vec<Block>, AllocError>
    requires listed { AreListed app.now numbers.now }
    requires fit { NotesFit app.now notes.now }
    ensures each { IfOk result (λ blocks. All (λ b. IsBlock app.now notes.now b) blocks.items) }
    ensures found { IfOk result (λ blocks. (q : Point) → IsPoint app.now q → IsListed app.now numbers.now q →
        IsInSome app.now blocks.items q) }
{
    let mut blocks = Vec::new(alloc);
    let mut from = 0;
    while from < numbers.len() {
        let behind = behind_actor(app, numbers, from);
        blocks.push(Block::of(alloc, app, notes, &numbers[from..behind])?)?;
        from = behind;
    }
    Ok(blocks)
}

/// The places of a list from one up to another, whose points are one actor's.
#[derive(Clone, Copy)]
struct Run {
    from: usize,
    behind: usize,
}

/// The points with these numbers, parted into runs of one actor each.
fn runs_of(alloc: Global, app: &App, numbers: &[usize]) -> Result<Vec<Run>, AllocError>
    requires below { All (λ k. k < length (points_of app.now)) numbers.now }
    ensures each { IfOk result (λ runs. All (λ r. IsRun numbers.now r) runs.items) }
    ensures found { IfOk result (λ runs. (j : ℕ) → j < length numbers.now → IsInRun runs.items j) }
{
    let mut runs = Vec::new(alloc);
    let mut from = 0;
    while from < numbers.len() {
        let behind = behind_actor(app, numbers, from);
        runs.push(Run { from, behind })?;
        from = behind;
    }
    Ok(runs)
}

/// The block of the points of the run at this place.
fn block_at(
    alloc: Global,
    app: &App,
    notes: &Notes,
    numbers: &[usize],
    runs: &[Run],
    place: usize,
) -> Result<Block, AllocError>
    requires listed { AreListed app.now numbers.now }
    requires runs { All (λ r. IsRun numbers.now r) runs.now }
    requires place { place < length runs.now }
    requires fit { NotesFit app.now notes.now }
    ensures { IfOk result (λ b. IsBlockAt app.now notes.now numbers.now runs.now place b) }
{
    let Run { from, behind } = runs[place];
    Block::of(alloc, app, notes, &numbers[from..behind])
}

/// The points with these numbers, actor by actor, by several threads where that is worth it.
fn blocks_by<R: Threads + Sync>(
    rt: &R,
    alloc: Global,
    app: &App,
    notes: &Notes,
    numbers: &[usize],
    workers: usize,
) -> Result<Vec<Block>, AllocError>
    requires listed { AreListed app.now numbers.now }
    requires fit { NotesFit app.now notes.now }
    ensures each { IfOk result (λ blocks. All (λ b. IsBlock app.now notes.now b) blocks.items) }
    ensures found { IfOk result (λ blocks. (q : Point) → IsPoint app.now q → IsListed app.now numbers.now q →
        IsInSome app.now blocks.items q) }
{
    let runs = runs_of(alloc, app, numbers)?;
    let runs = runs.as_slice();
    let least = least_piece(app, runs.len(), workers);
    let made: Result<Vec<Block>, AllocError> = (0..runs.len())
        .into_par_iter()
        .with_min_len(least)
        .map(
            |place: usize| -> Result<Block, AllocError>
                requires listed { AreListed app.now numbers.now }
                requires runs { All (λ r. IsRun numbers.now r) runs.now }
                requires place { place < length runs.now }
                requires fit { NotesFit app.now notes.now }
                ensures { IfOk result (λ b. IsBlockAt app.entry.now notes.entry.now numbers.entry.now runs.entry.now place b) }
            { block_at(alloc, app, notes, numbers, runs, place) },
        )
        .collect(rt, alloc)?;
    made
}

impl Row {
    /// The row of the points with these numbers.
    pub fn of(alloc: Global, app: &App, notes: &Notes, numbers: &[usize]) -> Result<Row, AllocError>
        requires listed { AreListed app.now numbers.now }
        requires some { 0 < length numbers.now }
        requires fit { NotesFit app.now notes.now }
        ensures { IfOk result (λ row. IsRow app.now notes.now numbers.now row) }
    {
        let hull = Hull::of(alloc, app, notes, numbers)?;
        let blocks = blocks_of(alloc, app, notes, numbers)?;
        Ok(Row { hull, blocks })
    }
}

/// The row of the points with these numbers, where there is one.
fn row_of(
    alloc: Global,
    app: &App,
    notes: &Notes,
    numbers: &[usize],
) -> Result<Option<Row>, AllocError>
    requires listed { AreListed app.now numbers.now }
    requires fit { NotesFit app.now notes.now }
    ensures { IfOk result (λ row. IfSome row (λ r. IsRow app.now notes.now numbers.now r)) }
{
    if numbers.is_empty() {
        Ok(None)
    } else {
        Ok(Some(Row::of(alloc, app, notes, numbers)?))
    }
}

/// What the points that an index lists have in common, by an application's notes: for each variable that is
/// written and each object that is created or deleted, of all these points and actor by actor.
#[derive(Drop)]
pub struct Hulls {
    writers: Vec<Option<Row>>,
    lives: Vec<Option<Row>>,
    /// All points that write a variable, actor by actor.
    actors: Vec<Block>,
}

/// In an application of fewer points one thread makes all hulls: it is done before another one has started.
const FEW_POINTS: usize = 4096;

/// How many of so many things a thread takes at the least. For each worker there are up to two threads, so that one with little
/// to do is no loss. One thread takes all for one worker, and where the application is small.
fn least_piece(app: &App, things: usize, workers: usize) -> usize {
    if workers < 2 || app.points() < FEW_POINTS {
        usize::MAX
    } else {
        (things / workers.saturating_mul(2)).max(1)
    }
}

/// How many actors can be told to be closed to a note.
pub const MOST_CLOSED: usize = 32;

/// Puts the point with this number behind the others, if it writes a variable.
fn enlist_writer(app: &App, numbers: &mut Vec<usize>, number: usize) -> Result<(), AllocError>
    requires number { number < length (points_of app.now) }
    requires so_far { Lists app.now WritesOne number numbers.old.items }
    ensures { OnOk result (Lists app.now WritesOne (number + 1) numbers.new.items) }
{
    let _point = app.point(number);
    if effect_at(app, number).target().is_some() {
        numbers.push(number)?;
    }
    Ok(())
}

/// The numbers of the points that write a variable.
fn writing_points(alloc: Global, app: &App) -> Result<Vec<usize>, AllocError>
    ensures { IfOk result
        (λ numbers. Lists app.now WritesOne (length (points_of app.now)) numbers.items) }
{
    let mut numbers = Vec::new(alloc);
    for number in 0..app.points() {
        enlist_writer(app, &mut numbers, number)?;
    }
    Ok(numbers)
}

/// The row of the variable with this number, where some point writes it.
fn row_of_variable(
    alloc: Global,
    app: &App,
    notes: &Notes,
    index: &Index,
    variable: usize,
) -> Result<Option<Row>, AllocError>
    requires variable { variable < length app.now.variables }
    requires fit { NotesFit app.now notes.now }
    requires index { IsIndexOf app.now index.now }
    ensures { IfOk result (λ row. IfSome row (λ r. IsRow app.now notes.now (list_at index.now.writers variable) r)) }
{
    row_of(alloc, app, notes, index.writers(VarId(variable)))
}

/// The rows of the variables, by their numbers.
fn writer_rows(
    alloc: Global,
    app: &App,
    notes: &Notes,
    index: &Index,
) -> Result<Vec<Option<Row>>, AllocError>
    requires fit { NotesFit app.now notes.now }
    requires index { IsIndexOf app.now index.now }
    ensures { IfOk result (λ rows. AreRows app.now notes.now index.now.writers rows.items) }
{
    let mut rows = Vec::new(alloc);
    for variable in 0..app.variables().len() {
        rows.push(row_of_variable(alloc, app, notes, index, variable)?)?;
    }
    Ok(rows)
}

/// The same, by several threads where that is worth it.
fn writer_rows_by<R: Threads + Sync>(
    rt: &R,
    alloc: Global,
    app: &App,
    notes: &Notes,
    index: &Index,
    workers: usize,
) -> Result<Vec<Option<Row>>, AllocError>
    requires fit { NotesFit app.now notes.now }
    requires index { IsIndexOf app.now index.now }
    ensures { IfOk result (λ rows. AreRows app.now notes.now index.now.writers rows.items) }
{
    let variables = app.variables().len();
    let least = least_piece(app, variables, workers);
    let rows: Result<Vec<Option<Row>>, AllocError> = (0..variables)
        .into_par_iter()
        .with_min_len(least)
        .map(
            |variable: usize| -> Result<Option<Row>, AllocError>
                requires variable { variable < length app.now.variables }
                requires fit { NotesFit app.now notes.now }
                requires index { IsIndexOf app.now index.now }
                ensures { IfOk result (λ row. IfSome row (λ r. IsRow app.entry.now notes.entry.now (list_at index.entry.now.writers variable) r)) }
            { row_of_variable(alloc, app, notes, index, variable) },
        )
        .collect(rt, alloc)?;
    rows
}

/// The rows of the objects, by their numbers.
fn maker_rows(
    alloc: Global,
    app: &App,
    notes: &Notes,
    index: &Index,
) -> Result<Vec<Option<Row>>, AllocError>
    requires fit { NotesFit app.now notes.now }
    requires index { IsIndexOf app.now index.now }
    ensures { IfOk result (λ rows. AreRows app.now notes.now index.now.lives rows.items) }
{
    let mut rows = Vec::new(alloc);
    for object in 0..app.objects().len() {
        rows.push(row_of(alloc, app, notes, index.lives(ObjId(object)))?)?;
    }
    Ok(rows)
}

/// The row at this place, where there is one.
fn row_at(rows: &[Option<Row>], place: usize) -> Option<&Row>
    ensures { ForSome result (λ row. slice_get rows.now place ≡ Some (Some row.now)) }
{
    match rows.get(place) {
        Some(Some(row)) => Some(row),
        _ => None,
    }
}

impl Hulls {
    /// The hulls of the points that the index lists, with these notes, which fit the application.
    ///
    /// # Errors
    ///
    /// An allocation was refused.
    pub fn build(
        alloc: Global,
        app: &App,
        notes: &Notes,
        index: &Index,
    ) -> Result<Hulls, AllocError>
        requires fit { NotesFit app.now notes.now }
        requires index { IsIndexOf app.now index.now }
        ensures { IfOk result (AreHullsOf app.now notes.now index.now) }
    {
        app.recall_numbered();
        let writers = writer_rows(alloc, app, notes, index)?;
        let lives = maker_rows(alloc, app, notes, index)?;
        let writing = writing_points(alloc, app)?;
        let actors = blocks_of(alloc, app, notes, &writing)?;
        Ok(Hulls {
            writers,
            lives,
            actors,
        })
    }

    /// The same, where the application is large by several threads: up to two for each of these workers. The work of a thread that
    /// can't be started is done by another one.
    ///
    /// # Errors
    ///
    /// An allocation was refused.
    pub fn build_by<R: Threads + Sync>(
        rt: &R,
        alloc: Global,
        app: &App,
        notes: &Notes,
        index: &Index,
        workers: usize,
    ) -> Result<Hulls, AllocError>
        requires fit { NotesFit app.now notes.now }
        requires index { IsIndexOf app.now index.now }
        ensures { IfOk result (AreHullsOf app.now notes.now index.now) }
    {
        app.recall_numbered();
        let writers = writer_rows_by(rt, alloc, app, notes, index, workers)?;
        let lives = maker_rows(alloc, app, notes, index)?;
        let writing = writing_points(alloc, app)?;
        let actors = blocks_by(rt, alloc, app, notes, &writing, workers)?;
        Ok(Hulls {
            writers,
            lives,
            actors,
        })
    }

    /// The row of the variable, where some point writes it.
    fn writers(&self, variable: VarId) -> Option<&Row>
        ensures { ForSome result (λ row. slice_get self.now.writers.items variable.0 ≡ Some (Some row.now)) }
    {
        row_at(&self.writers, variable.0)
    }

    /// The row of the object, where some point creates or deletes it.
    fn lives(&self, object: ObjId) -> Option<&Row>
        ensures { ForSome result (λ row. slice_get self.now.lives.items object.0 ≡ Some (Some row.now)) }
    {
        row_at(&self.lives, object.0)
    }
}

/// Whether the hull of the block spares the note, or its actor is told and no longer closed.
fn is_told(app: &App, notes: &Notes, number: usize, block: &Block, closed: &mut [bool]) -> bool
    requires number { number < length (points_of app.now) }
    requires fit { NotesFit app.now notes.now }
    requires block { IsBlock app.now notes.now block.now }
    ensures told { (p : Point) → slice_get (points_of app.now) number ≡ Some p → IsTrue result →
        IsTold app.now notes.now p closed.new block.now }
    ensures less { (k : ℕ) → slice_index_or closed.old k false ≡ false →
        slice_index_or closed.new k false ≡ false }
{
    app.recall_faultless();
    app.recall_numbered();
    let own = app.point(number).actor;
    if block.hull.spares(own, notes.at(app, number)) {
        return true;
    }
    match block.hull.only_actor() {
        None => false,
        Some(actor) => {
            if actor.0 < closed.len() {
                closed[actor.0] = false;
            }
            true
        }
    }
}

/// Of each of the first actors, whether no point of it that writes a variable can disturb the point's
/// note, as far as the hull of all these points shows.
fn closed_actors(app: &App, notes: &Notes, number: usize, blocks: &[Block]) -> [bool; MOST_CLOSED]
    requires number { number < length (points_of app.now) }
    requires fit { NotesFit app.now notes.now }
    requires each { All (λ b. IsBlock app.now notes.now b) blocks.now }
    requires found { HaveWriters app.now blocks.now }
    ensures { (p : Point) → slice_get (points_of app.now) number ≡ Some p →
        AreClosed app.now notes.now p result }
{
    let mut closed = [true; MOST_CLOSED];
    for block in blocks {
        if !is_told(app, notes, number, block, &mut closed) {
            return [false; MOST_CLOSED];
        }
    }
    closed
}

/// Whether the row's hull doesn't spare the actor's note.
fn is_open(row: Option<&Row>, actor: ActorId, note: &Note) -> bool {
    match row {
        Some(row) => !row.hull.spares(actor, note),
        None => false,
    }
}

/// Whether blocks are asked: for some variable of which the point's note says something, the hull of all
/// points that write it doesn't spare the note.
fn asks_blocks(app: &App, notes: &Notes, hulls: &Hulls, number: usize) -> bool
    requires number { number < length (points_of app.now) }
    requires fit { NotesFit app.now notes.now }
{
    app.recall_faultless();
    let actor = app.point(number).actor;
    let note = notes.at(app, number);
    for variable in 0..app.variables().len() {
        let variable = VarId(variable);
        if is_open(hulls.writers(variable), actor, note) && !is_free(app, note, variable) {
            return true;
        }
    }
    false
}

/// The actors that are closed to the point's note, where there are hulls and blocks are asked.
pub fn closed_to(
    app: &App,
    notes: &Notes,
    index: &Index,
    hulls: Option<&Hulls>,
    number: usize,
) -> [bool; MOST_CLOSED]
    requires number { number < length (points_of app.now) }
    requires fit { NotesFit app.now notes.now }
    requires hulls { ForSome hulls (λ h. AreHullsOf app.now notes.now index.now h.now) }
    ensures { (p : Point) → slice_get (points_of app.now) number ≡ Some p →
        AreClosed app.now notes.now p result }
{
    let _index = index;
    let Some(hulls) = hulls else {
        return [false; MOST_CLOSED];
    };
    if !asks_blocks(app, notes, hulls, number) {
        return [false; MOST_CLOSED];
    }
    closed_actors(app, notes, number, &hulls.actors)
}

/// The first point of the block that disturbs the point's note. Where the block's actor is closed, or the
/// hull spares the note, no point is looked at.
fn first_in_block(
    app: &App,
    notes: &Notes,
    number: usize,
    block: &Block,
    closed: &[bool],
) -> Option<usize>
    requires number { number < length (points_of app.now) }
    requires fit { NotesFit app.now notes.now }
    requires block { IsBlock app.now notes.now block.now }
    requires closed { (p : Point) → slice_get (points_of app.now) number ≡ Some p →
        AreClosed app.now notes.now p closed.now }
    ensures { (p : Point) → slice_get (points_of app.now) number ≡ Some p →
        IsFirstOf app.now notes.now p (IsListed app.now block.now.numbers.items) result }
{
    app.recall_faultless();
    app.recall_numbered();
    if block.hull.is_closed(closed) {
        return None;
    }
    let actor = app.point(number).actor;
    if block.hull.spares(actor, notes.at(app, number)) {
        return None;
    }
    first_listed(app, notes, number, &block.numbers)
}

/// The first point of one of the blocks that disturbs the point's note.
fn first_in_blocks(
    app: &App,
    notes: &Notes,
    number: usize,
    blocks: &[Block],
    closed: &[bool],
) -> Option<usize>
    requires number { number < length (points_of app.now) }
    requires fit { NotesFit app.now notes.now }
    requires blocks { All (λ b. IsBlock app.now notes.now b) blocks.now }
    requires closed { (p : Point) → slice_get (points_of app.now) number ≡ Some p →
        AreClosed app.now notes.now p closed.now }
    ensures { (p : Point) → slice_get (points_of app.now) number ≡ Some p →
        IsFirstOf app.now notes.now p (IsInSome app.now blocks.now) result }
{
    let mut least = None;
    for block in blocks {
        least = lesser(least, first_in_block(app, notes, number, block, closed));
    }
    least
}

impl Row {
    /// The first point of the row that disturbs the point's note.
    pub fn first(
        &self,
        app: &App,
        notes: &Notes,
        number: usize,
        numbers: &[usize],
        closed: &[bool],
    ) -> Option<usize>
        requires number { number < length (points_of app.now) }
        requires fit { NotesFit app.now notes.now }
        requires row { IsRow app.now notes.now numbers.now self.now }
        requires closed { (p : Point) → slice_get (points_of app.now) number ≡ Some p →
            AreClosed app.now notes.now p closed.now }
        ensures { (p : Point) → slice_get (points_of app.now) number ≡ Some p →
            IsFirstOf app.now notes.now p (IsListed app.now numbers.now) result }
    {
        app.recall_faultless();
        app.recall_numbered();
        let actor = app.point(number).actor;
        if self.hull.spares(actor, notes.at(app, number)) {
            return None;
        }
        first_in_blocks(app, notes, number, &self.blocks, closed)
    }
}

/// The variable's row, where there are rows and some point writes it.
pub fn writer_row(hulls: Option<&Hulls>, variable: VarId) -> Option<&Row>
    ensures { (P : Program) (ns : List NoteOf) (I : IndexOf) → ForSome hulls.entry (λ h. AreHullsOf P ns I h.now) →
        ForSome result (λ row. IsRow P ns (list_at I.writers variable.0) row.now) }
{
    match hulls {
        Some(hulls) => hulls.writers(variable),
        None => None,
    }
}

/// The object's row, where there are rows and some point creates or deletes it.
pub fn maker_row(hulls: Option<&Hulls>, object: ObjId) -> Option<&Row>
    ensures { (P : Program) (ns : List NoteOf) (I : IndexOf) → ForSome hulls.entry (λ h. AreHullsOf P ns I h.now) →
        ForSome result (λ row. IsRow P ns (list_at I.lives object.0) row.now) }
{
    match hulls {
        Some(hulls) => hulls.lives(object),
        None => None,
    }
}

/// The first of the points with these numbers that disturbs the point's note: by their row, where there
/// is one, else one by one.
pub fn first_among(
    app: &App,
    notes: &Notes,
    number: usize,
    numbers: &[usize],
    row: Option<&Row>,
    closed: &[bool],
) -> Option<usize>
    requires number { number < length (points_of app.now) }
    requires fit { NotesFit app.now notes.now }
    requires listed { AreListed app.now numbers.now }
    requires row { ForSome row (λ r. IsRow app.now notes.now numbers.now r.now) }
    requires closed { (p : Point) → slice_get (points_of app.now) number ≡ Some p →
        AreClosed app.now notes.now p closed.now }
    ensures { (p : Point) → slice_get (points_of app.now) number ≡ Some p →
        IsFirstOf app.now notes.now p (IsListed app.now numbers.now) result }
{
    match row {
        Some(row) => row.first(app, notes, number, numbers, closed),
        None => first_listed(app, notes, number, numbers),
    }
}
