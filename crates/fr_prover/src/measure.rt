// How good a try is: the points at which its certificate fails.
ghost use Rattle.std.specs.Prelude.{◌≡◌, ◌<◌, All, IfOk, length};
ghost use Rattle.fr_notes.specs.Fits.{AlternativeFits, NoteFits, NotesFit};
ghost use Rattle.fr_ends.specs.Fits.{CertificateFits};

use crate::lists::list_at;
use crate::pool::Pool;
use crate::separation::{Separation, copied_all};
use crate::trial::Trial;
use fr_ends::{Certificate, Ends};
use fr_finder::{add, all_ends, ends_of_most};
use fr_judge::{Judging, Lists, Part};
use fr_notes::{Alternative, Note, Notes};
use fr_program::App;
use fr_progress::Meter;
use std::alloc::{AllocError, Global};

/// A point at which a certificate fails, by its number, with the first part that fails there.
#[derive(Clone, Copy)]
pub struct Failure {
    pub number: usize,
    pub part: Part,
}

/// A certificate that was tried, with the separations of the try and the points at which it fails.
#[derive(Drop)]
pub struct Measured {
    pub certificate: Certificate,
    pub separations: Vec<Separation>,
    pub failures: Vec<Failure>,
}

impl Measured {
    /// Notes the try in the meter, if there is one.
    pub fn note(&self, meter: Option<&Meter>) {
        if let Some(meter) = meter {
            meter.note_try(self.separations.len(), self.failures.len());
        }
    }
}

/// Adds a copy of the alternative with this number.
fn add_copy(
    alloc: Global,
    pool: &Pool,
    note: &mut Vec<Alternative>,
    facts: usize,
) -> Result<(), AllocError>
    requires { NoteFits pool.now.app.now note.old.items }
    ensures { NoteFits pool.now.app.now note.new.items }
{
    match pool.get(facts) {
        Some(facts) => {
            let copy = facts.copied(alloc)?;
            add(pool.app(), note, copy)
        }
        None => Ok(()),
    }
}

/// The note with these alternatives.
fn note_of(alloc: Global, pool: &Pool, list: &[usize]) -> Result<Note, AllocError>
    ensures { IfOk result (λ note. NoteFits pool.now.app.now note) }
{
    let mut note = Vec::new(alloc);
    for facts in list {
        add_copy(alloc, pool, &mut note, *facts)?;
    }
    Ok(Note::of(note))
}

/// The notes of all points, with the alternatives of these lists.
fn notes_of(alloc: Global, pool: &Pool, lists: &[Vec<usize>]) -> Result<Notes, AllocError>
    ensures { IfOk result (λ notes. NotesFit pool.now.app.now notes) }
{
    let app = pool.app();
    let mut notes = Vec::with_capacity(alloc, app.points())?;
    for number in 0..app.points() {
        notes.push(note_of(alloc, pool, list_at(lists, number))?)?;
    }
    Ok(Notes::of(app, notes))
}

/// The certificate with the alternatives of these lists, with guards for all ends of buffers.
pub fn certificate_of(
    alloc: Global,
    pool: &Pool,
    lists: &[Vec<usize>],
) -> Result<Certificate, AllocError>
    ensures { IfOk result (λ c. CertificateFits pool.now.app.now c) }
{
    let notes = notes_of(alloc, pool, lists)?;
    let ends = all_ends(alloc, pool.app(), &notes)?;
    Ok(Certificate { notes, ends })
}

/// The certificate by which no actor is ever at any point.
fn blank(alloc: Global, app: &App) -> Result<Certificate, AllocError>
    ensures { IfOk result (λ c. CertificateFits app.now c) }
{
    let notes = notes_of(alloc, &Pool::new(alloc, app), &[])?;
    let ends = Ends::none(alloc);
    Ok(Certificate { notes, ends })
}

/// The certificate with the guard for each end that all notes inside it imply, or most of them.
fn with_guards_of_most(
    alloc: Global,
    app: &App,
    certificate: Certificate,
) -> Result<Certificate, AllocError>
    requires { CertificateFits app.now certificate }
    ensures { IfOk result (λ c. CertificateFits app.now c) }
{
    let notes = certificate.notes;
    let ends = ends_of_most(alloc, app, &notes)?;
    Ok(Certificate { notes, ends })
}

/// The certificate, if it fits the application, with the guard for each end that all notes inside it imply, or most of them;
/// otherwise the one by which nobody is ever anywhere.
pub fn fitting(
    alloc: Global,
    app: &App,
    certificate: Certificate,
) -> Result<Certificate, AllocError>
    ensures { IfOk result (λ c. CertificateFits app.now c) }
{
    if certificate.fits(app) {
        with_guards_of_most(alloc, app, certificate)
    } else {
        blank(alloc, app)
    }
}

/// Whether the points at which there were failures all fail again; there has to be one.
fn fail_again(judging: &Judging, app: &App, bar: &[Failure]) -> bool
    requires { judging.now.app ≡ app.now }
{
    for failure in bar {
        if failure.number >= app.points() || judging.part_at(failure.number).is_none() {
            return false;
        }
    }
    !bar.is_empty()
}

/// The points at which a certificate fails; only those of `bar` where it fails at all of them.
fn failing(
    alloc: Global,
    app: &App,
    judging: &Judging,
    bar: &[Failure],
) -> Result<Vec<Failure>, AllocError>
    requires { judging.now.app ≡ app.now }
{
    if fail_again(judging, app, bar) {
        return Vec::from_slice(alloc, bar);
    }
    let mut failures = Vec::new(alloc);
    for number in 0..app.points() {
        if let Some(part) = judging.part_at(number) {
            failures.push(Failure { number, part })?;
        }
    }
    Ok(failures)
}

/// The points at which this certificate fails; only those of `bar` where it fails at all of them.
fn failures(
    alloc: Global,
    app: &App,
    certificate: &Certificate,
    bar: &[Failure],
) -> Result<Vec<Failure>, AllocError>
    requires { CertificateFits app.now certificate.now }
{
    let lists = Lists::build(alloc, app, certificate)?;
    failing(alloc, app, &Judging::with(app, certificate, &lists), bar)
}

/// The certificate of a try, with guards for all ends of buffers, and the points at which it fails; only those of `bar` where it
/// fails at all of them, since it isn't better then than the try that failed there.
pub fn measure(alloc: Global, trial: &Trial, bar: &[Failure]) -> Result<Box<Measured>, AllocError>
    ensures { IfOk result (λ m. CertificateFits trial.now.pool.app.now m.value.certificate) }
{
    let app = trial.pool.app();
    let separations = copied_all(alloc, trial.separations)?;
    let certificate = certificate_of(alloc, &trial.pool, &trial.notes)?;
    let failures = failures(alloc, app, &certificate, bar)?;
    let measured = Measured {
        certificate,
        separations,
        failures,
    };
    Ok(Box::new(alloc, measured)?)
}
