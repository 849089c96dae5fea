// Workers in threads of their own, and their passes as one.
ghost use Rattle.std.specs.Prelude.{◌≡◌, ◌≢◌, ◌<◌, length, All, IfOk, IfErr};
ghost use Rattle.fr_parallel.specs.declared.fault.ParFault.TheVariants.{Workers};
ghost use Rattle.fr_ends.specs.Fits.{CertificateFits};
ghost use Rattle.fr_judge.specs.Lists.{AreListsOf};
ghost use Rattle.fr_worker.specs.Kept.{IsFor, IsNewFor, IsWorked, IsWorkedBy};
ghost use Rattle.fr_parallel.specs.Assignments.{IsDoneBy, IsNewOf, IsReady};

use crate::fault::ParFault;
use fr_board::{Board, Gate, Pass};
use fr_ends::Certificate;
use fr_judge::{Judging, Lists};
use fr_program::App;
use fr_worker::work_by;
use std::alloc::Global;
use std::sync::Wait;
use std::thread;
use std::thread::{Promise, PromisedHandle, Scope, Threads};

/// What workers work on: the points of an application, by a certificate that fits it and the lists that were made for both, and
/// the board that hands them out.
#[derive(Clone, Copy)]
pub(crate) struct Assignment<'s> {
    pub app: &'s App,
    pub certificate: &'s Certificate,
    pub lists: &'s Lists,
    pub board: &'s Board,
}

impl<'s> Promise<Pass> for Assignment<'s> {
    ghost use Rattle.fr_parallel.specs.Assignments.{IsDoneBy};

    ghost kept_by = { λ t p. IsDoneBy t 1 p };
}

/// Joins the threads and lets their passes go.
fn join_all<'s, R: Threads>(rt: &R, mut handles: Vec<PromisedHandle<Pass, Assignment<'s>>>) {
    while let Some(handle) = handles.pop() {
        handle.join(rt);
    }
}

/// Starts a thread for each pass.
fn start_all<'s, E, R: Threads, G: Gate>(
    rt: &R,
    scope: &Scope<'s, E>,
    alloc: Global,
    assignment: Assignment<'s>,
    mut passes: Vec<Pass>,
    gate: &'s G,
) -> Result<Vec<PromisedHandle<Pass, Assignment<'s>>>, ParFault>
    requires ready { IsReady assignment }
    requires new { All (λ p. IsNewOf assignment p) passes.items }
    ensures count { IfOk result (λ h. length h.items ≡ length passes.items) }
    ensures each { IfOk result (λ h. All (λ x. x.promise ≡ assignment.entry) h.items) }
    ensures fault { IfErr result (λ e. e ≢ Workers) }
{
    let Assignment {
        app,
        certificate,
        lists,
        board,
    } = assignment;
    let mut handles = Vec::new(alloc);
    while let Some(pass) = passes.pop() {
        let worker = passes.len();
        let Ok(handle) = scope.spawn_with(
            assignment,
            move || -> Pass
                requires jobs { IsFor app.now board.now }
                requires fits { CertificateFits app.now certificate.now }
                requires lists { AreListsOf app.now certificate.now lists.now }
                requires new { IsNewFor board.now pass }
                ensures { IsWorked board.entry.now app.entry.now
                    certificate.entry.now result }
            {
                work_by(
                    &Judging::with(app, certificate, lists),
                    board,
                    pass,
                    worker,
                    gate,
                )
            },
        ) else {
            join_all(rt, handles);
            return Err(ParFault::Threads);
        };
        if let Err(refused) = handles.push(handle) {
            refused.value.join(rt);
            join_all(rt, handles);
            return Err(ParFault::Memory);
        }
    }
    Ok(handles)
}

/// Joins the threads, and their passes into one.
fn gather<'s, R: Threads>(
    rt: &R,
    assignment: Assignment<'s>,
    mut handles: Vec<PromisedHandle<Pass, Assignment<'s>>>,
) -> Pass
    requires some { 0 < length handles.items }
    requires each { All (λ x. x.promise ≡ assignment) handles.items }
    ensures { IsDoneBy assignment.entry (length handles.entry.items) result }
{
    let Some(first) = handles.pop() else {
        unreachable!()
    };
    let mut all = first.join(rt);
    while let Some(handle) = handles.pop() {
        all = assignment.board.join(all, handle.join(rt));
    }
    all
}

/// The pass that all workers' turns make together, one worker for each of these passes.
pub(crate) fn worked_by_all<R: Threads + Wait + Sync, G: Gate>(
    rt: &R,
    alloc: Global,
    app: &App,
    certificate: &Certificate,
    lists: &Lists,
    board: &Board,
    passes: Vec<Pass>,
    gate: &G,
) -> Result<Pass, ParFault>
    requires some { 0 < length passes.items }
    requires new { All (λ p. IsNewFor board.now p) passes.items }
    requires jobs { IsFor app.now board.now }
    requires fits { CertificateFits app.now certificate.now }
    requires lists { AreListsOf app.now certificate.now lists.now }
    ensures all { IfOk result (λ p. IsWorkedBy board.now app.now
        certificate.now (length passes.items) p) }
    ensures fault { IfErr result (λ e. e ≢ Workers) }
{
    thread::scope(
        thread::scope_env(),
        rt,
        |scope| -> Result<Pass, ParFault>
            requires some { 0 < length passes.items }
            requires new { All (λ p. IsNewFor board.now p) passes.items }
            requires jobs { IsFor app.now board.now }
            requires fits { CertificateFits app.now certificate.now }
            requires lists { AreListsOf app.now certificate.now lists.now }
            ensures all { IfOk result (λ p. IsWorkedBy board.entry.now app.entry.now
                certificate.entry.now (length passes.items) p) }
            ensures fault { IfErr result (λ e. e ≢ Workers) }
        {
            let assignment = Assignment {
                app,
                certificate,
                lists,
                board,
            };
            let handles = start_all(rt, scope, alloc, assignment, passes, gate)?;
            Ok(gather(rt, assignment, handles))
        },
    )
}
