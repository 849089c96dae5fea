// The index of an application with the hulls of its lists.
ghost use Rattle.std.specs.Prelude.{◌≡◌, IfOk};
ghost use Rattle.fr_ends.specs.Fits.{CertificateFits};
ghost use Rattle.fr_judge.specs.Lists.{AreListsOf};

use fr_ends::Certificate;
use fr_interfere::{Hulls, Index, Interference};
use fr_program::App;
use std::alloc::{AllocError, Global};
use std::thread::Threads;

/// What is made once of an application and a certificate for it, so that many points are judged fast: the index of the application,
/// and the hulls of the points in its lists.
#[derive(Drop)]
pub struct Lists {
    index: Index,
    hulls: Hulls,
}

impl Lists {
    /// The lists of this application, by the notes of the certificate, which fits it.
    ///
    /// # Errors
    ///
    /// An allocation was refused.
    pub fn build(alloc: Global, app: &App, certificate: &Certificate) -> Result<Lists, AllocError>
        requires { CertificateFits app.now certificate.now }
        ensures { IfOk result (AreListsOf app.now certificate.now) }
    {
        let index = Index::build(alloc, app)?;
        let hulls = Hulls::build(alloc, app, &certificate.notes, &index)?;
        Ok(Lists { index, hulls })
    }

    /// The same, where the application is large by several threads: up to two for each of these workers. The work of a thread that
    /// can't be started is done by another one.
    ///
    /// # Errors
    ///
    /// An allocation was refused.
    pub fn build_by<R: Threads + Sync>(
        rt: &R,
        alloc: Global,
        app: &App,
        certificate: &Certificate,
        workers: usize,
    ) -> Result<Lists, AllocError>
        requires { CertificateFits app.now certificate.now }
        ensures { IfOk result (AreListsOf app.now certificate.now) }
    {
        let index = Index::build(alloc, app)?;
        let hulls = Hulls::build_by(rt, alloc, app, &certificate.notes, &index, workers)?;
        Ok(Lists { index, hulls })
    }

    /// What other actors' steps do to the notes, by these lists. Takes no memory.
    pub(crate) fn interference<'a>(
        &'a self,
        app: &'a App,
        certificate: &'a Certificate,
    ) -> Interference<'a>
        requires fits { CertificateFits app.now certificate.now }
        requires lists { AreListsOf app.now certificate.now self.now }
        ensures app { result.app ≡ app.now }
        ensures notes { result.notes ≡ certificate.now.notes }
    {
        Interference::with(app, &certificate.notes, &self.index, &self.hulls)
    }
}
