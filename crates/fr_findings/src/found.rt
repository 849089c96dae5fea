// Finding a certificate for the bytes of an application.
ghost use Rattle.std.specs.Prelude.{◌≡◌, ◌↔◌, IfOk, IfErr, IsErrOf};
ghost use Rattle.fr_finder.specs.Found.{IsNoRounds};
ghost use Rattle.fr_ends.specs.Fits.{CertificateFits};
ghost use Rattle.fr_outcome.specs.declared.fault.CheckFault.TheVariants.{Memory};
ghost use Rattle.fr_findings.specs.Found.{
  IsFound,
  IsWrittenFor,
  CanRefuseFind,
  found_status,
  found_line,
};

use fr_cert::write_cert;
use fr_ends::Certificate;
use fr_finder::{FindFault, find, is_rounds};
use fr_outcome::{CheckFault, DONE, NO};
use fr_program::App;
use fr_reader::read_app;
use std::alloc::Global;
use std::thread::Threads;

/// What is found for an application.
#[derive(Drop)]
pub enum Found {
    /// The text of a certificate.
    Text(String),
    /// No certificate in that number of rounds.
    NotFound,
}

/// The certificate's text.
fn text_of(alloc: Global, app: &App, certificate: &Certificate) -> Result<Found, CheckFault>
    requires { CertificateFits app.now certificate.now }
    ensures found { IfOk result (λ found. IsWrittenFor app.now found) }
    ensures refused { IfErr result (λ fault. fault ≡ Memory) }
{
    Ok(Found::Text(write_cert(alloc, app, certificate)?))
}

/// What is found for an application in so many rounds, which is 1 to 64 of them.
fn found_for<R: Threads + Sync>(
    rt: &R,
    alloc: Global,
    app: &App,
    rounds: usize,
) -> Result<Found, CheckFault>
    requires { IsNoRounds rounds → ⊥ }
    ensures found { IfOk result (λ found. IsWrittenFor app.now found) }
    ensures refused { IfErr result (λ fault. fault ≡ Memory) }
{
    match find(rt, alloc, app, rounds) {
        Ok(certificate) => text_of(alloc, app, &certificate),
        Err(FindFault::NotStable) => Ok(Found::NotFound),
        Err(FindFault::Memory) => Err(CheckFault::Memory),
        Err(FindFault::Rounds) => unreachable!(),
    }
}

/// Finds a certificate for an application, in at most so many rounds, and writes it.
///
/// `Text` is the text of a certificate that fits the application that the bytes mean; whether it
/// passes is for `check_with` to say. `NotFound` says that the guess was not stable in that number of
/// rounds.
///
/// # Errors
///
/// `Rounds` exactly where `rounds` isn't 1 to 64, before anything is read; `App` names a fault that is
/// present in the bytes; `Memory` says that an allocation was refused.
pub fn find_bytes<R: Threads + Sync>(
    rt: &R,
    alloc: Global,
    app: &[u8],
    rounds: usize,
) -> Result<Found, CheckFault>
    ensures found { IfOk result (λ found. IsFound app.now found) }
    ensures rounds { IsErrOf result CheckFault.Rounds ↔ IsNoRounds rounds }
    ensures refused { IfErr result (CanRefuseFind app.now rounds) }
{
    if !is_rounds(rounds) {
        return Err(CheckFault::Rounds);
    }
    let app = read_app(alloc, app)?;
    found_for(rt, alloc, &app, rounds)
}

impl Found {
    /// `found` where a certificate is found, otherwise `not found`, with a newline.
    pub fn line(&self) -> &'static str
        ensures { result.now ≡ found_line self.now }
    {
        match self {
            Found::Text(_) => "found\n",
            Found::NotFound => "not found\n",
        }
    }

    /// The exit status: 0 where a certificate is found, otherwise 1.
    pub fn status(&self) -> u8
        ensures { result ≡ found_status self.now }
    {
        match self {
            Found::Text(_) => DONE,
            Found::NotFound => NO,
        }
    }
}
