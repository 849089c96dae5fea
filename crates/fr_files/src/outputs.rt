// Which files a command may write.
ghost use Rattle.std.specs.Prelude.{◌≡◌, ◌≢◌, All, IfOk, IsFalse, OnOk};
ghost use Rattle.fr_files.specs.Apart.{AreApart, names, paths};
ghost use Rattle.fr_files.specs.Replaced.{may_replace};

use crate::certificate::is_certificate;
use crate::fault::FileFault;
use crate::kind::{Kind, kind_of};
use crate::reading::read;
use crate::same::is_same_file;
use std::alloc::{AllocError, Global};
use std::io;

/// What a regular file has to hold that an output replaces; it may be empty in any case.
#[derive(Clone, Copy)]
pub enum Holds {
    /// Whatever it is.
    Anything,
    /// A certificate.
    Certificate,
    /// A page.
    Page,
}

/// A file that a command is to write.
#[derive(Clone, Copy)]
pub struct Output<'a> {
    pub path: &'a str,
    /// What may be replaced there.
    pub replaces: Holds,
}

/// Why the outputs of a command aren't written.
#[derive(Drop)]
pub enum OutputFault {
    /// One of them would destroy something else.
    Refused,
    /// A file couldn't be looked at, or it is a folder.
    File(FileFault),
}

impl From<FileFault> for OutputFault {
    fn from(fault: FileFault) -> OutputFault {
        OutputFault::File(fault)
    }
}

impl From<AllocError> for OutputFault {
    fn from(_refused: AllocError) -> OutputFault {
        OutputFault::File(FileFault::Memory)
    }
}

/// How a page begins.
const PAGE: &[u8; 15] = b"<!DOCTYPE html>";

/// The greatest length of a certificate: a longer file is none.
const MOST_CERTIFICATE_BYTES: usize = 16_777_216;

/// Where standard output and standard error go.
const STREAMS: [&str; 2] = ["/dev/stdout", "/dev/stderr"];

/// Whether a file that holds these bytes may be replaced. An error says that an allocation was refused.
fn may_replace_bytes(alloc: Global, replaces: Holds, held: &[u8]) -> Result<bool, AllocError>
    ensures { IfOk result (λ may. may ≡ may_replace replaces held.now) }
{
    match replaces {
        Holds::Anything => Ok(true),
        Holds::Certificate if held.is_empty() => Ok(true),
        Holds::Certificate if held.len() > MOST_CERTIFICATE_BYTES => Ok(false),
        Holds::Certificate => is_certificate(alloc, held),
        Holds::Page => Ok(held.is_empty() || held.starts_with(PAGE)),
    }
}

/// Whether the regular file may be replaced, by what it holds. Of a certificate that is too long, and of a page, only the beginning
/// is read.
fn may_replace(rt: &HostRuntime, output: Output) -> Result<bool, OutputFault> {
    let limit = match output.replaces {
        Holds::Anything => return Ok(true),
        Holds::Certificate => MOST_CERTIFICATE_BYTES,
        Holds::Page => PAGE.len(),
    };
    let held = read(rt, output.path, limit)?;
    Ok(may_replace_bytes(rt.alloc(), output.replaces, &held)?)
}

/// Whether the path leads to one of these files.
fn is_among(rt: &HostRuntime, path: &str, others: &[&str]) -> Result<bool, FileFault>
    ensures { IfOk result (λ is. IsFalse is → All (λ other. other ≢ path.now) (names others.now)) }
{
    for other in others {
        if is_same_file(rt, other, path)? {
            return Ok(true);
        }
    }
    Ok(false)
}

/// Whether the output may be written, by what is there.
fn is_writable(rt: &HostRuntime, output: Output) -> Result<bool, OutputFault> {
    let path = output.path;
    match kind_of(rt, path)? {
        Kind::Missing | Kind::Other => Ok(true),
        Kind::Folder => {
            let reason = io::Error::from(io::ErrorKind::IsADirectory);
            Err(OutputFault::File(FileFault::new(rt.alloc(), path, reason)))
        }
        Kind::Regular => Ok(!is_among(rt, path, &STREAMS)? && may_replace(rt, output)?),
    }
}

/// Looks at the outputs that a command is asked for, before anything is done: none of them may be one of the inputs, another of the
/// outputs, or the file that standard output or standard error goes to, by whatever name; and a regular file is replaced only if it
/// is empty or holds what the output replaces.
///
/// # Errors
///
/// `Refused` where one of them isn't so; `File` where an allocation was refused, a file can't be looked at, or one is a folder.
pub fn check_outputs(
    rt: &HostRuntime,
    inputs: &[&str],
    outputs: &[Option<Output>],
) -> Result<(), OutputFault>
    ensures { OnOk result (AreApart (names inputs.now) (paths outputs.now)) }
{
    let mut taken = Vec::new(rt.alloc());
    taken.extend_from_slice(inputs).map_err(AllocError::from)?;
    for output in outputs {
        if let Some(output) = output {
            if is_among(rt, output.path, &taken)? || !is_writable(rt, *output)? {
                return Err(OutputFault::Refused);
            }
            taken.push(output.path).map_err(AllocError::from)?;
        }
    }
    Ok(())
}
