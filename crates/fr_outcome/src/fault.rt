// Why a command has no answer, with its exit status and its line.
ghost use Rattle.std.specs.Prelude.{◌≡◌, IfOk, string_bytes};
ghost use Rattle.fr_outcome.specs.declared.fault.CheckFault.TheVariants.{Memory};
ghost use Rattle.fr_outcome.specs.Checked.{fault_status, line_of, list_line};

use crate::exit::{MACHINE, REFUSED};
use fr_cert::CertFault;
use fr_list::ListFault;
use fr_parallel::{BytesFault, ParFault};
use fr_reader::ReadFault;
use fr_text::TextFault;
use std::alloc::{AllocError, Global};

/// Why a command has no answer.
#[derive(Drop)]
pub enum CheckFault {
    /// The application's bytes are refused.
    App(ReadFault),
    /// The certificate's bytes are refused.
    Cert(CertFault),
    /// The bytes of a list of applications are refused.
    List(ListFault),
    /// A source or a trace is refused.
    Source {
        /// What is wrong in it and where, as it is printed.
        text: String,
        /// The number of the line that is at fault, from 1, where it is one.
        line: Option<usize>,
    },
    /// The words that a run picks its choices by are no list of numbers.
    Words,
    /// The number of workers is not 1 to 64.
    Workers,
    /// The number of rounds is not 1 to 64.
    Rounds,
    /// There are over 1,000,000 polls.
    Polls,
    /// An output would destroy something else, which isn't overwritten.
    Out,
    /// An allocation was refused.
    Memory,
    /// A thread couldn't be started.
    Thread,
    /// A file couldn't be read or written.
    File,
    /// The writer failed.
    Write,
}

/// An application that is refused: an inner fault of memory is `Memory`.
impl From<ReadFault> for CheckFault {
    ghost use Rattle.fr_outcome.specs.Checked.{app_fault};

    ghost from_gives = { λ fault result. result ≡ app_fault fault };

    fn from(fault: ReadFault) -> CheckFault {
        if fault.is_memory() {
            CheckFault::Memory
        } else {
            CheckFault::App(fault)
        }
    }
}

/// A certificate that is refused: an inner fault of memory is `Memory`.
impl From<CertFault> for CheckFault {
    ghost use Rattle.fr_outcome.specs.Checked.{cert_fault};

    ghost from_gives = { λ fault result. result ≡ cert_fault fault };

    fn from(fault: CertFault) -> CheckFault {
        if fault.is_memory() {
            CheckFault::Memory
        } else {
            CheckFault::Cert(fault)
        }
    }
}

/// Workers that gave no verdict.
impl From<ParFault> for CheckFault {
    ghost use Rattle.fr_parallel.specs.declared.bytes.BytesFault.TheVariants.{Par};
    ghost use Rattle.fr_outcome.specs.Checked.{check_fault};

    ghost from_gives = { λ fault result. result ≡ check_fault (Par fault) };

    fn from(fault: ParFault) -> CheckFault {
        match fault {
            ParFault::Memory => CheckFault::Memory,
            ParFault::Workers => CheckFault::Workers,
            ParFault::Threads => CheckFault::Thread,
        }
    }
}

/// Bytes without a verdict, each inner fault of memory as `Memory`.
impl From<BytesFault> for CheckFault {
    ghost use Rattle.fr_outcome.specs.Checked.{check_fault};

    ghost from_gives = { λ fault result. result ≡ check_fault fault };

    fn from(fault: BytesFault) -> CheckFault {
        match fault {
            BytesFault::Par(fault) => CheckFault::from(fault),
            BytesFault::App(fault) => CheckFault::from(fault),
            BytesFault::Cert(fault) => CheckFault::from(fault),
        }
    }
}

/// Texts that are refused.
impl From<TextFault> for CheckFault {
    ghost use Rattle.fr_parallel.specs.Bytes.{bytes_fault};
    ghost use Rattle.fr_outcome.specs.Checked.{check_fault};

    ghost from_gives = { λ fault result. result ≡ check_fault (bytes_fault fault) };

    fn from(fault: TextFault) -> CheckFault {
        CheckFault::from(BytesFault::from(fault))
    }
}

/// A list that is refused: want of memory is `Memory`.
impl From<ListFault> for CheckFault {
    ghost use Rattle.fr_outcome.specs.Checked.{list_fault};

    ghost from_gives = { λ fault result. result ≡ list_fault fault };

    fn from(fault: ListFault) -> CheckFault {
        match fault {
            ListFault::Memory => CheckFault::Memory,
            _ => CheckFault::List(fault),
        }
    }
}

impl From<AllocError> for CheckFault {
    ghost from_gives = { λ _ e. e ≡ Memory };

    fn from(_refused: AllocError) -> CheckFault {
        CheckFault::Memory
    }
}

/// The exit status: 2 where the input or the words are refused, 3 where the machine failed.
pub fn status(fault: &CheckFault) -> u8
    ensures { result ≡ fault_status fault.now }
{
    match fault {
        CheckFault::App(_)
        | CheckFault::Cert(_)
        | CheckFault::List(_)
        | CheckFault::Source { .. }
        | CheckFault::Words
        | CheckFault::Workers
        | CheckFault::Rounds
        | CheckFault::Polls
        | CheckFault::Out => REFUSED,
        CheckFault::Memory | CheckFault::Thread | CheckFault::File | CheckFault::Write => MACHINE,
    }
}

/// The line of a list that is refused.
fn list_line(alloc: Global, fault: ListFault) -> Result<String, AllocError>
    ensures { IfOk result (λ line. string_bytes line ≡ list_line fault) }
{
    match fault {
        ListFault::Memory => String::from_str(alloc, "machine: memory"),
        ListFault::TooLong => String::from_str(alloc, "refused: list 1 TooLong"),
        ListFault::NotText => String::from_str(alloc, "refused: list 2 NotText"),
        ListFault::Words(line) => format!(in alloc; "refused: list 3 Words: line {line}"),
        ListFault::Empty => String::from_str(alloc, "refused: list 4 Empty"),
    }
}

/// The line for standard error, without its newline. An error says that an allocation was refused.
pub fn fault_line(alloc: Global, fault: &CheckFault) -> Result<String, AllocError>
    ensures { IfOk result (λ line. string_bytes line ≡ line_of fault.now) }
{
    match fault {
        CheckFault::App(fault) => format!(in alloc; "refused: app {fault}"),
        CheckFault::Cert(fault) => format!(in alloc; "refused: cert {fault}"),
        CheckFault::List(fault) => list_line(alloc, *fault),
        CheckFault::Source { text, .. } => text.clone(),
        CheckFault::Words => String::from_str(alloc, "refused: words"),
        CheckFault::Workers => String::from_str(alloc, "refused: workers"),
        CheckFault::Rounds => String::from_str(alloc, "refused: rounds"),
        CheckFault::Polls => String::from_str(alloc, "refused: polls"),
        CheckFault::Out => String::from_str(alloc, "refused: out"),
        CheckFault::Memory => String::from_str(alloc, "machine: memory"),
        CheckFault::Thread => String::from_str(alloc, "machine: thread"),
        CheckFault::File | CheckFault::Write => String::from_str(alloc, "machine: file"),
    }
}
