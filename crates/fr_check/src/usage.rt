// Words that ask for nothing: for the help or the version, or words that are wrong.
ghost use Rattle.std.specs.Prelude.{◌≡◌, ◌≤◌};
ghost use Rattle.clap.specs.Values.{kind_of};

use clap::error::ErrorKind;
use fr_answer::{MACHINE, REFUSED};
use fr_escape::push_plain;
use fr_words::matched;
use std::alloc::{AllocError, Global};

/// Prints that an allocation was refused, and gives the exit status.
pub fn no_memory(rt: &HostRuntime) -> u8
    ensures { result ≡ 3 }
{
    let _printed = eprintln!(rt; "machine: memory");
    MACHINE
}

/// Prints that a text couldn't be written, and gives the exit status.
fn no_output(rt: &HostRuntime) -> u8
    ensures { result ≡ 3 }
{
    let _printed = eprintln!(rt; "machine: file");
    MACHINE
}

/// Refuses words that the usage message can't be printed for, and gives the exit status.
pub fn refuse_words(rt: &HostRuntime) -> u8
    ensures { 2 ≤ result }
{
    match eprintln!(rt; "refused: words") {
        Ok(()) => REFUSED,
        Err(_) => MACHINE,
    }
}

/// The words without control characters, so that none of them reaches the terminal by a message.
fn plain_words(alloc: Global, words: &[String]) -> Result<Vec<String>, AllocError> {
    let mut plain = Vec::new(alloc);
    for word in words {
        let mut text = String::new(alloc);
        push_plain(&mut text, word)?;
        plain.push(text)?;
    }
    Ok(plain)
}

/// Prints the usage message for words that were not matched, or the help or the version, and gives the exit status. Where the words
/// were not matched for want of memory, or the text can't be written, it prints that.
pub fn explain(rt: &HostRuntime, words: &[String], unmatched: &clap::Error) -> u8
    ensures { kind_of unmatched.now ≡ ErrorKind.OutOfMemory → result ≡ 3 }
{
    if matches!(unmatched.kind(), ErrorKind::OutOfMemory) {
        return no_memory(rt);
    }
    let Ok(words) = plain_words(rt.alloc(), words) else {
        return no_memory(rt);
    };
    let Err(error) = matched(rt.alloc(), &words) else {
        return refuse_words(rt);
    };
    if matches!(error.kind(), ErrorKind::OutOfMemory) {
        return no_memory(rt);
    }
    match error.print(rt) {
        Ok(()) => error.exit_code() as u8,
        Err(_) => no_output(rt),
    }
}
