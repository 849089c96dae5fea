// The program: from the words of the command line, which `fr_words` reads, to `run` of fr_answer, over the host's files.
#![tactic(auto)]

mod files;
mod progress;
mod usage;

use fr_words::{asked, matched};
use progress::{is_watched, run_on, run_watched};
use std::env;
use std::io::ErrorKind;
use std::process::ExitCode;
use std::sync::Wait;
use std::thread::Threads;
use usage::{explain, no_memory, refuse_words};

/// Does what the words ask for, and gives the exit status. The handle `threads` is the runtime's own, by which threads are started.
fn answer<R: Threads + Wait + Sync>(rt: &HostRuntime, threads: &R) -> u8 {
    let words = match env::args(rt) {
        Ok(words) => words,
        Err(error) if matches!(error.kind(), ErrorKind::OutOfMemory) => return no_memory(rt),
        Err(_) => return refuse_words(rt),
    };
    let Ok(words) = words.collect::<Vec<String>>(rt.alloc()) else {
        return no_memory(rt);
    };
    let matches = match matched(rt.alloc(), &words) {
        Ok(matches) => matches,
        Err(error) => return explain(rt, &words, &error),
    };
    match asked(&matches) {
        Some(request) if is_watched(&request) => run_watched(rt, threads, &request),
        Some(request) => run_on(rt, threads, &request, None),
        None => refuse_words(rt),
    }
}

fn main(rt: HostRuntime) -> ExitCode {
    ExitCode::from(answer(&rt, &rt))
}
