// A request is run over the host's files, and where that is asked a line is printed each second meanwhile.
use crate::files::HostFiles;
use fr_answer::run;
use fr_progress::Meter;
use fr_request::Request;
use std::sync::Wait;
use std::sync::atomic::{AtomicBool, Ordering};
use std::thread;
use std::thread::{Parker, Threads};
use std::time::Duration;

/// How many seconds pass from one line to the next.
const BETWEEN_LINES: u64 = 1;

/// Whether the request asks for lines that say how far the search is.
pub fn is_watched(request: &Request) -> bool {
    match request {
        Request::Prove(asked) => asked.progress,
        Request::Refute(asked) => asked.progress,
        _ => false,
    }
}

/// Runs the request, and gives the exit status. A search notes in the meter how far it is, if there is one.
pub fn run_on<R: Threads + Wait + Sync>(
    rt: &HostRuntime,
    threads: &R,
    request: &Request,
    meter: Option<&Meter>,
) -> u8 {
    let mut files = HostFiles { rt, meter };
    let (mut out, mut err) = (rt.stdout(), rt.stderr());
    run(threads, rt.alloc(), request, &mut files, &mut out, &mut err)
}

/// What the thread that prints lines waits for.
#[derive(Drop)]
struct Watch {
    is_over: AtomicBool,
    parker: Parker,
}

impl Watch {
    /// Prints a line each second on standard error until the watch is over, or a line can't be printed.
    fn print_lines<R: Wait>(&self, rt: &HostRuntime, threads: &R, meter: &Meter) {
        let pause = Duration::from_secs(BETWEEN_LINES);
        for _ in threads.forever() {
            self.parker.park_timeout(threads, pause);
            if self.is_over.load(Ordering::SeqCst) {
                return;
            }
            let Ok(line) = meter.line(rt.alloc()) else {
                return;
            };
            if eprintln!(rt; "{line}").is_err() {
                return;
            }
        }
    }

    /// No line is printed from now on.
    fn end(&self) {
        self.is_over.store(true, Ordering::SeqCst);
        self.parker.unpark();
    }
}

/// The same, while another thread prints each second how far the search is. Where no thread can be made, no such line is printed.
pub fn run_watched<R: Threads + Wait + Sync>(
    rt: &HostRuntime,
    threads: &R,
    request: &Request,
) -> u8 {
    let meter = Meter::new();
    let watch = Watch {
        is_over: AtomicBool::new(false),
        parker: Parker::new(),
    };
    let (meter, watch) = (&meter, &watch);
    thread::scope(thread::scope_env(), threads, |scope| {
        let _watcher = scope.spawn(move || watch.print_lines(rt, threads, meter));
        let status = run_on(rt, threads, request, Some(meter));
        watch.end();
        status
    })
}
