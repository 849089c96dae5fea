// Runs with a thread for each actor: that they meet.
use crate::applications::{STREAM, STREAM_NOTES};
use fr_cert::read_cert;
use fr_judge::Passed;
use fr_parallel::Gate;
use fr_reader::read_app;
use fr_runner::run;
use std::alloc::Global;
use std::sync::atomic::{AtomicU64, Ordering};
use std::thread;

const MOST_TURNS: usize = 1_000_000;

/// The application with this certificate, where it passes.
pub fn passed(alloc: Global, app: &[u8], notes: &[u8]) -> Option<Passed> {
    let app = read_app(alloc, app).ok()?;
    let certificate = read_cert(alloc, &app, notes).ok()?;
    Passed::check(app, certificate).ok()
}

/// Whether the number becomes so great before it is given up.
pub fn reaches(number: &AtomicU64, least: u64) -> bool {
    for _ in 0..MOST_TURNS {
        if number.load(Ordering::SeqCst) >= least {
            return true;
        }
        thread::yield_now();
    }
    false
}

/// How often each of two actors has arrived; each time it is numbered, 0, 1, 2 and so on. At the numbers below 5 an actor waits
/// for the other one. And how often one arrived out of its order, or waited in vain.
#[derive(Drop)]
struct Meetings {
    first: AtomicU64,
    second: AtomicU64,
    disordered: AtomicU64,
    alone: AtomicU64,
}

impl Gate for Meetings {
    fn arrive(&self, actor: usize, job: u64) {
        let (mine, other) = if actor == 0 {
            (&self.first, &self.second)
        } else {
            (&self.second, &self.first)
        };
        if mine.fetch_add(1, Ordering::SeqCst) != job {
            self.disordered.store(1, Ordering::SeqCst);
        }
        if job < 5 && !reaches(other, job + 1) {
            self.alone.store(1, Ordering::SeqCst);
        }
    }
}

#[test]
fn actors_meet_at_each_turn(rt: HostRuntime) {
    let gate = Meetings {
        first: AtomicU64::new(0),
        second: AtomicU64::new(0),
        disordered: AtomicU64::new(0),
        alone: AtomicU64::new(0),
    };
    let entries = match &passed(rt.alloc(), STREAM, STREAM_NOTES) {
        Some(passed) => match run(&rt, rt.alloc(), passed, 10, &[8], &gate) {
            Ok(trace) => trace.entries.len(),
            Err(_) => 0,
        },
        None => 0,
    };
    assert!(rt; entries == 10);
    assert!(rt; gate.first.load(Ordering::SeqCst) >= 5 && gate.second.load(Ordering::SeqCst) >= 5);
    assert!(rt; gate.disordered.load(Ordering::SeqCst) == 0);
    assert!(rt; gate.alone.load(Ordering::SeqCst) == 0);
}
