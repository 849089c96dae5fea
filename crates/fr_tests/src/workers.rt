// Whole judgements by workers in threads. A gate that waits gives up after a while, and notes it.
use crate::runs::reaches;
use fr_calls::Rule;
use fr_cert::read_cert;
use fr_judge::{Part, Verdict};
use fr_parallel::{Gate, judge_with};
use fr_program::{ActorId, App, Point, Side};
use fr_reader::read_app;
use std::alloc::Global;
use std::sync::Wait;
use std::sync::atomic::{AtomicU64, Ordering};
use std::thread::Threads;

/// The first point that fails, where one does.
const NO: Verdict = Verdict::No {
    point: Point {
        actor: ActorId(0),
        pc: 3,
        side: Side::Before,
    },
    part: Part::Rule(Rule::DepthAboveZero),
};

/// A task of 400 instructions: so many delays, this line, delays and a jump to the first one.
fn task(alloc: Global, name: &str, first: usize, line: &str) -> Option<String> {
    let delay = "\"vTaskDelay(1)\",";
    let before = delay.repeat(alloc, first).ok()?;
    let after = delay.repeat(alloc, 398usize.checked_sub(first)?).ok()?;
    format!(in alloc;
        "{{name=\"{name}\",kind=\"task\",code=[{before}\"{line}\",{after}\"goto 0\"]}}"
    ).ok()
}

/// Two tasks with 800 points. Points 3 and 700 fail, where the tasks leave a critical section in which they aren't, or none.
fn two_tasks(alloc: Global, fails: bool) -> Option<String> {
    let line = if fails {
        "taskEXIT_CRITICAL()"
    } else {
        "vTaskDelay(1)"
    };
    let (t, u) = (task(alloc, "t", 3, line)?, task(alloc, "u", 300, line)?);
    format!(in alloc; "actor=[{t},{u}]").ok()
}

/// 800 notes that say nothing.
fn plain_notes(alloc: Global) -> Option<String> {
    let plain = "{},".repeat(alloc, 799).ok()?;
    format!(in alloc; "{{\"version\":1,\"ends\":[],\"notes\":[{plain}{{}}]}}").ok()
}

/// The verdict of so many workers on an application with these notes. None where something is refused.
fn judged_with<R: Threads + Wait + Sync, G: Gate>(
    rt: &R,
    alloc: Global,
    app: &App,
    notes: &str,
    workers: usize,
    gate: &G,
) -> Option<Verdict> {
    match &read_cert(alloc, app, notes.as_bytes()) {
        Ok(certificate) => judge_with(rt, alloc, app, certificate, workers, gate).ok(),
        Err(_) => None,
    }
}

/// The verdict of so many workers on the two tasks with notes that say nothing. None where something is refused.
fn judged<R: Threads + Wait + Sync, G: Gate>(
    rt: &R,
    alloc: Global,
    fails: bool,
    workers: usize,
    gate: &G,
) -> Option<Verdict> {
    let (text, notes) = (two_tasks(alloc, fails)?, plain_notes(alloc)?);
    match &read_app(alloc, text.as_bytes()) {
        Ok(app) => judged_with(rt, alloc, app, notes.as_str(), workers, gate),
        Err(_) => None,
    }
}

/// Holds job 3 until job 700 has arrived.
#[derive(Drop)]
struct Holds {
    arrived: AtomicU64,
    alone: AtomicU64,
}

impl Gate for Holds {
    fn arrive(&self, _worker: usize, job: u64) {
        if job == 700 {
            self.arrived.store(1, Ordering::SeqCst);
        }
        if job == 3 && !reaches(&self.arrived, 1) {
            self.alone.store(1, Ordering::SeqCst);
        }
    }
}

#[test]
fn the_least_failure_though_it_comes_last(rt: HostRuntime) {
    for workers in [2, 16, 64] {
        let gate = Holds {
            arrived: AtomicU64::new(0),
            alone: AtomicU64::new(0),
        };
        assert!(rt;
            judged(&rt, rt.alloc(), true, workers, &gate) == Some(NO),
            "{workers}"
        );
        assert!(rt; gate.alone.load(Ordering::SeqCst) == 0, "{workers}");
    }
}

/// Jobs 2i and 2i+1 wait for one another, and those of the first worker are counted.
#[derive(Drop)]
struct Pairs {
    arrived: Vec<AtomicU64>,
    firsts: AtomicU64,
    alone: AtomicU64,
}

impl Gate for Pairs {
    fn arrive(&self, worker: usize, job: u64) {
        if worker == 0 {
            self.firsts.fetch_add(1, Ordering::SeqCst);
        }
        let (Some(mine), Some(other)) = (
            self.arrived.get(job as usize),
            self.arrived.get((job ^ 1) as usize),
        ) else {
            return;
        };
        mine.store(1, Ordering::SeqCst);
        if !reaches(other, 1) {
            self.alone.store(1, Ordering::SeqCst);
        }
    }
}

/// So many counters at zero.
fn zeros(alloc: Global, count: usize) -> Option<Vec<AtomicU64>> {
    let mut counters = Vec::new(alloc);
    for _ in 0..count {
        counters.push(AtomicU64::new(0)).ok()?;
    }
    Some(counters)
}

#[test]
fn workers_meet_in_pairs(rt: HostRuntime) {
    for workers in [2, 16, 64] {
        let Some(arrived) = zeros(rt.alloc(), 800) else {
            panic!(rt; "no memory")
        };
        let gate = Pairs {
            arrived,
            firsts: AtomicU64::new(0),
            alone: AtomicU64::new(0),
        };
        let verdict = judged(&rt, rt.alloc(), false, workers, &gate);
        assert!(rt; verdict == Some(Verdict::Yes), "{workers}");
        assert!(rt; gate.alone.load(Ordering::SeqCst) == 0, "{workers}");
        let firsts = gate.firsts.load(Ordering::SeqCst);
        assert!(rt; workers > 2 || firsts == 400, "{firsts}");
    }
}

/// How many have arrived, and whether each was the one after the last.
#[derive(Drop)]
struct InOrder {
    count: AtomicU64,
    disordered: AtomicU64,
}

impl Gate for InOrder {
    fn arrive(&self, _worker: usize, job: u64) {
        if self.count.fetch_add(1, Ordering::SeqCst) != job {
            self.disordered.store(1, Ordering::SeqCst);
        }
    }
}

#[test]
fn one_worker_stops_at_the_first_failure(rt: HostRuntime) {
    for (fails, wanted, count) in [(true, NO, 4), (false, Verdict::Yes, 800)] {
        let gate = InOrder {
            count: AtomicU64::new(0),
            disordered: AtomicU64::new(0),
        };
        assert!(rt; judged(&rt, rt.alloc(), fails, 1, &gate) == Some(wanted));
        assert!(rt; gate.count.load(Ordering::SeqCst) == count);
        assert!(rt; gate.disordered.load(Ordering::SeqCst) == 0);
    }
}
