// A machine that is polled by hand, without threads: the choices that words pick, actors that are blocked, and polls that are
// refused.
use crate::applications::{CRITICAL, CRITICAL_NOTES, STREAM, STREAM_NOTES};
use crate::runs::passed;
use fr_judge::Passed;
use fr_program::ActorId;
use fr_runner::{Entry, Machine, RunFault};
use std::alloc::Global;

const WIDE: &[u8] =
    br#"variable = [{name="x", lo=-9223372036854775808, hi=9223372036854775807, init=0, owner="t"}]
actor = [{name="t", kind="task", code=["pick x -9223372036854775808 9223372036854775807", "goto 0"]}]
"#;

const WIDE_NOTES: &[u8] = br#"{"version":1,"ends":[],"notes":[{},{}]}"#;

const ENDING: &[u8] =
    br#"actor = [{name="t", kind="task", code=["vTaskDelay(1)", "vTaskDelete(NULL)"]}]"#;

const ENDING_NOTES: &[u8] = br#"{"version":1,"ends":[],"notes":[{},{}]}"#;

fn step(actor: usize, choice: i64) -> Entry {
    Entry::Stepped(ActorId(actor), choice)
}

/// Polls the actors of these entries, in their order. Whether each poll is answered.
fn polls(machine: &mut Machine, wanted: &[Entry]) -> bool {
    for entry in wanted {
        let (Entry::Stepped(actor, _) | Entry::Blocked(actor)) = entry;
        if machine.poll(*actor).is_err() {
            return false;
        }
    }
    true
}

/// Whether a machine with one poll for each of these entries, polled in the order of their actors, gives them.
fn gives_entries(alloc: Global, passed: &Passed, words: &[u64], wanted: &[Entry]) -> bool {
    let Ok(mut machine) = Machine::new(alloc, passed, wanted.len() as u64, words) else {
        return false;
    };
    let is_polled = polls(&mut machine, wanted);
    let trace = machine.into_trace();
    is_polled && trace.entries.as_slice() == wanted
}

/// The same of a machine for this application.
fn gives(alloc: Global, app: &[u8], notes: &[u8], words: &[u64], wanted: &[Entry]) -> bool {
    match &passed(alloc, app, notes) {
        Some(passed) => gives_entries(alloc, passed, words, wanted),
        None => false,
    }
}

#[test]
fn actors_take_turns(rt: HostRuntime) {
    let wanted = [
        step(0, 0),
        step(1, 0),
        step(0, 8),
        step(1, 8),
        step(0, 0),
        step(1, 0),
        step(0, 0),
        step(1, 0),
        step(0, 8),
        step(1, 8),
    ];
    assert!(rt; gives(rt.alloc(), STREAM, STREAM_NOTES, &[8], &wanted));
}

#[test]
fn blocked_at_the_critical_section(rt: HostRuntime) {
    let wanted = [step(0, 0), Entry::Blocked(ActorId(1)), step(0, 0)];
    assert!(rt; gives(rt.alloc(), CRITICAL, CRITICAL_NOTES, &[], &wanted));
}

#[test]
fn choices_of_128_bits(rt: HostRuntime) {
    let wanted = [step(0, i64::MAX), step(0, 0)];
    assert!(rt; gives(rt.alloc(), WIDE, WIDE_NOTES, &[u64::MAX], &wanted));
}

/// Whether a task that ends steps twice, and then is done and blocked.
fn ends(machine: &mut Machine) -> bool {
    let task = ActorId(0);
    let steps = machine.poll(task) == Ok(Entry::Stepped(task, 0)) && !machine.done(task);
    let ends = machine.poll(task) == Ok(Entry::Stepped(task, 0)) && machine.done(task);
    let blocked = machine.poll(task) == Ok(Entry::Blocked(task)) && machine.left() == 6;
    steps && ends && blocked
}

/// The same of a machine with nine polls.
fn ends_with_nine(alloc: Global, passed: &Passed) -> bool {
    match &mut Machine::new(alloc, passed, 9, &[]) {
        Ok(machine) => ends(machine),
        Err(_) => false,
    }
}

#[test]
fn an_actor_that_is_done_is_blocked(rt: HostRuntime) {
    let is_good = match &passed(rt.alloc(), ENDING, ENDING_NOTES) {
        Some(passed) => ends_with_nine(rt.alloc(), passed),
        None => false,
    };
    assert!(rt; is_good);
}

/// Whether a machine with no poll answers that none is left, and has an empty trace.
fn is_spent_at_once(alloc: Global, passed: &Passed) -> bool {
    let Ok(mut machine) = Machine::new(alloc, passed, 0, &[8]) else {
        return false;
    };
    let is_spent = machine.poll(ActorId(0)) == Err(RunFault::Spent);
    let trace = machine.into_trace();
    is_spent && trace.entries.is_empty()
}

/// Whether a machine with one poll refuses a number that is no actor, and is as it was; and has no poll after the one.
fn has_one_poll(machine: &mut Machine) -> bool {
    let stranger = machine.poll(ActorId(2)) == Err(RunFault::NoActor);
    let same = machine.left() == 1 && !machine.done(ActorId(2));
    let polled = machine.poll(ActorId(0)) == Ok(Entry::Stepped(ActorId(0), 0));
    let used = machine.poll(ActorId(0)) == Err(RunFault::Spent) && machine.left() == 0;
    stranger && same && polled && used
}

/// The same of a machine that is made with one poll.
fn refuses_strangers(alloc: Global, passed: &Passed) -> bool {
    match &mut Machine::new(alloc, passed, 1, &[8]) {
        Ok(machine) => has_one_poll(machine),
        Err(_) => false,
    }
}

/// Whether a number of polls past the most is refused.
fn refuses_too_many(alloc: Global, passed: &Passed) -> bool {
    match &Machine::new(alloc, passed, 1_000_001, &[8]) {
        Err(fault) => *fault == RunFault::Polls,
        Ok(_) => false,
    }
}

#[test]
fn polls_that_are_refused(rt: HostRuntime) {
    let alloc = rt.alloc();
    let is_good = match &passed(alloc, STREAM, STREAM_NOTES) {
        Some(passed) => is_spent_at_once(alloc, passed)
            && refuses_strangers(alloc, passed)
            && refuses_too_many(alloc, passed),
        None => false,
    };
    assert!(rt; is_good);
}
