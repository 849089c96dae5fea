// A machine that is polled by hand with an allocation refused. What is refused is asked for once more and has to come then, so
// the test passes whichever allocation is refused (`rt try --test --fail-alloc N`), and fails on any other answer than the true
// one.
use crate::applications::{MESSAGE, MESSAGE_NOTES, QUEUE, QUEUE_NOTES};
use crate::runs::passed;
use fr_judge::Passed;
use fr_program::ActorId;
use fr_runner::{Entry, Machine, RunFault};
use std::alloc::Global;

const TASK: ActorId = ActorId(0);

fn step(choice: i64) -> Entry {
    Entry::Stepped(TASK, choice)
}

/// Six entries of a task that sends and goes back, with the word 1: a send begins by choice 0, ends by its second choice, which
/// is this one, and choice 0 leads back.
fn entries(sent: i64) -> [Entry; 6] {
    [step(0), step(sent), step(0), step(0), step(sent), step(0)]
}

/// A machine's state and how many polls are left, as a text; None where there is no memory for it.
fn shown(alloc: Global, machine: &Machine) -> Option<String> {
    format!(in alloc; "{} polls, {:?}", machine.left(), machine.state()).ok()
}

/// Whether the next poll gives this entry; where its memory is refused, whether the machine is as it was and gives the entry
/// when it is asked again. None where there is no memory to tell.
fn gives(alloc: Global, machine: &mut Machine, wanted: Entry) -> Option<bool> {
    let before = shown(alloc, machine)?;
    match machine.poll(TASK) {
        Ok(entry) => Some(entry == wanted),
        Err(RunFault::Memory) => {
            let after = shown(alloc, machine)?;
            Some(after.as_str() == before.as_str() && machine.poll(TASK) == Ok(wanted))
        }
        Err(_) => Some(false),
    }
}

/// Whether the next polls give these entries. None where there is no memory to tell.
fn gives_all(alloc: Global, machine: &mut Machine, wanted: &[Entry]) -> Option<bool> {
    for entry in wanted {
        if !gives(alloc, machine, *entry)? {
            return Some(false);
        }
    }
    Some(true)
}

/// Whether the machine's trace has these entries and the word 1.
fn has_trace(machine: Machine, wanted: &[Entry]) -> bool {
    let trace = machine.into_trace();
    trace.entries.as_slice() == wanted && trace.words.as_slice() == [1].as_slice()
}

/// Whether a machine with the word 1 gives these entries, and then a trace of them. None where there is no memory for the
/// machine, or to tell.
fn polls_give(alloc: Global, passed: &Passed, wanted: &[Entry]) -> Option<bool> {
    match Machine::new(alloc, passed, wanted.len() as u64, &[1]) {
        Ok(mut machine) => {
            let is_given = gives_all(alloc, &mut machine, wanted);
            let is_told = has_trace(machine, wanted);
            Some(is_given? && is_told)
        }
        Err(RunFault::Memory) => None,
        Err(_) => Some(false),
    }
}

/// The same of a machine for this application.
fn app_gives(alloc: Global, app: &[u8], notes: &[u8], wanted: &[Entry]) -> Option<bool> {
    match &passed(alloc, app, notes) {
        Some(passed) => polls_give(alloc, passed, wanted),
        None => None,
    }
}

#[test]
fn polls_of_a_machine(rt: HostRuntime) {
    let alloc = rt.alloc();
    for (app, notes, sent) in [(QUEUE, QUEUE_NOTES, 1), (MESSAGE, MESSAGE_NOTES, 3)] {
        let wanted = entries(sent);
        let kept = match app_gives(alloc, app, notes, &wanted) {
            None => app_gives(alloc, app, notes, &wanted),
            answer => answer,
        };
        assert!(rt; kept == Some(true), "{sent}");
    }
}
