// Guards that are built from their parts, and those that are refused, which come back.
use fr_ends::{EndGuard, EndName, Ends, EndsFault, Guard};
use fr_program::{ActorId, App, End, ObjId, VarId};
use fr_reader::read_app;
use std::alloc::{AllocError, Global};
use std::collections::BTreeMap;

/// The objects: 0 is the stream buffer, 1 the mutex, 2 the queue, 3 the binary semaphore.
const BUFFER: &[u8] = br#"variable = [{name="turn", lo=1, hi=2, init=1}]
object = [{name="sb", kind="stream", size=64, live=true}, {name="m", kind="mutex", live=true},
 {name="q", kind="queue", size=4, lo=0, hi=9, live=true}, {name="s", kind="binary", live=true}]
actor = [{name="a", kind="task", code=["goto 0"]}, {name="b", kind="task", code=["goto 0"]}]
"#;

/// The guard of the writer's end of an object.
fn writer(buffer: usize, guard: Guard) -> EndGuard {
    EndGuard {
        end: EndName {
            buffer: ObjId(buffer),
            end: End::Writer,
        },
        guard,
    }
}

/// The turns of both tasks, by these values.
fn turn(alloc: Global, one: i64, other: i64) -> Result<Guard, AllocError> {
    let mut values = BTreeMap::new(alloc);
    values.insert(ActorId(0), one)?;
    values.insert(ActorId(1), other)?;
    Ok(Guard::Turn(VarId(0), values))
}

/// One guard, or two.
fn listed(alloc: Global, first: EndGuard, second: Option<EndGuard>) -> Option<Vec<EndGuard>> {
    let mut guards = Vec::new(alloc);
    guards.push(first).ok()?;
    if let Some(second) = second {
        guards.push(second).ok()?;
    }
    Some(guards)
}

/// What comes of guards: how many are listed, or the fault and how many come back.
fn built(alloc: Global, app: &App, guards: Vec<EndGuard>) -> Result<usize, (EndsFault, usize)> {
    match Ends::build(alloc, app, guards) {
        Ok(ends) => Ok(ends.len()),
        Err((fault, guards)) => Err((fault, guards.len())),
    }
}

/// What comes of one guard, or of two. None where the application is refused or there is no memory.
fn build(
    alloc: Global,
    first: EndGuard,
    second: Option<EndGuard>,
) -> Option<Result<usize, (EndsFault, usize)>> {
    let guards = listed(alloc, first, second)?;
    match &read_app(alloc, BUFFER) {
        Ok(app) => Some(built(alloc, app, guards)),
        Err(_) => None,
    }
}

#[test]
fn guards_that_are_refused(rt: HostRuntime) {
    let alloc = rt.alloc();
    let guard = Some(Err((EndsFault::Guard, 1)));
    assert!(rt; build(alloc, writer(0, Guard::Critical), None) == Some(Ok(1)));
    assert!(rt; build(alloc, writer(0, Guard::Mutex(ObjId(1))), None) == Some(Ok(1)));
    assert!(rt; build(alloc, writer(0, Guard::Mutex(ObjId(3))), None) == guard);
    assert!(rt; build(alloc, writer(0, Guard::Mutex(ObjId(4))), None) == guard);
    assert!(rt; build(alloc, writer(2, Guard::Critical), None) == guard);
    assert!(rt; build(alloc, writer(4, Guard::Critical), None) == guard);
    assert!(rt; build(alloc, writer(0, Guard::Sole(ActorId(2))), None) == guard);
    let twice = build(
        alloc,
        writer(0, Guard::Critical),
        Some(writer(0, Guard::Sole(ActorId(0)))),
    );
    assert!(rt; twice == Some(Err((EndsFault::EndTwice, 2))));
}

#[test]
fn turns_with_one_value_for_two(rt: HostRuntime) {
    let alloc = rt.alloc();
    for (one, other, wanted) in [(1, 2, Ok(1)), (2, 2, Err((EndsFault::Guard, 1)))] {
        let Ok(turn) = turn(alloc, one, other) else {
            assert!(rt; false);
            return;
        };
        assert!(rt; build(alloc, writer(0, turn), None) == Some(wanted));
    }
}
