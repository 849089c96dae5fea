// Notes that are built from parts, and parts and lists that are refused.
use fr_notes::{Note, NoteFault, NoteParts, Notes, NotesFault};
use fr_program::{App, ObjId, Range, VarId};
use fr_reader::read_app;
use std::alloc::Global;

const APP: &[u8] = br#"variable = [{name="x", lo=-1, hi=3, init=0}, {name="y", lo=0, hi=2, init=0}]
object = [{name="m", kind="mutex", live=true}, {name="r", kind="recursive", live=true},
 {name="q", kind="queue", size=4, lo=0, hi=9, live=true}, {name="sb", kind="stream", size=8, live=true}]
actor = [{name="a", kind="task", code=["goto 0"]}, {name="b", kind="task", code=["goto 0"]}]
"#;

/// What a note says: the range of a variable, how often an object is held, and which are live and dead, by their numbers.
#[derive(Clone, Copy)]
struct Said {
    range: Option<(usize, i128, i128)>,
    held: Option<(usize, u32)>,
    live: Option<usize>,
    dead: Option<usize>,
}

const NOTHING: Said = Said {
    range: None,
    held: None,
    live: None,
    dead: None,
};

/// Adds what a note says to its parts.
fn add(parts: &mut NoteParts, said: Said) -> Option<()> {
    if let Some((variable, lo, hi)) = said.range {
        parts
            .range
            .push((VarId(variable), Range::new(lo, hi)?))
            .ok()?;
    }
    if let Some((object, count)) = said.held {
        parts.held.push((ObjId(object), count)).ok()?;
    }
    if let Some(object) = said.live {
        parts.live.push(ObjId(object)).ok()?;
    }
    if let Some(object) = said.dead {
        parts.dead.push(ObjId(object)).ok()?;
    }
    Some(())
}

/// The parts of what a note says.
fn parts(alloc: Global, said: Said) -> Option<NoteParts> {
    let mut parts = NoteParts::none(alloc);
    add(&mut parts, said)?;
    Some(parts)
}

/// The fault of the note, `Some(None)` where it is built; None where something else is refused.
fn fault(alloc: Global, said: Said) -> Option<Option<NoteFault>> {
    let parts = parts(alloc, said)?;
    match &read_app(alloc, APP) {
        Ok(app) => Some(Note::build(alloc, app, parts).err()),
        Err(_) => None,
    }
}

#[test]
fn ranges_and_the_declared_one(rt: HostRuntime) {
    for (variable, lo, hi, is_built) in [
        (0, -1, 3, true),
        (0, 3, 3, true),
        (0, -2, 3, false),
        (0, -1, 4, false),
        (0, 4, 4, false),
        (1, 0, 2, true),
        (1, 0, 3, false),
        (1, -1, 2, false),
    ] {
        let range = Some((variable, lo, hi));
        let wanted = if is_built {
            None
        } else {
            Some(NoteFault::Span)
        };
        let got = fault(rt.alloc(), Said { range, ..NOTHING });
        assert!(rt; got == Some(wanted), "{lo} {hi}");
    }
}

// A plain mutex once, a recursive one up to 255 times, and nothing else.
#[test]
fn counts_of_what_is_held(rt: HostRuntime) {
    for (object, count, is_built) in [
        (0, 1, true),
        (0, 2, false),
        (0, 0, false),
        (1, 255, true),
        (1, 256, false),
        (1, 0, false),
        (2, 1, false),
        (3, 1, false),
    ] {
        let held = Some((object, count));
        let wanted = if is_built {
            None
        } else {
            Some(NoteFault::Count)
        };
        let got = fault(rt.alloc(), Said { held, ..NOTHING });
        assert!(rt; got == Some(wanted), "{object} {count}");
    }
}

#[test]
fn live_and_dead(rt: HostRuntime) {
    let torn = Some(NoteFault::Lives);
    for (held, live, dead, wanted) in [
        (None, Some(3), Some(3), torn),
        (Some((0, 1)), None, Some(0), torn),
        (Some((0, 1)), Some(3), Some(2), None),
    ] {
        let range = None;
        let got = fault(
            rt.alloc(),
            Said {
                range,
                held,
                live,
                dead,
            },
        );
        assert!(rt; got == Some(wanted));
    }
}

/// Adds so many notes that say nothing.
fn add_plain(alloc: Global, app: &App, notes: &mut Vec<Note>, count: usize) -> Option<()> {
    for _ in 0..count {
        let note = Note::build(alloc, app, NoteParts::none(alloc)).ok()?;
        notes.push(note).ok()?;
    }
    Some(())
}

/// What comes of so many notes that say nothing: whether they fit and there is none past them, or the fault and how many
/// come back.
fn taken_by(alloc: Global, app: &App, count: usize) -> Option<Result<bool, (NotesFault, usize)>> {
    let mut notes = Vec::new(alloc);
    add_plain(alloc, app, &mut notes, count)?;
    Some(match Notes::build(alloc, app, notes) {
        Ok(notes) => Ok(notes.fits(app) && notes.get(count).is_none()),
        Err((fault, notes)) => Err((fault, notes.len())),
    })
}

/// The same of the application above.
fn taken(alloc: Global, count: usize) -> Option<Result<bool, (NotesFault, usize)>> {
    match &read_app(alloc, APP) {
        Ok(app) => taken_by(alloc, app, count),
        Err(_) => None,
    }
}

#[test]
fn one_note_for_each_point(rt: HostRuntime) {
    assert!(rt; taken(rt.alloc(), 2) == Some(Ok(true)));
    assert!(rt; taken(rt.alloc(), 1) == Some(Err((NotesFault::PointCount, 1))));
    assert!(rt; taken(rt.alloc(), 3) == Some(Err((NotesFault::PointCount, 3))));
}
