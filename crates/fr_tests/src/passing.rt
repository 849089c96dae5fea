// Applications that pass with their certificate, and those that come back.
use fr_calls::Rule;
use fr_cert::read_cert;
use fr_judge::{Part, Passed, Verdict};
use fr_program::App;
use fr_reader::read_app;
use std::alloc::Global;

const RETURNING: &[u8] = br#"actor = [{name="t", kind="task", code=["return"]}]"#;

const ROUND: &[u8] = br#"actor = [{name="t", kind="task", code=["goto 0"]}]"#;

const CERTIFICATE: &[u8] = br#"{"version":1,"ends":[],"notes":[{}]}"#;

/// What comes of the application with a note that says nothing: whether it passes, as itself, or
/// comes back with its certificate and this verdict. None where a text is refused.
fn passes(alloc: Global, text: &[u8]) -> Option<Result<bool, (bool, Verdict)>> {
    let app = read_app(alloc, text).ok()?;
    let certificate = read_cert(alloc, &app, CERTIFICATE).ok()?;
    match Passed::check(app, certificate) {
        Ok(passed) => Some(Ok(has_one_task(passed.app()))),
        Err((app, certificate, verdict)) => {
            let same = has_one_task(&app) && certificate.notes.get(0).is_some();
            Some(Err((same, verdict)))
        }
    }
}

fn has_one_task(app: &App) -> bool {
    app.points() == 1 && app.actors().len() == 1
}

#[test]
fn passes_only_where_the_verdict_is_yes(rt: HostRuntime) {
    assert!(rt; passes(rt.alloc(), ROUND) == Some(Ok(true)));
    let comes_back = match passes(rt.alloc(), RETURNING) {
        Some(Err((same, Verdict::No { point, part }))) => {
            same && point.pc == 0 && part == Part::Rule(Rule::EndsInOrder)
        }
        _ => false,
    };
    assert!(rt; comes_back);
}
