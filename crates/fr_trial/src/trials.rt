// Each command over files in memory: its exit status, what it prints, what it writes, and how often it reads.
use crate::memory::MemoryFiles;
use fr_answer::run;
use fr_request::{
    CheckRequest, CheckedFiles, FindRequest, Format, ProveRequest, RefuteRequest, Request,
    RunRequest,
};
use std::alloc::{AllocError, Global};
use std::sync::Wait;
use std::thread::Threads;

/// A task that sends to a queue.
const SAFE: &str = r#"object = [{name="q", kind="queue", size=4, lo=0, hi=9, live=true}]
actor = [{name="t", kind="task", code=["xQueueSend(q, 1, 0)", "goto 0"]}]"#;

/// A source that means the same.
const SOURCE: &str = "queue q[4] of 0..9;\ntask t { for (;;) xQueueSend(q, 1, 0); }";

const SAFE_NOTES: &str =
    r#"{"version":1,"ends":[],"notes":[{"live":["q"]},{"live":["q"]},{"live":["q"]}]}"#;

const WRONG_NOTES: &str = r#"{"version":1,"ends":[],"notes":[{},{},{}]}"#;

/// Two tasks that send to one stream buffer.
const BROKEN: &str = r#"object = [{name="sb", kind="stream", size=64, live=true}]
actor = [{name="tx", kind="task", code=["xStreamBufferSend(sb, 8, 10)", "goto 0"]},
{name="ty", kind="task", code=["xStreamBufferSend(sb, 8, 10)", "goto 0"]}]"#;

/// Each file with its text.
const TEXTS: &[(&str, &str)] = &[
    ("safe.toml", SAFE),
    ("safe.json", SAFE_NOTES),
    ("wrong.json", WRONG_NOTES),
    ("other.toml", SAFE),
    ("safe.frc", SOURCE),
    ("broken.toml", BROKEN),
    ("cut.toml", "actor = ["),
    ("all.list", "safe.toml safe.json\nother.toml\ncut.toml\n"),
    ("page.html", "a letter"),
];

/// The run into a breach of the application that is broken.
const BREACH: &str =
    "breach: rule 1: two actors at the writing end of a buffer: tx, after 2 steps\n\
    tx step 0\nty step 0\ntx 0 inside: xStreamBufferSend(sb, 8, 10)\n";

/// What a command gives: its exit status, what it prints on each stream, and how often it reads a file.
type Expected<'a> = (u8, &'a str, &'a str, u64);

const YES: Expected<'static> = (0, "yes\n", "", 2);

const CUT: Expected<'static> = (2, "", "refused: app 2 Toml\n", 1);

const KEPT: Expected<'static> = (2, "", "refused: out\n", 0);

const NO: Expected<'static> = (
    1,
    "no: point 0 (t 0 before): rule 7: handle is not live\n",
    "",
    2,
);

const BROKEN_RUN: Expected<'static> = (1, BREACH, "", 1);

/// What is printed of the list.
const LINES: &str = "safe.toml: yes\nother.toml: yes\ncut.toml: refused: app 2 Toml\n";

/// The points of the application that is safe.
const POINT_LINES: &str =
    "0 t 0 before xQueueSend(q, 1, 0)\n1 t 0 inside xQueueSend(q, 1, 0)\n2 t 1 before goto 0\n";

/// How a page begins.
const PAGE: &str = "<!DOCTYPE html>";

/// The files of the texts; the letter may not be replaced.
fn some_files(rt: &HostRuntime) -> Result<MemoryFiles, AllocError> {
    let mut protected = Vec::new(rt.alloc());
    protected.push(String::from_str(rt.alloc(), "page.html")?)?;
    let mut files = MemoryFiles::new(rt.alloc(), protected);
    for (path, text) in TEXTS {
        files.put(path, text.as_bytes())?;
    }
    Ok(files)
}

/// Whether the command gives this. In a form for machines the texts are left open.
fn gives<R: Threads + Wait + Sync + Alloc<A = Global>>(
    rt: &R,
    files: &mut MemoryFiles,
    request: Request,
    told: Expected,
) -> bool {
    let (mut out, mut err) = (Vec::new(rt.alloc()), Vec::new(rt.alloc()));
    let before = files.reads();
    let status = run(rt, rt.alloc(), &request, files, &mut out, &mut err);
    let reads = files.reads().wrapping_sub(before);
    let formed = matches!(&request, Request::Check(asked) if asked.format.is_some());
    let texts = (out.as_slice(), err.as_slice());
    (status, reads) == (told.0, told.3)
        && (formed || texts == (told.1.as_bytes(), told.2.as_bytes()))
}

/// Whether the file at this path begins with this text.
fn begins(files: &MemoryFiles, path: &str, text: &str) -> bool {
    let bytes = files.bytes(path).unwrap_or_default();
    bytes.starts_with(text.as_bytes())
}

fn check<'a>(
    files: CheckedFiles<'a>,
    format: Option<Format>,
    html: Option<&'a str>,
) -> Request<'a> {
    Request::Check(CheckRequest {
        files,
        workers: 1,
        warns: false,
        deadlock: false,
        detail: None,
        format,
        html,
    })
}

fn check_one<'a>(app: &'a str, certificate: &'a str) -> Request<'a> {
    check(CheckedFiles::One { app, certificate }, None, None)
}

/// Applications, certificates, and what `check` gives for them.
const CHECKS: &[(&str, &str, Expected)] = &[
    ("safe.toml", "safe.json", YES),
    ("safe.toml", "wrong.json", NO),
    ("safe.frc", "safe.json", YES),
    ("safe.frc", "wrong.json", NO),
    ("cut.toml", "safe.json", (2, "", "refused: app 2 Toml\n", 2)),
    ("none.toml", "safe.json", (3, "", "machine: file\n", 1)),
];

#[test]
fn checks(rt: HostRuntime) -> Result<(), AllocError> {
    let files = &mut some_files(&rt)?;
    for (app, certificate, told) in CHECKS {
        let asked = check_one(app, certificate);
        assert!(rt; gives(&rt, files, asked, *told), "{app} {certificate}");
    }
    Ok(())
}

/// The application that is safe, with its certificate.
const ONE: CheckedFiles<'static> = CheckedFiles::One {
    app: "safe.toml",
    certificate: "safe.json",
};

/// What is judged, where its page goes, and what `check` gives.
const FORMED: &[(CheckedFiles, Option<&str>, Expected)] = &[
    (CheckedFiles::Listed("all.list"), None, (2, LINES, "", 5)),
    (ONE, Some("new.html"), YES),
    (ONE, Some("page.html"), KEPT),
    (ONE, Some("safe.json"), KEPT),
];

const FORMATS: &[Option<Format>] = &[None, Some(Format::Json)];

#[test]
fn checks_in_each_format(rt: HostRuntime) -> Result<(), AllocError> {
    let files = &mut some_files(&rt)?;
    for format in FORMATS {
        for (judged, html, told) in FORMED {
            assert!(rt; gives(&rt, files, check(*judged, *format, *html), *told));
        }
    }
    assert!(rt; begins(files, "page.html", "a letter") && begins(files, "safe.json", "{"));
    assert!(rt; begins(files, "new.html", PAGE));
    Ok(())
}

fn prove<'a>(app: &'a str, out: &'a str, html: Option<&'a str>) -> Request<'a> {
    Request::Prove(ProveRequest {
        app,
        out: Some(out),
        workers: 1,
        warns: false,
        deadlock: false,
        detail: None,
        searches: true,
        states: 1000,
        memory: 64,
        progress: false,
        format: None,
        html,
    })
}

/// Applications, where their certificate and their page go, and what `prove` gives.
const PROOFS: &[(&str, &str, Option<&str>, Expected)] = &[
    ("broken.toml", "no.json", Some("no.html"), BROKEN_RUN),
    ("cut.toml", "no.json", None, CUT),
    ("safe.toml", "safe.toml", None, KEPT),
    ("safe.toml", "no.json", Some("no.json"), KEPT),
    ("safe.toml", "no.json", Some("page.html"), KEPT),
    (
        "safe.toml",
        "new.json",
        Some("new.html"),
        (0, "yes\n", "", 1),
    ),
];

#[test]
fn proves(rt: HostRuntime) -> Result<(), AllocError> {
    let files = &mut some_files(&rt)?;
    for (app, out, html, told) in PROOFS {
        assert!(rt;
            gives(&rt, files, prove(app, out, *html), *told),
            "{app} {out}"
        );
    }
    assert!(rt; files.bytes("no.json").is_none() && begins(files, "page.html", "a letter"));
    assert!(rt; begins(files, "no.html", PAGE) && begins(files, "new.html", PAGE));
    assert!(rt; gives(&rt, files, check_one("safe.toml", "new.json"), YES));
    Ok(())
}

#[test]
fn refutes(rt: HostRuntime) -> Result<(), AllocError> {
    let files = &mut some_files(&rt)?;
    let asked = Request::Refute(RefuteRequest {
        app: "broken.toml",
        states: 1000,
        memory: 64,
        progress: false,
        workers: 1,
        deadlock: false,
        explains: false,
        format: None,
        html: Some("new.html"),
    });
    assert!(rt; gives(&rt, files, asked, BROKEN_RUN) && begins(files, "new.html", PAGE));
    Ok(())
}

/// Applications, and what `points` gives for them.
const POINTS: &[(&str, Expected)] = &[("safe.toml", (0, POINT_LINES, "", 1)), ("cut.toml", CUT)];

#[test]
fn tells_points(rt: HostRuntime) -> Result<(), AllocError> {
    let files = &mut some_files(&rt)?;
    for (app, told) in POINTS {
        let explains = false;
        let asked = Request::Points { app, explains };
        assert!(rt; gives(&rt, files, asked, *told), "{app}");
    }
    Ok(())
}

fn run_by(words: &str) -> Request<'_> {
    Request::Run(RunRequest {
        app: "safe.toml",
        certificate: "safe.json",
        polls: 3,
        words: Some(words),
        detail: None,
    })
}

/// Words that pick choices, and what `run` gives for them.
const RUNS: &[(&str, Expected)] = &[
    ("0", (0, "t step 0\nt step 0\nt step 0\n", "", 2)),
    ("0,", (2, "", "refused: words\n", 0)),
];

#[test]
fn runs_by_words(rt: HostRuntime) -> Result<(), AllocError> {
    let files = &mut some_files(&rt)?;
    for (words, told) in RUNS {
        assert!(rt; gives(&rt, files, run_by(words), *told), "{words}");
    }
    Ok(())
}

fn find(out: &str) -> Request<'_> {
    Request::Find(FindRequest {
        app: "safe.toml",
        out,
        rounds: 64,
        explains: false,
    })
}

#[test]
fn finds(rt: HostRuntime) -> Result<(), AllocError> {
    let files = &mut some_files(&rt)?;
    assert!(rt; gives(&rt, files, find("new.json"), (0, "found\n", "", 1)));
    assert!(rt; gives(&rt, files, find("page.html"), KEPT));
    assert!(rt; gives(&rt, files, check_one("safe.toml", "new.json"), YES));
    Ok(())
}
