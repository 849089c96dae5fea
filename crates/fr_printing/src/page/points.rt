// What a certificate says of each point, and which of them fail.
ghost use Rattle.std.specs.Prelude.{◌≡◌, ◌<◌, length};
ghost use Rattle.fr_program.specs.Points.{points_of};
ghost use Rattle.fr_ends.specs.Fits.{CertificateFits};

use fr_ends::Certificate;
use fr_judge::{Judging, Lists, Part, Verdict};
use fr_lanes::{Body, Code, count_text, put_point};
use fr_outcome::Judged;
use fr_page::{PointShown, PointState, Reason};
use fr_program::{App, ObjId, Point};
use fr_reasons::{explain, never_deleted, note_told};
use fr_report::part_text;
use fr_request::Detail;
use fr_wording::{Explained, Line, object_name};
use std::alloc::{AllocError, Global};

/// The most points that a page shows.
const MOST_POINTS: usize = 2000;

/// How the points of a page are shown.
#[derive(Clone, Copy)]
struct Look<'a> {
    code: &'a Code,
    /// The objects that are always live: the page says so once.
    live: &'a [ObjId],
    /// Whether lines are named that a person would change.
    blames: bool,
}

/// How many of the points that are shown fail, and how many are never reached.
#[derive(Clone, Copy)]
struct Tally {
    failing: usize,
    never: usize,
}

impl Tally {
    /// The tally with one more point.
    fn with(self, standing: &PointState) -> Tally {
        match standing {
            PointState::Holds => self,
            PointState::Fails(_) => Tally {
                failing: self.failing.saturating_add(1),
                ..self
            },
            PointState::Never => Tally {
                never: self.never.saturating_add(1),
                ..self
            },
        }
    }
}

/// What explains that a point fails, a reason each, with lines of code as they stand in the text.
fn reasons_in(
    alloc: Global,
    app: &App,
    code: &Code,
    items: &mut [Explained],
) -> Result<Vec<Reason>, AllocError> {
    let mut reasons = Vec::new(alloc);
    for item in items {
        code.put_into(alloc, item)?;
        let Line { of, said } = item.line(alloc, app)?;
        reasons.push(Reason { of, said })?;
    }
    Ok(reasons)
}

/// Why a point fails, as a command explains it.
fn reasons(
    alloc: Global,
    app: &App,
    certificate: &Certificate,
    look: Look,
    point: Point,
    part: Part,
) -> Result<Vec<Reason>, AllocError>
    requires { CertificateFits app.now certificate.now }
{
    let verdict = Verdict::No { point, part };
    let Look { code, blames, .. } = look;
    match explain(
        alloc,
        app,
        certificate,
        &code.sources,
        verdict,
        Detail::Relevant,
        blames,
    )? {
        Some(mut found) => reasons_in(alloc, app, code, &mut found.items),
        None => Ok(Vec::new(alloc)),
    }
}

/// How it is with a point whose note says this, by what fails there.
fn standing_of(
    alloc: Global,
    app: &App,
    notes: &[String],
    part: Option<Part>,
) -> Result<PointState, AllocError> {
    match part {
        Some(part) => Ok(PointState::Fails(part_text(alloc, app, part)?)),
        None if notes.is_empty() => Ok(PointState::Never),
        None => Ok(PointState::Holds),
    }
}

/// A point of the application with what its note says and how it is with it. Why it fails is shown where
/// `explains` asks for it.
fn point_shown(
    alloc: Global,
    app: &App,
    certificate: &Certificate,
    look: Look,
    judging: &Judging,
    number: usize,
    explains: bool,
) -> Result<PointShown, AllocError>
    requires number { number < length (points_of app.now) }
    requires fits { CertificateFits app.now certificate.now }
    requires app { judging.now.app ≡ app.now }
{
    app.recall_numbered();
    let (point, part) = (app.point(number), judging.part_at(number));
    let explanation = match part {
        Some(part) if explains => reasons(alloc, app, certificate, look, point, part)?,
        _ => Vec::new(alloc),
    };
    let notes = note_told(alloc, app, certificate, point, look.live)?;
    let side = String::from_str(alloc, point.side.text())?;
    let standing = standing_of(alloc, app, &notes, part)?;
    Ok(PointShown {
        number,
        side,
        notes,
        standing,
        explanation,
    })
}

/// Adds the points to the page: the first 2,000, and the first that fails if it comes later.
fn put_points(
    alloc: Global,
    body: &mut Body,
    app: &App,
    certificate: &Certificate,
    look: Look,
    judging: &Judging,
) -> Result<Tally, AllocError>
    requires fits { CertificateFits app.now certificate.now }
    requires app { judging.now.app ≡ app.now }
{
    let mut tally = Tally {
        failing: 0,
        never: 0,
    };
    for number in 0..app.points() {
        if number >= MOST_POINTS && tally.failing > 0 {
            break;
        }
        let explains = tally.failing == 0;
        let shown = point_shown(alloc, app, certificate, look, judging, number, explains)?;
        if number < MOST_POINTS || matches!(&shown.standing, PointState::Fails(_)) {
            tally = tally.with(&shown.standing);
            put_point(body, app.point(number), shown)?;
        }
    }
    Ok(tally)
}

/// Adds how many points there are, and how many of them fail or are never reached.
fn put_counts(
    alloc: Global,
    body: &mut Body,
    points: usize,
    tally: Tally,
) -> Result<(), AllocError> {
    body.counts
        .push(count_text(alloc, points, "point", "points")?)?;
    let (failing, never) = (tally.failing, tally.never);
    body.counts
        .push(count_text(alloc, failing, "fails", "fail")?)?;
    body.counts
        .push(format!(in alloc; "{never} never reached")?)?;
    if points > MOST_POINTS {
        body.omissions.push(format!(in alloc;
            "The page shows the first {MOST_POINTS} points and the first that fails, and counts these alone."
        )?)?;
    }
    Ok(())
}

/// Adds which objects are always live, where there are such.
fn put_live(alloc: Global, body: &mut Body, app: &App, live: &[ObjId]) -> Result<(), AllocError> {
    let Some((first, others)) = live.split_first() else {
        return Ok(());
    };
    let mut text = String::from_str(alloc, "Live at every point, never deleted: ")?;
    text.push_str(object_name(app, *first))?;
    for object in others {
        write!(text, ", {}", object_name(app, *object))?;
    }
    text.push_str(". The notes leave that out.")?;
    Ok(body.omissions.push(text)?)
}

/// Adds the points with the objects that are always live, and counts them.
fn put_all(
    alloc: Global,
    body: &mut Body,
    app: &App,
    certificate: &Certificate,
    look: Look,
    judging: &Judging,
) -> Result<(), AllocError>
    requires fits { CertificateFits app.now certificate.now }
    requires app { judging.now.app ≡ app.now }
{
    put_live(alloc, body, app, look.live)?;
    let tally = put_points(alloc, body, app, certificate, look, judging)?;
    put_counts(alloc, body, app.points(), tally)
}

/// Adds to the page what the certificate says of each point, and whether it is so. Where `blames` asks for it, lines are named that a person
/// would change.
pub(super) fn put_judged(
    alloc: Global,
    body: &mut Body,
    judged: &Judged,
    code: &Code,
    blames: bool,
) -> Result<(), AllocError> {
    judged.recall_verdict();
    let (app, certificate) = (judged.app(), judged.certificate());
    let live = never_deleted(alloc, app, &certificate.notes)?;
    let look = Look {
        code,
        live: &live,
        blames,
    };
    let lists = Lists::build(alloc, app, certificate)?;
    let judging = Judging::with(app, certificate, &lists);
    put_all(alloc, body, app, certificate, look, &judging)
}
