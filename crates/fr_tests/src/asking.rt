// Asks the cases of the tables.
ghost use Rattle.fr_ends.specs.Fits.{CertificateFits};

use crate::alike::is_alike;
use crate::points::point_answer;
use crate::steps::step_answer;
use crate::table::{Asked, Table};
use crate::tables::{certificates, deletes, guards, implied, lists, meeting, own, spoilers, steps};
use crate::texts::{list_text, written};
use fr_cert::read_cert;
use fr_ends::Certificate;
use fr_program::App;
use fr_reader::read_app;
use std::alloc::Global;

/// Appends a file with a text put into each of its gaps, from the text with this number on. Gives the number of the next text.
fn fill(whole: &mut String, file: &str, texts: &[&str], first: usize) -> Option<usize> {
    let mut next = first;
    for (number, piece) in file.split('?').enumerate() {
        if number > 0 {
            whole.push_str(texts.get(next)?).ok()?;
            next = next.checked_add(1)?;
        }
        whole.push_str(piece).ok()?;
    }
    Some(next)
}

/// The texts of an application and a certificate.
#[derive(Drop)]
struct Files {
    app: String,
    certificate: String,
}

/// Appends the table's files with these texts put into them. None where there are more or fewer texts than gaps.
fn fill_both(files: &mut Files, table: &Table, texts: &[&str]) -> Option<()> {
    let next = fill(&mut files.app, table.app, texts, 0)?;
    let last = fill(&mut files.certificate, table.certificate, texts, next)?;
    if last == texts.len() { Some(()) } else { None }
}

/// The table's files with these texts put into them; None where there are more or fewer texts than gaps.
fn filled(alloc: Global, table: &Table, texts: &[&str]) -> Option<Files> {
    let (app, certificate) = (String::new(alloc), String::new(alloc));
    let mut files = Files { app, certificate };
    fill_both(&mut files, table, texts)?;
    Some(files)
}

/// The answer about the points with these numbers, where they and all others are judged alike in each way.
fn judged_by(
    alloc: Global,
    asked: Asked,
    app: &App,
    certificate: &Certificate,
    numbers: &str,
) -> Option<String>
    requires { CertificateFits app.now certificate.now }
{
    if !is_alike(alloc, app, certificate)? {
        return None;
    }
    point_answer(alloc, asked, app, certificate, numbers)
}

/// The same by the certificate in this text. None where it is refused.
fn judged(
    alloc: Global,
    asked: Asked,
    app: &App,
    certificate: &str,
    numbers: &str,
) -> Option<String> {
    match &read_cert(alloc, app, certificate.as_bytes()) {
        Ok(certificate) => judged_by(alloc, asked, app, certificate, numbers),
        Err(_) => None,
    }
}

/// What is asked about an application, beside its file and that of its certificate: the points or the list; for a step the
/// state, the step, and the answer by the table.
#[derive(Clone, Copy)]
struct Question<'a> {
    asked: Asked,
    subject: &'a str,
    step: &'a str,
    expected: &'a str,
}

/// The answer about an application and the text of a certificate.
fn answer_of(
    alloc: Global,
    app: &App,
    certificate: &str,
    question: &Question<'_>,
) -> Option<String> {
    let subject = question.subject;
    match question.asked {
        Asked::Certificate => written(alloc, app, certificate),
        Asked::Step => step_answer(alloc, app, subject, question.step, question.expected),
        Asked::List => list_text(alloc, app, subject),
        asked => judged(alloc, asked, app, certificate, subject),
    }
}

/// The answer about the table's files with these texts put into them. None where the application is refused.
fn answer_with(
    alloc: Global,
    table: &Table,
    texts: &[&str],
    question: &Question<'_>,
) -> Option<String> {
    let files = filled(alloc, table, texts)?;
    match &read_app(alloc, files.app.as_bytes()) {
        Ok(app) => answer_of(alloc, app, files.certificate.as_str(), question),
        Err(_) => None,
    }
}

/// The answer to a question that has this answer by its table; None where the question has a wrong form.
fn answer_to(
    alloc: Global,
    asked: Asked,
    table: &Table,
    parts: &[&str],
    expected: &str,
) -> Option<String> {
    let (texts, subject, step) = match (asked, parts) {
        (Asked::Certificate, texts) => (texts, "", ""),
        (Asked::Step, [_, state, step]) => (parts.get(..1)?, *state, *step),
        (Asked::Step, _) => return None,
        (Asked::List, [_, _, ..]) => return None,
        (_, [subject, texts @ ..]) => (texts, *subject, ""),
        _ => return None,
    };
    let question = Question {
        asked,
        subject,
        step,
        expected,
    };
    answer_with(alloc, table, texts, &question)
}

/// The same of a question whose parts have ` | ` between them.
fn answer(
    alloc: Global,
    asked: Asked,
    table: &Table,
    question: &str,
    expected: &str,
) -> Option<String> {
    let parts: Vec<&str> = question.split(" | ").collect(alloc).ok()?;
    answer_to(alloc, asked, table, parts.as_slice(), expected)
}

/// Whether the case is answered as its line says; prints it with what came out where not.
fn is_kept(rt: &HostRuntime, asked: Asked, table: &Table, line: &str) -> bool {
    let got = match line.rsplit_once(" | ") {
        Some((question, expected)) => {
            let got = answer(rt.alloc(), asked, table, question, expected);
            if matches!(&got, Some(text) if text.as_str() == expected) {
                return true;
            }
            got
        }
        None => None,
    };
    let _told = println!(rt; "differs: {line}\n  got {got:?}");
    false
}

/// How many cases the table has, and how many of them are answered otherwise than their lines say.
fn count_cases(rt: &HostRuntime, asked: Asked, table: &Table) -> (usize, usize) {
    let (mut cases, mut differing): (usize, usize) = (0, 0);
    for line in table.cases.lines() {
        if !line.is_empty() && !line.starts_with('#') {
            cases = cases.saturating_add(1);
            if !is_kept(rt, asked, table, line) {
                differing = differing.saturating_add(1);
            }
        }
    }
    (cases, differing)
}

/// Whether these tables have so many cases, and each of them some, and all are answered as their lines say.
pub fn are_kept(rt: &HostRuntime, asked: Asked, tables: &[Table], count: usize) -> bool {
    let (mut all, mut is_good): (usize, bool) = (0, true);
    for table in tables {
        let (cases, differing) = count_cases(rt, asked, table);
        all = all.saturating_add(cases);
        is_good = is_good && cases > 0 && differing == 0;
    }
    is_good && all == count
}

#[test]
fn all_tables(rt: HostRuntime) {
    let subjects: [(Asked, &[Table], usize); 9] = [
        (Asked::Own, &own::TABLES, 98),
        (Asked::Guarded, &guards::TABLES, 33),
        (Asked::Near, &deletes::TABLES, 32),
        (Asked::Spoiler, &spoilers::TABLES, 62),
        (Asked::Implies, &implied::TABLES, 19),
        (Asked::Together, &meeting::TABLES, 13),
        (Asked::List, &lists::TABLES, 14),
        (Asked::Certificate, &certificates::TABLES, 37),
        (Asked::Step, &steps::TABLES, 162),
    ];
    for (asked, tables, count) in subjects {
        assert!(rt;
            are_kept(&rt, asked, tables, count),
            "a table of {count} cases"
        );
    }
}
