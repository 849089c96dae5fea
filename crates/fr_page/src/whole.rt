// The whole page.
ghost use Rattle.std.specs.Prelude.{◌≡◌, ◌++◌, ℕ, List, IfOk, OnOk, string_bytes};
ghost use Rattle.fr_page.specs.Whole.{counts_of, details_of, head_of, heading_of, line_of, meaning_of, start};

use crate::code::put_code;
use crate::page::{Kind, Page};
use crate::run::put_run;
use crate::script::STEPS;
use crate::style::STYLE;
use crate::writer::{Piece, Writer};
use std::alloc::{AllocError, Global};

const HEAD: &str = "<!DOCTYPE html>
<html lang='en'>
<head>
<meta charset='utf-8'>
<meta http-equiv='Content-Security-Policy' content='default-src &#39;none&#39;; style-src &#39;unsafe-inline&#39;; script-src &#39;unsafe-inline&#39;'>
<meta name='viewport' content='width=device-width, initial-scale=1'>
<title>";

/// The answer's mark and word, in its colour.
fn heading(kind: Kind) -> &'static str
    ensures { result.now ≡ heading_of kind }
{
    match kind {
        Kind::Yes => "<h1 class='good'><span aria-hidden='true'>&#10003;</span> yes</h1>\n",
        Kind::No => "<h1 class='bad'><span aria-hidden='true'>&#10007;</span> no</h1>\n",
        Kind::MayDeadlock =>
            "<h1 class='odd'><span aria-hidden='true'>?</span> may deadlock</h1>\n",
        Kind::Breach => "<h1 class='bad'><span aria-hidden='true'>&#10007;</span> breach</h1>\n",
        Kind::Deadlock =>
            "<h1 class='bad'><span aria-hidden='true'>&#10007;</span> deadlock</h1>\n",
        Kind::Safe => "<h1 class='good'><span aria-hidden='true'>&#10003;</span> no breach</h1>\n",
        Kind::Unknown => "<h1 class='odd'><span aria-hidden='true'>?</span> no breach yet</h1>\n",
        Kind::Followed =>
            "<h1 class='good'><span aria-hidden='true'>&#10003;</span> followed</h1>\n",
        Kind::FollowedApart =>
            "<h1 class='good'><span aria-hidden='true'>&#10003;</span> followed, each actor by itself</h1>\n",
        Kind::NotFollowed =>
            "<h1 class='bad'><span aria-hidden='true'>&#10007;</span> not followed</h1>\n",
        Kind::NotListed =>
            "<h1 class='bad'><span aria-hidden='true'>&#10007;</span> not listed</h1>\n",
        Kind::GaveUp => "<h1 class='odd'><span aria-hidden='true'>?</span> gave up</h1>\n",
        Kind::Refused => "<h1 class='odd'><span aria-hidden='true'>!</span> refused</h1>\n",
    }
}

/// What the answer means.
#[tactic(auto, unfolding(crate::specs::Whole::meaning_of))]
fn meaning(kind: Kind) -> &'static str
    ensures { result.now ≡ meaning_of kind }
{
    match kind {
        Kind::Yes | Kind::Safe => {
            "<p>The application in the file breaks none of the twelve rules, in any state of any run.</p>\n"
        }
        Kind::No => {
            "<p>The certificate doesn't show that the application is safe: the application breaks a rule, or a note is false or says too little.</p>\n"
        }
        Kind::MayDeadlock => {
            "<p>The application in the file breaks none of the twelve rules. Its mutexes are taken in different orders, so that a run may come to a deadlock.</p>\n"
        }
        Kind::Breach => "<p>This run of the application breaks a rule.</p>\n",
        Kind::Deadlock => {
            "<p>After this run of the application these actors wait for one another's mutexes for ever.</p>\n"
        }
        Kind::Unknown => {
            "<p>No run that was looked at breaks a rule. More states are left, so nothing is known of the others.</p>\n"
        }
        Kind::Followed =>
            "<p>A run of the application, shown below, has all events of the trace.</p>\n",
        Kind::FollowedApart =>
            "<p>A run of the application has the events before the first that were lost, if there are any. After that no event was found that its actor's own code can't have.</p>\n",
        Kind::NotFollowed =>
            "<p>No run of the application was found that has the event in this line. A run that is shown below has the events before it, or those before the first that were lost.</p>\n",
        Kind::NotListed =>
            "<p>The trace has something that the application in the file doesn't list.</p>\n",
        Kind::GaveUp =>
            "<p>The search ended without an answer: there were more states than it may keep.</p>\n",
        Kind::Refused => "<p>A file can't be understood, so there is no verdict.</p>\n",
    }
}

/// Writes the begin of the page: the answer's line as its title, and the words of the command.
fn put_start(page: &mut Writer, shown: &Page) -> Result<(), AllocError>
    ensures { OnOk result (string_bytes page.new.out ≡ string_bytes page.old.out ++ start shown.now) }
{
    page.put(&[
        Piece::Markup(HEAD),
        Piece::Text(&shown.answer),
        Piece::Markup("</title>\n<style>\n"),
        Piece::Markup(STYLE),
        Piece::Markup("</style>\n</head>\n<body>\n<header>\n<p>fr_check <code>"),
        Piece::Text(&shown.command),
        Piece::Markup("</code></p>\n"),
        Piece::Markup(heading(shown.kind)),
    ])
}

/// Writes the answer's line, which a yes doesn't need.
fn put_line(page: &mut Writer, kind: Kind, answer: &str) -> Result<(), AllocError>
    ensures { OnOk result (string_bytes page.new.out ≡ string_bytes page.old.out ++ line_of kind answer.now) }
{
    match kind {
        Kind::Yes => Ok(()),
        Kind::No
        | Kind::MayDeadlock
        | Kind::Breach
        | Kind::Deadlock
        | Kind::Safe
        | Kind::Unknown
        | Kind::Followed
        | Kind::FollowedApart
        | Kind::NotFollowed
        | Kind::NotListed
        | Kind::GaveUp
        | Kind::Refused => { page.between("<p class='answer'><code>", answer, "</code></p>\n") }
    }
}

/// Writes lines of text as they are; nothing where there are none.
fn put_details(page: &mut Writer, lines: &[String]) -> Result<(), AllocError>
    ensures { OnOk result (string_bytes page.new.out ≡ string_bytes page.old.out ++ details_of lines.now) }
{
    if lines.is_empty() {
        return Ok(());
    }
    page.put(&[
        Piece::Markup("<pre>"),
        Piece::Each("", lines, "\n"),
        Piece::Markup("</pre>\n"),
    ])
}

/// Writes the end of the answer: numbers in words, and what the page leaves out.
#[tactic(auto, unfolding(crate::specs::Whole::counts_of))]
fn put_counts(page: &mut Writer, shown: &Page) -> Result<(), AllocError>
    ensures { OnOk result (string_bytes page.new.out ≡ string_bytes page.old.out ++ counts_of shown.now) }
{
    page.put(&[
        Piece::Markup("<ul>\n"),
        Piece::Each("<li>", &shown.counts, "</li>\n"),
        Piece::Markup("</ul>\n"),
        Piece::Each("<p class='omitted'>", &shown.omissions, "</p>\n"),
        Piece::Markup("</header>\n<main>\n"),
    ])
}

/// Writes the page's head: the answer.
#[tactic(auto, using(std::proofs::Common::append_assoc), unfolding(crate::specs::Whole::head_of))]
fn put_head(page: &mut Writer, shown: &Page) -> Result<(), AllocError>
    ensures { OnOk result (string_bytes page.new.out ≡ string_bytes page.old.out ++ head_of shown.now) }
{
    put_start(page, shown)?;
    put_line(page, shown.kind, &shown.answer)?;
    page.markup(meaning(shown.kind))?;
    put_details(page, &shown.details)?;
    put_counts(page, shown)
}

/// Writes what is below the answer: the run, if there is one, and the code.
fn put_rest(alloc: Global, page: &mut Writer, shown: &Page) -> Result<(), AllocError> {
    if !shown.steps.is_empty() {
        put_run(alloc, page, shown)?;
    }
    let has_notes = matches!(shown.kind, Kind::Yes | Kind::No | Kind::MayDeadlock);
    put_code(page, &shown.actors, has_notes)?;
    page.markup("</main>\n<script>\n")?;
    page.markup(STEPS)?;
    page.markup("</script>\n</body>\n</html>\n")
}

/// The page as one file in HTML without outside links. It shows the answer, the run where there is one, as lanes, and the actors
/// side by side with their code. It needs no script; with one it steps through the run. No text of `shown` can end
/// the place that it stands in, since each is escaped by `push_html`. To the letter it begins with the answer's line as
/// its title, the command, and the mark, the word and the meaning of the answer's kind. Its error is that an allocation was refused.
pub fn page_text(alloc: Global, shown: &Page) -> Result<String, AllocError>
    ensures { IfOk result (λ text. (rest : List ℕ) × (string_bytes text ≡ head_of shown.now ++ rest)) }
{
    let mut page = Writer::new(alloc);
    put_head(&mut page, shown)?;
    let mut rest = Writer::new(alloc);
    put_rest(alloc, &mut rest, shown)?;
    page.append(rest)?;
    Ok(page.finish())
}
