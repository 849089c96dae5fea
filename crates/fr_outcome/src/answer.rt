// What a command found out about an application.
ghost use Rattle.std.specs.Prelude.{◌≡◌, IfOk, IsTrue, None, string_bytes};
ghost use Rattle.std.specs.Option.{is_some};
ghost use Rattle.fr_wording.specs.Lines.{lines_text};
ghost use Rattle.fr_report.specs.Report.{verdict_text};
ghost use Rattle.fr_outcome.specs.Answers.{
  AreJudgedLines,
  AreLinesOf,
  AreShownLinesOf,
  IsTextOf,
  IsYes,
  first_line,
  judged_line,
  kind_of,
  kind_of_fault,
  kind_of_finding,
  kind_of_judged,
  kind_of_waits,
  place_text,
  refused_line,
  second_text,
  shown_line,
  waits_text,
  what_status,
};

use crate::boxed::Boxed;
use crate::exit::REFUSED;
use crate::fault::{CheckFault, fault_line, status};
use crate::judged::Judged;
use fr_escape::Location;
use fr_formats::{AnswerKind, Command, WarningShown};
use fr_found::Finding;
use fr_judge::Verdict;
use fr_order::Order;
use fr_program::App;
use fr_report::{finding_line, order_line, run_lines, verdict_line};
use fr_wording::{Sources, text_of};
use std::alloc::{AllocError, Global};

/// Why there is no verdict, and where: a text that is refused, or the machine that failed.
#[derive(Drop)]
pub struct Refusal {
    pub fault: CheckFault,
    /// Where it is, where that is asked for.
    pub place: Option<Location>,
}

/// A fault alone.
impl From<CheckFault> for Refusal {
    ghost from_gives = { λ fault refusal. refusal.fault ≡ fault };

    fn from(fault: CheckFault) -> Refusal {
        Refusal { fault, place: None }
    }
}

impl From<AllocError> for Refusal {
    ghost use Rattle.fr_outcome.specs.declared.fault.CheckFault.TheVariants.{Memory};

    ghost from_gives = { λ _ refusal. refusal.fault ≡ Memory };

    fn from(_refused: AllocError) -> Refusal {
        Refusal::from(CheckFault::Memory)
    }
}

/// What a search for a breach, or for a deadlock too, found in an application.
#[derive(Drop)]
pub struct Searched {
    pub app: App,
    pub found: Finding,
    /// The places of its lines in the source, where the steps of a run are to be explained.
    pub explains: Option<Sources>,
}

/// What was found out.
#[derive(Drop)]
pub enum What {
    /// The verdict by a certificate.
    Judged(Boxed<Judged>),
    /// What a search found.
    Searched(Boxed<Searched>),
    /// There is no verdict.
    Refused(Boxed<Refusal>),
}

/// What a command found out about one application. All that is printed of it, in whatever form, is made from this value.
#[derive(Drop)]
pub struct Answer {
    pub command: Command,
    /// The application's file, as it was named.
    pub application: String,
    /// The certificate's file, where one was named.
    pub certificate: Option<String>,
    /// The application's text, from which the places of its lines are taken.
    pub text: Vec<u8>,
    pub what: What,
    /// What the answer may hide.
    pub warnings: Vec<WarningShown>,
    /// What `prove` tried besides, a line each.
    pub notes: Vec<String>,
}

/// The kind of a yes.
fn kind_of_waits(waits: &Option<Order>) -> AnswerKind
    ensures { result ≡ kind_of_waits waits.now }
{
    match waits {
        None => AnswerKind::Yes,
        Some(Order::Upwards(_)) => AnswerKind::Yes,
        Some(Order::Cycle(_)) => AnswerKind::MayDeadlock,
    }
}

/// The kind of a verdict, with what is said of deadlocks.
pub fn kind_of_judged(verdict: Verdict, waits: &Option<Order>) -> AnswerKind
    ensures { result ≡ kind_of_judged verdict waits.now }
{
    match verdict {
        Verdict::Yes => kind_of_waits(waits),
        Verdict::No { .. } => AnswerKind::No,
    }
}

/// The kind of what a search found.
fn kind_of_finding(found: &Finding) -> AnswerKind
    ensures { result ≡ kind_of_finding found.now }
{
    match found {
        Finding::Breach(_) => AnswerKind::Breach,
        Finding::Deadlock(_) => AnswerKind::Deadlock,
        Finding::Safe { .. } | Finding::Free { .. } => AnswerKind::NoBreach,
        Finding::Unknown { .. } => AnswerKind::StatesLeft,
    }
}

/// The kind of a fault.
fn kind_of_fault(fault: &CheckFault) -> AnswerKind
    ensures { result ≡ kind_of_fault fault.now }
{
    if status(fault) == REFUSED {
        AnswerKind::Refused
    } else {
        AnswerKind::Machine
    }
}

/// The line that says whether actors can deadlock; no line where that wasn't asked.
fn waits_lines(alloc: Global, app: &App, waits: &Option<Order>) -> Result<Vec<String>, AllocError>
    ensures { IfOk result (λ lines. lines_text lines.items ≡ waits_text app.now waits.now) }
{
    let mut lines = Vec::new(alloc);
    if let Some(order) = waits {
        lines.push(order_line(alloc, app, order)?)?;
    }
    Ok(lines)
}

/// What explains a verdict, a line each, or whether actors can deadlock.
fn judged_lines(alloc: Global, judged: &Judged) -> Result<Vec<String>, AllocError>
    ensures { IfOk result (λ lines. AreJudgedLines judged.now (lines_text lines.items)) }
{
    match judged.why() {
        Some(why) => why.lines(alloc, judged.app()),
        None => waits_lines(alloc, judged.app(), judged.waits()),
    }
}

/// The line of a yes, as a report shows it: it gives way to a deadlock that isn't excluded.
fn yes_line(alloc: Global, app: &App, waits: &Option<Order>) -> Result<String, AllocError>
    ensures { IfOk result (λ line. string_bytes line ≡ judged_line app.now Verdict.Yes waits.now) }
{
    match waits {
        None => String::from_str(alloc, "yes"),
        Some(order) => match order {
            Order::Upwards(_) => String::from_str(alloc, "yes"),
            Order::Cycle(_) => order_line(alloc, app, order),
        },
    }
}

/// The line of a verdict.
fn first_line_of(alloc: Global, judged: &Judged) -> Result<String, AllocError>
    ensures { IfOk result (λ line. string_bytes line ≡ verdict_text judged.now.app judged.now.verdict) }
{
    judged.recall_verdict();
    verdict_line(alloc, judged.app(), judged.verdict())
}

/// The line of a verdict, as a report shows it.
fn judged_line(alloc: Global, judged: &Judged) -> Result<String, AllocError>
    ensures { IfOk result (λ line. string_bytes line ≡ judged_line judged.now.app judged.now.verdict judged.now.waits) }
{
    judged.recall_verdict();
    match judged.verdict() {
        Verdict::Yes => yes_line(alloc, judged.app(), judged.waits()),
        Verdict::No { .. } => verdict_line(alloc, judged.app(), judged.verdict()),
    }
}

/// The same lines. Its error is that an allocation was refused.
pub fn copied_lines(alloc: Global, lines: &[String]) -> Result<Vec<String>, AllocError>
    ensures { IfOk result (λ copied. lines_text copied.items ≡ lines_text lines.now) }
{
    let mut copied = Vec::new(alloc);
    for line in lines {
        copied.push(line.clone()?)?;
    }
    Ok(copied)
}

/// The lines that say where a fault is; none where that isn't asked for.
fn place_lines(alloc: Global, refusal: &Refusal) -> Result<Vec<String>, AllocError>
    ensures { IfOk result (λ lines. lines_text lines.items ≡ place_text refusal.now.place) }
{
    match &refusal.place {
        Some(place) => copied_lines(alloc, place.lines()),
        None => Ok(Vec::new(alloc)),
    }
}

impl What {
    /// What kind of answer it is: yes exactly where the verdict is, and no deadlock is possible where that is asked.
    pub fn kind(&self) -> AnswerKind
        ensures { result ≡ kind_of self.now }
    {
        match self {
            What::Judged(judged) => {
                let judged = judged.get();
                kind_of_judged(judged.verdict(), judged.waits())
            },
            What::Searched(searched) => kind_of_finding(&searched.get().found),
            What::Refused(refusal) => kind_of_fault(&refusal.get().fault),
        }
    }

    /// The exit status: 0 where no breach is possible, 1 where that isn't shown, 2 where a text or an output is refused, and 3
    /// where the machine failed (this project's profile).
    pub fn status(&self) -> u8
        ensures { result ≡ what_status self.now }
    {
        self.kind().status()
    }

    /// The number of the line of a source or a trace at which it is refused, from 1; None where nothing is, or not at a line.
    pub fn refused_line(&self) -> Option<usize>
        ensures { result ≡ refused_line self.now }
    {
        match self {
            What::Refused(refusal) => match &refusal.get().fault {
                CheckFault::Source { line, .. } => *line,
                _ => None,
            },
            What::Judged(_) | What::Searched(_) => None,
        }
    }

    /// The first line of the answer's text, without its newline: the verdict, what was found, or the fault. Its error is that an
    /// allocation was refused.
    pub fn line(&self, alloc: Global) -> Result<String, AllocError>
        ensures { IfOk result (λ line. string_bytes line ≡ first_line self.now) }
    {
        match self {
            What::Judged(judged) => first_line_of(alloc, judged.get()),
            What::Searched(searched) => {
                let searched = searched.get();
                finding_line(alloc, &searched.app, &searched.found)
            }
            What::Refused(refusal) => fault_line(alloc, &refusal.get().fault),
        }
    }

    /// Whether it is the verdict yes.
    pub fn is_yes(&self) -> bool
        ensures yes { IsTrue result → IsYes self.now }
        ensures no { IsYes self.now → IsTrue result }
    {
        match self {
            What::Judged(judged) => matches!(judged.get().verdict(), Verdict::Yes),
            What::Searched(_) | What::Refused(_) => false,
        }
    }

    /// The line that reports show of the answer, without its newline: the first one, or in place of a yes that a deadlock isn't excluded.
    /// Its error is that an allocation was refused.
    pub fn shown_line(&self, alloc: Global) -> Result<String, AllocError>
        ensures { IfOk result (λ line. string_bytes line ≡ shown_line self.now) }
    {
        match self {
            What::Judged(judged) => judged_line(alloc, judged.get()),
            What::Searched(_) | What::Refused(_) => self.line(alloc),
        }
    }

    /// The lines that are always printed after the first one: whether actors can deadlock, where that was asked. Its error is that an
    /// allocation was refused.
    pub fn second_lines(&self, alloc: Global) -> Result<Vec<String>, AllocError>
        ensures { IfOk result (λ lines. lines_text lines.items ≡ second_text self.now) }
    {
        match self {
            What::Judged(judged) => {
                let judged = judged.get();
                waits_lines(alloc, judged.app(), judged.waits())
            }
            What::Searched(_) | What::Refused(_) => Ok(Vec::new(alloc)),
        }
    }

    /// The other lines: why a verdict is no or whether actors can deadlock, a run, or where the fault is. Its error is that an allocation
    /// was refused.
    pub fn lines(&self, alloc: Global) -> Result<Vec<String>, AllocError>
        ensures { IfOk result (λ lines. AreLinesOf self.now (lines_text lines.items)) }
    {
        match self {
            What::Judged(judged) => judged_lines(alloc, judged.get()),
            What::Searched(searched) => {
                let Searched {
                    app,
                    found,
                    explains,
                } = searched.get();
                run_lines(alloc, app, found, explains)
            }
            What::Refused(refusal) => place_lines(alloc, refusal.get()),
        }
    }

    /// The lines that follow the one that reports show: none where that one says that a deadlock isn't excluded. Its error is that an
    /// allocation was refused.
    pub fn shown_lines(&self, alloc: Global) -> Result<Vec<String>, AllocError>
        ensures { IfOk result (λ lines. AreShownLinesOf self.now (lines_text lines.items)) }
    {
        match self.kind() {
            AnswerKind::MayDeadlock => Ok(Vec::new(alloc)),
            _ => self.lines(alloc),
        }
    }

    /// The text for a person: all lines, each with its newline. Its error is that an allocation was refused.
    pub fn text(&self, alloc: Global) -> Result<String, AllocError>
        ensures { IfOk result (λ text. IsTextOf self.now (string_bytes text)) }
    {
        let (line, lines) = (self.line(alloc)?, self.lines(alloc)?);
        let more = text_of(alloc, &lines)?;
        format!(in alloc; "{line}\n{more}")
    }
}
