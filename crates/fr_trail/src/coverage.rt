// Which lines of code the runs that were found took, and how their calls went.
ghost use Rattle.fr_rules.specs.State.{IsWellFormed};

use crate::answer::{TraceAnswer, run_in};
use crate::replay::{Replayed, StepSeen, effect_at, replay};
use fr_calls::{Place, Way};
use fr_events::Recorded;
use fr_explained::can_end;
use fr_program::{Actor, ActorId, App, Call, Instr, Point, Side};
use fr_wording::{Sources, actor_place, standing_at, text_of};
use std::alloc::{AllocError, Global};

/// What the runs did at a line of code.
#[derive(Clone, Copy)]
struct LineTaken {
    is_reached: bool,
    /// Its call has worked, or moved some bytes.
    has_worked: bool,
    /// Its call has failed, or moved no byte.
    has_failed: bool,
}

/// What the runs that were found for traces did at each line of an application's code.
#[derive(Drop)]
pub struct Coverage {
    /// By the numbers of the points before the lines.
    lines: Vec<LineTaken>,
    pub sources: Sources,
}

/// The numbers of the lines that are marked here, from 0, as `3, 6 to 7`. The last one isn't marked.
fn spans(alloc: Global, marked: &[bool]) -> Result<String, AllocError> {
    let (mut text, mut first) = (String::new(alloc), None);
    for (number, is_marked) in marked.iter().enumerate() {
        match (*is_marked, first) {
            (true, None) => first = Some(number),
            (false, Some(from)) => {
                put_span(&mut text, from, number.saturating_sub(1))?;
                first = None;
            }
            _ => {}
        }
    }
    Ok(text)
}

/// Appends the numbers from one to another.
fn put_span(text: &mut String, from: usize, to: usize) -> Result<(), AllocError> {
    if !text.is_empty() {
        text.push_str(", ")?;
    }
    if from == to {
        write!(text, "{from}")
    } else {
        write!(text, "{from} to {to}")
    }
}

impl Coverage {
    /// Without a run. Its error is that an allocation was refused.
    pub fn new(alloc: Global, app: &App, sources: Sources) -> Result<Coverage, AllocError> {
        let none = LineTaken {
            is_reached: false,
            has_worked: false,
            has_failed: false,
        };
        Ok(Coverage {
            lines: vec![in alloc; none; app.points()]?,
            sources,
        })
    }

    /// Adds that the actor has begun the call of the line at which it is at the end of the run, unless that has had its effect.
    fn see_begun(&mut self, app: &App, replayed: &Replayed, actor: ActorId, begun: usize)
        requires { IsWellFormed app.now replayed.now.state }
    {
        let mut visits = replayed.visits.iter();
        if let Some(visit) = visits.rfind(|visit| visit.point.actor == actor)
            && visit.events > begun
            && let Some(instr) = app.instr(visit.point)
            && effect_at(visit.point, instr).is_some()
        {
            return;
        }
        if let Place::At { pc, .. } = actor_place(app, &replayed.state, actor)
            && let Some(number) = app.number(Point {
                actor,
                pc,
                side: Side::Before,
            })
            && let Some(line) = self.lines.get_mut(number)
        {
            line.is_reached = true;
        }
    }

    /// Adds a step.
    fn see(&mut self, app: &App, visit: StepSeen) {
        let point = Point {
            side: Side::Before,
            ..visit.point
        };
        if let Some(instr) = app.instr(point)
            && let Some(number) = app.number(point)
            && let Some(line) = self.lines.get_mut(number)
        {
            line.is_reached = true;
            if effect_at(visit.point, instr).is_some() {
                line.has_worked |= visit.choice > 0;
                line.has_failed |= visit.choice == 0;
            }
        }
    }

    /// Adds the run that was found for a trace of this application, if one was. Its error is that an allocation was refused.
    pub fn add(
        &mut self,
        alloc: Global,
        app: &App,
        answer: &TraceAnswer,
    ) -> Result<(), AllocError> {
        let Some(followed) = &answer.followed else {
            return Ok(());
        };
        let Some(run) = run_in(followed) else {
            return Ok(());
        };
        let replayed = replay(alloc, app, run)?;
        for visit in &replayed.visits {
            self.see(app, *visit);
        }
        self.add_begun(app, &replayed, &answer.begun);
        Ok(())
    }

    /// Adds the calls that actors have begun last, whose effect has not come.
    fn add_begun(&mut self, app: &App, replayed: &Replayed, begun: &[Option<usize>])
        requires { IsWellFormed app.now replayed.now.state }
    {
        for (number, event) in begun.iter().enumerate() {
            if let Some(event) = *event {
                self.see_begun(app, replayed, ActorId(number), event);
            }
        }
    }

    /// What the runs did at a line.
    fn at(&self, app: &App, point: Point) -> Option<LineTaken> {
        self.lines.get(app.number(point)?).copied()
    }

    /// The lines of an actor that no run has reached; an empty text where there is none.
    fn unseen_text(
        &self,
        alloc: Global,
        app: &App,
        actor: ActorId,
        count: usize,
    ) -> Result<String, AllocError> {
        let mut marked = Vec::new(alloc);
        for pc in 0..=count {
            let side = Side::Before;
            let line = self.at(app, Point { actor, pc, side });
            marked.push(line.is_some_and(|line| !line.is_reached))?;
        }
        spans(alloc, &marked)
    }

    /// What no run has shown of the call at this point; None where there is nothing to say.
    fn never(&self, app: &App, point: Point) -> Option<&'static str> {
        let line = self.at(app, point)?;
        let Some(Instr::Call(call)) = app.instr(point) else {
            return None;
        };
        let answers = matches!(call, Call::On(_) | Call::Create { .. });
        if !answers || !line.is_reached {
            None
        } else if !line.has_worked {
            Some("never worked")
        } else if !line.has_failed && can_end(app, call, Way::Else, Recorded::Unknown) {
            Some("never failed")
        } else {
            None
        }
    }

    /// Adds what the runs have not shown of an actor, a line each.
    fn add_lines(
        &self,
        alloc: Global,
        lines: &mut Vec<String>,
        app: &App,
        actor: ActorId,
        shown: &Actor,
    ) -> Result<(), AllocError> {
        let (name, count) = (&shown.name, shown.code.len());
        let unseen = self.unseen_text(alloc, app, actor, count)?;
        if !unseen.is_empty() {
            lines.push(format!(in alloc; "not seen: {name} {unseen}")?)?;
        }
        for pc in 0..count {
            let side = Side::Before;
            let point = Point { actor, pc, side };
            if let Some(never) = self.never(app, point) {
                let code = standing_at(alloc, app, &self.sources, point)?.code_text(alloc)?;
                lines.push(format!(in alloc; "{never}: {name} {pc}: {code}")?)?;
            }
        }
        Ok(())
    }

    /// The lines of code that no run has reached, and the calls that have never failed or never worked, actor by actor, a line each. Its error
    /// is that an allocation was refused. The lines' form is this project's own.
    pub fn text(&self, alloc: Global, app: &App) -> Result<String, AllocError> {
        let mut lines = Vec::new(alloc);
        for (number, actor) in app.actors().iter().enumerate() {
            self.add_lines(alloc, &mut lines, app, ActorId(number), actor)?;
        }
        text_of(alloc, &lines)
    }
}
