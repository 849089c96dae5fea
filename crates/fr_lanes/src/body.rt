// What a page shows below the answer, and the page around it.
ghost use Rattle.std.specs.Prelude.{◌≡◌};
ghost use Rattle.fr_lanes.specs.Pages.{page_kind};

use fr_formats::AnswerKind;
use fr_page::{ActorShown, Kind, Page, RowShown, WaitShown};
use std::alloc::Global;

/// The heading of a page for an answer of this kind.
pub fn page_kind(kind: AnswerKind) -> Kind
    ensures { result ≡ page_kind kind }
{
    match kind {
        AnswerKind::Yes => Kind::Yes,
        AnswerKind::No => Kind::No,
        AnswerKind::MayDeadlock => Kind::MayDeadlock,
        AnswerKind::Breach => Kind::Breach,
        AnswerKind::Deadlock => Kind::Deadlock,
        AnswerKind::NoBreach => Kind::Safe,
        AnswerKind::StatesLeft => Kind::Unknown,
        AnswerKind::Followed => Kind::Followed,
        AnswerKind::FollowedApart => Kind::FollowedApart,
        AnswerKind::NotFollowed => Kind::NotFollowed,
        AnswerKind::NotListed => Kind::NotListed,
        AnswerKind::GaveUp => Kind::GaveUp,
        AnswerKind::Refused | AnswerKind::Machine => Kind::Refused,
    }
}

/// What a page shows below the answer.
#[derive(Drop)]
pub struct Body {
    /// Lines that say whether actors can deadlock, or where a text is refused.
    pub details: Vec<String>,
    /// Numbers in words.
    pub counts: Vec<String>,
    /// What is left out.
    pub omissions: Vec<String>,
    pub actors: Vec<ActorShown>,
    pub steps: Vec<RowShown>,
    /// Which actors wait for one another after the steps.
    pub waits: Vec<WaitShown>,
}

/// Nothing below the answer.
pub fn empty_body(alloc: Global) -> Body {
    Body {
        details: Vec::new(alloc),
        counts: Vec::new(alloc),
        omissions: Vec::new(alloc),
        actors: Vec::new(alloc),
        steps: Vec::new(alloc),
        waits: Vec::new(alloc),
    }
}

/// The page with this heading and the words of the command, with this line and this below it.
pub fn page_with(kind: Kind, command: String, line: String, body: Body) -> Page
    ensures kind { result.kind ≡ kind }
    ensures command { result.command ≡ command }
    ensures line { result.answer ≡ line }
{
    Page {
        kind,
        command,
        answer: line,
        details: body.details,
        counts: body.counts,
        omissions: body.omissions,
        actors: body.actors,
        steps: body.steps,
        waits: body.waits,
    }
}
