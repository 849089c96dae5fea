// Traces without block times.
ghost use Rattle.std.specs.Prelude.{◌≡◌, IfOk, map};
ghost use Rattle.fr_trail.specs.Answered.{IsAsked, untimed};

use fr_events::{Event, Happening, Recorded, SeenCall, Trace};
use std::alloc::{AllocError, Global};

/// The event without its block time and its ticks.
fn untimed(event: &Event) -> Event
    ensures { result ≡ untimed event.now }
{
    match event.what {
        Happening::Enter(seen) => Event {
            what: Happening::Enter(SeenCall {
                time: Recorded::Unknown,
                ticks: Recorded::Unknown,
                ..seen
            }),
            ..*event
        },
        _ => *event,
    }
}

/// The events without their block times and ticks.
fn untimed_events(alloc: Global, events: &[Event]) -> Result<Vec<Event>, AllocError>
    ensures { IfOk result (λ found. found.items ≡ map untimed events.now) }
{
    let mut found = Vec::new(alloc);
    for event in events {
        found.push(untimed(event))?;
    }
    Ok(found)
}

/// The trace as it is followed: where any times will do, all block times and ticks are unknown. Its error is that an allocation was refused.
pub fn as_asked(alloc: Global, trace: Trace, any_times: bool) -> Result<Trace, AllocError>
    ensures { IfOk result (IsAsked any_times trace) }
{
    if !any_times {
        return Ok(trace);
    }
    Ok(Trace {
        events: untimed_events(alloc, &trace.events)?,
        unseen: trace.unseen,
        lost: trace.lost,
        ignored: trace.ignored,
    })
}
