// Looking for a run of the application that bytes mean into a breach, or into a deadlock too.
ghost use Rattle.std.specs.Prelude.{◌↔◌, IfOk, IfErr, IsErrOf};
ghost use Rattle.fr_parallel.specs.Crew.{IsNoCrew};
ghost use Rattle.fr_outcome.specs.Answers.{CanRefuseSearch, IsSearchOf};

use crate::judging::sources_for;
use crate::ways::Ways;
use fr_outcome::{Boxed, CheckFault, Searched, What};
use fr_parallel::is_crew;
use fr_progress::Meter;
use fr_reader::read_app;
use fr_refuter::{Search, refute};
use fr_states::ActorSet;
use std::alloc::Global;
use std::thread::Threads;

/// Looks for a run of the application into a breach of one of the twelve rules, and where that is asked into a deadlock, the shortest
/// where the states last for it, by this many workers. Ok is what was found, which is the same for every number of workers: a run, that
/// no state of any run breaches a rule or is deadlocked, or nothing. How far the search is, it notes in the meter, if there is one.
///
/// # Errors
///
/// `Workers` exactly where their number is not 1 to 64, before anything is read; `App` names a fault that is present in the
/// bytes; `Memory` says that an allocation was refused.
pub fn searched_text<R: Threads + Sync>(
    rt: &R,
    alloc: Global,
    app: &[u8],
    ways: Ways,
    meter: Option<&Meter>,
) -> Result<What, CheckFault>
    ensures found { IfOk result (IsSearchOf ways.deadlock app.now) }
    ensures workers { IsErrOf result CheckFault.Workers ↔ IsNoCrew ways.workers }
    ensures refused { IfErr result (CanRefuseSearch app.now ways.workers) }
{
    if !is_crew(ways.workers) {
        return Err(CheckFault::Workers);
    }
    let text = app;
    let explains = sources_for(alloc, text, ways.detail)?;
    let app = read_app(alloc, text)?;
    let search = Search {
        most_states: ways.states,
        most_bytes: ways.state_bytes,
        workers: ways.workers,
        suspects: ActorSet::NONE,
        aims: [None, None],
        seeks_deadlocks: ways.deadlock,
        wants_shortest: true,
        meter,
    };
    let found = refute(rt, alloc, &app, search)?;
    let searched = Searched {
        app,
        found,
        explains,
    };
    Ok(What::Searched(Boxed::new(alloc, searched)?))
}
