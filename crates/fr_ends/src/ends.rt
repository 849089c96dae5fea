// The ends of stream and message buffers, and the guards that are listed for them.
ghost use Rattle.std.specs.Prelude.{◌≡◌, ◌↔◌, [], IsTrue, IfOk, IfErr, length, map};

use crate::fault::EndsFault;
use crate::fits::refusal;
use crate::guard::{EndGuard, Guard};
use fr_program::{App, End, ObjId};
use std::alloc::Global;
use std::marker::Model;

/// The writing or the reading end of a stream or message buffer.
#[derive(Clone, Copy, PartialEq, Eq)]
pub struct EndName {
    pub buffer: ObjId,
    pub end: End,
}

/// The guards that a certificate lists, in its order.
#[derive(Drop)]
pub struct Ends {
    listed: Vec<EndGuard>,
}

impl Model for Ends {
    ghost use Rattle.std.specs.Prelude.{List, map};
    ghost use Rattle.fr_ends.specs.Guard.{EndGuard as EndGuardOf};
    ghost use Rattle.fr_ends.specs.View.{end_of};

    ghost Value = { List EndGuardOf };

    ghost view = { λ e. map end_of e.listed.items };
}

impl Ends {
    ghost use Rattle.std.specs.Option.{option_map, option_copied};
    ghost use Rattle.fr_ends.specs.Certificate.{guard_for};
    ghost use Rattle.fr_ends.specs.Fits.{EndsFit};
    ghost use Rattle.fr_ends.specs.Refused.{IsPresent};
    ghost use Rattle.fr_ends.specs.View.{guard_of, end_of};

    /// No guard at all. Takes no memory.
    pub fn none(alloc: Global) -> Ends
        ensures { result ≡ [] }
    {
        Ends {
            listed: Vec::new(alloc),
        }
    }

    /// The guards of an application's ends: Ok exactly where neither fault is present. `Guard`: the
    /// buffer is neither a stream nor a message buffer, the mutex is none (a plain and a recursive one
    /// are), two actors of a turn have one value, or something is named that the application doesn't
    /// have. `EndTwice`: two guards are of one end. On a refusal the guards come back. Takes no memory.
    pub fn build(
        _alloc: Global,
        app: &App,
        ends: Vec<EndGuard>,
    ) -> Result<Ends, (EndsFault, Vec<EndGuard>)>
        ensures same { IfOk result (λ built. built ≡ map end_of ends.items) }
        ensures fits { IfOk result (EndsFit app.now) }
        ensures refused { IfErr result (λ e. IsPresent app.now (map end_of ends.items) e.0) }
        ensures returned { IfErr result (λ e. e.1 ≡ ends) }
    {
        match refusal(app, &ends) {
            Some(fault) => Err((fault, ends)),
            None => Ok(Ends { listed: ends }),
        }
    }

    /// The guards of an application's ends, which fit it. Takes no memory.
    pub fn of(_app: &App, ends: Vec<EndGuard>) -> Ends
        requires { EndsFit _app.now (map end_of ends.items) }
        ensures { result ≡ map end_of ends.items }
    {
        Ends { listed: ends }
    }

    /// How many ends have a guard.
    pub fn len(&self) -> usize
        ensures { result ≡ length self.now }
    {
        self.listed.len()
    }

    /// The guards, in the certificate's order.
    pub fn listed(&self) -> &[EndGuard]
        ensures { map end_of result.now ≡ self.now }
    {
        &self.listed
    }

    /// The guard that is listed for an end, or None. Takes no memory.
    pub fn guard(&self, end: EndName) -> Option<&Guard>
        ensures { option_map guard_of (option_copied result) ≡ guard_for self.now end.buffer.0 end.end }
    {
        for listed in &self.listed {
            if listed.end == end {
                return Some(&listed.guard);
            }
        }
        None
    }

    /// Whether each guard fits the application, and no end is listed twice. Takes no memory.
    pub fn fits(&self, app: &App) -> bool
        ensures { IsTrue result ↔ EndsFit app.now self.now }
    {
        refusal(app, &self.listed).is_none()
    }
}
