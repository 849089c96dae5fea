// Alternatives that are made of their parts, and copies of them.
ghost use Rattle.std.specs.Prelude.{◌≡◌, ◌≢◌, IfOk, IfErr, OnOk, IfSome, IfNone, map};

use crate::checks::check_note;
use crate::claim::Claim;
use crate::fault::NoteFault;
use crate::fits::alternative_fits;
use crate::note::{Alternative, NoteParts};
use crate::parts::{claims_said, ranges_said};
use fr_program::{App, Range};
use std::alloc::{AllocError, Global};

impl Alternative {
    ghost use Rattle.fr_notes.specs.declared.fault.NoteFault.{NoteFault as NoteFaultOf};
    ghost use Rattle.fr_notes.specs.Fits.{AlternativeFits};
    ghost use Rattle.fr_notes.specs.Parts.{said, HasFault};
    ghost use Rattle.fr_notes.specs.View.{ends_of};

    /// The one alternative of the plain note that the parts say, with the faults of `Note::build`.
    pub fn build(alloc: Global, app: &App, parts: NoteParts) -> Result<Alternative, NoteFault>
        ensures says { IfOk result (λ n. n ≡ said app.now parts) }
        ensures fits { IfOk result (λ n. AlternativeFits app.now n) }
        ensures free { OnOk result ((fault : NoteFaultOf) → HasFault app.now parts fault → ⊥) }
        ensures stands { IfErr result (λ f. f ≢ NoteFault.Memory → HasFault app.now parts f) }
        ensures memory { IfErr result
            (λ f. f ≡ NoteFault.Memory → (fault : NoteFaultOf) → HasFault app.now parts fault → ⊥) }
    {
        app.recall_faultless();
        check_note(app, &parts)?;
        let claims = claims_said(alloc, app, &parts)?;
        let ranges = ranges_said(alloc, app, &parts.range)?;
        Ok(Alternative {
            crit: parts.crit,
            susp: parts.susp,
            claims,
            ranges,
        })
    }

    /// The alternative with these depths in the critical section and of suspension, a claim for each
    /// object and a range for each variable, by their numbers. None exactly where it can't be built for
    /// the application. Takes no memory.
    pub fn fitting(
        app: &App,
        crit: u8,
        susp: u8,
        claims: Vec<Claim>,
        ranges: Vec<Range>,
    ) -> Option<Alternative>
        ensures fits { IfSome result (λ n. AlternativeFits app.now n) }
        ensures depths { IfSome result (λ n. (n.critical ≡ crit) × (n.suspended ≡ susp)) }
        ensures claims { IfSome result (λ n. n.claims ≡ claims.items) }
        ensures ranges { IfSome result (λ n. n.ranges ≡ map ends_of ranges.items) }
        ensures none { IfNone result (AlternativeFits app.now (record {
          critical = crit;
          suspended = susp;
          claims = claims.items;
          ranges = map ends_of ranges.items;
        }) → ⊥) }
    {
        let alternative = Alternative {
            crit,
            susp,
            claims,
            ranges,
        };
        if alternative_fits(app, &alternative) {
            Some(alternative)
        } else {
            None
        }
    }

    /// The same alternative once more. Its error is that an allocation was refused.
    pub fn copied(&self, alloc: Global) -> Result<Alternative, AllocError>
        ensures { IfOk result (λ copy. copy ≡ self.now) }
    {
        Ok(Alternative {
            crit: self.crit,
            susp: self.susp,
            claims: Vec::from_slice(alloc, &self.claims)?,
            ranges: Vec::from_slice(alloc, &self.ranges)?,
        })
    }
}
