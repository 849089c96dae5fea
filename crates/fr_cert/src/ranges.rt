// Reading the ranges that a note gives variables.
ghost use Rattle.std.specs.Prelude.{◌≡◌, Some, IfOk, IfErr, option_map};
ghost use Rattle.serde_json.specs.Find.{get_item};
ghost use Rattle.serde_json.specs.View.{view, items_view};
ghost use Rattle.fr_notes.specs.View.{ends_of};
ghost use Rattle.fr_cert.specs.Keys.{end_at};
ghost use Rattle.fr_cert.specs.Shapes.{AreEnds};
ghost use Rattle.fr_cert.specs.Faults.{Standing, InEnds};

use crate::fault::CertFault;
use crate::names::{Thing, named};
use crate::path::Path;
use crate::reader::{Member, Reader};
use crate::scope::Scope;
use crate::tree::{departs_in, integer_of, list_in};
use fr_program::{Range, VarId};
use serde_json::Value;
use std::alloc::Global;

/// What a list has at a position, if it is so long.
fn item_at(list: &Vec<Value>, index: usize) -> Option<&Value>
    ensures { option_map (λ v. view v.now) result ≡ get_item index (items_view list.now.items) }
{
    if index < list.len() {
        Some(&list[index])
    } else {
        None
    }
}

/// The integer at a position of a list, if there is one.
fn end_at(ends: &Vec<Value>, index: usize) -> Option<i128>
    ensures { result ≡ end_at index (items_view ends.now.items) }
{
    match item_at(ends, index) {
        Some(value) => integer_of(value),
        None => None,
    }
}

/// The range with the two ends.
fn span_of(alloc: Global, ends: &Vec<Value>) -> Result<Range, CertFault>
    ensures ok { IfOk result (λ range. AreEnds (items_view ends.now.items) (ends_of range)) }
    ensures err { IfErr result (Standing (InEnds (items_view ends.now.items))) }
{
    let Some(lo) = end_at(ends, 0) else {
        return Err(departs_in(alloc, 0));
    };
    let Some(hi) = end_at(ends, 1) else {
        return Err(departs_in(alloc, 1));
    };
    if let Some(_) = item_at(ends, 2) {
        return Err(departs_in(alloc, 2));
    }
    match Range::new(lo, hi) {
        Some(range) => Ok(range),
        None => Err(CertFault::Note(Path::whole(alloc))),
    }
}

/// A list of two integers.
struct Span;

impl Reader for Span {
    ghost use Rattle.std.specs.Prelude.{ℤ};
    ghost use Rattle.fr_cert.specs.Shapes.{IsSpan};
    ghost use Rattle.fr_cert.specs.Faults.{InSpan};

    type Item = Range;

    ghost Seen = { ℤ × ℤ };

    ghost seen = { ends_of };

    ghost Means = { λ _ _. IsSpan };

    ghost Faults = { λ _ _. InSpan };

    fn read(&self, scope: &Scope, value: &Value) -> Result<Range, CertFault> {
        span_of(scope.alloc, list_in(scope.alloc, value)?)
    }
}

/// The range of the variable with this name.
pub(crate) struct NamedRange;

impl Member for NamedRange {
    ghost use Rattle.std.specs.Prelude.{ℕ, ℤ};
    ghost use Rattle.fr_cert.specs.Keys.{names_in};
    ghost use Rattle.fr_cert.specs.Shapes.{IsNamed, IsSpan};
    ghost use Rattle.fr_cert.specs.Faults.{InNamed, InSpan};
    ghost use Rattle.fr_cert.specs.Views.{named_of};

    type Item = (VarId, Range);

    ghost Seen = { ℕ × (ℤ × ℤ) };

    ghost seen = { named_of };

    ghost Means = { λ _ P. IsNamed (names_in P).variables IsSpan };

    ghost Faults = { λ _ P. InNamed (names_in P).variables InSpan };

    fn read(&self, scope: &Scope, name: &str, value: &Value) -> Result<(VarId, Range), CertFault> {
        let (variable, range) = named(scope, Thing::Variable, name, value, &Span)?;
        Ok((VarId(variable), range))
    }
}
