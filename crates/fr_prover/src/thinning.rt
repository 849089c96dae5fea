// A certificate that says less: without what the rest of an actor's code doesn't need.
ghost use Rattle.std.specs.Prelude.{IfOk, IfSome};
ghost use Rattle.fr_notes.specs.Fits.{AlternativeFits};
ghost use Rattle.fr_ends.specs.Fits.{CertificateFits};

use crate::lists::{add_once, is_marked};
use crate::measure::{certificate_of, fitting};
use crate::needs::Needs;
use crate::pool::Pool;
use fr_ends::Certificate;
use fr_notes::{Alternative, Claim, Notes};
use fr_program::{App, Range, VarId};
use std::alloc::{AllocError, Global};

/// The claim, without the life of an object that isn't needed.
fn thin_claim(claim: Claim, is_needed: bool) -> Claim {
    match claim {
        Claim::Alive | Claim::Gone if !is_needed => Claim::NotHeld,
        claim => claim,
    }
}

/// The claims, without the lives of objects that aren't needed.
fn thin_claims(alloc: Global, claims: &[Claim], needed: &[bool]) -> Result<Vec<Claim>, AllocError> {
    let mut thin = Vec::with_capacity(alloc, claims.len())?;
    for (object, claim) in claims.iter().enumerate() {
        thin.push(thin_claim(*claim, is_marked(needed, object)))?;
    }
    Ok(thin)
}

/// The ranges, those of variables that aren't needed as declared.
fn thin_ranges(
    alloc: Global,
    app: &App,
    facts: &Alternative,
    needed: &[bool],
) -> Result<Vec<Range>, AllocError> {
    let variables = app.variables().len();
    let mut thin = Vec::with_capacity(alloc, variables)?;
    for variable in 0..variables {
        let name = VarId(variable);
        let range = if is_marked(needed, variable) {
            facts.range(name)
        } else {
            app.range(name)
        };
        thin.push(range)?;
    }
    Ok(thin)
}

/// What an alternative of the point's note says of what is needed there.
fn thin_facts(
    alloc: Global,
    app: &App,
    facts: &Alternative,
    needs: &Needs,
    number: usize,
) -> Result<Option<Alternative>, AllocError>
    ensures { IfOk result (λ thin. IfSome thin (λ n. AlternativeFits app.now n)) }
{
    let claims = thin_claims(alloc, facts.claims(), needs.objects.row(number))?;
    let ranges = thin_ranges(alloc, app, facts, needs.variables.row(number))?;
    let (crit, susp) = (facts.critical(), facts.suspended());
    Ok(Alternative::fitting(app, crit, susp, claims, ranges))
}

/// The numbers of what the note of the point says of what is needed there, each once.
fn thin_note(
    alloc: Global,
    pool: &mut Pool,
    notes: &Notes,
    needs: &Needs,
    number: usize,
) -> Result<Vec<usize>, AllocError> {
    let mut list = Vec::new(alloc);
    let Some(note) = notes.get(number) else {
        return Ok(list);
    };
    for facts in note.alternatives() {
        let Some(thin) = thin_facts(alloc, pool.app(), facts, needs, number)? else {
            continue;
        };
        let facts = pool.number(thin)?;
        add_once(&mut list, facts)?;
    }
    Ok(list)
}

/// By point: the numbers of what its note says of what is needed there.
fn thin_lists(
    alloc: Global,
    pool: &mut Pool,
    notes: &Notes,
) -> Result<Vec<Vec<usize>>, AllocError> {
    let app = pool.app();
    let needs = Needs::of(alloc, app)?;
    let mut lists = Vec::with_capacity(alloc, app.points())?;
    for number in 0..app.points() {
        lists.push(thin_note(alloc, pool, notes, &needs, number)?)?;
    }
    Ok(lists)
}

/// The same certificate, but that a note says nothing of the numbers of variables and of the lives of
/// objects that the rest of its actor's code doesn't need; those of variables that some line tests, and
/// of objects that some line creates or deletes, stay, since they may keep actors out of each other's
/// way. Mostly it passes where the whole one does, and its text is shorter. Whether it passes is for the
/// judge to say.
///
/// # Errors
///
/// An allocation was refused.
pub fn thinned(
    alloc: Global,
    app: &App,
    certificate: &Certificate,
) -> Result<Certificate, AllocError>
    ensures fits { IfOk result (λ thin. CertificateFits app.now thin) }
{
    let mut pool = Pool::new(alloc, app);
    let lists = thin_lists(alloc, &mut pool, &certificate.notes)?;
    let thin = certificate_of(alloc, &pool, &lists)?;
    fitting(alloc, app, thin)
}
