// Writing notes.
ghost use Rattle.std.specs.Prelude.{◌≡◌, ◌∷◌, [], All, IfOk, OnOk, map, length, codes};
ghost use Rattle.serde_json.specs.Data.{number, string, object, array, no_members};
ghost use Rattle.serde_json.specs.Find.{of_integer};
ghost use Rattle.serde_json.specs.View.{view, items_view, members_view};
ghost use Rattle.fr_program.specs.Limits.{IsNumber};
ghost use Rattle.fr_program.specs.View.{variable_of, object_of};
ghost use Rattle.fr_notes.specs.View.{ends_of};
ghost use Rattle.fr_notes.specs.Fits.{AlternativeFits, NoteFits, NotesFit};
ghost use Rattle.fr_cert.specs.Written.{range_tree, is_declared, with_named, with_count, with_each, names_where, is_default, with_field, alternative_tree, note_tree, each_tree};
ghost use Rattle.fr_cert.specs.Views.{HasNumbers, says};

use crate::key::Key;
use fr_notes::{Alternative, Claim, Note, Notes};
use fr_program::{App, Object, Range, Variable};
use serde_json::{Map, Value, put};
use std::alloc::{AllocError, Global};

/// What a note says of the objects that it lists by their names alone.
#[derive(Clone, Copy)]
pub(crate) enum Life {
    Live,
    Dead,
}

/// An end of a range as a value.
fn end_value(end: i128) -> Value
    requires { IsNumber end }
    ensures { view result ≡ number (of_integer end) }
{
    Value::from(end as i64)
}

/// A range as a list of its two ends.
fn range_value(alloc: Global, range: Range) -> Result<Value, AllocError>
    requires { HasNumbers range }
    ensures { IfOk result (λ v. view v ≡ range_tree (ends_of range)) }
{
    let mut ends = Vec::new(alloc);
    ends.push(end_value(range.lo))?;
    ends.push(end_value(range.hi))?;
    Ok(Value::Array(ends))
}

/// Whether this is the range that the variable is declared with.
fn is_declared(variable: &Variable, range: Range) -> bool
    ensures { result ≡ is_declared (variable_of variable.now) (ends_of range) }
{
    i128::from(variable.lo) == range.lo && i128::from(variable.hi) == range.hi
}

/// Adds the range under the variable's name, if it is narrower than the declared one.
fn add_range(
    alloc: Global,
    named: &mut Map<String, Value>,
    variable: &Variable,
    range: Range,
) -> Result<(), AllocError>
    requires { HasNumbers range }
    ensures { OnOk result (members_view named.new.entries
        ≡ with_named (variable_of variable.now) (ends_of range) (members_view named.old.entries)) }
{
    if is_declared(variable, range) {
        return Ok(());
    }
    put(
        named,
        alloc,
        variable.name.as_str(),
        range_value(alloc, range)?,
    )
}

/// The ranges that are narrower than the declared ones, by name.
fn ranges_value(
    alloc: Global,
    variables: &[Variable],
    ranges: &[Range],
) -> Result<Map<String, Value>, AllocError>
    requires same { length ranges.now ≡ length variables.now }
    requires numbers { All HasNumbers ranges.now }
    ensures { IfOk result (λ m. members_view m.entries
        ≡ with_each with_named (map variable_of variables.now) (map ends_of ranges.now) no_members) }
{
    let mut named = Map::new(alloc);
    for (index, range) in ranges.iter().enumerate() {
        add_range(alloc, &mut named, &variables[index], *range)?;
    }
    Ok(named)
}

/// Adds the count under the object's name, if it is held.
fn add_count(
    alloc: Global,
    named: &mut Map<String, Value>,
    object: &Object,
    claim: Claim,
) -> Result<(), AllocError>
    ensures { OnOk result (members_view named.new.entries
        ≡ with_count (object_of object.now) claim (members_view named.old.entries)) }
{
    match claim {
        Claim::HeldTimes(count) => put(named, alloc, object.name.as_str(), Value::from(count)),
        Claim::NotHeld | Claim::Alive | Claim::Gone => Ok(()),
    }
}

/// How often objects are held, by name.
fn counts_value(
    alloc: Global,
    objects: &[Object],
    claims: &[Claim],
) -> Result<Map<String, Value>, AllocError>
    requires { length claims.now ≡ length objects.now }
    ensures { IfOk result (λ m. members_view m.entries
        ≡ with_each with_count (map object_of objects.now) claims.now no_members) }
{
    let mut named = Map::new(alloc);
    for (index, claim) in claims.iter().enumerate() {
        add_count(alloc, &mut named, &objects[index], *claim)?;
    }
    Ok(named)
}

/// Whether the claim says so of its object, and not that it is held.
fn says(life: Life, claim: Claim) -> bool
    ensures { result ≡ says life claim }
{
    match life {
        Life::Live => matches!(claim, Claim::Alive),
        Life::Dead => matches!(claim, Claim::Gone),
    }
}

/// The names of the objects of which the claims say so, in the order of their numbers.
fn names_value(
    alloc: Global,
    life: Life,
    objects: &[Object],
    claims: &[Claim],
) -> Result<Vec<Value>, AllocError>
    requires { length claims.now ≡ length objects.now }
    ensures { IfOk result (λ v. items_view v.items
        ≡ names_where (says life) (map object_of objects.now) claims.now) }
{
    let mut names = Vec::new(alloc);
    for (index, claim) in claims.iter().enumerate() {
        if says(life, *claim) {
            let name = Value::try_from_str(alloc, objects[index].name.as_str())?;
            names.push(name)?;
        }
    }
    Ok(names)
}

/// Whether the value is what a missing key stands for.
fn is_default(value: &Value) -> bool
    ensures { result ≡ is_default (view value.now) }
{
    match value {
        Value::Number(number) => number.as_u64() == Some(0),
        Value::Array(list) => list.is_empty(),
        Value::Object(object) => object.is_empty(),
        _ => false,
    }
}

/// Adds the key, unless it holds the default.
fn add_field(
    alloc: Global,
    note: &mut Map<String, Value>,
    key: Key,
    value: Value,
) -> Result<(), AllocError>
    ensures { OnOk result (members_view note.new.entries
        ≡ with_field key (view value) (members_view note.old.entries)) }
{
    if is_default(&value) {
        return Ok(());
    }
    put(note, alloc, key.text(), value)
}

/// The ranges of an alternative that are narrower than the declared ones, by name.
fn ranges_of(
    alloc: Global,
    app: &App,
    alternative: &Alternative,
) -> Result<Map<String, Value>, AllocError>
    requires { AlternativeFits app.now alternative.now }
    ensures { IfOk result (λ m. members_view m.entries
        ≡ with_each with_named app.now.variables alternative.now.ranges no_members) }
{
    app.recall_faultless();
    ranges_value(alloc, app.variables(), alternative.ranges())
}

/// How often the objects of an alternative are held, by name.
fn counts_of(
    alloc: Global,
    app: &App,
    alternative: &Alternative,
) -> Result<Map<String, Value>, AllocError>
    requires { AlternativeFits app.now alternative.now }
    ensures { IfOk result (λ m. members_view m.entries
        ≡ with_each with_count app.now.objects alternative.now.claims no_members) }
{
    counts_value(alloc, app.objects(), alternative.claims())
}

/// The names of the objects of which an alternative says so.
fn names_of(
    alloc: Global,
    app: &App,
    alternative: &Alternative,
    life: Life,
) -> Result<Vec<Value>, AllocError>
    requires { AlternativeFits app.now alternative.now }
    ensures { IfOk result (λ v. items_view v.items
        ≡ names_where (says life) app.now.objects alternative.now.claims) }
{
    names_value(alloc, life, app.objects(), alternative.claims())
}

/// The object of one alternative.
fn alternative_value(
    alloc: Global,
    app: &App,
    alternative: &Alternative,
) -> Result<Value, AllocError>
    requires { AlternativeFits app.now alternative.now }
    ensures { IfOk result (λ v. view v ≡ alternative_tree app.now alternative.now) }
{
    let range = ranges_of(alloc, app, alternative)?;
    let live = names_of(alloc, app, alternative, Life::Live)?;
    let held = counts_of(alloc, app, alternative)?;
    let dead = names_of(alloc, app, alternative, Life::Dead)?;
    let mut note = Map::new(alloc);
    add_field(
        alloc,
        &mut note,
        Key::Susp,
        Value::from(alternative.suspended()),
    )?;
    add_field(alloc, &mut note, Key::Range, Value::Object(range))?;
    add_field(alloc, &mut note, Key::Live, Value::Array(live))?;
    add_field(alloc, &mut note, Key::Held, Value::Object(held))?;
    add_field(alloc, &mut note, Key::Dead, Value::Array(dead))?;
    add_field(
        alloc,
        &mut note,
        Key::Crit,
        Value::from(alternative.critical()),
    )?;
    Ok(Value::Object(note))
}

/// The alternatives as values, in their order.
fn alternatives_value(
    alloc: Global,
    app: &App,
    alternatives: &[Alternative],
) -> Result<Vec<Value>, AllocError>
    requires { All (AlternativeFits app.now) alternatives.now }
    ensures { IfOk result (λ v. items_view v.items ≡ each_tree (alternative_tree app.now) alternatives.now) }
{
    let mut list = Vec::new(alloc);
    for alternative in alternatives {
        list.push(alternative_value(alloc, app, alternative)?)?;
    }
    Ok(list)
}

/// A note as a value.
fn note_value(alloc: Global, app: &App, note: &Note) -> Result<Value, AllocError>
    requires { NoteFits app.now note.now }
    ensures { IfOk result (λ v. view v ≡ note_tree app.now note.now) }
{
    let alternatives = note.alternatives();
    let count = alternatives.len();
    if count == 0 {
        return Value::try_from_str(alloc, "never");
    }
    if count == 1 {
        return alternative_value(alloc, app, &alternatives[0]);
    }
    Ok(Value::Array(alternatives_value(alloc, app, alternatives)?))
}

/// The notes as values, by the points' numbers.
pub(crate) fn notes_value(alloc: Global, app: &App, notes: &Notes) -> Result<Vec<Value>, AllocError>
    requires { NotesFit app.now notes.now }
    ensures { IfOk result (λ v. items_view v.items ≡ each_tree (note_tree app.now) notes.now) }
{
    let mut list = Vec::new(alloc);
    for number in 0..notes.len() {
        list.push(note_value(alloc, app, notes.note(number))?)?;
    }
    Ok(list)
}
