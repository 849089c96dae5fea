// What words, numbers and arguments mean.
ghost use Rattle.std.specs.Prelude.{◌≡◌, ◌≢◌, IfOk, IfErr, MatchResult, length as list_length};
ghost use Rattle.fr_instr.specs.Views.{word_of, words};
ghost use Rattle.fr_instr.specs.Calls.{put};
ghost use Rattle.fr_instr.specs.Lines.{IsVariable, IsOperand, IsBlockTime, SaysLength, SaysTicks, SaysNull, Gives, AreGiven};
ghost use Rattle.fr_instr.specs.Faults.{InVariable, InPlace, InPlain, InArgs, InPlaces};

use crate::call::Slot;
use crate::fault::{LineFault, TokenFault, at};
use crate::given::{Given, NOTHING};
use crate::names::Names;
use crate::number;
use crate::shape::Value;
use fr_program::{BlockTime, Operand, VarId};

/// The variable with this name.
pub(crate) fn variable_of(names: &Names, word: &[u8]) -> Result<VarId, LineFault>
    ensures { MatchResult result (IsVariable names.now word.now) (InVariable names.now word.now) }
{
    match names.variable_named(word) {
        Some(x) => Ok(x),
        None => Err(LineFault::UnknownName),
    }
}

/// What the variable that this argument names gives.
fn variable_given(names: &Names, value: Value<'_>, given: Given) -> Result<Given, LineFault>
    ensures { MatchResult result (Gives names.now Slot.Variable (word_of value.entry) given) (InPlace names.now Slot.Variable (word_of value.entry)) }
{
    match value {
        Value::Name(word) => match names.variable_named(word) {
            Some(variable) => Ok(Given { variable, ..given }),
            None => Err(LineFault::UnknownName),
        },
        Value::Number(_) => Err(LineFault::Syntax),
    }
}

/// What the object that this argument names gives.
fn object_given(names: &Names, value: Value<'_>, given: Given) -> Result<Given, LineFault>
    ensures { MatchResult result (Gives names.now Slot.Object (word_of value.entry) given) (InPlace names.now Slot.Object (word_of value.entry)) }
{
    match value {
        Value::Name(word) => match names.object_named(word) {
            Some(object) => Ok(Given { object, ..given }),
            None => Err(LineFault::UnknownName),
        },
        Value::Number(_) => Err(LineFault::Syntax),
    }
}

/// The operand that this word or number is.
pub(crate) fn operand_at(names: &Names, value: Value<'_>) -> Result<Operand, LineFault>
    ensures { MatchResult result (IsOperand names.now (word_of value.entry)) (InPlace names.now Slot.Operand (word_of value.entry)) }
{
    match value {
        Value::Name(word) => match names.variable_named(word) {
            Some(x) => Ok(Operand::Variable(x)),
            None => Err(LineFault::UnknownName),
        },
        Value::Number(text) => match number::integer_of(text) {
            Some(n) => Ok(Operand::Number(n)),
            None => Err(LineFault::BadNumber),
        },
    }
}

/// What the operand that this argument is gives.
fn operand_given(names: &Names, value: Value<'_>, given: Given) -> Result<Given, LineFault>
    ensures { MatchResult result (Gives names.now Slot.Operand (word_of value.entry) given) (InPlace names.now Slot.Operand (word_of value.entry)) }
{
    match operand_at(names, value) {
        Ok(operand) => Ok(Given { operand, ..given }),
        Err(fault) => Err(fault),
    }
}

/// What the length that this argument is gives.
fn length_given(value: Value<'_>, given: Given) -> Result<Given, LineFault>
    ensures { MatchResult result (λ h. SaysLength (word_of value.entry) h.bytes × (h ≡ put Slot.Length h given)) (InPlain Slot.Length (word_of value.entry)) }
{
    match value {
        Value::Name(_) => Err(LineFault::Syntax),
        Value::Number(text) => match number::length_of(text) {
            Some(bytes) => Ok(Given { bytes, ..given }),
            None => Err(LineFault::BadNumber),
        },
    }
}

/// What the number of ticks that this argument is gives.
fn ticks_given(value: Value<'_>, given: Given) -> Result<Given, LineFault>
    ensures { MatchResult result (λ h. SaysTicks (word_of value.entry) h.ticks × (h ≡ put Slot.Ticks h given)) (InPlain Slot.Ticks (word_of value.entry)) }
{
    match value {
        Value::Name(_) => Err(LineFault::Syntax),
        Value::Number(text) => match number::ticks_of(text) {
            Some(ticks) => Ok(Given { ticks, ..given }),
            None => Err(LineFault::BadNumber),
        },
    }
}

/// The block time that this argument is: a number of ticks, or `portMAX_DELAY`.
fn block_time_at(value: Value<'_>) -> Result<BlockTime, LineFault>
    ensures { MatchResult result (IsBlockTime (word_of value.entry)) (InPlain Slot.Time (word_of value.entry)) }
{
    match value {
        Value::Name(word) => {
            if word == b"portMAX_DELAY".as_slice() {
                Ok(BlockTime::MaxDelay)
            } else {
                Err(LineFault::Syntax)
            }
        }
        Value::Number(text) => match number::ticks_of(text) {
            Some(n) => Ok(BlockTime::Ticks(n)),
            None => Err(LineFault::BadNumber),
        },
    }
}

/// What the block time that this argument is gives: a number of ticks, or `portMAX_DELAY`.
fn block_time_given(value: Value<'_>, given: Given) -> Result<Given, LineFault>
    ensures { MatchResult result (λ h. IsBlockTime (word_of value.entry) h.time × (h ≡ put Slot.Time h given)) (InPlain Slot.Time (word_of value.entry)) }
{
    match block_time_at(value) {
        Ok(time) => Ok(Given { time, ..given }),
        Err(fault) => Err(fault),
    }
}

/// What is given already, where this argument is `NULL`.
fn null_given(value: Value<'_>, given: Given) -> Result<Given, LineFault>
    ensures { MatchResult result (λ h. SaysNull (word_of value.entry) × (h ≡ given)) (InPlain Slot.Null (word_of value.entry)) }
{
    match value {
        Value::Name(word) if word == b"NULL".as_slice() => Ok(given),
        _ => Err(LineFault::Syntax),
    }
}

/// What this word or number gives in a place of this kind, beside what was given before.
pub(crate) fn given_at(
    names: &Names,
    place: Slot,
    value: Value<'_>,
    given: Given,
) -> Result<Given, LineFault>
    ensures { MatchResult result (Gives names.now place (word_of value.entry) given) (InPlace names.now place (word_of value.entry)) }
{
    match place {
        Slot::Object => object_given(names, value, given),
        Slot::Operand => operand_given(names, value, given),
        Slot::Variable => variable_given(names, value, given),
        Slot::Length => length_given(value, given),
        Slot::Time => block_time_given(value, given),
        Slot::Ticks => ticks_given(value, given),
        Slot::Null => null_given(value, given),
    }
}

/// How many tokens are left at the first of these arguments, where so many are behind their closing bracket.
fn left_at_args(values: &[Value<'_>], behind: usize) -> usize {
    values.len().saturating_mul(2).saturating_add(behind)
}

/// The same at the name of the call that has all of them.
pub(crate) fn left_at_name(values: &[Value<'_>], behind: usize) -> usize {
    let brackets = if values.is_empty() { 3 } else { 2 };
    left_at_args(values, behind).saturating_add(brackets)
}

/// What these words and numbers give in these places, as many, beside what was given before. So many tokens are behind
/// their closing bracket.
fn more_given(
    names: &Names,
    places: &[Slot],
    values: &[Value<'_>],
    behind: usize,
    given: Given,
) -> Result<Given, TokenFault>
    requires { list_length places.now ≡ list_length values.now }
    ensures { MatchResult result (AreGiven names.now places.now (words values.now) given) (λ f. InArgs names.now places.now (words values.now) f.fault) }
{
    let left = left_at_args(values, behind);
    let Some((place, places)) = places.split_first() else {
        return Ok(given);
    };
    let Some((value, values)) = values.split_first() else {
        return Ok(given);
    };
    let given = at(left, given_at(names, *place, *value, given))?;
    more_given(names, places, values, behind, given)
}

/// What the arguments of a call give in the places of its row. So many tokens are behind their closing bracket.
pub(crate) fn args_given(
    names: &Names,
    places: &[Slot],
    values: &[Value<'_>],
    behind: usize,
) -> Result<Given, TokenFault>
    ensures { MatchResult result (AreGiven names.now places.now (words values.now) NOTHING) (λ f. InPlaces names.now places.now (words values.now) f.fault) }
{
    if places.len() == values.len() {
        more_given(names, places, values, behind, NOTHING)
    } else {
        Err(LineFault::ArgCount.at(left_at_name(values, behind)))
    }
}
