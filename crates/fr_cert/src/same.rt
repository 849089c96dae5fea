// Whether two values of a text are the same. Only what notes have is compared: whole numbers, texts, lists and objects.
ghost use Rattle.std.specs.Prelude.{◌≡◌, ◌↔◌, IsTrue, Some, string_bytes};
ghost use Rattle.serde_json.specs.Data.{number as number_value, unsigned, negative};
ghost use Rattle.serde_json.specs.Find.{as_str};
ghost use Rattle.serde_json.specs.View.{view, items_view, members_view, number_view};

use serde_json::{Map, Number, Value};

/// Whether the value is this number.
fn is_unsigned(value: &Value, whole: u64) -> bool
    ensures { IsTrue result → view value.now ≡ number_value (unsigned whole) }
{
    match value.as_u64() {
        Some(other) => other == whole,
        None => false,
    }
}

/// Whether the value is this number, and is no number that isn't negative.
fn is_negative(value: &Value, whole: i64) -> bool
    ensures { IsTrue result → view value.now ≡ number_value (negative whole) }
{
    if value.is_u64() {
        return false;
    }
    match value.as_i64() {
        Some(other) => other == whole,
        None => false,
    }
}

/// Whether the value is the same whole number.
fn is_number(value: &Value, number: &Number) -> bool
    ensures { IsTrue result → view value.now ≡ number_value (number_view number.now) }
{
    match number.as_u64() {
        Some(whole) => is_unsigned(value, whole),
        None => match number.as_i64() {
            Some(whole) => is_negative(value, whole),
            None => false,
        },
    }
}

/// Whether the value is this text.
fn is_text(value: &Value, text: &str) -> bool
    ensures { IsTrue result ↔ (as_str (view value.now) ≡ Some text.now) }
{
    match value.as_str() {
        Some(other) => other == text,
        None => false,
    }
}

/// Whether both names are the same.
fn is_same_name(name: &String, other: &String) -> bool
    ensures { IsTrue result ↔ (string_bytes name.now ≡ string_bytes other.now) }
{
    name.as_str() == other.as_str()
}

/// Whether both are the same value. Where it says no, they can be the same in what no note has.
#[cycle(same)]
pub(crate) fn is_same(value: &Value, other: &Value) -> bool
    ensures { IsTrue result → view value.now ≡ view other.now }
{
    match value {
        Value::Null | Value::Bool(_) => false,
        Value::Number(number) => is_number(other, number),
        Value::String(text) => is_text(other, text.as_str()),
        Value::Array(items) => match other.as_array() {
            Some(others) => are_same_items(items, others),
            None => false,
        },
        Value::Object(members) => match other.as_object() {
            Some(others) => are_same_members(members, others),
            None => false,
        },
    }
}

/// Whether both lists have the same values, as far as `is_same` says so.
#[cycle(same)]
fn are_same_items(items: &Vec<Value>, others: &Vec<Value>) -> bool
    ensures { IsTrue result → items_view items.now.items ≡ items_view others.now.items }
{
    if items.len() != others.len() {
        return false;
    }
    for (index, item) in items.iter().enumerate() {
        if !is_same(item, &others[index]) {
            return false;
        }
    }
    true
}

/// Whether both objects have the same members, as far as `is_same` says so.
#[cycle(same)]
fn are_same_members(members: &Map<String, Value>, others: &Map<String, Value>) -> bool
    ensures { IsTrue result →
        members_view members.now.entries ≡ members_view others.now.entries }
{
    let mut rest = others.iter();
    for (name, member) in members.iter() {
        match rest.next() {
            Some((other_name, other)) => {
                if !is_same_name(name, other_name) || !is_same(member, other) {
                    return false;
                }
            }
            None => return false,
        }
    }
    rest.next().is_none()
}
