// The keys of a certificate's objects.
use fr_reader::Key;
use serde_json::Value;
use std::alloc::{AllocError, Global};

/// A key that an object of a certificate may have, with what is said of a value behind it.
pub(crate) struct Row {
    /// The last key on the way to the object; the whole text has none.
    around: &'static str,
    key: &'static str,
    /// What has to be at the key.
    pub wanted: &'static str,
    /// What the names behind the key are of, as the key of their list in an application's text.
    pub named: Option<Key>,
    /// What else can be wrong behind the key.
    pub reason: &'static str,
}

/// The rows of the table, a row a line.
macro_rules! rows {
    ($($around:literal $key:literal $wanted:literal, $named:expr, $reason:literal;)*) => {
        [$(Row { around: $around, key: $key, wanted: $wanted, named: $named, reason: $reason }),*]
    };
}

static ROWS: [Row; 16] = rows! {
    "" "version" "1 or 2", None, "";
    "" "ends" "a list", None, "";
    "" "notes" "a list", None, "";
    "ends" "buffer" "an object's name", Some(Key::Object), "";
    "ends" "end" "writer or reader", None, "";
    "ends" "guard" "critical, or an object with sole, mutex or turn", None, "; wanted: a number of 64 bits with a sign";
    "guard" "sole" "an actor's name", Some(Key::Actor), "";
    "guard" "mutex" "an object's name", Some(Key::Object), "";
    "guard" "turn" "a variable's name", Some(Key::Variable), "";
    "guard" "values" "an object with a number at each name", Some(Key::Actor), "";
    "notes" "held" "an object with a number at each name", Some(Key::Object), "; wanted: 1 to 255";
    "notes" "crit" "a whole number", None, "; wanted: 0 to 255";
    "notes" "susp" "a whole number", None, "; wanted: 0 to 255";
    "notes" "live" "a list of names", Some(Key::Object), " is listed twice";
    "notes" "dead" "a list of names", Some(Key::Object), " is listed twice";
    "notes" "range" "an object with a list of two numbers at each name", Some(Key::Variable), ": the first number is above the second";
};

/// The row of a key.
pub(crate) fn row_of(key: &str) -> Option<&'static Row> {
    ROWS.iter().find(|row| row.key == key)
}

/// The row of a key of the objects with this last key on the way to them.
pub(crate) fn row_in(around: &str, key: &str) -> Option<&'static Row> {
    row_of(key).filter(|row| row.around == around)
}

/// The keys of the objects with this last key on the way to them; none of those that have no keys of their own.
pub(crate) fn keys_in(alloc: Global, around: &str) -> Result<Vec<&'static str>, AllocError> {
    let rows = ROWS.iter().filter(|row| row.around == around);
    rows.map(|row| row.key).collect(alloc)
}

/// Whether objects with this last key on the way to them have keys of their own.
pub(crate) fn has_keys(around: &str) -> bool {
    ROWS.iter().any(|row| row.around == around)
}

/// Whether the guard has a key of a sort of guard that is listed before that of the row: `sole` comes first, then `mutex`, and
/// last `turn` with `values`.
pub(crate) fn is_after_another(row: &Row, guard: &Value) -> bool {
    match row.key {
        "mutex" => guard.get("sole").is_some(),
        "turn" | "values" => guard.get("sole").or(guard.get("mutex")).is_some(),
        _ => false,
    }
}
