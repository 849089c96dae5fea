// Whether a text is a certificate, as far as it takes to replace it.
ghost use Rattle.std.specs.Prelude.{◌≡◌, IfOk};
ghost use Rattle.serde_json.specs.View.{view};
ghost use Rattle.fr_files.specs.Replaced.{has_form, has_members, holds_list, holds_number, is_certificate};

use serde_json::Value;
use std::alloc::{AllocError, Global};

/// How many keys a certificate has.
const KEYS: usize = 3;

/// Whether this is an object with a number at the key.
fn holds_number(tree: &Value, key: &str) -> bool
    ensures { result ≡ holds_number key.now (view tree.now) }
{
    match tree.get(key) {
        Some(value) => value.is_number(),
        None => false,
    }
}

/// Whether this is an object with a list at the key.
fn holds_list(tree: &Value, key: &str) -> bool
    ensures { result ≡ holds_list key.now (view tree.now) }
{
    match tree.get(key) {
        Some(value) => value.is_array(),
        None => false,
    }
}

/// Whether this is an object with as many members as a certificate has.
fn has_members(tree: &Value) -> bool
    ensures { result ≡ has_members (view tree.now) }
{
    match tree.as_object() {
        Some(members) => members.len() == KEYS,
        None => false,
    }
}

/// Whether this is a certificate by its form: an object with exactly the keys of one, and values of their kinds.
fn has_form(tree: &Value) -> bool
    ensures { result ≡ has_form (view tree.now) }
{
    has_members(tree)
        && holds_number(tree, "version")
        && holds_list(tree, "ends")
        && holds_list(tree, "notes")
}

/// Whether the bytes are a certificate by its form: an object in JSON with exactly the keys `version`, a number, and `ends` and
/// `notes`, lists. An error says that an allocation was refused.
pub fn is_certificate(alloc: Global, bytes: &[u8]) -> Result<bool, AllocError>
    ensures { IfOk result (λ is. is ≡ is_certificate bytes.now) }
{
    match Value::from_slice(alloc, bytes) {
        Ok(tree) => Ok(has_form(&tree)),
        Err(error) if error.is_memory() => Err(AllocError),
        Err(_) => Ok(false),
    }
}
