// Applications as files: `read_app` gives the application that the bytes of a TOML text mean, or a fault that is
// present in them. The text is read by the crate `toml`, its tables key by key here, its lines by `fr_instr`, and its
// parts are checked by `fr_program`. `specs/Meaning.antt` says what bytes mean, and `specs/Stands.antt` which fault is
// present in them; `one_meaning` and `no_meaning` are the laws of both. The crates above rely on `read_app`'s contract.
#![tactic(auto)]

mod actor;
mod app;
mod fault;
mod key;
mod names;
mod object;
mod parts;
mod recent;
mod table;
mod texts;
mod variable;

pub use app::{MOST_APPLICATION_BYTES, names_in, no_meaning, one_meaning, parts_in, read_app};
pub use fault::ReadFault;
pub use key::{Key, TableName};
