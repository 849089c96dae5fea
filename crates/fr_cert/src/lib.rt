// Certificates as files: `read_cert` gives the certificate that the bytes of a JSON text (RFC 8259) mean, for an
// application, or a fault that is present in them. The text is read by the crate `serde_json`, its objects key by key
// here, and its notes and guards are built by `fr_notes` and `fr_ends`. `specs/Meaning.antt` says what bytes mean, and
// `specs/Present.antt` which fault is present in them; `one_meaning` and `no_meaning` are the laws of both. `write_cert`
// gives the bytes of `specs/Written.antt`, which mean the certificate again. The crates above rely on the contracts of
// `read_cert` and `write_cert`.
#![tactic(auto)]

mod end;
mod fault;
mod guard;
mod held;
mod key;
mod names;
mod note;
mod notes;
mod path;
mod ranges;
mod reader;
mod reading;
mod same;
mod scope;
mod tree;
mod writing;
mod written_ends;
mod written_notes;

pub use fault::CertFault;
pub use path::{Path, Step};
pub use reading::{MOST_CERTIFICATE_BYTES, no_meaning, one_meaning, read_cert};
pub use writing::write_cert;
