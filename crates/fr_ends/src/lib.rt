// Certificates: a note for each point, and guards for ends of buffers. Below it are notes (fr_notes), the rules and
// the step table (fr_rules) and applications (fr_program). The crates above build certificates from `Notes` and
// `Ends`, and rely on `CertificateFits`, which says that one could have been made for an application. fr_judge uses
// the contracts of `guarded`, whether a point's note implies the guards that it owes, and `near`, whether a delete is
// no danger to it.
#![tactic(auto)]

mod certificate;
mod ends;
mod fault;
mod fits;
mod guard;
mod guarding;
mod nearness;

pub use certificate::Certificate;
pub use ends::{EndName, Ends};
pub use fault::EndsFault;
pub use fits::is_listed;
pub use guard::{EndGuard, Guard};
pub use guarding::{guarded, is_inside_end, note_says, value_for};
pub use nearness::{near, used_inside};
