// Why a verdict is no: for each part that can fail, a state that shows it, and the steps from it. Whatever looks for
// such a state is trusted in nothing: what it finds is asked again, and the contract of `witness` says in the words of
// the definitions what it shows. `claim_broken` tells the first thing that a state has otherwise than a note says.
#![tactic(auto)]

mod claims;
mod evidence;
mod goes;
mod hunt;
mod laws;
mod scene;
mod showing;
mod taken;
mod variants;

pub use claims::{claim_broken, note_holds};
pub use evidence::Witness;
pub use laws::what_is_shown_is_not_kept;
pub use showing::{spot_of, witness};
pub use taken::Taken;
