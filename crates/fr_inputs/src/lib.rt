// What a command reads, and why it is refused: the trait `Files`, by which a command can be run over files in memory; the bytes of a file,
// and the application in one, or the one that the source in it means (`input`, `application`, `translation`); and refusals with the place
// that is at fault (`refusal_of_texts` and the others).
#![tactic(auto)]

mod files;
mod outputs;
mod reading;
mod refusals;
mod source;

pub use files::Files;
pub use outputs::output_at;
pub use reading::{application, input};
pub use refusals::{refusal_of_file, refusal_of_outputs, refusal_of_source, refusal_of_texts};
pub use source::translation;
