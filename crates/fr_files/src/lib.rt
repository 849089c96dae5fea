// The host's files: all that touches them, for whatever commands there are. `read` gives a file's bytes, `replace` gives a file
// other bytes, whole or not at all, `kind_of` says what is at a path, and `is_same_file` whether two paths lead to one file. Over
// these four `check_outputs` refuses, before anything is done, the files that a command would destroy by its outputs. A fault names
// the file and says why (`FileFault`). No clause can say what a disk holds, so that a file is replaced whole or not at all is tested
// (benches/outputs); proved are which file a fault names, how much is read, that equal names are one file, which bytes an output may
// replace (specs/Replaced.antt), and that outputs that are let through differ in name from the inputs and each other (specs/Apart.antt).
#![tactic(auto)]

mod bytes;
mod certificate;
mod fault;
mod kind;
mod links;
mod outputs;
mod reading;
mod replacing;
mod same;

pub use bytes::load;
pub use certificate::is_certificate;
pub use fault::FileFault;
pub use kind::{Kind, kind_of};
pub use outputs::{Holds, Output, OutputFault, check_outputs};
pub use reading::read;
pub use replacing::replace;
pub use same::is_same_file;
