// The command `follow`: the traces in files are answered by runs of the application in another one, and printed, as texts or as a report;
// the run that was found for a trace and the page of its answer are written to the files that are named. It needs neither a verdict nor
// a certificate.
#![tactic(auto)]

mod answered;
mod answers;
mod follow;
mod outputs;
mod page;
mod printed;

pub use follow::follow_traces;
