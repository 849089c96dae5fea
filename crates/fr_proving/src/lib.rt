// What `prove` finds out: a certificate is worked out for the application that bytes mean, it is judged, and where it doesn't settle the
// matter a search looks for a run into a breach or a deadlock (`proved_text`). The answer is a `What` of fr_outcome.
#![tactic(auto)]

mod certificate;
mod layout;
mod proving;

pub use proving::proved_text;
