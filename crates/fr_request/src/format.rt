// The forms of a report that machines read.

/// The version of the program, which reports tell.
pub const VERSION: &str = "0.1.0";

/// A form that a machine reads.
#[derive(Clone, Copy)]
pub enum Format {
    /// JSON in this project's own form.
    Json,
    /// SARIF 2.1.0, which code hosts and editors read.
    Sarif,
    /// JUnit's XML, which build servers read.
    Junit,
}
