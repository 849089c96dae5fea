// What a trace says of one thing.

/// What a trace says of one thing: nothing, which is spelled `?`, or what it was.
#[derive(Clone, Copy)]
pub enum Recorded<T> {
    /// It wasn't recorded. Whatever it was, the trace allows it.
    Unknown,
    /// It was this.
    Known(T),
}
