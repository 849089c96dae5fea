// Where whoever starts the workers of a board, or the threads of a run, may hold one of them.

/// Where a thread arrives before its next piece of work: a worker with the job that it is about to judge, an actor's thread of a run
/// with how often it has polled. A test may hold it there; that the thread comes back is the gate's own matter.
pub trait Gate: Sync {
    /// This thread is about to do this piece of work.
    fn arrive(&self, worker: usize, job: u64);
}

/// The gate that lets all pass.
pub struct Open;

impl Gate for Open {
    fn arrive(&self, _worker: usize, _job: u64) {}
}
