/// Where a worker may be held up before each block that it runs, so that a test can choose in which
/// order workers go on.
pub trait Gate: Sync {
    /// Returns, and promises nothing else.
    fn pass(&self, worker: u32, block: u32);
}

/// A gate that holds nobody up.
#[derive(Clone, Copy, Debug)]
pub struct OpenGate;

impl Gate for OpenGate {
    fn pass(&self, _worker: u32, _block: u32) {}
}
