/// What a client passes before each of its steps, so that a harness can hold it there and choose who goes next.
pub trait Gate {
    /// Lets this client begin this step, or keeps it waiting. Both are numbered from 0.
    fn pass(&self, client: u32, step: u32);
}

/// A gate that holds nobody.
#[derive(Clone, Copy, Debug, PartialEq, Eq)]
pub struct OpenGate;

impl Gate for OpenGate {
    fn pass(&self, _client: u32, _step: u32) {}
}
