/// What a worker passes before it runs a detailed task. It may wait, and promises nothing.
pub trait Gate {
    fn enter(&self, task: u32);
}

/// A gate that lets each task through at once.
#[derive(Clone, Copy, Debug, PartialEq, Eq)]
pub struct OpenGate;

impl Gate for OpenGate {
    fn enter(&self, _task: u32) {}
}
