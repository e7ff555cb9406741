/// Which task it is: the client and the step that submitted it.
#[derive(Clone, Copy, Debug, PartialEq, Eq)]
pub struct TaskId {
    pub client: u32,
    pub step: u32,
}
