/// Which watch it is: the client and the step that began it.
#[derive(Clone, Copy, Debug, PartialEq, Eq, Hash)]
pub struct WatchId {
    pub client: u32,
    pub step: u32,
}
