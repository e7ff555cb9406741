use meta_state::Found;

/// What a client read in its node's applied state.
#[derive(Debug, Drop)]
pub struct Read {
    pub client: u32,
    pub step: u32,

    /// The version of the state that it looked into.
    pub version: u64,
    pub found: Found,
}
