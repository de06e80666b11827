// A command on its way from its host's submit to its host's take.

/// How far an outstanding command has come.
#[derive(Clone, Copy, Debug, PartialEq, Eq)]
pub enum Stage {
    /// It waits to be picked.
    Queued,
    /// It was picked, and its answer is not posted yet.
    Picked,
    /// Its answer is posted at a place of the device's trail.
    Posted(u32),
}

/// An outstanding command: its identifier, the place of its submit in the device's trail, and its stage.
#[derive(Clone, Copy, Debug, PartialEq, Eq)]
pub struct Outstanding {
    pub cid: u32,
    pub sent: u32,
    pub stage: Stage,
}

/// A command that waits to be picked: its identifier, and the place of its submit in the device's trail.
#[derive(Clone, Copy, Debug, PartialEq, Eq)]
pub struct Queued {
    pub cid: u32,
    pub sent: u32,
}
