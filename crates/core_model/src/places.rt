// The places of the trail by which a device keeps its commands. A place is an index in the trail.

/// A command that waits to be picked: the place of its submit, and of an Abort the place of the submit that
/// it names.
#[derive(Clone, Copy, Debug, PartialEq, Eq)]
pub struct WaitingSubmit {
    pub sent: u32,
    pub names: Option<u32>,
}

/// An open claim: its place, its party, the host of its command, and the place of the submit.
#[derive(Clone, Copy, Debug, PartialEq, Eq)]
pub struct ClaimPlaces {
    pub claim: u32,
    pub party: u32,
    pub host: u32,
    pub sent: u32,
}

/// An entry of the history: the place of its submit, and where its reply is posted.
#[derive(Clone, Copy, Debug, PartialEq, Eq)]
pub struct EntryPlaces {
    pub sent: u32,
    pub posted: u32,
}
