// Where a thread may be held between a claim and its run.

/// What threads pass with each job between claiming and running it. A gate holds a thread for as long as its call
/// lasts; it gives nothing back and changes nothing of what is promised.
pub trait Gate: Sync {
    /// A job was claimed: that of the command which this host submitted as its `ordinal`-th, from 1.
    fn opened(&self, host: u32, ordinal: u32);
}

/// A gate that holds nobody.
#[derive(Clone, Copy, Debug)]
pub struct NoGate;

impl Gate for NoGate {
    fn opened(&self, _host: u32, _ordinal: u32) {}
}
