// How long a party waits that found nothing to do.
use crossbeam_utils::Backoff;

// The most times that a party lets others run between two tries.
const MOST_PAUSES: u32 = 64;

/// Lets others run between two tries that gave nothing, each time twice as often as the time before, up to a bound: a
/// search among many commands holds the turn, so those who find nothing search seldom.
#[derive(Drop)]
pub(crate) struct Patience {
    backoff: Backoff,
    pauses: u32,
}

impl Patience {
    pub(crate) fn new() -> Self {
        Self {
            backoff: Backoff::new(),
            pauses: 1,
        }
    }

    /// Begins anew: something was found.
    pub(crate) fn reset(&mut self) {
        self.backoff.reset();
        self.pauses = 1;
    }

    /// Lets others run.
    pub(crate) fn wait(&mut self) {
        for _ in 0..self.pauses {
            self.backoff.snooze();
        }
        self.pauses = self.pauses.saturating_mul(2).min(MOST_PAUSES);
    }
}
