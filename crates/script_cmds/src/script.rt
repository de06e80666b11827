// A whole script.
use crate::{Form, Phase, Show};
use cp_base::{Config, Sequence};

/// What a script says: how it is written, the device's configuration, what the hosts do in each phase, and what is shown.
#[derive(Debug, Drop)]
pub struct Script {
    pub form: Form,
    /// The configuration. Its depth is that of a host's queues together: as many times the depth of a queue as there
    /// are queues.
    pub config: Config,
    pub phases: Sequence<Phase>,
    pub shows: Sequence<Show>,
}
