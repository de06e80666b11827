// The passes of a device's parties.
use crate::kept::Fixed;
use trail_model::Event;

/// What one party carries from call to call: what it has seen of the device's trail, and which events it made. The parties
/// 1 to 16 are the hosts, the others are workers.
pub type Pass = seat_lock::Pass<Event, Fixed>;

/// The passes of one device, each at home or handed out.
pub type Passes = seat_lock::Passes<Event, Fixed>;
