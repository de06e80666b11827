//! The limits of the words that are not the device's. This project's own.

/// The most commands that a made load has behind those that prepare the device.
pub const MAX_MADE: u32 = 8_192;
