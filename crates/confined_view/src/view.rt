//! The view.
ghost use Rattle.std.specs.Prelude.{◌≡◌, ◌*◌, ◌^◌, ◌<◌, ◌≤◌, length, map, All, Some, None, IfSome, MatchOption};
ghost use Rattle.bpf_isa.specs.Size.{byte_count};
ghost use Rattle.bpf_model.specs.Address.{stack_len};
ghost use Rattle.confined_view.specs.Touched.{window_bytes, writable_windows, view_loaded, view_stored, view_range_len};

use crate::numbers::{number_at, put_number};
use crate::places::{location_to_read, location_to_write};
use crate::window::Window;
use bpf_isa::Size;
use bpf_model::Location;
use cp_base::Bytes;
use std::marker::Model;

/// The bytes that a program may touch: the windows of its ranges and its stack. Contracts see lists of
/// bytes, and which of the windows are writable.
#[derive(Debug, Drop)]
pub struct View {
    windows: Vec<Window>,
    stack: Bytes,
}

impl Model for View {
    ghost use Rattle.std.specs.Prelude.{◌≡◌, ◌^◌, ◌<◌, ◌≤◌, length, All};
    ghost use Rattle.bpf_model.specs.Address.{stack_len};
    ghost use Rattle.confined_view.specs.Touched.{Touched, window_bytes, writable_windows};

    ghost Value = { Touched };

    ghost view = { λ v. record { windows = window_bytes v.windows.items; writable = writable_windows v.windows.items; stack = v.stack.items } };

    ghost invariant = { λ v. (length v.windows.items ≤ 16) × All (λ w. length w < 2 ^ 32) (window_bytes v.windows.items)
        × (length v.stack.items ≡ stack_len) };
}

impl View {
    /// A view of these windows, one for each range, and of a stack. No byte is copied.
    pub fn new(windows: Vec<Window>, stack: Bytes) -> View
        requires few { length windows.items ≤ 16 }
        requires short { All (λ w. length w < 2 ^ 32) (window_bytes windows.items) }
        requires stack { length stack.items ≡ stack_len }
        ensures windows { result.windows ≡ window_bytes windows.items }
        ensures writable { result.writable ≡ writable_windows windows.items }
        ensures stack { result.stack ≡ stack.items }
    {
        View { windows, stack }
    }

    /// The windows and the stack. No byte is copied.
    pub fn into_parts(self) -> (Vec<Window>, Bytes)
        ensures windows { window_bytes result.0.items ≡ self.windows }
        ensures writable { writable_windows result.0.items ≡ self.writable }
        ensures stack { result.1.items ≡ self.stack }
    {
        (self.windows, self.stack)
    }

    /// How many ranges there are.
    pub fn ranges(&self) -> u64
        ensures { result ≡ length self.now.windows }
    {
        self.windows.len() as u64
    }

    /// The number at an address, in little-endian order and with zeros above it. `None` where the access
    /// lies wholly neither in a range nor in the stack.
    pub fn load(&self, address: u64, size: Size) -> Option<u64>
        ensures number { result ≡ view_loaded self.now address size }
        ensures fits { IfSome result (λ number. number < 2 ^ (8 * byte_count size)) }
    {
        match location_to_read(&self.windows, address, size) {
            Location::InRange { index, offset } => Some(number_at(
                &self.windows[index].bytes,
                offset,
                size,
            )),
            Location::InStack { offset } => Some(number_at(&self.stack, offset, size)),
            Location::Nowhere => None,
        }
    }

    /// Puts the low bytes of a value at an address, in little-endian order. `None` where the access lies
    /// wholly neither in a read-write range nor in the stack; nothing is changed then.
    pub fn store(&mut self, address: u64, size: Size, value: u64) -> Option<()>
        ensures stored { MatchOption result
            ((view_stored self.old address size value ≡ None) × (self.new ≡ self.old))
            (λ _. view_stored self.old address size value ≡ Some self.new) }
        ensures lengths { map length self.new.windows ≡ map length self.old.windows }
        ensures writable { self.new.writable ≡ self.old.writable }
    {
        match location_to_write(&self.windows, address, size) {
            Location::InRange { index, offset } => {
                put_number(&mut self.windows[index].bytes, offset, size, value);
                Some(())
            }
            Location::InStack { offset } => {
                put_number(&mut self.stack, offset, size, value);
                Some(())
            }
            Location::Nowhere => None,
        }
    }

    /// The length of the range of this index, from 0, in bytes, or `u64::MAX` where there is none: the
    /// answer of helper 1.
    pub fn range_len(&self, index: u64) -> u64
        ensures { result ≡ view_range_len self.now index }
    {
        match self.windows.get(index as usize) {
            Some(window) => window.bytes.len(),
            None => u64::MAX,
        }
    }
}
