//! Where an access lies.
ghost use Rattle.std.specs.Prelude.{◌≡◌, ◌^◌, ◌<◌, ◌≤◌, length, map, All};
ghost use Rattle.bpf_isa.specs.Size.{byte_count};
ghost use Rattle.bpf_model.specs.Address.{resolve, resolve_to_write};
ghost use Rattle.confined_view.specs.Touched.{window_bytes, writable_windows};

use crate::window::Window;
use bpf_isa::Size;
use bpf_model::Location;

// From a range's first address to the next one's.
const RANGE_STRIDE: u64 = 0x1_0000_0000;

// The stack's first address, counted in such strides.
const STACK_STRIDES: u64 = 0x1_0000;

// How many bytes the stack has.
const STACK_LEN: usize = 4096;

/// Where an access for reading of this size at an address lies, among the windows and the stack. It takes
/// the same time for each window: the location is found by arithmetic on the address.
pub(crate) fn location_to_read(windows: &[Window], address: u64, size: Size) -> Location
    requires few { length windows.now ≤ 16 }
    requires short { All (λ w. length w < 2 ^ 32) (window_bytes windows.now) }
    ensures { result ≡ resolve (map length (window_bytes windows.now)) address (byte_count size) }
{
    let strides = address / RANGE_STRIDE;
    let offset = (address % RANGE_STRIDE) as usize;
    let end = offset + size.bytes() as usize;
    if strides == STACK_STRIDES && end <= STACK_LEN {
        return Location::InStack { offset };
    }
    if strides == 0 || strides > windows.len() as u64 {
        return Location::Nowhere;
    }
    let index = (strides - 1) as usize;
    if end > windows[index].bytes.as_slice().len() {
        return Location::Nowhere;
    }
    Location::InRange { index, offset }
}

/// Where an access for writing lies: as one for reading, but in no window that is not writable.
pub(crate) fn location_to_write(windows: &[Window], address: u64, size: Size) -> Location
    requires few { length windows.now ≤ 16 }
    requires short { All (λ w. length w < 2 ^ 32) (window_bytes windows.now) }
    ensures { result
        ≡ resolve_to_write (writable_windows windows.now) (map length (window_bytes windows.now)) address
        (byte_count size) }
{
    let location = location_to_read(windows, address, size);
    match location {
        Location::InRange { index, .. } if !windows[index].writable => Location::Nowhere,
        _ => location,
    }
}
