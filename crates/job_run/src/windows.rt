// Pieces as windows, and back.
ghost use Rattle.std.specs.Prelude.{◌≡◌, ◌≤◌, ◌<◌, ◌++◌, ◌∷◌, [], length, map, vec_len, vec_capacity};
ghost use Rattle.confined_view.specs.Touched.{window_bytes, writable_windows};
ghost use Rattle.bpf_model.specs.Memory.{allows_writing, read_write_of};
ghost use Rattle.job_run.specs.Works.{piece_regions};
ghost use Rattle.job_run.specs.Windows.{piece_bytes};

use confined_view::Window;
use cp_base::{Access, Bytes, MemRange, Piece};
use std::mem;

/// Moves the bytes of pieces into windows, one for each range, for which there is room.
pub(crate) fn into_windows(
    pieces: &mut Vec<Piece>,
    ranges: &[MemRange],
    windows: Vec<Window>,
) -> Vec<Window>
    requires ranges { length pieces.old.items ≡ length ranges.now }
    requires empty { windows.items ≡ [] }
    requires room { length pieces.old.items ≤ vec_capacity windows }
    ensures bytes { window_bytes result.items ≡ piece_bytes pieces.old.items }
    ensures writable { writable_windows result.items ≡ read_write_of ranges.now }
    ensures regions { piece_regions pieces.new.items ≡ piece_regions pieces.old.items }
{
    let mut windows = windows;
    let alloc = *windows.allocator();
    for i in 0..ranges.len() {
        let bytes = mem::replace(&mut pieces[i].bytes, Bytes::new(alloc));
        let writable = is_writable(ranges[i].access);
        push(&mut windows, Window { bytes, writable });
    }
    windows
}

// Whether a program may store into bytes of this access.
fn is_writable(access: Access) -> bool
    ensures { result ≡ allows_writing access }
{
    match access {
        Access::ReadOnly => false,
        Access::ReadWrite => true,
    }
}

// Adds a window, for which there is room.
fn push(windows: &mut Vec<Window>, window: Window)
    requires { vec_len windows.old < vec_capacity windows.old }
    ensures items { windows.new.items ≡ windows.old.items ++ window ∷ [] }
    ensures room { vec_capacity windows.old ≤ vec_capacity windows.new }
{
    windows.push(window).unwrap();
}

/// Moves the bytes of windows into pieces, one after the other.
pub(crate) fn from_windows(pieces: &mut Vec<Piece>, windows: Vec<Window>)
    requires { length pieces.old.items ≡ length windows.items }
    ensures bytes { piece_bytes pieces.new.items ≡ window_bytes windows.items }
    ensures regions { piece_regions pieces.new.items ≡ piece_regions pieces.old.items }
{
    let mut windows = windows;
    let alloc = *windows.allocator();
    for i in 0..pieces.len() {
        pieces[i].bytes = mem::replace(&mut windows[i].bytes, Bytes::new(alloc));
    }
}
