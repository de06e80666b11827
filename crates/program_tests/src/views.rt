//! What no clause says: that calls succeed where there is memory, and worked examples.
use bpf_isa::Size;
use confined_view::{View, Window};
use cp_base::Bytes;
use std::alloc::Global;

// A view of a writable window of 8 bytes, one of 7 bytes that is not writable, and a stack of zeros.
fn two_windows(alloc: Global) -> Option<View> {
    let first = Window {
        bytes: Bytes::from_slice(alloc, &[1, 2, 3, 4, 5, 6, 7, 8]).ok()?,
        writable: true,
    };
    let second = Window {
        bytes: Bytes::from_slice(alloc, &[11, 12, 13, 14, 15, 16, 17]).ok()?,
        writable: false,
    };
    let stack = Bytes::filled(alloc, 4096, 0).ok()?;
    Some(View::new(vec![in alloc; first, second].ok()?, stack))
}

// A number of the two windows or the stack; the outer `None` is want of memory.
fn loaded(alloc: Global, address: u64, size: Size) -> Option<Option<u64>> {
    Some(two_windows(alloc)?.load(address, size))
}

#[test]
fn loads_are_confined(rt: HostRuntime) {
    for (address, size, number) in [
        (0x1_0000_0000, Size::D, Some(0x0807_0605_0403_0201)),
        (0x1_0000_0003, Size::W, Some(0x0706_0504)),
        (0x1_0000_0001, Size::D, None),
        (0x1_0000_0004, Size::W, Some(0x0807_0605)),
        (0x1_0000_0005, Size::W, None),
        (0x1_0000_0006, Size::H, Some(0x0807)),
        (0x1_0000_0007, Size::B, Some(8)),
        (0x1_0000_0007, Size::H, None),
        (0x1_0000_0008, Size::B, None),
        (0xffff_ffff, Size::B, None),
        (0xffff_ffff, Size::H, None),
        (0x2_0000_0000, Size::D, None),
        (0x2_0000_0003, Size::W, Some(0x1110_0f0e)),
        (0x2_0000_0004, Size::W, None),
        (0x2_0000_0005, Size::H, Some(0x1110)),
        (0x2_0000_0006, Size::B, Some(17)),
        (0x2_0000_0006, Size::H, None),
        (0x3_0000_0000, Size::B, None),
        (0xffff_ffff_ffff, Size::H, None),
        (0x1_0000_0000_0000, Size::D, Some(0)),
        (0x1_0000_0000_0ff8, Size::D, Some(0)),
        (0x1_0000_0000_0ff9, Size::D, None),
        (0x1_0000_0000_1000, Size::B, None),
        (0, Size::B, None),
        (0xffff_ffff_ffff_ffff, Size::B, None),
        (0xffff_ffff_ffff_ffff, Size::D, None),
    ] {
        let found = loaded(rt.alloc(), address, size);
        assert_eq!(rt; found, Some(number), "{size:?} at {address:#x}");
    }
}

// What a store answers, and the 8 bytes at an address afterwards.
fn stored(
    alloc: Global,
    address: u64,
    size: Size,
    value: u64,
    shown: u64,
) -> Option<(bool, Option<u64>)> {
    let mut view = two_windows(alloc)?;
    let done = view.store(address, size, value).is_some();
    Some((done, view.load(shown, Size::D)))
}

#[test]
fn stores_are_confined(rt: HostRuntime) {
    let value = 0xf0f1_f2f3_f4f5_f6f7;
    let first = 0x1_0000_0000;
    let second = 0x2_0000_0000;
    let stack = 0x1_0000_0000_0ff8;
    for (address, size, shown, done, number) in [
        (first, Size::B, first, true, 0x0807_0605_0403_02f7),
        (first + 2, Size::H, first, true, 0x0807_0605_f6f7_0201),
        (first + 4, Size::W, first, true, 0xf4f5_f6f7_0403_0201),
        (first, Size::D, first, true, value),
        (first + 5, Size::W, first, false, 0x0807_0605_0403_0201),
        (first + 7, Size::H, first, false, 0x0807_0605_0403_0201),
        (second, Size::B, first, false, 0x0807_0605_0403_0201),
        (second + 3, Size::W, first, false, 0x0807_0605_0403_0201),
        (second + 6, Size::H, first, false, 0x0807_0605_0403_0201),
        (stack, Size::D, stack, true, value),
        (stack + 7, Size::B, stack, true, 0xf700_0000_0000_0000),
        (stack + 7, Size::H, stack, false, 0),
        (stack + 8, Size::B, stack, false, 0),
    ] {
        let found = stored(rt.alloc(), address, size, value, shown);
        assert_eq!(rt;
            found,
            Some((done, Some(number))),
            "{size:?} at {address:#x}"
        );
    }
}

// A view of two writable windows, of 1 byte and of 7.
fn small_windows(alloc: Global) -> Option<View> {
    let first = Window {
        bytes: Bytes::from_slice(alloc, &[21]).ok()?,
        writable: true,
    };
    let second = Window {
        bytes: Bytes::from_slice(alloc, &[11, 12, 13, 14, 15, 16, 17]).ok()?,
        writable: true,
    };
    let stack = Bytes::filled(alloc, 4096, 0).ok()?;
    Some(View::new(vec![in alloc; first, second].ok()?, stack))
}

// Whether a store is done, and what is loaded from its place afterwards.
fn stored_and_loaded(alloc: Global, address: u64, size: Size) -> Option<(bool, Option<u64>)> {
    let mut view = small_windows(alloc)?;
    let done = view.store(address, size, 0xf0f1_f2f3_f4f5_f6f7).is_some();
    Some((done, view.load(address, size)))
}

#[test]
fn small_windows_are_confined(rt: HostRuntime) {
    let first = 0x1_0000_0000;
    let second = 0x2_0000_0000;
    for (address, size, number) in [
        (first, Size::B, Some(0xf7)),
        (first, Size::H, None),
        (first, Size::W, None),
        (first, Size::D, None),
        (first + 1, Size::B, None),
        (second, Size::B, Some(0xf7)),
        (second, Size::H, Some(0xf6f7)),
        (second, Size::W, Some(0xf4f5_f6f7)),
        (second, Size::D, None),
        (second + 3, Size::W, Some(0xf4f5_f6f7)),
        (second + 4, Size::W, None),
        (second + 5, Size::H, Some(0xf6f7)),
        (second + 6, Size::H, None),
        (second + 6, Size::B, Some(0xf7)),
        (second + 7, Size::B, None),
    ] {
        let found = stored_and_loaded(rt.alloc(), address, size);
        let told = Some((number.is_some(), number));
        assert_eq!(rt; found, told, "{size:?} at {address:#x}");
    }
}

// A store into the second window, whose bytes are then what they were.
fn stored_in_the_second(alloc: Global) -> Option<(bool, Option<u64>, Option<u64>)> {
    let mut view = two_windows(alloc)?;
    let done = view.store(0x2_0000_0003, Size::W, 0).is_some();
    Some((
        done,
        view.load(0x2_0000_0000, Size::W),
        view.load(0x2_0000_0003, Size::W),
    ))
}

#[test]
fn read_only_window_is_not_changed(rt: HostRuntime) {
    let found = stored_in_the_second(rt.alloc());
    assert_eq!(rt; found, Some((false, Some(0x0e0d_0c0b), Some(0x1110_0f0e))));
}

// A view of 16 windows of one byte each, the number of the window.
fn sixteen_windows(alloc: Global) -> Option<View> {
    let stack = Bytes::filled(alloc, 4096, 0).ok()?;
    let mut windows = Vec::new(alloc);
    for number in 0..16 {
        let window = Window {
            bytes: Bytes::filled(alloc, 1, number).ok()?,
            writable: true,
        };
        windows.push(window).ok()?;
    }
    Some(View::new(windows, stack))
}

// The length of a window, its first byte and its first two bytes.
fn first_bytes(alloc: Global, index: u64) -> Option<(u64, Option<u64>, Option<u64>)> {
    let view = sixteen_windows(alloc)?;
    let address = (index % 256 + 1) * 0x1_0000_0000;
    Some((
        view.range_len(index),
        view.load(address, Size::B),
        view.load(address, Size::H),
    ))
}

#[test]
fn sixteen_windows_of_one_byte(rt: HostRuntime) {
    for (index, len, byte) in [
        (0, 1, Some(0)),
        (15, 1, Some(15)),
        (16, u64::MAX, None),
        (u64::MAX, u64::MAX, None),
    ] {
        let found = first_bytes(rt.alloc(), index);
        assert_eq!(rt; found, Some((len, byte, None)), "window {index}");
    }
}

// How long the windows and the stack are that come back, and which of the windows are writable.
fn given_back(alloc: Global) -> Option<([(u64, bool); 2], u64)> {
    let (windows, stack) = two_windows(alloc)?.into_parts();
    let [first, second] = windows.as_slice() else {
        return None;
    };
    let lens = [
        (first.bytes.len(), first.writable),
        (second.bytes.len(), second.writable),
    ];
    Some((lens, stack.len()))
}

#[test]
fn buffers_come_back(rt: HostRuntime) {
    let found = given_back(rt.alloc());
    assert_eq!(rt; found, Some(([(8, true), (7, false)], 4096)));
}
