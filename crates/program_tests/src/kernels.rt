// Each kernel beside its plain loop, at lengths around that of a vector, and what it gives at the edges.
use builtin_programs::{count_byte, first_difference, mark_class, sum_bytes};

// The byte at a place, of a pattern in which many bytes come several times.
fn patterned(i: usize) -> u8 {
    (i.wrapping_mul(37) % 11) as u8
}

fn pattern() -> [u8; 140] {
    let mut bytes = [0u8; 140];
    for i in 0..140 {
        bytes[i] = patterned(i);
    }
    bytes
}

// How many of the bytes lie in a class, their sum, and the marks.
fn plainly(bytes: &[u8], low: u8, high: u8) -> (u64, u64, [u8; 140]) {
    let mut inside = 0u64;
    let mut total = 0u64;
    let mut marks = [9u8; 140];
    for (i, byte) in bytes.iter().enumerate() {
        total = total.wrapping_add(u64::from(*byte));
        let is_in = low <= *byte && *byte <= high;
        if is_in {
            inside = inside.wrapping_add(1);
        }
        if i < 140 {
            marks[i] = if is_in { 1 } else { 0 };
        }
    }
    (inside, total, marks)
}

// The first place at which bytes differ.
fn plain_difference(one: &[u8], other: &[u8]) -> Option<u64> {
    for (i, byte) in one.iter().enumerate() {
        if i < other.len() && *byte != other[i] {
            return Some(i as u64);
        }
    }
    None
}

#[test]
fn kernels_do_as_plain_loops(rt: HostRuntime) {
    let bytes = pattern();
    for len in 0..131usize {
        let part = &bytes[..len];
        let (inside, total, marks) = plainly(part, 3, 6);
        let (equal, _, _) = plainly(part, 5, 5);
        let mut into = [9u8; 140];
        let marked = mark_class(part, &mut into[..len], 3, 6);
        let mut other = pattern();
        other[len / 2] = 255;
        other[139] = 254;
        assert_eq!(rt; count_byte(part, 5), equal, "{len} bytes");
        assert_eq!(rt; sum_bytes(part), total, "{len} bytes");
        assert_eq!(rt; marked, inside, "{len} bytes");
        assert!(rt; into == marks, "{len} bytes");
        let other = &other[..len];
        assert_eq!(rt;
            first_difference(part, other),
            plain_difference(part, other),
            "{len} bytes"
        );
    }
}

#[test]
fn differences_are_of_bytes(rt: HostRuntime) {
    let bytes = pattern();
    for place in [0usize, 1, 62, 63, 64, 65, 69, 127, 128, 139] {
        let mut other = bytes;
        other[place] = 255;
        other[139] = 254;
        let at = Some(place as u64);
        assert_eq!(rt; first_difference(&bytes, &other), at, "place {place}");
        assert_eq!(rt;
            first_difference(&bytes[..place], &other[..place]),
            None,
            "place {place}"
        );
    }
}

#[test]
fn edges(rt: HostRuntime) {
    let most = [255u8; 70];
    let mut into = [7u8; 70];
    assert_eq!(rt; sum_bytes(&most), 17_850);
    assert_eq!(rt; count_byte(&most, 255), 70);
    assert_eq!(rt; count_byte(&most, 0), 0);
    assert_eq!(rt; first_difference(&most, &most), None);
    assert_eq!(rt; mark_class(&most, &mut into, 255, 0), 0);
    assert!(rt; into == [0u8; 70]);
    assert_eq!(rt; mark_class(&most, &mut into, 0, 255), 70);
    assert!(rt; into == [1u8; 70]);
    let none: [u8; 0] = [];
    assert_eq!(rt; sum_bytes(&none), 0);
}
