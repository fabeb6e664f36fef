//! Loops of descriptors, whole or not.

use dvb_tables::are_whole_descriptors;

/// Bytes, and whether they are whole descriptors.
static LOOPS: [(&[u8], bool); 6] = [
    (b"", true),
    (b"\x52\x01\x05\x40\x00", true),
    (b"\x0a\x04eng\x00", true),
    (b"\x52", false),
    (b"\x52\x01", false),
    (b"\x40\x00\x52\x02\x05", false),
];

#[test]
fn whole_descriptors(rt: HostRuntime) {
    for (bytes, is_whole) in &LOOPS {
        assert!(rt; are_whole_descriptors(bytes) == *is_whole);
    }
}
