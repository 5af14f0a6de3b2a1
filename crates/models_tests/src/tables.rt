// Tables of bits: their length, their size, stray weights and the place of each bit.
use crate::telling::told_first;
use models::tables::TABLE_LIMIT;
use models::{Sample, Table};
use std::process::Abort;

// The refusal number of the table's fault and its value, or (0, 0) where it has none.
fn fault_of(bytes: &[u8], size: u8) -> (u8, usize) {
    let fault = Table::new(bytes, size).fault();
    fault.map_or((0, 0), |fault| told_first::<()>(Err(fault.into())))
}

// The fault of a table of zeros with so many bytes.
fn fault_of_zeros(rt: &impl Abort, len: usize, size: u8) -> (u8, usize) {
    let bytes = [0u8; TABLE_LIMIT];
    assert!(rt; len <= TABLE_LIMIT);
    fault_of(&bytes[0..len], size)
}

#[test]
fn length_and_size(rt: HostRuntime) {
    assert_eq!(rt; fault_of_zeros(&rt, 0, 0), (19, 0));
    assert_eq!(rt; fault_of_zeros(&rt, 2_048, 0), (19, 0));
    assert_eq!(rt; fault_of_zeros(&rt, 2_304, 1), (0, 0));
    assert_eq!(rt; fault_of_zeros(&rt, 2_303, 1), (19, 1));
    assert_eq!(rt; fault_of_zeros(&rt, 2_305, 1), (19, 1));
    assert_eq!(rt; fault_of_zeros(&rt, 18_176, 63), (0, 0));
    assert_eq!(rt; fault_of_zeros(&rt, 18_432, 64), (0, 0));
    assert_eq!(rt; fault_of_zeros(&rt, 18_431, 64), (19, 64));
    assert_eq!(rt; fault_of_zeros(&rt, 18_432, 65), (19, 65));
    assert_eq!(rt; fault_of_zeros(&rt, 18_432, 255), (19, 255));
}

#[test]
fn stray_weights(rt: HostRuntime) {
    // one element: only weight 1, the lowest bit of the last byte of a row, stands for an element
    let mut bytes = [0u8; 2_304];
    bytes[2_303] = 1;
    assert_eq!(rt; fault_of(&bytes, 1), (0, 0));
    // a second weight in the last row, which is row 287
    bytes[2_303] = 3;
    assert_eq!(rt; fault_of(&bytes, 1), (20, 287));
    // and one in the highest byte of row 3: the lowest row is named
    bytes[24] = 128;
    assert_eq!(rt; fault_of(&bytes, 1), (20, 3));
}

#[test]
fn the_highest_byte_comes_first(rt: HostRuntime) {
    let mut bytes = [0u8; TABLE_LIMIT];
    // concept 2 has row 2, bytes 16 to 23: element 0 is the lowest bit of byte 23, element 63 the highest of byte 16
    bytes[23] = 1;
    bytes[16] = 128;
    let table = Table::new(&bytes, 64);
    assert_eq!(rt; table.is_in(2, 0), true);
    assert_eq!(rt; table.is_in(2, 63), true);
    assert_eq!(rt; table.is_in(2, 7), false);
    assert_eq!(rt; table.is_in(2, 56), false);
    assert_eq!(rt; table.is_in(1, 0), false);
    assert_eq!(rt; table.is_in(2, 64), false);
}

#[test]
fn links_go_one_way(rt: HostRuntime) {
    let mut bytes = [0u8; 2_560];
    // two elements: role name 1 links 0 to 1 in row 256 + 1 × 2 + 0, bytes 2,064 to 2,071
    bytes[2_071] = 2;
    let table = Table::new(&bytes, 2);
    assert_eq!(rt; table.links(1, 0, 1), true);
    assert_eq!(rt; table.links(1, 1, 0), false);
    assert_eq!(rt; table.links(0, 0, 1), false);
    assert_eq!(rt; table.links(1, 0, 2), false);
    assert_eq!(rt; table.links(32, 0, 1), false);
    assert_eq!(rt; table.size(), 2);
}
