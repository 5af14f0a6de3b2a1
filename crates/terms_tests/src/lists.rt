// Joins, removals and tests on lists of concepts, at their edges. Memory is 8 bytes of 99, of which `room` are lent.
use std::process::Abort;
use terms::Refusal;
use terms::lists::{has, is_equal, is_rising, is_within, join, without};

const MEMORY: usize = 8;

// What a call that writes to memory for `room` items answers, and all the memory afterwards.
fn writes<F: FnOnce(&mut [u8]) -> Result<usize, Refusal>>(
    rt: &impl Abort,
    write: F,
    room: usize,
    answer: Result<usize, Refusal>,
    after: [u8; MEMORY],
)
    requires { F.IsAlwaysCallable write }
{
    let mut out = [99u8; MEMORY];
    assert!(rt; room <= MEMORY);
    let got = write(&mut out[..room]);
    assert_eq!(rt; got, answer);
    assert_eq!(rt; out, after);
}

// The same of the join of xs and ys.
fn joins(
    rt: &impl Abort,
    xs: &[u8],
    ys: &[u8],
    room: usize,
    answer: Result<usize, Refusal>,
    after: [u8; MEMORY],
) {
    writes(rt, |out| join(xs, ys, out), room, answer, after)
}

// The same of the list xs without x.
fn leaves(
    rt: &impl Abort,
    xs: &[u8],
    x: u8,
    room: usize,
    answer: Result<usize, Refusal>,
    after: [u8; MEMORY],
) {
    writes(rt, |out| without(xs, &x, out), room, answer, after)
}

fn too_short(needed: usize) -> Result<usize, Refusal> {
    Err(Refusal::MemoryTooShort { needed })
}

#[test]
fn joins_at_the_edges(rt: HostRuntime) {
    let none: [u8; 0] = [];
    joins(
        &rt,
        &none,
        &none,
        0,
        Ok(0),
        [99, 99, 99, 99, 99, 99, 99, 99],
    );
    joins(
        &rt,
        &none,
        &none,
        8,
        Ok(0),
        [99, 99, 99, 99, 99, 99, 99, 99],
    );
    joins(
        &rt,
        &[0, 255],
        &none,
        8,
        Ok(2),
        [0, 255, 99, 99, 99, 99, 99, 99],
    );
    joins(&rt, &none, &[7], 1, Ok(1), [7, 99, 99, 99, 99, 99, 99, 99]);
    joins(
        &rt,
        &[1, 2, 3],
        &[1, 2, 3],
        8,
        Ok(3),
        [1, 2, 3, 99, 99, 99, 99, 99],
    );
    joins(
        &rt,
        &[1, 2],
        &[3, 4],
        8,
        Ok(4),
        [1, 2, 3, 4, 99, 99, 99, 99],
    );
    joins(
        &rt,
        &[3, 4],
        &[1, 2],
        8,
        Ok(4),
        [1, 2, 3, 4, 99, 99, 99, 99],
    );
    joins(
        &rt,
        &[1, 3, 5],
        &[2, 4, 6],
        8,
        Ok(6),
        [1, 2, 3, 4, 5, 6, 99, 99],
    );
    joins(
        &rt,
        &[1, 3, 5, 7],
        &[3, 4, 7, 9],
        8,
        Ok(6),
        [1, 3, 4, 5, 7, 9, 99, 99],
    );
}

#[test]
fn joins_that_just_fit_or_just_do_not(rt: HostRuntime) {
    joins(
        &rt,
        &[1, 3],
        &[2, 3],
        3,
        Ok(3),
        [1, 2, 3, 99, 99, 99, 99, 99],
    );
    joins(
        &rt,
        &[1, 3],
        &[2, 3],
        2,
        too_short(3),
        [99, 99, 99, 99, 99, 99, 99, 99],
    );
    joins(
        &rt,
        &[1, 3],
        &[2, 3],
        0,
        too_short(3),
        [99, 99, 99, 99, 99, 99, 99, 99],
    );
    joins(
        &rt,
        &[1, 2, 3, 4],
        &[5, 6, 7, 8],
        8,
        Ok(8),
        [1, 2, 3, 4, 5, 6, 7, 8],
    );
    joins(
        &rt,
        &[1, 2, 3, 4],
        &[5, 6, 7, 8],
        7,
        too_short(8),
        [99, 99, 99, 99, 99, 99, 99, 99],
    );
}

#[test]
fn removals_at_the_edges(rt: HostRuntime) {
    let none: [u8; 0] = [];
    leaves(&rt, &none, 1, 0, Ok(0), [99, 99, 99, 99, 99, 99, 99, 99]);
    leaves(&rt, &[1], 1, 0, Ok(0), [99, 99, 99, 99, 99, 99, 99, 99]);
    leaves(&rt, &[1, 2, 3], 1, 8, Ok(2), [2, 3, 99, 99, 99, 99, 99, 99]);
    leaves(&rt, &[1, 2, 3], 2, 2, Ok(2), [1, 3, 99, 99, 99, 99, 99, 99]);
    leaves(&rt, &[1, 2, 3], 3, 8, Ok(2), [1, 2, 99, 99, 99, 99, 99, 99]);
    leaves(&rt, &[1, 2, 3], 4, 3, Ok(3), [1, 2, 3, 99, 99, 99, 99, 99]);
    leaves(
        &rt,
        &[1, 2, 3],
        4,
        2,
        too_short(3),
        [99, 99, 99, 99, 99, 99, 99, 99],
    );
    leaves(
        &rt,
        &[1, 2, 3],
        2,
        1,
        too_short(2),
        [99, 99, 99, 99, 99, 99, 99, 99],
    );
}

#[test]
fn lists_that_rise(rt: HostRuntime) {
    let none: [u8; 0] = [];
    assert_eq!(rt; is_rising(&none), true);
    assert_eq!(rt; is_rising(&[5u8]), true);
    assert_eq!(rt; is_rising(&[0u8, 1, 255]), true);
    assert_eq!(rt; is_rising(&[1u8, 1]), false);
    assert_eq!(rt; is_rising(&[2u8, 1]), false);
    assert_eq!(rt; is_rising(&[1u8, 2, 3, 3]), false);
}

#[test]
fn membership_containment_equality(rt: HostRuntime) {
    let none: [u8; 0] = [];
    assert_eq!(rt; has(&none, &0), false);
    assert_eq!(rt; has(&[1u8, 3], &3), true);
    assert_eq!(rt; has(&[1u8, 3], &2), false);
    assert_eq!(rt; is_within(&none, &none), true);
    assert_eq!(rt; is_within(&[1u8], &none), false);
    assert_eq!(rt; is_within(&[1u8, 3], &[1, 2, 3]), true);
    assert_eq!(rt; is_within(&[1u8, 4], &[1, 2, 3]), false);
    assert_eq!(rt; is_within(&[3u8, 1, 3], &[1, 2, 3]), true);
    assert_eq!(rt; is_equal(&none, &none), true);
    assert_eq!(rt; is_equal(&[1u8, 2], &[1, 2]), true);
    assert_eq!(rt; is_equal(&[1u8, 2], &[1]), false);
    assert_eq!(rt; is_equal(&[1u8, 2], &[1, 3]), false);
}
