// Role codes, their mirrors, and what they reach.
use std::test::Fail;
use terms::{Reach, Refusal, Role};

// The refusal of a role code or name that is out of range.
fn outside() -> Result<Role, Refusal> {
    Err(Refusal::OutOfRange { at: 0 })
}

// The codes that code e reaches, among those below 8.
fn reached(reach: &Reach, e: u8) -> Result<[bool; 8], Refusal> {
    let mut seen = [false; 8];
    for (s, is_reached) in (0..8u8).zip(seen.iter_mut()) {
        *is_reached = reach.reaches(Role::new(e)?, Role::new(s)?);
    }
    Ok(seen)
}

#[test]
fn codes_have_a_range(rt: HostRuntime) -> Result<(), Fail> {
    assert_eq!(rt; Role::new(0)?.code(), 0);
    assert_eq!(rt; Role::new(63)?.code(), 63);
    assert_eq!(rt; Role::new(64), outside());
    assert_eq!(rt; Role::new(255), outside());
    assert_eq!(rt; Role::forwards(0)?.code(), 0);
    assert_eq!(rt; Role::forwards(31)?.code(), 62);
    assert_eq!(rt; Role::forwards(32), outside());
    assert_eq!(rt; Role::forwards(128), outside());
    assert_eq!(rt; Role::forwards(255), outside());
    Ok(())
}

#[test]
fn names_and_readings(rt: HostRuntime) -> Result<(), Fail> {
    assert_eq!(rt; Role::new(0)?.name(), 0);
    assert_eq!(rt; Role::new(1)?.name(), 0);
    assert_eq!(rt; Role::new(62)?.name(), 31);
    assert_eq!(rt; Role::new(63)?.name(), 31);
    assert_eq!(rt; Role::new(62)?.is_backwards(), false);
    assert_eq!(rt; Role::new(63)?.is_backwards(), true);
    Ok(())
}

#[test]
fn mirrors_at_both_ends(rt: HostRuntime) -> Result<(), Fail> {
    assert_eq!(rt; Role::new(0)?.mirror().code(), 1);
    assert_eq!(rt; Role::new(1)?.mirror().code(), 0);
    assert_eq!(rt; Role::new(62)?.mirror().code(), 63);
    assert_eq!(rt; Role::new(63)?.mirror().code(), 62);
    assert_eq!(rt; Role::new(5)?.mirror().mirror(), Role::new(5)?);
    assert_ne!(rt; Role::new(5)?, Role::new(4)?);
    Ok(())
}

#[test]
fn nothing_entered_reaches_itself_alone(rt: HostRuntime) -> Result<(), Fail> {
    let reach = Reach::new();
    for e in 0..64u8 {
        for s in 0..64u8 {
            assert_eq!(rt; reach.reaches(Role::new(e)?, Role::new(s)?), e == s);
        }
    }
    Ok(())
}

#[test]
fn an_inclusion_holds_of_its_mirrors_and_not_backwards(rt: HostRuntime) -> Result<(), Fail> {
    let mut reach = Reach::new();
    reach.include(Role::new(0)?, Role::new(4)?);
    assert_eq!(rt;
        reached(&reach, 0)?,
        [true, false, false, false, true, false, false, false]
    );
    assert_eq!(rt;
        reached(&reach, 1)?,
        [false, true, false, false, false, true, false, false]
    );
    assert_eq!(rt;
        reached(&reach, 4)?,
        [false, false, false, false, true, false, false, false]
    );
    assert_eq!(rt;
        reached(&reach, 5)?,
        [false, false, false, false, false, true, false, false]
    );
    Ok(())
}

#[test]
fn a_chain_goes_on_through_a_mirror(rt: HostRuntime) -> Result<(), Fail> {
    let mut reach = Reach::new();
    // 0 under 3, and 2 under 4: so 1 under 2, and 3 under 5
    reach.include(Role::new(0)?, Role::new(3)?);
    reach.include(Role::new(2)?, Role::new(4)?);
    assert_eq!(rt;
        reached(&reach, 0)?,
        [true, false, false, true, false, true, false, false]
    );
    assert_eq!(rt;
        reached(&reach, 1)?,
        [false, true, true, false, true, false, false, false]
    );
    assert_eq!(rt;
        reached(&reach, 2)?,
        [false, false, true, false, true, false, false, false]
    );
    assert_eq!(rt;
        reached(&reach, 3)?,
        [false, false, false, true, false, true, false, false]
    );
    Ok(())
}

#[test]
fn a_cycle_reaches_all_of_itself(rt: HostRuntime) -> Result<(), Fail> {
    let mut reach = Reach::new();
    reach.include(Role::new(0)?, Role::new(2)?);
    reach.include(Role::new(2)?, Role::new(4)?);
    reach.include(Role::new(4)?, Role::new(0)?);
    for e in 0..3u8 {
        assert_eq!(rt;
            reached(&reach, 2 * e)?,
            [true, false, true, false, true, false, false, false]
        );
        assert_eq!(rt;
            reached(&reach, 2 * e + 1)?,
            [false, true, false, true, false, true, false, false]
        );
    }
    Ok(())
}

#[test]
fn a_role_under_its_own_mirror(rt: HostRuntime) -> Result<(), Fail> {
    let mut reach = Reach::new();
    reach.include(Role::new(62)?, Role::new(63)?);
    assert_eq!(rt; reach.reaches(Role::new(62)?, Role::new(63)?), true);
    assert_eq!(rt; reach.reaches(Role::new(63)?, Role::new(62)?), true);
    assert_eq!(rt; reach.reaches(Role::new(63)?, Role::new(0)?), false);
    Ok(())
}
