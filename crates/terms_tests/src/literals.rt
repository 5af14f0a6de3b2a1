// The positions of literals, and their order.
use std::test::Fail;
use terms::lists::is_rising;
use terms::{Literal, Ordered, Refusal, Role};

#[test]
fn positions(rt: HostRuntime) -> Result<(), Fail> {
    let first = Role::new(0)?;
    let last = Role::new(63)?;
    assert_eq!(rt; Literal::Concept(0).position(), 0);
    assert_eq!(rt; Literal::Concept(255).position(), 255);
    assert_eq!(rt; Literal::Exists(first, 0).position(), 256);
    assert_eq!(rt; Literal::Exists(first, 255).position(), 511);
    assert_eq!(rt; Literal::Exists(Role::new(1)?, 0).position(), 512);
    assert_eq!(rt; Literal::Exists(last, 255).position(), 16_639);
    assert_eq!(rt; Literal::Forall(first, 0).position(), 16_640);
    assert_eq!(rt; Literal::Forall(last, 255).position(), 33_023);
    Ok(())
}

#[test]
fn the_order_is_by_position(rt: HostRuntime) -> Result<(), Fail> {
    let first = Role::new(0)?;
    let second = Role::new(1)?;
    let rising = [
        Literal::Concept(0),
        Literal::Concept(255),
        Literal::Exists(first, 0),
        Literal::Exists(first, 255),
        Literal::Exists(second, 0),
        Literal::Forall(first, 7),
        Literal::Forall(second, 0),
    ];
    assert_eq!(rt; is_rising(&rising), true);
    assert_eq!(rt;
        Literal::Forall(first, 0).before(&Literal::Exists(second, 9)),
        false
    );
    assert_eq!(rt;
        Literal::Exists(second, 0).before(&Literal::Exists(first, 255)),
        false
    );
    assert_eq!(rt; Literal::Concept(3).before(&Literal::Concept(3)), false);
    Ok(())
}

#[test]
fn equal_literals(rt: HostRuntime) -> Result<(), Fail> {
    let first = Role::new(0)?;
    let second = Role::new(1)?;
    assert_eq!(rt; Literal::Exists(first, 2), Literal::Exists(first, 2));
    assert_ne!(rt; Literal::Exists(first, 2), Literal::Exists(second, 2));
    assert_ne!(rt; Literal::Exists(first, 2), Literal::Forall(first, 2));
    assert_ne!(rt; Literal::Concept(2), Literal::Concept(3));
    Ok(())
}
