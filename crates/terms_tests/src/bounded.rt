// Bounded lists, and refusals as they are reported.
use terms::{Full, Refusal, Short};

#[test]
fn a_list_takes_as_many_as_it_holds(rt: HostRuntime) {
    let mut list: Short<u8, 2> = Short::new(0);
    assert_eq!(rt; list.len(), 0);
    assert_eq!(rt; list.get(0), None);
    assert_eq!(rt; list.push(7).is_ok(), true);
    assert_eq!(rt; list.push(5).is_ok(), true);
    assert_eq!(rt; list.push(9).is_ok(), false);
    assert_eq!(rt; list.len(), 2);
    assert_eq!(rt; list.get(0), Some(7));
    assert_eq!(rt; list.get(1), Some(5));
    assert_eq!(rt; list.get(2), None);
    assert_eq!(rt; list.as_slice(), [7u8, 5].as_slice());
}

#[test]
fn a_full_list_names_its_limit(rt: HostRuntime) {
    let mut list: Short<u8, 1> = Short::new(0);
    assert_eq!(rt; list.push(7), Ok(()));
    assert_eq!(rt; list.push(5), Err(Full { limit: 1 }));
    assert_eq!(rt; Refusal::from(Full { limit: 1 }).number(), 7);
    assert_eq!(rt; Refusal::from(Full { limit: 1 }).values(), (1, 0));
}

// Whether a list of at most three items is made of these.
fn makes(items: &[u8]) -> bool {
    let made: Option<Short<u8, 3>> = Short::from_slice(items, 0);
    made.is_some_and(|list| list.as_slice() == items)
}

#[test]
fn a_list_made_from_a_slice(rt: HostRuntime) {
    assert_eq!(rt; makes(&[]), true);
    assert_eq!(rt; makes(&[1, 2, 3]), true);
    assert_eq!(rt; makes(&[1, 2, 3, 4]), false);
}

#[test]
fn refusals_as_they_are_reported(rt: HostRuntime) {
    assert_eq!(rt; Refusal::WrongByte { at: 7 }.number(), 1);
    assert_eq!(rt; Refusal::WrongByte { at: 7 }.values(), (7, 0));
    assert_eq!(rt; Refusal::TooLong { at: 1024 }.number(), 4);
    assert_eq!(rt; Refusal::BookClosed.values(), (0, 0));
    assert_eq!(rt;
        Refusal::ClauseNotEntered {
            premise: 2,
            clause: 300,
        }
        .number(),
        10
    );
    assert_eq!(rt;
        Refusal::ClauseNotEntered {
            premise: 2,
            clause: 300,
        }
        .values(),
        (2, 300)
    );
    assert_eq!(rt;
        Refusal::PremisesMiscounted {
            given: 0,
            needed: 1,
        }
        .values(),
        (0, 1)
    );
    assert_eq!(rt;
        Refusal::AxiomFails {
            axiom: 3,
            element: 63,
        }
        .values(),
        (3, 63)
    );
    assert_eq!(rt; Refusal::NoneContradicts.number(), 22);
    assert_eq!(rt; Refusal::MemoryTooShort { needed: 111 }.values(), (111, 0));
}
