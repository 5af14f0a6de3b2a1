// Lists of entries: limits, refusals and what they leave, starting again, repeated entries.
use crate::telling::{element, link, made, told_first};
use models::{Entry, List, Sample};
use std::test::Fail;

#[test]
fn entries_have_ranges(rt: HostRuntime) {
    assert_eq!(rt; made(element(255, 63)), 0);
    assert_eq!(rt; made(element(0, 64)), 2);
    assert_eq!(rt; made(link(31, 63, 63)), 0);
    assert_eq!(rt; made(link(32, 0, 0)), 2);
    assert_eq!(rt; made(link(0, 64, 0)), 2);
    assert_eq!(rt; made(link(0, 0, 64)), 2);
}

#[test]
fn a_list_in_two_places(rt: HostRuntime) -> Result<(), Fail> {
    let mut memory = [element(9, 9)?; 2];
    let mut list = List::new(&mut memory[..]);
    assert_eq!(rt; list.size(), 1);
    assert_eq!(rt; told_first(list.add(element(5, 0)?)), (0, 0));
    // element 1 is not below the size 1, and that comes before want of a place
    assert_eq!(rt; told_first(list.add(element(5, 1)?)), (20, 1));
    assert_eq!(rt; told_first(list.add(link(3, 0, 1)?)), (20, 1));
    assert_eq!(rt; told_first(list.add(link(3, 2, 1)?)), (20, 2));
    assert_eq!(rt; told_first(list.add(link(3, 0, 0)?)), (0, 0));
    assert_eq!(rt; told_first(list.add(element(6, 0)?)), (7, 2));
    assert_eq!(rt; told_first(list.add(element(6, 1)?)), (20, 1));
    assert_eq!(rt; list.is_in(5, 0), true);
    assert_eq!(rt; list.is_in(6, 0), false);
    assert_eq!(rt; list.links(3, 0, 0), true);
    assert_eq!(rt; list.links(3, 0, 1), false);
    Ok(())
}

#[test]
fn starting_again(rt: HostRuntime) -> Result<(), Fail> {
    let mut memory = [element(9, 9)?; 2];
    let mut list = List::new(&mut memory[..]);
    assert_eq!(rt; told_first(list.add(element(5, 0)?)), (0, 0));
    assert_eq!(rt; told_first(list.start(0)), (19, 0));
    assert_eq!(rt; told_first(list.start(65)), (19, 65));
    // a refused start leaves the list as it was
    assert_eq!(rt; list.size(), 1);
    assert_eq!(rt; list.is_in(5, 0), true);
    assert_eq!(rt; told_first(list.start(64)), (0, 0));
    assert_eq!(rt; list.size(), 64);
    assert_eq!(rt; list.is_in(5, 0), false);
    assert_eq!(rt; told_first(list.add(element(5, 63)?)), (0, 0));
    // a repeated entry takes a place and adds no fact
    assert_eq!(rt; told_first(list.add(element(5, 63)?)), (0, 0));
    assert_eq!(rt; told_first(list.add(element(5, 63)?)), (7, 2));
    assert_eq!(rt; list.is_in(5, 63), true);
    assert_eq!(rt; list.is_in(5, 0), false);
    assert!(rt; list.fault().is_none());
    Ok(())
}

#[test]
fn several_entries_up_to_the_first_that_is_refused(rt: HostRuntime) -> Result<(), Fail> {
    let mut memory = [element(9, 9)?; 2];
    let mut list = List::new(&mut memory[..]);
    let (zero, one) = (element(5, 0)?, element(5, 1)?);
    assert_eq!(rt; told_first(list.add_all(&[])), (0, 0));
    // element 1 is not below the size 1: what stands before it is added, and nothing after it
    assert_eq!(rt;
        told_first(list.add_all(&[zero, one, link(3, 0, 0)?])),
        (20, 1)
    );
    assert_eq!(rt; list.entries().len(), 1);
    assert_eq!(rt; list.is_in(5, 0), true);
    assert_eq!(rt; list.links(3, 0, 0), false);
    // one place is left
    assert_eq!(rt; told_first(list.add_all(&[link(3, 0, 0)?, zero])), (7, 2));
    assert_eq!(rt; list.entries().len(), 2);
    assert_eq!(rt; list.links(3, 0, 0), true);
    Ok(())
}

#[test]
fn no_memory_at_all(rt: HostRuntime) -> Result<(), Fail> {
    let mut memory: [Entry; 0] = [];
    let mut list = List::new(&mut memory[..]);
    assert_eq!(rt; told_first(list.add(element(5, 0)?)), (7, 0));
    assert_eq!(rt; list.is_in(5, 0), false);
    Ok(())
}
