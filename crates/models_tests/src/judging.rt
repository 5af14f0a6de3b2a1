// Small samples against small charts.
ghost use Rattle.std.specs.Prelude.{false, None};

use crate::telling::{element, link, made, told};
use models::judge::{judge, lowest_contradiction};
use models::samples::size_fault;
use models::{Axiom, ConceptAxiom, Entry, Fault, List, Sample};
use std::test::Fail;
use terms::{Literal, Refusal, Role};

// A sample of any kind may be judged: this one denies every fact.
struct Denier(u8);

impl Sample for Denier {
    ghost meaning = { λ s. record { fault = None; size = s.0; has_element = λ _ _. false; has_link = λ _ _ _. false } };

    fn fault(&self) -> Option<Fault> {
        size_fault(self.0)
    }

    fn size(&self) -> u8 {
        self.0
    }

    fn is_in(&self, _concept: u8, _x: u8) -> bool {
        false
    }

    fn links(&self, _role: u8, _x: u8, _y: u8) -> bool {
        false
    }
}

fn implies(left: &[u8], right: &[Literal]) -> Result<Axiom, Refusal> {
    Ok(Axiom::Implies(ConceptAxiom::new(left, right)?))
}

fn under(e: u8, s: u8) -> Result<Axiom, Refusal> {
    Ok(Axiom::Under(Role::new(e)?, Role::new(s)?))
}

fn some(e: u8, a: u8) -> Result<Literal, Refusal> {
    Ok(Literal::Exists(Role::new(e)?, a))
}

fn all(e: u8, a: u8) -> Result<Literal, Refusal> {
    Ok(Literal::Forall(Role::new(e)?, a))
}

// The verdict of a chart on a list of n elements with these entries.
fn verdict_on(axioms: &[Axiom], n: u8, entries: &[Entry]) -> Result<(u8, usize, usize), Refusal> {
    let mut memory = [element(0, 0)?; 8];
    let mut list = List::new(&mut memory[..]);
    list.start(n)?;
    list.add_all(entries)?;
    Ok(told(judge(axioms, &list)))
}

#[test]
fn a_worked_chart(rt: HostRuntime) -> Result<(), Fail> {
    // 1 is in some 0 2, and 2 is in all 1 3
    let chart = [
        implies(&[1], &[some(0, 2)?])?,
        implies(&[2], &[all(1, 3)?])?,
    ];
    let whole = [
        element(1, 0)?,
        element(3, 0)?,
        element(2, 1)?,
        link(0, 0, 1)?,
    ];
    assert_eq!(rt; verdict_on(&chart, 2, &whole)?, (0, 0, 0));
    // without the link, element 0 of concept 1 has no filler
    assert_eq!(rt; verdict_on(&chart, 2, &whole[0..3])?, (21, 0, 0));
    // without 3 at 0, the pair of the mirror from 1 to 0 leads out of concept 3
    assert_eq!(rt;
        verdict_on(&chart, 2, &[element(1, 0)?, element(2, 1)?, link(0, 0, 1)?])?,
        (21, 1, 1)
    );
    Ok(())
}

#[test]
fn inclusions_and_their_direction(rt: HostRuntime) -> Result<(), Fail> {
    assert_eq!(rt;
        verdict_on(&[under(0, 4)?], 2, &[link(0, 0, 1)?])?,
        (21, 0, 0)
    );
    assert_eq!(rt;
        verdict_on(&[under(0, 4)?], 2, &[link(0, 0, 1)?, link(2, 0, 1)?])?,
        (0, 0, 0)
    );
    assert_eq!(rt;
        verdict_on(&[under(0, 4)?], 2, &[link(0, 0, 1)?, link(2, 1, 0)?])?,
        (21, 0, 0)
    );
    assert_eq!(rt;
        verdict_on(&[under(1, 4)?], 2, &[link(0, 0, 1)?, link(2, 1, 0)?])?,
        (0, 0, 0)
    );
    assert_eq!(rt;
        verdict_on(&[under(1, 4)?], 2, &[link(0, 0, 1)?, link(2, 0, 1)?])?,
        (21, 0, 1)
    );
    assert_eq!(rt;
        verdict_on(&[under(1, 5)?], 2, &[link(0, 0, 1)?, link(2, 0, 1)?])?,
        (0, 0, 0)
    );
    Ok(())
}

#[test]
fn edges_of_the_axioms(rt: HostRuntime) -> Result<(), Fail> {
    // `all` is true where there is no pair, and `some` is not
    assert_eq!(rt;
        verdict_on(&[implies(&[1], &[all(0, 9)?])?], 1, &[element(1, 0)?])?,
        (0, 0, 0)
    );
    assert_eq!(rt;
        verdict_on(&[implies(&[1], &[some(0, 9)?])?], 1, &[element(1, 0)?])?,
        (21, 0, 0)
    );
    // an empty left side holds of every element, and an empty right side of none
    assert_eq!(rt;
        verdict_on(
            &[implies(&[], &[Literal::Concept(1)])?],
            2,
            &[element(1, 0)?],
        )?,
        (21, 0, 1)
    );
    assert_eq!(rt;
        verdict_on(&[implies(&[1], &[])?], 2, &[element(1, 1)?])?,
        (21, 0, 1)
    );
    assert_eq!(rt; verdict_on(&[implies(&[], &[])?], 1, &[])?, (21, 0, 0));
    assert_eq!(rt; verdict_on(&[], 1, &[])?, (0, 0, 0));
    // the lowest axiom first, and then its lowest element
    let two = [implies(&[1], &[])?, implies(&[2], &[])?];
    assert_eq!(rt;
        verdict_on(&two, 4, &[element(2, 0)?, element(1, 3)?, element(1, 2)?])?,
        (21, 0, 2)
    );
    Ok(())
}

#[test]
fn a_sample_that_denies_everything(rt: HostRuntime) -> Result<(), Fail> {
    let chart = [
        implies(&[1], &[])?,
        implies(&[], &[all(0, 1)?])?,
        under(0, 4)?,
    ];
    assert_eq!(rt; told(judge(&chart, &Denier(64))), (0, 0, 0));
    assert_eq!(rt; told(judge(&chart, &Denier(0))), (19, 0, 0));
    assert_eq!(rt; told(judge(&chart, &Denier(65))), (19, 65, 0));
    assert_eq!(rt;
        told(judge(&[implies(&[], &[some(0, 1)?])?], &Denier(2))),
        (21, 0, 0)
    );
    assert_eq!(rt; lowest_contradiction(&[], &[1, 2], &Denier(2)), Some(0));
    assert_eq!(rt; lowest_contradiction(&[1], &[], &Denier(2)), None);
    Ok(())
}

#[test]
fn the_lowest_contradiction(rt: HostRuntime) -> Result<(), Fail> {
    let mut memory = [element(0, 0)?; 8];
    let mut list = List::new(&mut memory[..]);
    list.start(3)?;
    list.add_all(&[
        element(1, 0)?,
        element(2, 0)?,
        element(1, 1)?,
        element(1, 2)?,
    ])?;
    assert_eq!(rt; lowest_contradiction(&[1], &[2], &list), Some(1));
    assert_eq!(rt; lowest_contradiction(&[1], &[1], &list), None);
    assert_eq!(rt; lowest_contradiction(&[1, 2], &[3], &list), Some(0));
    assert_eq!(rt; lowest_contradiction(&[], &[2], &list), Some(1));
    assert_eq!(rt; lowest_contradiction(&[3], &[], &list), None);
    Ok(())
}

#[test]
fn sides_rise_and_have_a_limit(rt: HostRuntime) -> Result<(), Fail> {
    let c = Literal::Concept(1);
    assert_eq!(rt; made(ConceptAxiom::new(&[1, 2, 3, 4, 5, 6, 7, 8], &[c])), 0);
    assert_eq!(rt;
        made(ConceptAxiom::new(&[1, 2, 3, 4, 5, 6, 7, 8, 9], &[c])),
        4
    );
    assert_eq!(rt;
        made(ConceptAxiom::new(&[1, 2, 3, 4, 5, 6, 7, 8, 8], &[c])),
        4
    );
    assert_eq!(rt;
        made(ConceptAxiom::new(&[1, 2, 2, 4, 5, 6, 7, 8, 9], &[c])),
        3
    );
    assert_eq!(rt; made(ConceptAxiom::new(&[2, 1], &[c, c])), 3);
    assert_eq!(rt; made(ConceptAxiom::new(&[1], &[c, c])), 3);
    assert_eq!(rt;
        made(ConceptAxiom::new(&[1], &[all(0, 0)?, some(0, 0)?])),
        3
    );
    assert_eq!(rt;
        made(ConceptAxiom::new(&[], &[c, c, c, c, c, c, c, c, c])),
        3
    );
    Ok(())
}
