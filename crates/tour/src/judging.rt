// A sample judged against a chart, and what it contradicts.
ghost use Rattle.std.specs.Prelude.{◌≡◌, false, map, MatchResult};
ghost use Rattle.terms.specs.declared.refusals.Refusal.TheVariants.{OutOfRange};
ghost use Rattle.models.specs.Charts.{sentence_of};
ghost use Rattle.models.specs.Facts.{fact_in_range};
ghost use Rattle.models.specs.declared.facts.Fact.TheVariants.{In, Link};
ghost use Rattle.tour.specs.Chart.{tour_chart};

use models::judge::{judge, lowest_contradiction};
use models::{Axiom, ConceptAxiom, Entry, Fact, List};
use terms::{Literal, Refusal, Role};

// The most entries of the tour's samples.
const MEMORY: usize = 4;

// The chart of the tour: what is in 1 has a pair of 0 into 2; what is in 2 has its pairs of 1 into 3 alone.
fn chart() -> Result<[Axiom; 2], Refusal>
    ensures { MatchResult result (λ axioms. map sentence_of axioms ≡ tour_chart) (λ _. ⊥) }
{
    let first = ConceptAxiom::new(&[1], &[Literal::Exists(Role::new(0)?, 2)])?;
    let second = ConceptAxiom::new(&[2], &[Literal::Forall(Role::new(1)?, 3)])?;
    Ok([Axiom::Implies(first), Axiom::Implies(second)])
}

// The entry that the element, which is to be below 64 (2), is in the concept.
fn element(concept: u8, element: u8) -> Result<Entry, Refusal>
    ensures { MatchResult result (λ e. e.fact ≡ In concept element) (λ e. (fact_in_range (In concept element) ≡ false) × (e ≡ OutOfRange 0)) }
{
    Entry::new(Fact::In { concept, element })
}

// The entry that the role name, which is to be below 32, links two elements, which are to be below 64 (2).
fn link(role: u8, from: u8, to: u8) -> Result<Entry, Refusal>
    ensures { MatchResult result (λ e. e.fact ≡ Link role from to) (λ e. (fact_in_range (Link role from to) ≡ false) × (e ≡ OutOfRange 0)) }
{
    Entry::new(Fact::Link { role, from, to })
}

/// Prints the verdicts on two samples: one in which an axiom fails, and one in which both hold.
pub fn show_samples(rt: &impl Print) -> anyhow::Result<()> {
    println!(rt; "axiom 0: what is in 1 is in (some 0 2)")?;
    println!(rt; "axiom 1: what is in 2 is in (all 1 3)")?;
    let poor = [element(1, 0)?, element(2, 1)?, link(0, 0, 1)?];
    println!(rt; "sample of 2 elements: 0 is in 1, 1 is in 2, role name 0 links 0 to 1")?;
    show_sample(rt, &poor)?;
    let rich = [
        element(1, 0)?,
        element(2, 1)?,
        link(0, 0, 1)?,
        element(3, 0)?,
    ];
    println!(rt; "the same, and 0 is in 3")?;
    show_sample(rt, &rich)
}

// Prints the verdict on the sample of two elements with these entries, and where it contradicts two subsumptions.
fn show_sample(rt: &impl Print, entries: &[Entry]) -> anyhow::Result<()> {
    let mut memory = [element(0, 0)?; MEMORY];
    let mut list = List::new(&mut memory[..]);
    list.start(2)?;
    list.add_all(entries)?;
    match judge(&chart()?, &list) {
        Ok(_) => println!(rt; "  verdict: every axiom holds")?,
        Err(Refusal::AxiomFails { axiom, element }) => println!(rt;
            "  verdict: axiom {axiom} fails at element {element}"
        )?,
        Err(refusal) => println!(rt; "  verdict: {refusal}")?,
    }
    show_contradiction(rt, &list, 4)?;
    show_contradiction(rt, &list, 3)
}

// Prints which element contradicts that all of concept 1 is in the concept b.
fn show_contradiction(rt: &impl Print, list: &List<'_>, b: u8) -> anyhow::Result<()> {
    match lowest_contradiction(&[1], &[b], list) {
        Some(x) => println!(rt; "  that all of 1 is in {b}: element {x} contradicts it")?,
        None => println!(rt; "  that all of 1 is in {b}: no element contradicts it")?,
    }
    Ok(())
}
