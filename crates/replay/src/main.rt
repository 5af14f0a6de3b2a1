//! Replays a small derivation in a book, asks what it shows, and refutes by a sample what it does not.
#![tactic(auto)]

ghost use Rattle.std.specs.Prelude.{◌≡◌, map, IfOk};
ghost use Rattle.models.specs.Listed.{list_meaning};
ghost use Rattle.models.specs.Listed as listed;
ghost use Rattle.models.specs.declared.facts.Fact.TheVariants.{In, Link};
ghost use Rattle.calculus.specs.Limits.{scratch_needed};
ghost use Rattle.calculus.specs.Replies.{after};
ghost use Rattle.book.specs.Offers.{call_of};
ghost use Rattle.replay.specs.Offered.{after_all};

use book::{Book, SCRATCH_NEEDED};
use forms::{Form, LiteralNumbers};
use models::{Entry, Fact, List};
use terms::Literal;

// A book, and the sample that it is to judge.
#[derive(Drop)]
struct Session<'a> {
    book: Book,
    sample: List<'a>,
}

fn main(rt: HostRuntime) -> anyhow::Result<()> {
    run(&rt)
}

// Prints the calls of a session and their answers: a chart, a derivation from it, questions, and a sample of two elements.
fn run(rt: &impl Print) -> anyhow::Result<()> {
    let entries = [
        Entry::new(is_in(1, 0))?,
        Entry::new(is_in(3, 0))?,
        Entry::new(is_in(2, 1))?,
        Entry::new(links(0, 0, 1))?,
    ];
    let mut memory = entries;
    replay(rt, &entries, &mut memory)
}

// Prints the session of a new book and a sample of two elements, which holds the entries in the memory lent. The session is made before anything can fail, so that it is written once.
fn replay(rt: &impl Print, entries: &[Entry], memory: &mut [Entry]) -> anyhow::Result<()> {
    let mut session = Session {
        book: Book::new(),
        sample: List::new(memory),
    };
    session.sample.start(2)?;
    session.sample.add_all(entries)?;
    session.enter_chart(rt)?;
    session.enter_steps(rt)?;
    session.ask_both(rt)
}

// The element is in the concept.
fn is_in(concept: u8, element: u8) -> Fact
    ensures { result ≡ In concept element }
{
    Fact::In { concept, element }
}

// The role name links the one element to the other.
fn links(role: u8, from: u8, to: u8) -> Fact
    ensures { result ≡ Link role from to }
{
    Fact::Link { role, from, to }
}

impl Session<'_> {
    // Enters the chart and closes the book.
    fn enter_chart(&mut self, rt: &impl Print) -> anyhow::Result<()>
        ensures sample { self.new.sample ≡ self.old.sample }
    {
        let some = [LiteralNumbers::Exists(0, 2)];
        let all = [LiteralNumbers::Forall(1, 3)];
        let calls = [
            ("(axiom (1) ((some 0 2)))", Form::axiom(&[1], &some)?),
            ("(axiom (2) ((all 1 3)))", Form::axiom(&[2], &all)?),
            ("(close)", Form::close()),
        ];
        self.offer_all(rt, &calls)
    }

    // Opens two contexts, and enters the clauses of a derivation.
    fn enter_steps(&mut self, rt: &impl Print) -> anyhow::Result<()>
        ensures sample { self.new.sample ≡ self.old.sample }
    {
        let some = [LiteralNumbers::Exists(0, 2)];
        let all = [LiteralNumbers::Forall(1, 3)];
        let three = [LiteralNumbers::Concept(3)];
        let calls = [
            ("(context (1))", Form::context(&[1])?),
            ("(context (2))", Form::context(&[2])?),
            ("(core 0 1)", Form::core(0, 1)?),
            (
                "(hyper 0 0 (0) ((some 0 2)))",
                Form::hyper(0, 0, &[0], &some)?,
            ),
            ("(core 1 2)", Form::core(1, 2)?),
            (
                "(hyper 1 1 (2) ((all 1 3)))",
                Form::hyper(1, 1, &[2], &all)?,
            ),
            (
                "(pred 0 1 0 2 () 3 (3))",
                Form::pred(0, 1, 0, 2, &[], 3, &three)?,
            ),
        ];
        self.offer_all(rt, &calls)
    }

    // Asks whether all of 1 is in 3, and in 4, and whether the sample refutes it.
    fn ask_both(&mut self, rt: &impl Print) -> anyhow::Result<()>
        ensures sample { self.new.sample ≡ self.old.sample }
    {
        let asked = [
            ("(ask (1) (3))", Form::ask(&[1], &[3])?),
            ("(ask (1) (4))", Form::ask(&[1], &[4])?),
        ];
        self.offer_all(rt, &asked)?;
        println!(rt; "sample of 2 elements: 0 is in 1 and 3, 1 is in 2, role name 0 links 0 to 1")?;
        let asked = [
            ("(refute (1) (4))", Form::refute(&[1], &[4])?),
            ("(refute (1) (3))", Form::refute(&[1], &[3])?),
        ];
        self.offer_all(rt, &asked)
    }

    // Offers the forms in their order, each with the line that stands for it.
    fn offer_all(&mut self, rt: &impl Print, calls: &[(&str, Form)]) -> anyhow::Result<()>
        ensures book { IfOk result (λ _. self.new.book ≡ after_all (list_meaning (listed.contents self.old.sample)) self.old.book (map (λ call. call.1) calls.now)) }
        ensures sample { self.new.sample ≡ self.old.sample }
    {
        for (line, form) in calls {
            self.offer(rt, line, form)?;
        }
        Ok(())
    }

    // Offers the form to the book, and prints the line that stands for it, and the answer. The book has taken the form also where printing fails.
    fn offer(&mut self, rt: &impl Print, line: &str, form: &Form) -> anyhow::Result<()>
        ensures book { self.new.book ≡ after self.old.book (call_of form.now scratch_needed (list_meaning (listed.contents self.old.sample))) }
        ensures sample { self.new.sample ≡ self.old.sample }
    {
        let mut scratch = [Literal::Concept(0); SCRATCH_NEEDED];
        match self.book.offer(form, &mut scratch, &self.sample) {
            Ok(answer) => println!(rt; "{line}  ({answer})")?,
            Err(refusal) => println!(rt; "{line}  ({refusal})")?,
        }
        Ok(())
    }
}
