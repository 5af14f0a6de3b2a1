//! A tour of Hevtsuro's library: what role inclusions make each role reach, the head that two premises resolve to, and a sample that is
//! judged against a chart.
#![tactic(auto)]

ghost use Rattle.std.specs.Prelude.{◌≡◌, ◌≤◌, false, List, is_ok, MatchResult};
ghost use Rattle.terms.specs.Limits.{role_codes};
ghost use Rattle.terms.specs.Reaching.{Inclusion};
ghost use Rattle.terms.specs.Tables.{Shows};
ghost use Rattle.terms.specs.declared.refusals.Refusal.TheVariants.{OutOfRange};
ghost use Rattle.tour.specs.Entering.{are_codes, included};

mod heads;
mod judging;
mod words;

use heads::{head_of, resolvent};
use judging::show_samples;
use terms::{Literal, Reach, Refusal, Role};
use words::{print_list, reading};

// The role codes of the tour: the role names 0, 1 and 2, each read both ways.
const SHOWN_CODES: u8 = 6;

fn main(rt: HostRuntime) -> anyhow::Result<()> {
    run(&rt)
}

// Prints the three parts of the tour, each under its heading.
fn run(rt: &impl Print) -> anyhow::Result<()> {
    println!(rt; "1. What roles reach")?;
    show_roles(rt)?;
    println!(rt; "")?;
    println!(rt; "2. What two premises resolve to")?;
    show_resolution(rt)?;
    println!(rt; "")?;
    println!(rt; "3. A sample judged")?;
    show_samples(rt)
}

// Prints the verbs of the role codes, enters two inclusions, and prints what they make the roles reach.
fn show_roles(rt: &impl Print) -> anyhow::Result<()> {
    show_verbs(rt)?;
    let mut reach = Reach::new();
    enter(rt, &mut reach, 0, 4)?;
    ask_each(rt, &reach, &[(0, 4), (1, 5), (1, 4), (4, 0)])?;
    enter(rt, &mut reach, 3, 1)?;
    ask_each(rt, &reach, &[(3, 1), (2, 0), (2, 1)])?;
    for code in 0..SHOWN_CODES {
        list_reached(rt, &reach, code)?;
    }
    Ok(())
}

// Prints the verb of each role code of the tour.
fn show_verbs(rt: &impl Print) -> anyhow::Result<()> {
    for code in 0..SHOWN_CODES {
        let verb = reading(Role::new(code)?);
        println!(rt; "role code {code}: {verb}")?;
    }
    Ok(())
}

// Enters the inclusion of the role code e under the role code s, and answers the two roles. Where a code is not below 64 (2), the table
// stays as it was.
fn include_codes(reach: &mut Reach, e: u8, s: u8) -> Result<(Role, Role), Refusal>
    ensures answer { MatchResult result (λ roles. (roles.0.code ≡ e) × (roles.1.code ≡ s)) (λ refusal. (are_codes e s ≡ false) × (refusal ≡ OutOfRange 0) × (reach.new ≡ reach.old)) }
    ensures table { (l : List Inclusion) → Shows reach.old l → Shows reach.new (included l e s) }
{
    let sub = Role::new(e)?;
    let sup = Role::new(s)?;
    reach.include(sub, sup);
    Ok((sub, sup))
}

// Enters the inclusion of the role code e under the role code s, and prints that. It stays entered where printing fails.
fn enter(rt: &impl Print, reach: &mut Reach, e: u8, s: u8) -> anyhow::Result<()>
    ensures table { (l : List Inclusion) → Shows reach.old l → Shows reach.new (included l e s) }
    ensures refused { are_codes e s ≡ false → (is_ok result ≡ false) × (reach.new ≡ reach.old) }
{
    let (sub, sup) = include_codes(reach, e, s)?;
    let lower = reading(sub);
    let upper = reading(sup);
    println!(rt; "entered: \"{lower}\" ({e}) under \"{upper}\" ({s})")?;
    Ok(())
}

// Asks whether the role code e reaches the role code s, and prints the answer.
fn ask(rt: &impl Print, reach: &Reach, e: u8, s: u8) -> anyhow::Result<()>
    ensures { are_codes e s ≡ false → is_ok result ≡ false }
{
    if reach.reaches(Role::new(e)?, Role::new(s)?) {
        println!(rt; "  {e} reaches {s}")?;
    } else {
        println!(rt; "  {e} does not reach {s}")?;
    }
    Ok(())
}

// Asks the same of each pair of role codes, in order.
fn ask_each(rt: &impl Print, reach: &Reach, pairs: &[(u8, u8)]) -> anyhow::Result<()> {
    for (e, s) in pairs {
        ask(rt, reach, *e, *s)?;
    }
    Ok(())
}

// Prints every role code of the tour that the role code e reaches, but for e itself.
fn list_reached(rt: &impl Print, reach: &Reach, e: u8) -> anyhow::Result<()>
    ensures { role_codes ≤ e → is_ok result ≡ false }
{
    let from = Role::new(e)?;
    let verb = reading(from);
    print!(rt; "what one {verb} ({e}), one also:")?;
    for s in 0..SHOWN_CODES {
        let to = Role::new(s)?;
        if s != e && reach.reaches(from, to) {
            let other = reading(to);
            print!(rt; " {other} ({s})")?;
        }
    }
    println!(rt; "")?;
    Ok(())
}

// Prints the head that the heads (1 2) and (2) resolve to on a left side (1 2).
fn show_resolution(rt: &impl Print) -> anyhow::Result<()> {
    let one = Literal::Concept(1);
    let two = Literal::Concept(2);
    let first = head_of(&[one, two])?;
    let second = head_of(&[two])?;
    print_list(rt, "left side:", &[one, two])?;
    print_list(
        rt,
        "first premise, which gives up concept 1:",
        first.as_slice(),
    )?;
    print_list(
        rt,
        "second premise, which gives up concept 2:",
        second.as_slice(),
    )?;
    let head = resolvent(&first, one, &second, two)?;
    print_list(rt, "head:", head.as_slice())?;
    if terms::lists::has(head.as_slice(), &two) {
        println!(rt; "concept 2 stays: only the second premise gave it up")?;
    } else {
        println!(rt; "concept 2 is gone")?;
    }
    Ok(())
}
