//! Judges a full chart on the largest table, where every axiom holds only by its last literal. With an argument it also prints how long
//! that took, as the least of as many runs as the argument says.
#![tactic(auto)]

ghost use Rattle.std.specs.Prelude.{◌≡◌, ℕ, ◌-◌, ◌^◌, ◌<◌, ◌≤◌, true, map, length, is_ok, Some, None, Ok, string_bytes, MatchOption, MatchResult, slice_index};
ghost use Rattle.std.specs.Result.{OkIff};
ghost use Rattle.std.specs.Str.Parse.{IsNumeral, without_leading_plus, digits_value};
ghost use Rattle.terms.specs.Limits.{role_codes};
ghost use Rattle.terms.specs.declared.refusals.Refusal.TheVariants.{OutOfRange};
ghost use Rattle.models.specs.Charts.{sentence_of};
ghost use Rattle.models.specs.Judging.{verdict};
ghost use Rattle.models.specs.Tables.{table_meaning};
ghost use Rattle.judge_bench.specs.Benching.{filled, missing, slow_sentence};

use models::judge::judge;
use models::samples::ELEMENT_LIMIT;
use models::tables::{ROW_BYTES, TABLE_LIMIT};
use models::{Axiom, ConceptAxiom, Table};
use std::env;
use std::rt::Clock;
use std::time::Instant;
use terms::literals::CONCEPTS;
use terms::{Literal, Refusal, Role};

// A chart is full with this many axioms.
const AXIOMS: usize = 256;

// Rows 0 to 7, the concepts on the left sides, end here, and rows from 256 on, the role names, begin there.
const LEFT_END: usize = 8 * ROW_BYTES;

const ROLES_BEGIN: usize = CONCEPTS as usize * ROW_BYTES;

fn main(rt: HostRuntime) -> anyhow::Result<()> {
    run(&rt)
}

// Judges the chart on the table and prints that every axiom holds, and, where runs are asked for, the least time of as many.
fn run(rt: &HostRuntime) -> anyhow::Result<()> {
    let axioms = [slow_axiom()?; AXIOMS];
    let mut bytes = [0u8; TABLE_LIMIT];
    fill_table(&mut bytes);
    let table = Table::new(&bytes, ELEMENT_LIMIT);
    judge(&axioms, &table)?;
    println!(rt; "256 axioms hold on a table of 64 elements")?;
    if let Some(runs) = wanted_runs(rt)? {
        let least = least_time(rt, &axioms, &table, runs)?;
        println!(rt; "least time of {runs} runs: {least} microseconds")?;
    }
    Ok(())
}

// Every element is in the left concepts 0 to 7 and in the last right literal; the six before it fail after a look at every pair.
fn slow_axiom() -> Result<Axiom, Refusal>
    ensures { MatchResult result (λ slow. sentence_of slow ≡ slow_sentence) (λ _. ⊥) }
{
    let right = [
        missing(0)?,
        missing(1)?,
        missing(2)?,
        missing(3)?,
        missing(4)?,
        missing(5)?,
        Literal::Forall(Role::new(12)?, 0),
    ];
    Ok(Axiom::Implies(ConceptAxiom::new(&[0, 1, 2, 3, 4, 5, 6, 7], &right)?))
}

// A pair of the role code into the concept 200, which has no element.
fn missing(code: u8) -> Result<Literal, Refusal>
    ensures { MatchResult result (λ literal. (below : code < role_codes) → literal ≡ missing code below) (λ refusal. (role_codes ≤ code) × (refusal ≡ OutOfRange 0)) }
{
    Ok(Literal::Exists(Role::new(code)?, 200))
}

// Puts every element into the concepts 0 to 7, and has every role name link every element to every other; the other bytes stay.
fn fill_table(bytes: &mut [u8])
    ensures { (i : ℕ) → i < length bytes.old → slice_index bytes.new i ≡ filled i (slice_index bytes.old i) }
{
    for (i, byte) in bytes.iter_mut().enumerate() {
        if i < LEFT_END || i >= ROLES_BEGIN {
            *byte = 255;
        }
    }
}

// How many runs the program's first argument asks for.
fn wanted_runs(rt: &HostRuntime) -> anyhow::Result<Option<u32>> {
    runs_of(env::args(rt)?.nth(1))
}

// How many runs an argument asks for: the number that it writes, which is to be below 2^32.
fn runs_of(argument: Option<String>) -> anyhow::Result<Option<u32>>
    ensures { MatchOption argument (result ≡ Ok None) (λ text. OkIff result (IsNumeral 10 (without_leading_plus (string_bytes text)) × (digits_value 10 (without_leading_plus (string_bytes text)) < 2 ^ 32)) (Some (digits_value 10 (without_leading_plus (string_bytes text))))) }
{
    Ok(
        argument
            .map(|text| text.as_str().parse::<u32>())
            .transpose()?,
    )
}

// The least time of that many runs, in microseconds, and the greatest number where there is none. Every axiom is to hold in each run.
fn least_time(
    rt: &impl Clock,
    axioms: &[Axiom],
    table: &Table<'_>,
    runs: u32,
) -> anyhow::Result<u128>
    ensures none { runs ≡ 0 → result ≡ Ok (2 ^ 128 - 1) }
    ensures passes { 0 < runs → is_ok result ≡ true → verdict (table_meaning table.now.bytes.now table.now.size) (map sentence_of axioms.now) ≡ Ok tt }
{
    let mut least = u128::MAX;
    for _ in 0..runs {
        let start = Instant::now(rt)?;
        judge(axioms, table)?;
        least = least.min(start.elapsed(rt)?.as_micros());
    }
    Ok(least)
}
