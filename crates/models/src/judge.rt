// Whether a sample of any kind satisfies axioms, and where it contradicts a subsumption.
ghost use Rattle.std.specs.Prelude.{◌≡◌, ℕ, Bool, map, is_ok, None, Err, Decides, MatchOption};
ghost use Rattle.terms.specs.declared.refusals.Refusal.TheVariants.{AxiomFails};
ghost use Rattle.models.specs.Charts.{sentence_of};
ghost use Rattle.models.specs.Judging.{Computes, all_test, any_test, contradiction, contradicts_test, fails_test, first_failure, has_pair, judged_from, literal_test, pair_test, some_test, verdict};
ghost use Rattle.models.specs.Meanings.{fault_of, interpretation};
ghost use Rattle.models.specs.Semantics.{Contradicts, LowestContradiction, LowestFailure, Models};

use crate::charts::Axiom;
use crate::samples::Sample;
use terms::{Literal, Refusal, Role};

// Whether (x, y) is a pair of the role.
fn is_pair<S: Sample>(sample: &S, e: Role, x: u8, y: u8) -> bool
    ensures { result ≡ pair_test (S.meaning sample.now) e.code x y }
{
    if e.is_backwards() {
        sample.links(e.name(), y, x)
    } else {
        sample.links(e.name(), x, y)
    }
}

// Whether some pair (x, y) of the role has a y that passes.
fn some_pair<S: Sample, F: Fn(u8) -> bool>(sample: &S, e: Role, x: u8, test: F) -> bool
    requires { F.IsAlwaysCallable test }
    ensures { (h : ℕ → Bool) → Computes F.Fn test h → result ≡ has_pair (S.meaning sample.now) e.code x h }
{
    (0..sample.size()).any(|y| is_pair(sample, e, x, y) && test(y))
}

// Whether x is in the literal.
fn is_in_literal<S: Sample>(sample: &S, x: u8, literal: Literal) -> bool
    ensures { result ≡ literal_test (S.meaning sample.now) x literal }
{
    match literal {
        Literal::Concept(a) => sample.is_in(a, x),
        Literal::Exists(e, a) => some_pair(sample, e, x, |y| sample.is_in(a, y)),
        Literal::Forall(e, a) => !some_pair(sample, e, x, |y| !sample.is_in(a, y)),
    }
}

// Whether x is in all the concepts.
fn is_in_all<S: Sample>(sample: &S, x: u8, concepts: &[u8]) -> bool
    ensures { result ≡ all_test (S.meaning sample.now) x concepts.now }
{
    concepts.iter().all(|a| sample.is_in(*a, x))
}

// Whether x is in one of the concepts.
fn is_in_any<S: Sample>(sample: &S, x: u8, concepts: &[u8]) -> bool
    ensures { result ≡ any_test (S.meaning sample.now) x concepts.now }
{
    concepts.iter().any(|a| sample.is_in(*a, x))
}

// Whether x is in one of the literals.
fn is_in_some<S: Sample>(sample: &S, x: u8, literals: &[Literal]) -> bool
    ensures { result ≡ some_test (S.meaning sample.now) x literals.now }
{
    literals
        .iter()
        .any(|literal| is_in_literal(sample, x, *literal))
}

// Whether the axiom fails at x.
fn fails_at<S: Sample>(sample: &S, axiom: Axiom, x: u8) -> bool
    ensures { result ≡ fails_test (S.meaning sample.now) (sentence_of «axiom») x }
{
    match axiom {
        Axiom::Implies(sides) => is_in_all(sample, x, sides.left())
            && !is_in_some(sample, x, sides.right()),
        Axiom::Under(e, s) => some_pair(sample, e, x, |y| !is_pair(sample, s, x, y)),
    }
}

// The lowest element at which the axiom fails.
fn lowest_failure<S: Sample>(sample: &S, axiom: Axiom) -> Option<u8>
    ensures { result ≡ first_failure (S.meaning sample.now) (sentence_of «axiom») }
{
    (0..sample.size()).find(|x| fails_at(sample, axiom, *x))
}

/// The sample's own fault (19 or 20), or else the lowest axiom that fails in it, with the lowest element at which it does (21).
pub fn judge<S: Sample>(axioms: &[Axiom], sample: &S) -> Result<(), Refusal>
    ensures value { result ≡ verdict (S.meaning sample.now) (map sentence_of axioms.now) }
    ensures passes { fault_of (S.meaning sample.now) ≡ None → Decides (is_ok result) (Models (interpretation (S.meaning sample.now)) (map sentence_of axioms.now)) }
    ensures fails { (i x : ℕ) → fault_of (S.meaning sample.now) ≡ None → result ≡ Err (AxiomFails i x) → LowestFailure (interpretation (S.meaning sample.now)) (map sentence_of axioms.now) i x }
{
    if let Some(fault) = sample.fault() {
        return Err(fault.into());
    }
    judge_axioms(axioms, sample)
}

// The lowest axiom that fails in the sample, and the lowest element at which it does.
fn judge_axioms<S: Sample>(axioms: &[Axiom], sample: &S) -> Result<(), Refusal>
    ensures { result ≡ judged_from (S.meaning sample.now) 0 (map sentence_of axioms.now) }
{
    for (i, axiom) in axioms.iter().enumerate() {
        if let Some(x) = lowest_failure(sample, *axiom) {
            return Err(Refusal::AxiomFails {
                axiom: i,
                element: x as usize,
            });
        }
    }
    Ok(())
}

/// The lowest element in all of `left` and in none of `right`, if there is one.
pub fn lowest_contradiction<S: Sample>(left: &[u8], right: &[u8], sample: &S) -> Option<u8>
    ensures value { result ≡ contradiction (S.meaning sample.now) left.now right.now }
    ensures means { fault_of (S.meaning sample.now) ≡ None → MatchOption result ((x : ℕ) → Contradicts (interpretation (S.meaning sample.now)) left.now right.now x → ⊥) (LowestContradiction (interpretation (S.meaning sample.now)) left.now right.now) }
{
    (0..sample.size()).find(|x| contradicts_at(left, right, sample, *x))
}

// Whether x is in all of `left` and in none of `right`.
fn contradicts_at<S: Sample>(left: &[u8], right: &[u8], sample: &S, x: u8) -> bool
    ensures { result ≡ contradicts_test (S.meaning sample.now) left.now right.now x }
{
    is_in_all(sample, x, left) && !is_in_any(sample, x, right)
}
