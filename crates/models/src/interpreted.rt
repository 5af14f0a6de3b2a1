// Interpretations of any kind, finite or infinite, and what holds of roles in all of them.
ghost use Rattle.std.specs.Prelude.{ℕ, ◌↔◌, List};
ghost use Rattle.terms.specs.Lists.{◌∈◌};
ghost use Rattle.terms.specs.Reaching.{Inclusion, Reaches};
ghost use Rattle.terms.specs.Roles.{mirror};
ghost use Rattle.models.specs.Semantics.{Interpretation, Pair, Satisfies, under};

/// A type that stands for an interpretation.
pub trait Interpreted {
    ghost meaning: { Interpretation };
}

/// In every interpretation, the pairs of a mirror are the pairs turned round; and where it satisfies each of some inclusions, the pairs of
/// a role are pairs of every role that it reaches by them.
pub fn pairs_follow_reach<I: Interpreted>()
    ensures mirrored { (E x y : ℕ) → Pair I.meaning (mirror E) x y ↔ Pair I.meaning E y x }
    ensures along { (l : List Inclusion) → ((E F : ℕ) → (E, F) ∈ l → Satisfies I.meaning (under E F)) → (E S : ℕ) → Reaches l E S → (x y : ℕ) → Pair I.meaning E x y → Pair I.meaning S x y }
{}
