// What is proved of the rules and the replies: the rules yield what is true, a step passes its checks exactly when its rule yields its claim, and
// the law of every past holds of the replies.
ghost use Rattle.calculus.specs.Exactness.{StepsExact};
ghost use Rattle.calculus.specs.Law.{EveryPast, ShownHolds};
ghost use Rattle.calculus.specs.Truth.{RulesHold};
ghost use Rattle.calculus.specs.Worked.{Worked};

use models::Interpreted;

// In every interpretation, finite or infinite, the rules yield what is true.
fn rules_hold<I: Interpreted>()
    ensures { RulesHold I.meaning }
{}

// The checks of a step pass exactly when its rule yields its claim.
fn steps_are_exact()
    ensures { StepsExact }
{}

/// The law of every past holds of every book that came about by calls, and what the book holds is the one register of its past.
pub fn law_of_every_past()
    ensures { EveryPast }
{}

/// What a book showed, at any moment of its past, holds in every interpretation that satisfies its axioms: in any, finite or infinite, whose sets
/// are any predicates.
pub fn shown_holds<I: Interpreted>()
    ensures { ShownHolds I.meaning }
{}

/// The worked session gets the answers that are written beside it.
pub fn worked_session()
    ensures { Worked }
{}
