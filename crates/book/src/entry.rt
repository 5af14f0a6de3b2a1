// What is entered in the numbered lists of a book.
ghost use Rattle.std.specs.Prelude.{◌≡◌, ◌≤◌, ◌^◌, [], ◌∷◌, ◌++◌, length, if◌then◌else◌, is_ok, Ok};
ghost use Rattle.terms.specs.Shorts.{held};
ghost use Rattle.calculus.specs.Checks.{and_then};
ghost use Rattle.calculus.specs.Replies.{room};
ghost use Rattle.calculus.specs.declared.answers.Answer.TheVariants.{Entered};

use calculus::Answer;
use terms::{Refusal, Short};

// Enters the item under the next number of the list, if a place is free.
pub(crate) fn enter<T: Copy, const N: usize>(
    list: &mut Short<T, N>,
    item: T,
) -> Result<Answer, Refusal>
    requires { N ≤ 2 ^ 16 }
    ensures answer { result ≡ and_then (room (length (held list.old)) N) (λ _. Ok (Entered (length (held list.old)))) }
    ensures change { held list.new ≡ (if is_ok result then held list.old ++ item ∷ [] else held list.old) }
{
    let number = list.len();
    list.push(item)?;
    Ok(Answer::Entered(number as u16))
}
