// Items of a form's lists, and the numbers that state them.
ghost use Rattle.std.specs.Prelude.{◌≡◌, Bool, Option};
ghost use Rattle.terms.specs.declared.refusals.Refusal.{Refusal};
ghost use Rattle.forms.specs.Items.{MadeOrRefused};

use terms::Refusal;

/// A kind of item that a form lists, and that numbers of any size can state.
pub trait Numbered: Copy {
    type Numbers: Copy;

    // the numbers that state the item
    ghost numbers: { Self → Self.Numbers };

    // what the numbers are refused with, if one of them is outside its range
    ghost refused: { Self.Numbers → Option Refusal };

    // whether an item that the second numbers state may stand right after one that the first state
    ghost follows: { Self.Numbers → Self.Numbers → Bool };

    /// The item that these numbers state, each of which is to be in its range (2).
    fn from_numbers(stated: Self::Numbers) -> Result<Self, Refusal>
        ensures { MadeOrRefused numbers refused stated result };

    /// Whether the item may stand right after the last one.
    fn may_follow(&self, last: &Self) -> bool
        ensures { result ≡ follows (numbers last.now) (numbers self.now) };
}
