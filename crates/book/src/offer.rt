// The call that every host makes, and the law that it keeps.
ghost use Rattle.std.specs.Prelude.{◌≡◌, length};
ghost use Rattle.calculus.specs.Law.{KeepsLaw};
ghost use Rattle.book.specs.Offers.{call_of, scratch_after};
ghost use Rattle.calculus.specs.Replies.{after, reply};

use crate::state::Book;
use calculus::Answer;
use forms::Form;
use models::Sample;
use terms::{Literal, Refusal};

impl Book {
    /// Takes a form: enters what it asks for, or answers its question, or refuses it.
    pub fn offer<S: Sample>(
        &mut self,
        form: &Form,
        scratch: &mut [Literal],
        sample: &S,
    ) -> Result<Answer, Refusal>
        ensures answer { result ≡ reply self.old (call_of form.now (length scratch.old) (S.meaning sample.now)) }
        ensures change { self.new ≡ after self.old (call_of form.now (length scratch.old) (S.meaning sample.now)) }
        ensures scratch { scratch.new ≡ scratch_after (call_of form.now (length scratch.old) (S.meaning sample.now)) scratch.old }
        ensures law { KeepsLaw self.old (call_of form.now (length scratch.old) (S.meaning sample.now)) result self.new }
    {
        match form {
            Form::Axiom(axiom) => self.enter_axiom(*axiom),
            Form::Under { role, upper } => self.enter_inclusion(*role, *upper),
            Form::Close => self.close(),
            Form::Context(concepts) => self.open_context(concepts),
            Form::Core(step) => self.step(step, scratch),
            Form::Hyper(step) => self.step(step, scratch),
            Form::Pred(step) => self.step(step, scratch),
            Form::Ask(asked) => self.ask(asked),
            Form::Refute(asked) => self.refute(asked, sample),
        }
    }
}
