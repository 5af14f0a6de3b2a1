// How forms are made of numbers. They are looked at from the left, as a line would be read.
ghost use Rattle.std.specs.Prelude.{◌≡◌};
ghost use Rattle.forms.specs.Forms.{FormOrRefusal, statement_of, subsumption_numbers};
ghost use Rattle.forms.specs.Items.{MadeOrRefused};
ghost use Rattle.forms.specs.Numbers.{axiom_numbers, axiom_refusal, subsumption_refusal};
ghost use Rattle.forms.specs.Statements.{ask_form, axiom_form, close_form, context_form, core_form, hyper_form, pred_form, refute_form, under_form};

use super::Form;
use crate::limits::LIST_LIMIT;
use crate::lists::Items;
use crate::numbered::Numbered;
use crate::numbering::role_of;
use crate::numbers::{LiteralNumbers, SideNumbers};
use crate::ranges::{AxiomNumber, ClauseNumber, ContextNumber};
use crate::steps::{Claim, Concepts, CoreStep, HyperStep, PredStep, Premises, Sides, Subsumption};
use models::ConceptAxiom;
use terms::{Literal, Refusal};

// The axiom that these numbers state.
fn axiom_of(left: &[u32], right: &[LiteralNumbers]) -> Result<ConceptAxiom, Refusal>
    ensures { MadeOrRefused axiom_numbers axiom_refusal (left.now, right.now) result }
{
    let left = Concepts::new(left)?;
    let right = Items::<Literal, LIST_LIMIT>::new(right)?;
    ConceptAxiom::new(left.as_slice(), right.as_slice())
}

// The subsumption that these numbers state.
fn subsumption_of(left: &[u32], right: &[u32]) -> Result<Subsumption, Refusal>
    ensures { MadeOrRefused subsumption_numbers subsumption_refusal (left.now, right.now) result }
{
    let left = Concepts::new(left)?;
    let right = Concepts::new(right)?;
    Ok(Subsumption { left, right })
}

impl Form {
    /// To enter the axiom that each element in all the left concepts is in at least one right literal.
    pub fn axiom(left: &[u32], right: &[LiteralNumbers]) -> Result<Form, Refusal>
        ensures { FormOrRefusal (axiom_form left.now right.now) result }
    {
        Ok(Form::Axiom(axiom_of(left, right)?))
    }

    /// To enter the inclusion of the role code e under s.
    pub fn under(e: u32, s: u32) -> Result<Form, Refusal>
        ensures { FormOrRefusal (under_form e s) result }
    {
        let role = role_of(e)?;
        let upper = role_of(s)?;
        Ok(Form::Under { role, upper })
    }

    /// To close the book.
    pub fn close() -> Form
        ensures { statement_of result ≡ close_form }
    {
        Form::Close
    }

    /// To open a context with this core.
    pub fn context(core_concepts: &[u32]) -> Result<Form, Refusal>
        ensures { FormOrRefusal (context_form core_concepts.now) result }
    {
        Ok(Form::Context(Concepts::new(core_concepts)?))
    }

    /// To enter the clause of the core step for the concept a of the core of context v.
    pub fn core(v: u32, a: u32) -> Result<Form, Refusal>
        ensures { FormOrRefusal (core_form v a) result }
    {
        let context = ContextNumber::new(v)?;
        let concept = u8::from_numbers(a)?;
        Ok(Form::Core(CoreStep { context, concept }))
    }

    /// To enter the claim in context v by a hyper step, from axiom x and a premise for each of its left concepts.
    pub fn hyper(
        v: u32,
        x: u32,
        premises: &[u32],
        claim: &[LiteralNumbers],
    ) -> Result<Form, Refusal>
        ensures { FormOrRefusal (hyper_form v x premises.now claim.now) result }
    {
        let context = ContextNumber::new(v)?;
        let axiom = AxiomNumber::new(x)?;
        let premises = Premises::new(premises)?;
        let claim = Claim::new(claim)?;
        Ok(Form::Hyper(HyperStep {
            context,
            axiom,
            premises,
            claim,
        }))
    }

    /// To enter the claim in context v by a pred step, from `some e a` in clause p, the sides, and clause q of the far context.
    pub fn pred(
        v: u32,
        p: u32,
        e: u32,
        a: u32,
        sides: &[SideNumbers],
        q: u32,
        claim: &[LiteralNumbers],
    ) -> Result<Form, Refusal>
        ensures { FormOrRefusal (pred_form v p e a sides.now q claim.now) result }
    {
        let context = ContextNumber::new(v)?;
        let first = ClauseNumber::new(p)?;
        let role = role_of(e)?;
        let concept = u8::from_numbers(a)?;
        let sides = Sides::new(sides)?;
        let far = ClauseNumber::new(q)?;
        let claim = Claim::new(claim)?;
        Ok(Form::Pred(PredStep {
            context,
            first,
            role,
            concept,
            sides,
            far,
            claim,
        }))
    }

    /// To ask whether a clause shows the subsumption of k by m.
    pub fn ask(k: &[u32], m: &[u32]) -> Result<Form, Refusal>
        ensures { FormOrRefusal (ask_form k.now m.now) result }
    {
        Ok(Form::Ask(subsumption_of(k, m)?))
    }

    /// To ask whether a sample refutes the subsumption of k by m.
    pub fn refute(k: &[u32], m: &[u32]) -> Result<Form, Refusal>
        ensures { FormOrRefusal (refute_form k.now m.now) result }
    {
        Ok(Form::Refute(subsumption_of(k, m)?))
    }
}
