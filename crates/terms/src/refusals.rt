// Why a call was refused. Each cause has a number and up to two values, A and B, which docs/REFUSALS.md lists.
ghost use Rattle.std.specs.Prelude.{◌≡◌};
ghost use Rattle.terms.specs.Refusals.{first_value, number, second_value};

use std::error::Error;
use std::fmt;

#[derive(Clone, Copy, PartialEq, Eq)]
pub enum Refusal {
    /// 1: the byte at this offset is wrong or missing.
    WrongByte { at: usize },
    /// 2: the numeral at this offset is outside its range.
    OutOfRange { at: usize },
    /// 3: the item at this offset does not stand above the one before it.
    NotRising { at: usize },
    /// 4: a list, line or text is too long: at this offset stands the first item or byte too many.
    TooLong { at: usize },
    /// 5: the book is closed, and the form is for an open one.
    BookClosed,
    /// 6: the book is open, and the form is for a closed one.
    BookOpen,
    /// 7: this many places are taken, and there are no more.
    NoPlaceFree { limit: usize },
    /// 8: no context has this number.
    ContextNotOpened { context: usize },
    /// 9: no concept axiom has this number.
    NoConceptAxiom { axiom: usize },
    /// 10: the premise names a clause that was not entered.
    ClauseNotEntered { premise: usize, clause: usize },
    /// 11: the step has not as many premises as it needs.
    PremisesMiscounted { given: usize, needed: usize },
    /// 12: the premise is a clause of this other context.
    OtherContext { premise: usize, context: usize },
    /// 13: the premise's head lacks the literal that it is to have.
    LiteralAbsent { premise: usize },
    /// 14: the role of the step does not reach the role of this premise.
    RoleNotReached { premise: usize },
    /// 15: the core of this context is not the one that is needed.
    CoreDiffers { context: usize },
    /// 16: the literal at this index of the last premise's head does not fit.
    LiteralUnfit { index: usize },
    /// 17: the head has more literals than this limit.
    HeadTooLong { limit: usize },
    /// 18: the claim is not the head that the rule yields, first at this index.
    ClaimDiffers { index: usize },
    /// 19: a table of the wrong length, or a sample with this many elements, which is not 1 to 64.
    SampleMisshapen { size: usize },
    /// 20: this element is not in the sample; or this row of a table names an element that is not.
    ElementOutside { at: usize },
    /// 21: the axiom fails in the sample, at this element.
    AxiomFails { axiom: usize, element: usize },
    /// 22: no element of the sample contradicts the subsumption.
    NoneContradicts,
    /// 23: the lent memory is shorter than this length, which is needed.
    MemoryTooShort { needed: usize },
}

impl Refusal {
    /// The refusal's number, 1 to 23.
    pub fn number(&self) -> u8
        ensures { result ≡ number self.now }
    {
        match *self {
            Refusal::WrongByte { .. } => 1,
            Refusal::OutOfRange { .. } => 2,
            Refusal::NotRising { .. } => 3,
            Refusal::TooLong { .. } => 4,
            Refusal::BookClosed => 5,
            Refusal::BookOpen => 6,
            Refusal::NoPlaceFree { .. } => 7,
            Refusal::ContextNotOpened { .. } => 8,
            Refusal::NoConceptAxiom { .. } => 9,
            Refusal::ClauseNotEntered { .. } => 10,
            Refusal::PremisesMiscounted { .. } => 11,
            Refusal::OtherContext { .. } => 12,
            Refusal::LiteralAbsent { .. } => 13,
            Refusal::RoleNotReached { .. } => 14,
            Refusal::CoreDiffers { .. } => 15,
            Refusal::LiteralUnfit { .. } => 16,
            Refusal::HeadTooLong { .. } => 17,
            Refusal::ClaimDiffers { .. } => 18,
            Refusal::SampleMisshapen { .. } => 19,
            Refusal::ElementOutside { .. } => 20,
            Refusal::AxiomFails { .. } => 21,
            Refusal::NoneContradicts => 22,
            Refusal::MemoryTooShort { .. } => 23,
        }
    }

    /// The two values A and B that go with the number, 0 where none is named.
    pub fn values(&self) -> (usize, usize)
        ensures first { result.0 ≡ first_value self.now }
        ensures second { result.1 ≡ second_value self.now }
    {
        match *self {
            Refusal::BookClosed | Refusal::BookOpen | Refusal::NoneContradicts => (0, 0),
            Refusal::WrongByte { at: a }
            | Refusal::OutOfRange { at: a }
            | Refusal::NotRising { at: a }
            | Refusal::TooLong { at: a }
            | Refusal::NoPlaceFree { limit: a }
            | Refusal::ContextNotOpened { context: a }
            | Refusal::NoConceptAxiom { axiom: a }
            | Refusal::LiteralAbsent { premise: a }
            | Refusal::RoleNotReached { premise: a }
            | Refusal::CoreDiffers { context: a }
            | Refusal::LiteralUnfit { index: a }
            | Refusal::HeadTooLong { limit: a }
            | Refusal::ClaimDiffers { index: a }
            | Refusal::SampleMisshapen { size: a }
            | Refusal::ElementOutside { at: a }
            | Refusal::MemoryTooShort { needed: a } => (a, 0),
            Refusal::ClauseNotEntered {
                premise: a,
                clause: b,
            }
            | Refusal::PremisesMiscounted {
                given: a,
                needed: b,
            }
            | Refusal::OtherContext {
                premise: a,
                context: b,
            }
            | Refusal::AxiomFails {
                axiom: a,
                element: b,
            } => (a, b),
        }
    }
}

// A refusal is told by its number and values, as everywhere, and not by the name of its variant.
impl fmt::Debug for Refusal {
    fn fmt<W: fmt::Write>(&self, f: &mut fmt::Formatter<W>) -> fmt::Result {
        let number = self.number();
        let (first, second) = self.values();
        write!(f, "Refusal({number}, {first}, {second})")
    }
}

impl fmt::Display for Refusal {
    fn fmt<W: fmt::Write>(&self, f: &mut fmt::Formatter<W>) -> fmt::Result {
        let number = self.number();
        let (first, second) = self.values();
        write!(f, "refused {number} {first} {second}")
    }
}

impl Error for Refusal {}
