// Samples: finite interpretations that can be asked.
ghost use Rattle.std.specs.Prelude.{◌≡◌};
ghost use Rattle.models.specs.Meanings.{Meaning, element_in, fault_of, fault_of_size, linked, refusal_of};

use terms::Refusal;

/// The most elements that a sample has: 0 to 63.
pub const ELEMENT_LIMIT: u8 = 64;

/// What keeps a sample from being judged.
#[derive(Clone, Copy, Debug, PartialEq, Eq)]
pub enum Fault {
    /// A table of the wrong length, or a sample with this many elements, which is not 1 to 64.
    Misshapen { size: usize },
    /// This row of a table names an element that is not in the sample.
    Outside { row: usize },
}

/// The fault of a sample with n elements that it has for its size alone: it is to have 1 to 64.
pub fn size_fault(n: u8) -> Option<Fault>
    ensures { result ≡ fault_of_size n }
{
    if (1..=ELEMENT_LIMIT).contains(&n) {
        None
    } else {
        Some(Fault::Misshapen { size: n as usize })
    }
}

/// A fault gets the refusal 19 or 20.
impl From<Fault> for Refusal {
    ghost from_gives = { λ fault refusal. refusal ≡ refusal_of fault };

    fn from(fault: Fault) -> Refusal {
        match fault {
            Fault::Misshapen { size } => Refusal::SampleMisshapen { size },
            Fault::Outside { row } => Refusal::ElementOutside { at: row },
        }
    }
}

/// A finite interpretation with the elements 0 to N - 1, N from 1 to 64. Questions change nothing, and elements outside are in nothing.
pub trait Sample {
    ghost meaning: { Self → Meaning };

    /// What keeps it from being a sample, if anything.
    fn fault(&self) -> Option<Fault>
        ensures { result ≡ fault_of (meaning self.now) };

    /// How many elements it has.
    fn size(&self) -> u8
        ensures { result ≡ (meaning self.now).size };

    /// Whether element x is in the concept.
    fn is_in(&self, concept: u8, x: u8) -> bool
        ensures { result ≡ element_in (meaning self.now) concept x };

    /// Whether the role name links element x to element y.
    fn links(&self, role: u8, x: u8, y: u8) -> bool
        ensures { result ≡ linked (meaning self.now) role x y };
}
