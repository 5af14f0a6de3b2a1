// What the tests of several files make and tell.
use models::{Entry, Fact};
use terms::Refusal;

pub fn element(concept: u8, element: u8) -> Result<Entry, Refusal> {
    Entry::new(Fact::In { concept, element })
}

pub fn link(role: u8, from: u8, to: u8) -> Result<Entry, Refusal> {
    Entry::new(Fact::Link { role, from, to })
}

/// The number, A and B of a refusal, all 0 where nothing is refused.
pub fn told<T: Drop>(answer: Result<T, Refusal>) -> (u8, usize, usize) {
    match answer {
        Ok(_) => (0, 0, 0),
        Err(refusal) => {
            let (a, b) = refusal.values();
            (refusal.number(), a, b)
        }
    }
}

/// The number and A of a refusal, both 0 where nothing is refused.
pub fn told_first<T: Drop>(answer: Result<T, Refusal>) -> (u8, usize) {
    let (number, a, _) = told(answer);
    (number, a)
}

/// The number of a refusal, or 0 where nothing is refused.
pub fn made<T: Drop>(answer: Result<T, Refusal>) -> u8 {
    let (number, _) = told_first(answer);
    number
}
