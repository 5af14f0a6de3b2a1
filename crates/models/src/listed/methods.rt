ghost use Rattle.std.specs.Prelude.{◌≡◌, ◌<◌, map, Decides};
ghost use Rattle.terms.specs.Lists.{◌∈◌};
ghost use Rattle.models.specs.Listed.{add_refusal, added, changed_unless, contents, empty, fact_of, fill_refusal, filled, held_entries, list_meaning, outside, says, start_refusal, started, unless_refused};
ghost use Rattle.models.specs.Meanings.{element_in, linked};

use super::List;
use crate::entries::Entry;
use crate::facts::Fact;
use crate::samples::{Fault, Sample, size_fault};
use terms::Refusal;

/// The most entries that a list holds.
pub const ENTRY_LIMIT: usize = 1024;

// The first element of the fact that is not below the size.
fn first_outside(size: u8, fact: Fact) -> Option<u8>
    ensures { result ≡ outside size fact }
{
    match fact {
        Fact::In { element, .. } => Some(element).filter(|x| *x >= size),
        Fact::Link { from, to, .. } => Some(from)
            .filter(|x| *x >= size)
            .or(Some(to).filter(|x| *x >= size)),
    }
}

// Whether one of the entries says the fact.
fn some_says(entries: &[Entry], fact: Fact) -> bool
    ensures value { result ≡ says entries.now fact }
    ensures means { Decides result (fact ∈ map fact_of entries.now) }
{
    entries.iter().any(|entry| fact == entry.fact())
}

impl<'a> List<'a> {
    /// A list of no entries over this memory, with one element.
    pub fn new(entries: &'a mut [Entry]) -> List<'a>
        ensures value { contents result ≡ empty entries.old }
        ensures lent { result.entries.ghost_name ≡ entries.entry.ghost_name }
    {
        List {
            entries,
            count: 0,
            size: 1,
        }
    }

    /// Counts from no entries again, with n elements, which are to be 1 to 64 (19).
    pub fn start(&mut self, n: u8) -> Result<(), Refusal>
        ensures answer { result ≡ unless_refused (start_refusal n) }
        ensures change { contents self.new ≡ changed_unless (start_refusal n) (started (contents self.old) n) (contents self.old) }
        ensures lent { self.new.entries.ghost_name ≡ self.old.entries.ghost_name }
    {
        if let Some(fault) = size_fault(n) {
            return Err(fault.into());
        }
        self.count = 0;
        self.size = n;
        Ok(())
    }

    /// Writes the entry at the place after the last one. Its elements are to be in the sample (20), and a place is to be free (7).
    pub fn add(&mut self, entry: Entry) -> Result<(), Refusal>
        ensures answer { result ≡ unless_refused (add_refusal (contents self.old) entry) }
        ensures change { contents self.new ≡ changed_unless (add_refusal (contents self.old) entry) (added (contents self.old) entry) (contents self.old) }
        ensures lent { self.new.entries.ghost_name ≡ self.old.entries.ghost_name }
    {
        if let Some(x) = first_outside(self.size, entry.fact()) {
            return Err(Refusal::ElementOutside { at: x as usize });
        }
        let limit = ENTRY_LIMIT.min(self.entries.len());
        if self.count >= limit {
            return Err(Refusal::NoPlaceFree { limit });
        }
        self.entries[self.count] = entry;
        self.count += 1;
        Ok(())
    }

    /// Adds the entries one by one, up to the first that is refused.
    pub fn add_all(&mut self, entries: &[Entry]) -> Result<(), Refusal>
        ensures answer { result ≡ unless_refused (fill_refusal (contents self.old) entries.now) }
        ensures change { contents self.new ≡ filled (contents self.old) entries.now }
        ensures lent { self.new.entries.ghost_name ≡ self.old.entries.ghost_name }
    {
        for item in entries {
            self.add(*item)?;
        }
        Ok(())
    }

    /// The entries that are held.
    pub fn entries(&self) -> &[Entry]
        ensures { result.now ≡ held_entries (contents self.now) }
    {
        &self.entries[..self.count]
    }
}

impl Sample for List<'_> {
    ghost meaning = { λ l. list_meaning (contents l) };

    fn fault(&self) -> Option<Fault> {
        size_fault(self.size)
    }

    fn size(&self) -> u8 {
        self.size
    }

    fn is_in(&self, concept: u8, x: u8) -> bool
        ensures value { result ≡ element_in (list_meaning (contents self.now)) concept x }
        ensures entry { x < self.now.size → Decides result (Fact.In concept x ∈ map fact_of (held_entries (contents self.now))) }
    {
        x < self.size
            && some_says(
                self.entries(),
                Fact::In {
                    concept,
                    element: x,
                },
            )
    }

    fn links(&self, role: u8, x: u8, y: u8) -> bool
        ensures value { result ≡ linked (list_meaning (contents self.now)) role x y }
        ensures entry { x < self.now.size → y < self.now.size → Decides result (Fact.Link role x y ∈ map fact_of (held_entries (contents self.now))) }
    {
        x < self.size
            && y < self.size
            && some_says(
                self.entries(),
                Fact::Link {
                    role,
                    from: x,
                    to: y,
                },
            )
    }
}
