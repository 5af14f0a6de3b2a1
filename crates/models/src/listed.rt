// A sample that is a list of entries in lent memory.
ghost use Rattle.std.specs.Prelude.{◌≤◌, length};

use crate::entries::Entry;

pub mod methods;

/// The entries of a sample, in memory that the host lends; how many there are; and the size of the sample.
#[derive(Drop)]
pub struct List<'a> {
    entries: &'a mut [Entry],
    count: usize,
    size: u8,
    ghost fits: { count ≤ length entries.now },
}
