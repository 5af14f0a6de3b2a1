// A side of a pred step. Its methods are in the module below.
use terms::Role;

pub mod methods;

/// A side of a pred step: the clause that it names is to have `all role concept`.
#[derive(Clone, Copy, Default)]
pub struct Side {
    pub clause: u16,
    pub role: Role,
    pub concept: u8,
}
