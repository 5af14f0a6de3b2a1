// Literals and sides as numbers of any size state them, in range or not.

/// The numbers of a literal: its concept, or its role code and its concept.
#[derive(Clone, Copy)]
pub enum LiteralNumbers {
    Concept(u32),
    Exists(u32, u32),
    Forall(u32, u32),
}

/// The numbers of a side: its clause, its role code and its concept.
#[derive(Clone, Copy)]
pub struct SideNumbers {
    pub clause: u32,
    pub role: u32,
    pub concept: u32,
}
