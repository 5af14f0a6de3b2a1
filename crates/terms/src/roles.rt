// A role code. The struct stands apart, so that files of specs/ can name it; its other methods are in the module below.
ghost use Rattle.std.specs.Prelude.{◌≡◌, ◌<◌};
ghost use Rattle.terms.specs.Limits.{role_codes};

pub mod methods;

/// How many role names there are: 0 to 31.
pub const ROLE_NAMES: u8 = 32;

/// How many role codes there are: two for each role name.
pub const ROLE_CODES: u8 = 2 * ROLE_NAMES;

/// A role code: 2 × n for the role name n read forwards, 2 × n + 1 for n read backwards.
#[derive(Clone, Copy, Debug, PartialEq, Eq)]
pub struct Role {
    code: u8,
    ghost ok: { code < role_codes },
}

impl Role {
    /// The code, below 64.
    pub fn code(self) -> u8
        ensures value { result ≡ self.code }
        ensures range { result < role_codes }
    {
        self.code
    }
}
