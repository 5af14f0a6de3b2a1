ghost use Rattle.std.specs.Prelude.{◌≡◌, ◌*◌, ◌<◌, not};
ghost use Rattle.terms.specs.Limits.{role_codes, role_names};
ghost use Rattle.terms.specs.Roles.{RoleOrRefusal, backwards, mirror, name_of};

use super::{ROLE_CODES, ROLE_NAMES, Role};
use crate::refusals::Refusal;
use std::fmt;

impl Role {
    /// The role of a code, which is to be below 64.
    pub fn new(code: u8) -> Result<Role, Refusal>
        ensures { RoleOrRefusal result code code role_codes }
    {
        if code < ROLE_CODES {
            Ok(Role { code })
        } else {
            Err(Refusal::OutOfRange { at: 0 })
        }
    }

    /// The role name, which is to be below 32, read forwards.
    pub fn forwards(name: u8) -> Result<Role, Refusal>
        ensures { RoleOrRefusal result (2 * name) name role_names }
    {
        if name < ROLE_NAMES {
            Ok(Role { code: 2 * name })
        } else {
            Err(Refusal::OutOfRange { at: 0 })
        }
    }

    /// The role name, below 32.
    pub fn name(self) -> u8
        ensures value { result ≡ name_of self.code }
        ensures range { result < role_names }
    {
        self.code / 2
    }

    /// Whether the role name is read backwards.
    pub fn is_backwards(self) -> bool
        ensures { result ≡ backwards self.code }
    {
        self.code % 2 == 1
    }

    /// The same role name read the other way.
    pub fn mirror(self) -> Role
        ensures value { result.code ≡ mirror self.code }
        ensures same_name { name_of result.code ≡ name_of self.code }
        ensures other_way { backwards result.code ≡ not (backwards self.code) }
        ensures twice { mirror result.code ≡ self.code }
    {
        Role {
            code: self.code ^ 1,
        }
    }
}

impl Default for Role {
    ghost is_default = { λ role. role.code ≡ 0 };

    /// The role name 0 read forwards.
    fn default() -> Role {
        Role { code: 0 }
    }
}

impl fmt::Display for Role {
    fn fmt<W: fmt::Write>(&self, f: &mut fmt::Formatter<W>) -> fmt::Result {
        let code = self.code;
        write!(f, "{code}")
    }
}
