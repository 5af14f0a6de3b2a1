// Roles and lists in words.
ghost use Rattle.std.specs.Prelude.{◌≡◌};
ghost use Rattle.tour.specs.Words.{verb};

use std::io;
use terms::{Literal, Role};

/// A role of the tour as a verb.
pub fn reading(role: Role) -> &'static str
    ensures { result.now ≡ verb role.code }
{
    match role.code() {
        0 => "settles",
        1 => "is settled by",
        2 => "pays",
        3 => "is paid by",
        4 => "relates to",
        5 => "is related to by",
        _ => "has another role to",
    }
}

/// Prints a list of literals as a line would have it, with what it is before it.
pub fn print_list(rt: &impl Print, what: &str, list: &[Literal]) -> io::Result<()> {
    print!(rt; "{what} (")?;
    let mut gap = "";
    for literal in list {
        print!(rt; "{gap}{literal}")?;
        gap = " ";
    }
    println!(rt; ")")
}
