// Numbers below a limit, which `==` knows.
ghost use Rattle.forms.specs.Ranges.{below_decides};

use crate::ranges::Below;
use terms::Exact;

impl<const LIMIT: usize> Exact for Below<LIMIT> {
    ghost exact = { below_decides LIMIT };
}
