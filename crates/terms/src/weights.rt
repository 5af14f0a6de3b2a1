// Numbers as sets of weights.
ghost use Rattle.std.specs.Prelude.{◌≡◌};
ghost use Rattle.terms.specs.Tables.{weight};

/// Whether the number has the weight 2^x.
pub fn has_weight(row: u64, x: u8) -> bool
    ensures { result ≡ weight row x }
{
    x < 64 && (row >> x) & 1 == 1
}
