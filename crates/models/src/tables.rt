// A sample that is a table of bits in lent bytes.
ghost use Rattle.std.specs.Prelude.{◌≡◌, ℕ, ◌+◌, ◌*◌, ◌^◌, ◌<◌, ◌≤◌, true, length, nat_le};
ghost use Rattle.std.specs.Int.Digits.{number_from_digits};
ghost use Rattle.terms.specs.Tables.{weight};
ghost use Rattle.models.specs.Meanings.{element_in, linked};
ghost use Rattle.models.specs.Tables.{is_shaped, lowest_stray, row, row_bit, table_meaning};

use crate::samples::{ELEMENT_LIMIT, Fault, Sample, size_fault};
use terms::literals::CONCEPTS;
use terms::roles::ROLE_NAMES;
use terms::weights::has_weight;

// How many concepts there are, and so how many rows stand before those of the role names.
const CONCEPT_ROWS: usize = CONCEPTS as usize;

/// How many bytes a row has.
pub const ROW_BYTES: usize = 8;

/// How many bytes the largest table has.
pub const TABLE_LIMIT: usize = ROW_BYTES
    * (CONCEPT_ROWS + ROLE_NAMES as usize * ELEMENT_LIMIT as usize);

// How many rows a table of n elements has.
fn row_count(n: u8) -> usize
    ensures { result ≡ 256 + 32 * n }
{
    CONCEPT_ROWS + ROLE_NAMES as usize * n as usize
}

/// A table of 8 × (256 + 32 × N) bytes and its size N. A row is 8 bytes, highest byte first, and its weight 2^x stands for element x. Row A
/// holds the elements of concept A; row 256 + r × N + X holds the elements to which the role name r links X.
#[derive(Clone, Copy)]
pub struct Table<'a> {
    bytes: &'a [u8],
    size: u8,
}

// The number that eight bytes write, highest byte first.
fn number_of(row: &[u8; ROW_BYTES]) -> u64
    ensures { result ≡ number_from_digits 256 row.now }
{
    u64::from_be_bytes(*row)
}

// Row k.
fn row_of(bytes: &[u8], k: usize) -> u64
    requires { 8 * k + 8 ≤ length bytes.now }
    ensures value { result ≡ row bytes.now k }
    ensures bits { (x : ℕ) → x < 64 → weight result x ≡ row_bit bytes.now k x }
{
    let (rows, _) = bytes.as_chunks::<ROW_BYTES>();
    number_of(&rows[k])
}

// Whether the row has a weight from 2^n up.
fn strays(row: u64, n: u8) -> bool
    ensures { result ≡ nat_le (2 ^ n) row }
{
    n < ELEMENT_LIMIT && row >> n != 0
}

impl<'a> Table<'a> {
    /// The table in these bytes, of this size. Whether they fit together, `fault` says.
    pub fn new(bytes: &'a [u8], size: u8) -> Table<'a>
        ensures value { result.bytes.now ≡ bytes.now }
        ensures size { result.size ≡ size }
    {
        Table { bytes, size }
    }

    // Whether the size is from 1 to 64, and there are as many bytes as it asks for.
    fn has_shape(&self) -> bool
        ensures { result ≡ is_shaped self.now.bytes.now self.now.size }
    {
        size_fault(self.size).is_none() && self.bytes.len() == ROW_BYTES * row_count(self.size)
    }

    // The lowest row that names an element outside the sample.
    fn stray_row(&self) -> Option<usize>
        requires { is_shaped self.now.bytes.now self.now.size ≡ true }
        ensures { result ≡ lowest_stray self.now.bytes.now self.now.size }
    {
        let (rows, _) = self.bytes.as_chunks::<ROW_BYTES>();
        rows.iter()
            .position(|row| strays(number_of(row), self.size))
    }
}

impl Sample for Table<'_> {
    ghost meaning = { λ t. table_meaning t.bytes.now t.size };

    fn fault(&self) -> Option<Fault> {
        if !self.has_shape() {
            return Some(Fault::Misshapen {
                size: self.size as usize,
            });
        }
        self.stray_row().map(|row| Fault::Outside { row })
    }

    fn size(&self) -> u8 {
        self.size
    }

    fn is_in(&self, concept: u8, x: u8) -> bool
        ensures value { result ≡ element_in (table_meaning self.now.bytes.now self.now.size) concept x }
        ensures bit { is_shaped self.now.bytes.now self.now.size ≡ true → x < self.now.size → result ≡ row_bit self.now.bytes.now concept x }
    {
        x < self.size && self.has_shape() && has_weight(row_of(self.bytes, concept as usize), x)
    }

    fn links(&self, role: u8, x: u8, y: u8) -> bool
        ensures value { result ≡ linked (table_meaning self.now.bytes.now self.now.size) role x y }
        ensures bit { is_shaped self.now.bytes.now self.now.size ≡ true → role < 32 → x < self.now.size → y < self.now.size → result ≡ row_bit self.now.bytes.now (256 + role * self.now.size + x) y }
    {
        x < self.size
            && y < self.size
            && self.has_shape()
            && role < ROLE_NAMES
            && has_weight(
                row_of(
                    self.bytes,
                    CONCEPT_ROWS + role as usize * self.size as usize + x as usize,
                ),
                y,
            )
    }
}
