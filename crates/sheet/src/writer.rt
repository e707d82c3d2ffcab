// Writing of fields, lines and sections.
ghost use Rattle.std.specs.Prelude.{◌≡◌, ℕ, ◌+◌, ◌*◌, ◌^◌, ◌<◌, ◌≤◌, true, List, [], ◌∷◌, ◌++◌, length, decimal};
ghost use Rattle.std.specs.List.{list_all};
ghost use Rattle.sheet.specs.Fields.{fits};
ghost use Rattle.sheet.specs.Writing.{write_line, write_lines, write_section};

use crate::rows::{Row, close_after};
use arrayvec::ArrayVec;
use itoa::Buffer;
use std::marker::Model;

// Room for every sheet: at most 138 lines of records, each of at most 35 bytes (5 numbers of 6 digits, each with its
// close), and 4 lines of counts, each of at most 7 bytes.
pub(crate) const ROOM: usize = 4900;

// The text of a sheet, as far as it is written.
#[derive(Drop)]
pub(crate) struct Written {
    bytes: ArrayVec<u8, ROOM>,
}

impl Model for Written {
    ghost Value = { List ℕ };

    ghost view = { λ t. t.bytes.items };
}

// Room for what comes stands in each call that adds, as it speaks of what the text does not hold yet. That rows fit stands in
// the three that take rows, and in no type: one test of a whole sheet comes before the first byte.
impl Written {
    // No text yet.
    pub(crate) fn new() -> Written
        ensures { result ≡ [] }
    {
        Written {
            bytes: ArrayVec::new(),
        }
    }

    // Its bytes.
    pub(crate) fn bytes(&self) -> &[u8]
        ensures { result.now ≡ self.now }
    {
        &self.bytes
    }

    // Adds a field: the digits of `n`, at most six, and then `close`, the byte itself as it is written.
    #[tactic(auto, using(crate::proofs::Digits::six_digits))]
    fn put_field(&mut self, n: u32, close: u8)
        requires room { length self.old + 7 ≤ ROOM }
        requires small { n < 10 ^ 6 }
        ensures wrote { self.new ≡ self.old ++ (decimal n ++ close ∷ []) }
        ensures short { length self.new ≤ length self.old + 7 }
    {
        let mut buffer = Buffer::new();
        let digits = buffer.format(n).as_bytes();
        self.bytes.try_extend_from_slice(digits).unwrap();
        self.bytes.push(close);
    }

    // Adds the line of `row`.
    fn put_row<const N: usize, R: Row<N>>(&mut self, row: &R)
        requires room { length self.old + 35 ≤ ROOM }
        requires fit { fits R.Row.LIMITS (R.Row.numbers row.now) ≡ true }
        ensures wrote { self.new ≡ self.old ++ write_line (R.Row.numbers row.now) }
        ensures short { length self.new ≤ length self.old + 35 }
    {
        let numbers = row.numbers();
        for (j, n) in numbers.iter().enumerate() {
            self.put_field(*n, close_after(N, j));
        }
    }

    // Adds the lines of `rows`.
    pub(crate) fn put_rows<const N: usize, R: Row<N>>(&mut self, rows: &[R])
        requires room { length self.old + 35 * length rows.now ≤ ROOM }
        requires fit { list_all (λ x. fits R.Row.LIMITS (R.Row.numbers x)) rows.now ≡ true }
        ensures wrote { self.new ≡ self.old ++ write_lines R.Row.numbers rows.now }
        ensures short { length self.new ≤ length self.old + 35 * length rows.now }
    {
        for row in rows {
            self.put_row(row);
        }
    }

    // Adds a section: the count of `rows`, and their lines.
    pub(crate) fn put_section<const N: usize, R: Row<N>>(&mut self, rows: &[R])
        requires few { length rows.now ≤ 64 }
        requires room { length self.old + 7 + 35 * length rows.now ≤ ROOM }
        requires fit { list_all (λ x. fits R.Row.LIMITS (R.Row.numbers x)) rows.now ≡ true }
        ensures wrote { self.new ≡ self.old ++ write_section R.Row.numbers rows.now }
        ensures short { length self.new ≤ length self.old + 7 + 35 * length rows.now }
    {
        self.put_field(rows.len() as u32, b'\n');
        self.put_rows(rows);
    }
}
