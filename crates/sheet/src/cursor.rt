// The reading of a text, line by line.
ghost use Rattle.std.specs.Prelude.{◌≡◌, ◌+◌, ◌≤◌, length};

use crate::rows::{Row, close_after};
use arrayvec::ArrayVec;
use bank::refusal::Refusal;
use text::limits::{Limits, read_field};
use text::short::ShortText;
use text::{LineFault, NumberFault, at_place};

// Where the reading of a text has come: the bytes that are left, which begin a line, and that line's number from 1.
// Each line takes a byte at least, so the line's number stays small.
#[derive(Drop)]
pub(crate) struct Cursor<'a> {
    rest: &'a [u8],
    line: usize,
    ghost bounded: { line + length rest.now ≤ 16385 },
}

impl<'a> Cursor<'a> {
    ghost use Rattle.arrayvec.specs.ArrayVec.{array_vec_len};
    ghost use Rattle.sheet.specs.Places.{EndRead, RowsRead, SectionRead};

    // The front of a text.
    pub(crate) fn new(text: ShortText<'a>) -> Cursor<'a>
        ensures rest { result.rest.now ≡ text.entry.bytes.now }
        ensures line { result.line ≡ 1 }
    {
        Cursor {
            rest: text.bytes,
            line: 1,
        }
    }

    // Reads `count` lines, and adds the record of each to `rows`. The first field at fault ends both loops.
    pub(crate) fn read_rows<const N: usize, R: Row<N>, const CAP: usize>(
        &mut self,
        count: usize,
        rows: &mut ArrayVec<R, CAP>,
    ) -> Result<(), LineFault>
        requires { array_vec_len rows.old + count ≤ CAP }
        ensures { RowsRead R.Row.LIMITS R.Row.make count self.old rows.old.items self.new rows.new.items result }
    {
        let limits = R::LIMITS;
        let mut rest = self.rest;
        'text: {
            for i in 0..count {
                let mut byte = 0u32;
                let mut numbers = [0u32; N];
                for (j, limit) in limits.iter().enumerate() {
                    match read_field(rest, *limit, close_after(N, j), byte) {
                        Ok(field) => {
                            // By its index: over `zip(numbers.iter_mut())` the proof does not close, since nothing is known
                            // of the writes after the loop.
                            numbers[j] = field.number;
                            rest = &rest[field.len..];
                            byte += field.len as u32;
                        }
                        Err(number) => break 'text Err(LineFault::from((self.line + i, number))),
                    }
                }
                rows.push(R::from_numbers(&numbers));
            }
            *self = Cursor {
                rest,
                line: self.line + count,
            };
            Ok(())
        }
    }

    // Reads a section into `rows`, in place of what they were: the count of its lines on a line of its own, and then
    // the lines.
    pub(crate) fn read_section<const N: usize, R: Row<N> + Default, const CAP: usize>(
        &mut self,
        rows: &mut ArrayVec<R, CAP>,
    ) -> Result<(), LineFault>
        requires { R.Row.MOST ≤ CAP }
        ensures { SectionRead R.Row.MOST R.Row.LIMITS R.Row.make self.old self.new rows.new.items result }
    {
        let limits = Limits {
            low: 0,
            high: R::MOST,
            refusal: Refusal::CountAboveLimit,
        };
        let count = at_place(self.line, read_field(self.rest, limits, b'\n', 0))?;
        *self = Cursor {
            rest: &self.rest[count.len..],
            line: self.line + 1,
        };
        rows.clear();
        self.read_rows(count.number as usize, rows)
    }

    // Whether no byte is left, or else the fault of a surplus line.
    pub(crate) fn read_end(&self) -> Result<(), LineFault>
        ensures { EndRead self.now result }
    {
        if self.rest.is_empty() {
            return Ok(());
        }
        Err(LineFault::from((self.line, NumberFault::not_in_format(0))))
    }
}
