// A field's limits, and a field that is read under them.
ghost use Rattle.std.specs.Prelude.{◌≡◌, ◌≤◌, length, IfOk};
ghost use Rattle.text.specs.Field.{field, within};

use crate::NumberFault;
use crate::number::{Field, scan_number};
use bank::refusal::Refusal;

// The least and the greatest value of a field, and how a number outside is refused.
#[derive(Clone, Copy, PartialEq, Eq, Debug)]
pub struct Limits {
    pub low: u32,
    pub high: u32,
    pub refusal: Refusal,
}

impl Limits {
    // Whether a number stands within the limits.
    pub fn fits(&self, n: u32) -> bool
        ensures { result ≡ within self.now n }
    {
        (self.low..=self.high).contains(&n)
    }
}

// The field at the front of `rest`, which begins at `byte` of its line and is due to be closed by `close`. (Any byte can be due:
// a type of the two closes would ask more of callers.)
pub fn read_field(rest: &[u8], limits: Limits, close: u8, byte: u32) -> Result<Field, NumberFault>
    ensures reads { result ≡ field limits close byte rest.now }
    ensures within { IfOk result (λ f. f.len ≤ length rest.now) }
    ensures short { IfOk result (λ f. f.len ≤ 7) }
{
    let byte = byte as usize;
    let field = scan_number(rest).ok_or(NumberFault::not_in_format(byte))?;
    if !limits.fits(field.number) {
        return Err(NumberFault {
            refusal: limits.refusal,
            byte,
        });
    }
    if field.close != close {
        return Err(NumberFault::not_in_format(byte + field.len));
    }
    Ok(field)
}
