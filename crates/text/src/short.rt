// A text that is short enough to be read.
ghost use Rattle.std.specs.Prelude.{◌≡◌, ◌≤◌, ◌<◌, length, IfOk, IfErr};

use crate::{MAX_TEXT, ReadFault};

// A text of at most 16,384 bytes.
#[derive(Clone, Copy, PartialEq, Eq, Debug)]
pub struct ShortText<'a> {
    pub bytes: &'a [u8],
    pub ghost short: { length bytes.now ≤ 16384 },
}

impl<'a> ShortText<'a> {
    // The text of these bytes, or the fault of one that is too long.
    pub fn new(bytes: &'a [u8]) -> Result<ShortText<'a>, ReadFault>
        ensures holds { IfOk result (λ text. text.bytes.now ≡ bytes.now) }
        ensures too_long { IfErr result (λ fault. 16384 < length bytes.now) }
        ensures fault { IfErr result (λ fault. fault ≡ ReadFault.TextTooLong) }
    {
        if bytes.len() > MAX_TEXT {
            return Err(ReadFault::TextTooLong);
        }
        Ok(ShortText { bytes })
    }
}
