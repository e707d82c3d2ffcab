// The line of a text that holds a field at fault.
ghost use Rattle.std.specs.Prelude.{◌≡◌};
ghost use Rattle.text.specs.Parts.{faulty_line, line_after, text_with};

use crate::{Section, TextFault};

impl TextFault {
    // The line of the field at fault, without its byte 10: a part of the script where the script holds it, else of the
    // sheet. Past the end of the text it is empty.
    pub fn line_in<'a>(&self, sheet: &'a [u8], script: &'a [u8]) -> &'a [u8]
        ensures { result.now ≡ faulty_line self.now sheet.now script.now }
    {
        line_of(
            self.text_of(sheet, script),
            self.line.line.saturating_sub(1),
        )
    }

    // The text that holds the fault.
    fn text_of<'a>(&self, sheet: &'a [u8], script: &'a [u8]) -> &'a [u8]
        ensures { result.now ≡ text_with self.now sheet.now script.now }
    {
        if self.section == Section::Script as u8 {
            script
        } else {
            sheet
        }
    }
}

// The line that has `before` lines before it.
fn line_of(text: &[u8], before: usize) -> &[u8]
    ensures { result.now ≡ line_after before text.now }
{
    text.split(|b| *b == b'\n').nth(before).unwrap_or(&[])
}
