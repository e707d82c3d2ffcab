// One line of a script: its command, and the text after it.
ghost use Rattle.std.specs.Prelude.{◌≡◌};
ghost use Rattle.text.specs.Field.{field};
ghost use Rattle.script.specs.Script.{command_line};
ghost use Rattle.script.specs.Lines.{after_line, line_read, NumberedAt};

use crate::Command;
use bank::refusal::Refusal;
use text::NumberFault;
use text::limits::{Limits, read_field};

// A number that may be any in the format.
const ANY_NUMBER: Limits = Limits {
    low: 0,
    high: 999999,
    refusal: Refusal::NotInFormat,
};

// A line that was read: its command, and the text after its byte 10.
#[derive(Clone, Copy)]
pub(crate) struct Line<'a> {
    pub command: Command,
    pub rest: &'a [u8],
}

// The line whose letter and space stand before `rest`, by its number.
fn numbered_line<'a, F: FnOnce(u32) -> Command>(
    rest: &'a [u8],
    limits: Limits,
    command: F,
) -> Result<Line<'a>, NumberFault>
    requires { F.IsAlwaysCallable command }
    ensures { NumberedAt (F.post command) rest.now (field limits 10 2 rest.now) result }
{
    let field = read_field(rest, limits, b'\n', 2)?;
    Ok(Line {
        command: command(field.number),
        rest: &rest[field.len..],
    })
}

// The line at the front of a text, by its letter and the letter's close.
pub(crate) fn read_line(text: &[u8], tickets: u32) -> Result<Line<'_>, NumberFault>
    ensures { line_read result ≡ after_line text.now (command_line tickets text.now) }
{
    let ticket = Limits {
        low: 1,
        high: tickets,
        refusal: Refusal::NoSuchTicket,
    };
    let [letter, close, rest @ ..] = text else {
        return Err(NumberFault::not_in_format(0));
    };
    match (*letter as char, *close as char) {
        ('A', ' ') => numbered_line(rest, ticket, Command::Admit),
        ('W', ' ') => numbered_line(rest, ANY_NUMBER, Command::Withdraw),
        ('S', '\n') => Ok(Line {
            command: Command::Serve,
            rest,
        }),
        ('T', '\n') => Ok(Line {
            command: Command::TakeBack,
            rest,
        }),
        // A number is missing, or a field is surplus.
        ('A' | 'W', '\n') | ('S' | 'T', ' ') => Err(NumberFault::not_in_format(2)),
        _ => Err(NumberFault::not_in_format(0)),
    }
}
