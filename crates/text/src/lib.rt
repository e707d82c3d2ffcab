// Texts of numbers: one field, and the faults of a text with the place of each.
#![tactic(auto)]

ghost use Rattle.std.specs.Prelude.{◌≡◌};
ghost use Rattle.text.specs.Faults.{fault_number, fault_place, not_in_format, section_number, tagged};
ghost use Rattle.text.specs.declared.ReadFault.TheVariants.{At};

use bank::refusal::Refusal;

pub mod limits;
mod line;
pub mod number;
pub mod short;

// The most bytes that a text has.
pub const MAX_TEXT: usize = 16384;

// A field at fault: what is wrong, and its first byte in its line.
#[derive(Clone, Copy, PartialEq, Eq, Debug)]
pub struct NumberFault {
    pub refusal: Refusal,
    pub byte: usize,
}

// A number's fault with its line, counted from 1.
#[derive(Clone, Copy, PartialEq, Eq, Debug)]
pub struct LineFault {
    pub line: usize,
    pub number: NumberFault,
}

// The part of a sheet that a field lies in, or else the script; each has its number.
#[derive(Clone, Copy, PartialEq, Eq, Debug)]
pub enum Section {
    // Line 1 of a sheet: the bank's size.
    Head = 0,
    Outages = 1,
    Windows = 2,
    CoolDown = 3,
    Tickets = 4,
    Script = 9,
}

// A line's fault with the number of its section.
#[derive(Clone, Copy, PartialEq, Eq, Debug)]
pub struct TextFault {
    // A number and no Section: callers may make a fault with any number, and the enum would ask more of them.
    pub section: u8,
    pub line: LineFault,
}

// Why a text is not read: it is too long, a list handed in is too short, or a field is at fault.
#[derive(Clone, Copy, PartialEq, Eq, Debug)]
pub enum ReadFault {
    TextTooLong,
    ListTooShort,
    At(TextFault),
}

// Where a field at fault begins: the number of its section, its line from 1, and its first byte in that line from 0.
#[derive(Clone, Copy, PartialEq, Eq, Debug)]
pub struct FaultPlace {
    // A number, as in TextFault.
    pub section: u8,
    pub line: usize,
    pub byte: usize,
}

impl NumberFault {
    // A field that is not in the format, by its first byte in its line.
    pub fn not_in_format(byte: usize) -> NumberFault
        ensures { result ≡ not_in_format byte }
    {
        NumberFault {
            refusal: Refusal::NotInFormat,
            byte,
        }
    }
}

impl ReadFault {
    // The number of the refusal.
    pub fn number(&self) -> u32
        ensures { result ≡ fault_number self.now }
    {
        match self {
            ReadFault::TextTooLong => Refusal::TextTooLong.number(),
            ReadFault::ListTooShort => Refusal::ListTooShort.number(),
            ReadFault::At(fault) => fault.line.number.refusal.number(),
        }
    }

    // The place of the field at fault; none where the text is too long or a list too short.
    pub fn place(&self) -> Option<FaultPlace>
        ensures { result ≡ fault_place self.now }
    {
        match self {
            ReadFault::At(fault) => Some(FaultPlace {
                section: fault.section,
                line: fault.line.line,
                byte: fault.line.number.byte,
            }),
            _ => None,
        }
    }
}

// A number's fault turns into its line's fault, given the line.
impl From<(usize, NumberFault)> for LineFault {
    ghost from_gives = { λ f r. r ≡ record { line = f.0; number = f.1 } };

    fn from(placed: (usize, NumberFault)) -> LineFault {
        let (line, number) = placed;
        LineFault { line, number }
    }
}

// A line's fault turns into the text's fault, given the section.
impl From<(Section, LineFault)> for TextFault {
    ghost from_gives = { λ f r. r ≡ record { section = section_number f.0; line = f.1 } };

    fn from(placed: (Section, LineFault)) -> TextFault {
        let (section, line) = placed;
        TextFault::from((section as u8, line))
    }
}

// The same, given the section's number, which may be any, as in TextFault.
impl From<(u8, LineFault)> for TextFault {
    ghost from_gives = { λ f r. r ≡ record { section = f.0; line = f.1 } };

    fn from(placed: (u8, LineFault)) -> TextFault {
        let (section, line) = placed;
        TextFault { section, line }
    }
}

// A field at fault is why a text is not read.
impl From<TextFault> for ReadFault {
    ghost from_gives = { λ f r. r ≡ At f };

    fn from(fault: TextFault) -> ReadFault {
        ReadFault::At(fault)
    }
}

// The result, with `place` beside its fault.
pub fn at_place<T, P: Drop, F>(place: P, read: Result<T, F>) -> Result<T, (P, F)>
    ensures { result ≡ tagged place read }
{
    read.map_err(|fault| (place, fault))
}
