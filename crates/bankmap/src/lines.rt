// The lines that are printed.
use crate::survey::{CoreState, Span};
use calendar::Outage;
use cooldown::Schedule;
use reserve::Window;
use std::fmt;
use text::{FaultPlace, ReadFault};

#[derive(Drop)]
pub(crate) struct OutageLine<'a>(pub &'a Outage);

impl fmt::Display for OutageLine<'_> {
    fn fmt<W: fmt::Write>(&self, f: &mut fmt::Formatter<W>) -> fmt::Result {
        let Outage { core, from, to } = *self.0;
        write!(f, "outage: core {core} out from slot {from} to {to}")
    }
}

#[derive(Drop)]
pub(crate) struct WindowLine<'a> {
    pub place: usize,
    pub window: &'a Window,
}

impl fmt::Display for WindowLine<'_> {
    fn fmt<W: fmt::Write>(&self, f: &mut fmt::Formatter<W>) -> fmt::Result {
        let place = self.place;
        let Window { from, to, count } = *self.window;
        write!(
            f,
            "host reserve, window {place}: {count} withheld from slot {from} to {to}"
        )
    }
}

#[derive(Drop)]
pub(crate) struct CoolDownLine<'a>(pub &'a Schedule);

impl fmt::Display for CoolDownLine<'_> {
    fn fmt<W: fmt::Write>(&self, f: &mut fmt::Formatter<W>) -> fmt::Result {
        let Schedule {
            period,
            rest,
            limit,
        } = *self.0;
        write!(
            f,
            "cool-down: at most {limit} usable in the last {rest} of every {period} slots"
        )
    }
}

// The character that stands for a core's state in the map.
impl fmt::Display for CoreState {
    fn fmt<W: fmt::Write>(&self, f: &mut fmt::Formatter<W>) -> fmt::Result {
        match self {
            CoreState::Usable => write!(f, "#"),
            CoreState::Withheld => write!(f, "-"),
            CoreState::Out => write!(f, "x"),
        }
    }
}

// A line of the map, with a character for each core.
impl fmt::Display for Span {
    fn fmt<W: fmt::Write>(&self, f: &mut fmt::Formatter<W>) -> fmt::Result {
        let from = self.from;
        let to = self.to;
        let capacity = self.capacity;
        let level = self.level;
        write!(f, "{from:>5} {to:>5} {capacity:>6} {level:>6}  ")?;
        for state in self.cores.iter().take(self.top as usize) {
            write!(f, "{state}")?;
        }
        Ok(())
    }
}

// Bytes as text, with a question mark for each that is no printable character of ASCII. It is written part by part, since a
// write for each character takes a quarter longer.
#[derive(Drop)]
pub(crate) struct Printable<'a>(pub &'a [u8]);

const PART: usize = 64;

// The bytes of a part as they are shown.
fn shown(part: &[u8]) -> [u8; PART] {
    let mut shown = [b'?'; PART];
    for (place, b) in shown.iter_mut().zip(part) {
        if *b == b' ' || b.is_ascii_graphic() {
            *place = *b;
        }
    }
    shown
}

impl fmt::Display for Printable<'_> {
    fn fmt<W: fmt::Write>(&self, f: &mut fmt::Formatter<W>) -> fmt::Result {
        for part in self.0.chunks(PART) {
            // At most PART bytes, all of ASCII: nothing is cut off, and no error comes.
            let bytes = shown(part);
            let text = str::from_utf8(&bytes[..part.len().min(PART)]).map_err(|_| fmt::Error)?;
            f.write_str(text)?;
        }
        Ok(())
    }
}

// Why a sheet's text is refused: the number of the refusal, and where a field is at fault, its place on the same line,
// then the text's line, and below it a caret at the field.
#[derive(Drop)]
pub(crate) struct RefusedSheet<'a> {
    pub text: &'a [u8],
    pub fault: &'a ReadFault,
}

impl fmt::Display for RefusedSheet<'_> {
    fn fmt<W: fmt::Write>(&self, f: &mut fmt::Formatter<W>) -> fmt::Result {
        let number = self.fault.number();
        write!(f, "no {number}")?;
        if let ReadFault::At(field) = self.fault
            && let Some(place) = self.fault.place()
        {
            let FaultPlace {
                section,
                line,
                byte,
            } = place;
            let shown = Printable(field.line_in(self.text, &[]));
            let none = "";
            write!(f, " {section} {line} {byte}\n{shown}\n{none:byte$}^")?;
        }
        Ok(())
    }
}
