// Writing of a whole sheet into the caller's buffer.
ghost use Rattle.std.specs.Prelude.{◌≡◌, true, false, []};
ghost use Rattle.sheet.specs.Lists.{listed};
ghost use Rattle.sheet.specs.Output.{sheet_of, sheet_fits, too_many, writing, Put};
ghost use Rattle.sheet.specs.Trips.{WrittenThenRead};
ghost use Rattle.sheet.specs.Writing.{write_sheet};

use crate::checks::{exceed_section, row_fits, rows_fit};
use crate::reader::copy_to_front;
use crate::records::Extent;
use crate::trips::round_trips;
use crate::writer::Written;
use bank::refusal::Refusal;
use bank::ticket::Ticket;
use calendar::Outage;
use cooldown::Schedule;
use reserve::Window;

// What a sheet says, in the caller's lists.
#[derive(Clone, Copy)]
struct Lists<'a> {
    extent: Extent,
    outages: &'a [Outage],
    windows: &'a [Window],
    cool_downs: &'a [Schedule],
    tickets: &'a [Ticket],
}

impl Lists<'_> {
    // Whether every number stands within its limits.
    fn fit(&self) -> bool
        ensures { result ≡ sheet_fits (listed self.now) }
    {
        row_fits(&self.extent)
            && rows_fit(self.outages)
            && rows_fit(self.windows)
            && rows_fit(self.cool_downs)
            && rows_fit(self.tickets)
    }

    // Whether a section has more lines than it may have.
    fn are_too_many(&self) -> bool
        ensures { result ≡ too_many (listed self.now) }
    {
        exceed_section(self.outages)
            || exceed_section(self.windows)
            || exceed_section(self.cool_downs)
            || exceed_section(self.tickets)
    }

    // Writes the whole text.
    fn put(&self, text: &mut Written)
        requires blank { text.old ≡ [] }
        requires lawful { sheet_fits (listed self.now) ≡ true }
        requires few { too_many (listed self.now) ≡ false }
        ensures { text.new ≡ write_sheet (listed self.now) }
    {
        text.put_rows(&[self.extent]);
        text.put_section(self.outages);
        text.put_section(self.windows);
        text.put_section(self.cool_downs);
        text.put_section(self.tickets);
    }
}

// Writes a sheet, and says how long its text is. A refusal leaves `out` as it was.
pub fn write_sheet(
    extent: Extent,
    outages: &[Outage],
    windows: &[Window],
    cool_downs: &[Schedule],
    tickets: &[Ticket],
    out: &mut [u8],
) -> Result<usize, Refusal>
    ensures answer { Put out.old out.new result (writing (sheet_of extent outages.now windows.now cool_downs.now tickets.now) out.old) }
    ensures read_again { WrittenThenRead }
{
    round_trips();
    let lists = Lists {
        extent,
        outages,
        windows,
        cool_downs,
        tickets,
    };
    if !lists.fit() {
        return Err(Refusal::OutOfLimits);
    }
    if lists.are_too_many() {
        return Err(Refusal::CountAboveLimit);
    }
    let mut text = Written::new();
    lists.put(&mut text);
    let end = text.bytes().len();
    if out.len() < end {
        return Err(Refusal::OutputTooShort);
    }
    copy_to_front(text.bytes(), out);
    Ok(end)
}
