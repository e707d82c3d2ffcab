// Reading of a sheet into the caller's tables.
ghost use Rattle.std.specs.Prelude.{◌≡◌, ◌≤◌, length};
ghost use Rattle.sheet.specs.Reading.{Answered, onto};
ghost use Rattle.sheet.specs.Trips.{ReadThenWritten};

use crate::checks::lacks_room;
use crate::records::Extent;
use crate::tables::Tables;
use crate::trips::round_trips;
use bank::ticket::Ticket;
use calendar::Outage;
use cooldown::Schedule;
use reserve::Window;
use text::ReadFault;
use text::short::ShortText;

// A sheet whose outages, windows and tickets stand in the front of the caller's tables: counts beside them, since the
// tables are fixed memory of the caller's, and no heap is at hand for lists of our own.
#[derive(Clone, Copy, PartialEq, Eq, Debug, Default)]
pub struct SheetHead {
    pub extent: Extent,
    pub outages: usize,
    pub windows: usize,
    pub cool_down: Option<Schedule>,
    pub tickets: usize,
}

// Copies the rows to the front of `table`, and leaves the rest of it as it was.
pub(crate) fn copy_to_front<R: Copy>(rows: &[R], table: &mut [R])
    requires { length rows.now ≤ length table.old }
    ensures { table.new ≡ onto rows.now table.old }
{
    table[..rows.len()].copy_from_slice(rows);
}

// Reads a sheet: first the text's length is checked (at most 16,384 bytes), then the lists' (64 outages, 8 windows, 64
// tickets), then the text. Where it is accepted, its rows stand at the front of the lists; a refusal leaves the lists.
pub fn read_sheet(
    text: &[u8],
    outages: &mut [Outage],
    windows: &mut [Window],
    tickets: &mut [Ticket],
) -> Result<SheetHead, ReadFault>
    ensures answer { Answered text.now outages.old windows.old tickets.old outages.new windows.new tickets.new result }
    ensures written_again { ReadThenWritten }
{
    round_trips();
    let text = ShortText::new(text)?;
    if lacks_room(outages) || lacks_room(windows) || lacks_room(tickets) {
        return Err(ReadFault::ListTooShort);
    }
    let mut tables = Tables::default();
    tables.read(text)?;
    copy_to_front(&tables.outages, outages);
    copy_to_front(&tables.windows, windows);
    copy_to_front(&tables.tickets, tickets);
    Ok(SheetHead {
        extent: tables.extents[0],
        outages: tables.outages.len(),
        windows: tables.windows.len(),
        cool_down: tables.cool_downs.first().copied(),
        tickets: tables.tickets.len(),
    })
}
