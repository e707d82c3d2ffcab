// The tables of a sheet, read section by section.
ghost use Rattle.sheet.specs.Tables.{TablesRead};

use crate::cursor::Cursor;
use crate::records::Extent;
use arrayvec::ArrayVec;
use bank::ticket::Ticket;
use calendar::Outage;
use cooldown::Schedule;
use reserve::Window;
use text::short::ShortText;
use text::{Section, TextFault, at_place};

// What a sheet says, with room for as many records as each section may have; its first line is the one extent.
#[derive(Drop, Default)]
pub(crate) struct Tables {
    pub extents: ArrayVec<Extent, 1>,
    pub outages: ArrayVec<Outage, 64>,
    pub windows: ArrayVec<Window, 8>,
    pub cool_downs: ArrayVec<Schedule, 1>,
    pub tickets: ArrayVec<Ticket, 64>,
}

impl Tables {
    // Reads a whole text into the tables, in place of what they were.
    pub(crate) fn read(&mut self, text: ShortText) -> Result<(), TextFault>
        ensures { TablesRead text.entry.bytes.now self.new result }
    {
        let mut cursor = Cursor::new(text);
        self.extents.clear();
        at_place(Section::Head, cursor.read_rows(1, &mut self.extents))?;
        at_place(Section::Outages, cursor.read_section(&mut self.outages))?;
        at_place(Section::Windows, cursor.read_section(&mut self.windows))?;
        at_place(Section::CoolDown, cursor.read_section(&mut self.cool_downs))?;
        at_place(Section::Tickets, cursor.read_section(&mut self.tickets))?;
        at_place(Section::Tickets, cursor.read_end())?;
        Ok(())
    }
}
