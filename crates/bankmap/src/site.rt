// A site: its cores, and the limits that stand on them, as its sheet says.
use arrayvec::ArrayVec;
use bank::ticket::Ticket;
use calendar::Outage;
use cooldown::Schedule;
use reserve::Window;
use sheet::{Extent, read_sheet};
use text::ReadFault;

#[derive(Drop)]
pub(crate) struct Site {
    pub extent: Extent,
    // A vector of fixed capacity, so that a sheet's text is read without the heap.
    pub outages: ArrayVec<Outage, 64>,
    // All eight, as the reserve takes them (it has fixed memory): those that the sheet does not have are all 0.
    pub windows: [Window; 8],
    pub cool_down: Option<Schedule>,
}

impl Site {
    // The site of a sheet's text.
    pub(crate) fn read(text: &[u8]) -> Result<Site, ReadFault> {
        let mut outages = ArrayVec::from([Outage::default(); 64]);
        let mut windows = [Window::default(); 8];
        let mut tickets = [Ticket::default(); 64];
        let head = read_sheet(text, &mut outages, &mut windows, &mut tickets)?;
        outages.truncate(head.outages);
        Ok(Site {
            extent: head.extent,
            outages,
            windows,
            cool_down: head.cool_down,
        })
    }
}
