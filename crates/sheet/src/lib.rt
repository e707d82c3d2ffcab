// Sheets: a bank and its tickets as text, read and written.
#![tactic(auto)]

mod checks;
mod cursor;
mod output;
mod reader;
mod records;
mod rows;
mod tables;
mod trips;
mod writer;

pub use output::write_sheet;
pub use reader::{SheetHead, read_sheet};
pub use records::Extent;
