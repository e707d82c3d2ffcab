// Which parity cores can a site count on, and when?
#![tactic(auto)]

use crate::lines::{CoolDownLine, OutageLine, RefusedSheet, WindowLine};
use crate::site::Site;
use crate::survey::Spans;
use bank::Bank;
use calendar::Calendar;
use cooldown::CoolDown;
use reserve::{HostReserve, Window};
use std::process::ExitCode;
use std::{env, fs};

mod lines;
mod site;
mod survey;

// The numbers in force: the bank's slots and cores, and every limit that stands on them.
fn print_limits<B: Bank>(rt: &impl Print, site: &Site, pile: &B) -> anyhow::Result<()> {
    let slots = pile.slots();
    let top = pile.top();
    println!(rt; "slots {slots}, cores {top}")?;
    for outage in &site.outages {
        let line = OutageLine(outage);
        println!(rt; "{line}")?;
    }
    for (place, window) in site.windows.iter().enumerate() {
        if *window != Window::default() {
            let line = WindowLine { place, window };
            println!(rt; "{line}")?;
        }
    }
    if let Some(schedule) = &site.cool_down
        && schedule.rest > 0
    {
        let line = CoolDownLine(schedule);
        println!(rt; "{line}")?;
    }
    Ok(())
}

// A line for each span from mark to mark.
fn print_spans<A: Bank, B: Bank>(rt: &impl Print, spans: Spans<'_, A, B>) -> anyhow::Result<()> {
    println!(rt; " from    to  cores  level  each core (# usable, - withheld, x out)")?;
    for span in spans {
        println!(rt; "{span}")?;
    }
    Ok(())
}

// The map of a site.
fn print_site(rt: &impl Print, site: &Site) -> anyhow::Result<()> {
    let calendar = Calendar::new(&site.outages, site.extent.slots, site.extent.top);
    let reserve = HostReserve::new(calendar, site.windows);
    // Without a cool-down the schedule's rest is 0, which cuts nothing and marks nothing.
    let pile = CoolDown::new(reserve, site.cool_down.unwrap_or_default());
    print_limits(rt, site, &pile)?;
    print_spans(rt, Spans::new(&calendar, &pile))
}

// The folder given as the first argument, or else the current one.
fn sheet_path(rt: &HostRuntime) -> anyhow::Result<String> {
    match env::args(rt)?.nth(1) {
        Some(folder) => Ok(format!(in rt.alloc(); "{folder}/sheet.txt")?),
        None => Ok(String::from_str(rt.alloc(), "sheet.txt")?),
    }
}

// Shows the site of a sheet, or why the sheet is refused, which fails.
fn run(rt: &HostRuntime) -> anyhow::Result<ExitCode> {
    let path = sheet_path(rt)?;
    let text = fs::read(rt, path.as_str())?;
    match Site::read(&text) {
        Ok(site) => {
            print_site(rt, &site)?;
            Ok(ExitCode::SUCCESS)
        }
        Err(fault) => {
            let refused = RefusedSheet {
                text: &text,
                fault: &fault,
            };
            println!(rt; "{refused}")?;
            Ok(ExitCode::FAILURE)
        }
    }
}

fn main(rt: HostRuntime) -> anyhow::Result<ExitCode> {
    run(&rt)
}
