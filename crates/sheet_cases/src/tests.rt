// Faulty texts are refused by their numbers at their places, and leave the lists as they were.
use crate::{Faulty, LINE_1, OUTAGES, SCRIPTS, TICKETS, WINDOWS_AND_COOL_DOWN};
use bank::ticket::Ticket;
use calendar::Outage;
use cooldown::Schedule;
use reserve::Window;
use script::{Command, read_script};
use sheet::{Extent, SheetHead, read_sheet, write_sheet};
use std::process::Abort;
use std::test::Fail;
use text::{FaultPlace, ReadFault};

const OUTAGE: Outage = Outage {
    core: 7,
    from: 7,
    to: 7,
};

const WINDOW: Window = Window {
    from: 7,
    to: 7,
    count: 7,
};

const TICKET: Ticket = Ticket {
    number: 7,
    arrival: 7,
    deadline: 7,
    work: 7,
    bound: 7,
};

// The lists that a sheet is read into.
#[derive(Clone, Copy, PartialEq, Eq, Debug)]
struct Lists {
    outages: [Outage; 64],
    windows: [Window; 8],
    tickets: [Ticket; 64],
}

impl Lists {
    // Nothing is read into them yet.
    fn new() -> Lists {
        Lists {
            outages: [OUTAGE; 64],
            windows: [WINDOW; 8],
            tickets: [TICKET; 64],
        }
    }

    fn read(&mut self, text: &[u8]) -> Result<SheetHead, ReadFault> {
        read_sheet(
            text,
            &mut self.outages,
            &mut self.windows,
            &mut self.tickets,
        )
    }
}

// How a text is refused: the number, and the place of the field at fault.
fn refused<T: Drop>(read: Result<T, ReadFault>) -> Option<(u32, Option<FaultPlace>)> {
    read.err().map(|fault| (fault.number(), fault.place()))
}

fn check_faults(rt: &impl Abort, table: &[Faulty]) {
    for faulty in table {
        let mut lists = Lists::new();
        assert_eq!(rt;
            refused(lists.read(faulty.text)),
            Some((faulty.number, Some(faulty.place)))
        );
        assert_eq!(rt; lists, Lists::new());
    }
}

#[test]
fn each_faulty_sheet_is_refused_at_its_place(rt: HostRuntime) {
    check_faults(&rt, &LINE_1);
    check_faults(&rt, &OUTAGES);
    check_faults(&rt, &WINDOWS_AND_COOL_DOWN);
    check_faults(&rt, &TICKETS);
}

#[test]
fn a_text_has_at_most_16384_bytes(rt: HostRuntime) {
    let mut lists = Lists::new();
    let spaces = [b' '; 16385];
    assert_eq!(rt; refused(lists.read(&spaces)), Some((14, None)));
    let first = FaultPlace {
        section: 0,
        line: 1,
        byte: 0,
    };
    assert_eq!(rt;
        refused(lists.read(&spaces[0..16384])),
        Some((15, Some(first)))
    );
}

#[test]
fn each_list_is_long_enough(rt: HostRuntime) {
    let Lists {
        mut outages,
        mut windows,
        mut tickets,
    } = Lists::new();
    assert_eq!(rt;
        refused(read_sheet(b"x", &mut [OUTAGE; 63], &mut windows, &mut tickets)),
        Some((8, None))
    );
    assert_eq!(rt;
        refused(read_sheet(b"x", &mut outages, &mut [WINDOW; 7], &mut tickets)),
        Some((8, None))
    );
    assert_eq!(rt;
        refused(read_sheet(b"x", &mut outages, &mut windows, &mut [TICKET; 63])),
        Some((8, None))
    );
}

const WORKED: &[u8] =
    b"6 3\n1\n0 2 4\n1\n0 4 1\n1\n4 1 1\n4\n7 0 2 4 2\n9 0 4 4 1\n5 2 4 3 2\n6 2 4 2 2\n";

#[test]
fn a_sheet_is_read_and_written_again(rt: HostRuntime) -> Result<(), Fail> {
    let mut lists = Lists::new();
    let Ok(head) = lists.read(WORKED) else {
        return Err(Fail::new("refused"));
    };
    assert_eq!(rt; head.extent, Extent { slots: 6, top: 3 });
    assert_eq!(rt; (head.outages, head.windows, head.tickets), (1, 1, 4));
    assert_eq!(rt;
        lists.outages[0],
        Outage {
            core: 0,
            from: 2,
            to: 4,
        }
    );
    assert_eq!(rt;
        lists.tickets[3],
        Ticket {
            number: 6,
            arrival: 2,
            deadline: 4,
            work: 2,
            bound: 2,
        }
    );
    assert_eq!(rt; lists.tickets[4], TICKET);
    let mut out = [7u8; 80];
    let cool_down = [Schedule {
        period: 4,
        rest: 1,
        limit: 1,
    }];
    let written = write_sheet(
        head.extent,
        &lists.outages[0..1],
        &lists.windows[0..1],
        &cool_down,
        &lists.tickets[0..4],
        &mut out,
    );
    let Ok(length) = written else {
        return Err(Fail::new("not written"));
    };
    assert!(rt; length == WORKED.len() && length < 80);
    assert!(rt; &out[0..length] == WORKED);
    assert_eq!(rt; out[length], 7);
    Ok(())
}

#[test]
fn each_faulty_script_is_refused_at_its_place(rt: HostRuntime) {
    for faulty in &SCRIPTS {
        assert_eq!(rt;
            refused(read_script(faulty.text, 4)),
            Some((faulty.number, Some(faulty.place)))
        );
    }
}

#[test]
fn a_script_hands_out_its_commands(rt: HostRuntime) -> Result<(), Fail> {
    let Ok(mut script) = read_script(b"A 4\nW 999999\nS\nT\nA 1\n", 4) else {
        return Err(Fail::new("refused"));
    };
    for expected in [
        Some(Command::Admit(4)),
        Some(Command::Withdraw(999999)),
        Some(Command::Serve),
        Some(Command::TakeBack),
        Some(Command::Admit(1)),
        None,
        None,
    ] {
        assert_eq!(rt; script.next(), expected);
    }
    Ok(())
}

#[test]
fn an_empty_script_is_lawful_and_a_long_one_is_not(rt: HostRuntime) -> Result<(), Fail> {
    let Ok(mut script) = read_script(b"", 0) else {
        return Err(Fail::new("refused"));
    };
    assert_eq!(rt; script.next(), None);
    let long = [b'x'; 16385];
    assert_eq!(rt; refused(read_script(&long, 4)), Some((14, None)));
    Ok(())
}
