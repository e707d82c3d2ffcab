// Faulty texts, each with the number and the place of its fault.
#![tactic(auto)]

use text::FaultPlace;

// A text, and how it is refused: the number, and the place of the field at fault.
#[derive(Clone, Copy, PartialEq, Eq, Debug)]
pub struct Faulty {
    pub text: &'static [u8],
    pub number: u32,
    pub place: FaultPlace,
}

// A macro, since a static calls no function.
macro_rules! faulty {
    ($text:expr, $number:expr, $section:expr, $line:expr, $byte:expr) => {
        Faulty {
            text: $text,
            number: $number,
            place: FaultPlace {
                section: $section,
                line: $line,
                byte: $byte,
            },
        }
    };
}

static LINE_1: [Faulty; 30] = [
    // empty text
    faulty!(b"", 15, 0, 1, 0),
    // empty line before line 1
    faulty!(b"\n6 3\n0\n0\n0\n0\n", 15, 0, 1, 0),
    // top unclosed
    faulty!(b"6 3", 15, 0, 1, 2),
    // top missing
    faulty!(b"6\n0\n0\n0\n0\n", 15, 0, 1, 2),
    // surplus field on line 1 is not looked at
    faulty!(b"6 3 x\n0\n0\n0\n0\n", 15, 0, 1, 4),
    // leading space on line 1
    faulty!(b" 6 3\n0\n0\n0\n0\n", 15, 0, 1, 0),
    // top with a leading zero
    faulty!(b"6 03\n0\n0\n0\n0\n", 15, 0, 1, 2),
    // top of seven digits
    faulty!(b"6 1000000\n0\n0\n0\n0\n", 15, 0, 1, 2),
    // slots end with a letter
    faulty!(b"16x 3\n0\n0\n0\n0\n", 15, 0, 1, 0),
    // slots with a minus sign
    faulty!(b"-6 3\n0\n0\n0\n0\n", 15, 0, 1, 0),
    // comma between slots and top
    faulty!(b"6,3\n0\n0\n0\n0\n", 15, 0, 1, 0),
    // carriage return before the line end
    faulty!(b"6 3\r\n0\n0\n0\n0\n", 15, 0, 1, 2),
    // carriage return alone ends no line
    faulty!(b"6 3\r0\r0\r0\r0\r", 15, 0, 1, 2),
    // tab between slots and top
    faulty!(b"6\t3\n0\n0\n0\n0\n", 15, 0, 1, 0),
    // tab after the space
    faulty!(b"6 \t3\n0\n0\n0\n0\n", 15, 0, 1, 2),
    // byte 0 in slots
    faulty!(b"6\0 3\n0\n0\n0\n0\n", 15, 0, 1, 0),
    // byte 0 in place of the space
    faulty!(b"6\x003\n0\n0\n0\n0\n", 15, 0, 1, 0),
    // byte 0 after the top
    faulty!(b"6 3\0\n0\n0\n0\n0\n", 15, 0, 1, 2),
    // byte 128 in slots
    faulty!(b"\x806 3\n0\n0\n0\n0\n", 15, 0, 1, 0),
    // byte 255 in the top
    faulty!(b"6 \xff\n0\n0\n0\n0\n", 15, 0, 1, 2),
    // byte order mark before slots
    faulty!(b"\xef\xbb\xbf6 3\n0\n0\n0\n0\n", 15, 0, 1, 0),
    // no break space between slots and top
    faulty!(b"6\xc2\xa03\n0\n0\n0\n0\n", 15, 0, 1, 0),
    // digit with its high bit set
    faulty!(b"\xb6 3\n0\n0\n0\n0\n", 15, 0, 1, 0),
    // slots 4097
    faulty!(b"4097 3\n0\n0\n0\n0\n", 16, 0, 1, 0),
    // top 65 after four digits
    faulty!(b"4096 65\n0\n0\n0\n0\n", 16, 0, 1, 5),
    // slots 0 before top 0
    faulty!(b"0 0\n0\n0\n0\n0\n", 16, 0, 1, 0),
    // top 0 before a missing section
    faulty!(b"6 0\n", 16, 0, 1, 2),
    // top 0 with a leading zero
    faulty!(b"6 000\n0\n0\n0\n0\n", 15, 0, 1, 2),
    // full sheet slots 0
    faulty!(
        b"0 3\n1\n0 2 4\n1\n0 4 1\n1\n4 1 1\n1\n7 0 2 4 2\n",
        16,
        0,
        1,
        0
    ),
    // full sheet with carriage returns
    faulty!(
        b"6 3\r\n1\r\n0 2 4\r\n1\r\n0 4 1\r\n1\r\n4 1 1\r\n1\r\n7 0 2 4 2\r\n",
        15,
        0,
        1,
        2
    ),
];

static OUTAGES: [Faulty; 20] = [
    // outage count empty before a space
    faulty!(b"6 3\n \n0\n0\n0\n", 15, 1, 2, 0),
    // outage count of two zeros
    faulty!(b"6 3\n00\n0\n0\n0\n", 15, 1, 2, 0),
    // outage count with a carriage return
    faulty!(b"6 3\n0\r\n0\n0\n0\n", 15, 1, 2, 0),
    // outage count of seven digits
    faulty!(b"6 3\n1000000\n", 15, 1, 2, 0),
    // text ends after a space past the outage count
    faulty!(b"6 3\n0 ", 15, 1, 2, 2),
    // outage count 65
    faulty!(b"6 3\n65\n", 17, 1, 2, 0),
    // outage count 999999
    faulty!(b"6 3\n999999\n", 17, 1, 2, 0),
    // outage count 65 before a surplus field
    faulty!(b"6 3\n65 1\n", 17, 1, 2, 0),
    // outage count 65 before a trailing space
    faulty!(b"6 3\n65 \n", 17, 1, 2, 0),
    // outage core 64
    faulty!(b"6 3\n1\n64 2 4\n0\n0\n0\n", 16, 1, 3, 0),
    // outage with a leading space
    faulty!(b"6 3\n1\n 0 2 4\n0\n0\n0\n", 15, 1, 3, 0),
    // outage from 4096 after two digits
    faulty!(b"6 3\n1\n63 4096 4\n0\n0\n0\n", 16, 1, 3, 3),
    // outage to empty
    faulty!(b"6 3\n1\n0 2 \n0\n0\n0\n", 15, 1, 3, 4),
    // outage to unclosed
    faulty!(b"6 3\n1\n0 2 4", 15, 1, 3, 4),
    // outage to with a carriage return
    faulty!(b"6 3\n1\n0 2 4\r\n0\n0\n0\n", 15, 1, 3, 4),
    // text ends after a space past an outage
    faulty!(b"6 3\n1\n0 2 4 ", 15, 1, 3, 6),
    // outage core 64 before a malformed from
    faulty!(b"6 3\n1\n64 x 4\n0\n0\n0\n", 16, 1, 3, 0),
    // two outages on one line
    faulty!(b"6 3\n2\n0 2 4 1 2 4\n0\n0\n0\n", 15, 1, 3, 6),
    // no outage of one
    faulty!(b"6 3\n1\n0\n0\n0\n", 15, 1, 3, 2),
    // first fault is in the earliest section
    faulty!(b"6 3\n1\n64 2 4\n9\n", 16, 1, 3, 0),
];

static WINDOWS_AND_COOL_DOWN: [Faulty; 30] = [
    // window count line empty
    faulty!(b"6 3\n0\n\n0\n0\n", 15, 2, 3, 0),
    // window count of seven digits
    faulty!(b"6 3\n0\n1000000\n", 15, 2, 3, 0),
    // window count 9
    faulty!(b"6 3\n0\n9\n", 17, 2, 3, 0),
    // window count 64
    faulty!(b"6 3\n0\n64\n", 17, 2, 3, 0),
    // window count 9 before a surplus field
    faulty!(b"6 3\n0\n9 1\n", 17, 2, 3, 0),
    // cool down count line missing
    faulty!(b"6 3\n0\n0\n", 15, 3, 4, 0),
    // cool down count a letter
    faulty!(b"6 3\n0\n0\nx\n0\n", 15, 3, 4, 0),
    // text ends after a space past the cool down count
    faulty!(b"6 3\n0\n0\n1 ", 15, 3, 4, 2),
    // cool down count 2
    faulty!(b"6 3\n0\n0\n2\n4 1 1\n4 1 1\n0\n", 17, 3, 4, 0),
    // cool down count 2 before a surplus field
    faulty!(b"6 3\n0\n0\n2 1\n", 17, 3, 4, 0),
    // window from 4096
    faulty!(b"6 3\n0\n1\n4096 4 1\n0\n0\n", 16, 2, 4, 0),
    // window to empty
    faulty!(b"6 3\n0\n1\n0  1\n0\n0\n", 15, 2, 4, 2),
    // window count field missing
    faulty!(b"6 3\n0\n1\n0 4\n0\n0\n", 15, 2, 4, 4),
    // window count field 65 after long fields
    faulty!(b"6 3\n0\n1\n4095 4096 65\n0\n0\n", 16, 2, 4, 10),
    // window with a trailing space
    faulty!(b"6 3\n0\n1\n0 4 1 \n0\n0\n", 15, 2, 4, 6),
    // second window missing
    faulty!(b"6 3\n0\n2\n0 4 1\n", 15, 2, 5, 0),
    // period 0
    faulty!(b"6 3\n0\n0\n1\n0 1 1\n0\n", 16, 3, 5, 0),
    // rest missing
    faulty!(b"6 3\n0\n0\n1\n4\n0\n", 15, 3, 5, 2),
    // limit missing
    faulty!(b"6 3\n0\n0\n1\n4 1\n0\n", 15, 3, 5, 4),
    // limit unclosed
    faulty!(b"6 3\n0\n0\n1\n4 1 1", 15, 3, 5, 4),
    // limit with byte 255
    faulty!(b"6 3\n0\n0\n1\n4 1 1\xff\n0\n", 15, 3, 5, 4),
    // period 0 before missing fields
    faulty!(b"6 3\n0\n0\n1\n0\n0\n", 16, 3, 5, 0),
    // outage too many has a surplus field
    faulty!(b"6 3\n0\n0 2 4\n0\n0\n0\n", 15, 2, 3, 2),
    // outage too many has a count above the limit
    faulty!(b"6 3\n0\n9 2 4\n0\n0\n0\n", 17, 2, 3, 0),
    // window too many has a count above the limit
    faulty!(b"6 3\n0\n1\n0 4 1\n2 6 2\n0\n0\n", 17, 3, 5, 0),
    // no cool down of one before no tickets
    faulty!(b"6 3\n0\n0\n1\n0\n", 16, 3, 5, 0),
    // count line of windows left out
    faulty!(
        b"6 3\n0\n0\n4\n7 0 2 4 2\n9 0 4 4 1\n5 2 4 3 2\n6 2 4 2 2\n",
        17,
        3,
        4,
        0
    ),
    // full sheet window count line 9
    faulty!(
        b"6 3\n1\n0 2 4\n9\n0 4 1\n1\n4 1 1\n1\n7 0 2 4 2\n",
        17,
        2,
        4,
        0
    ),
    // full sheet window count 0
    faulty!(
        b"6 3\n1\n0 2 4\n1\n0 4 0\n1\n4 1 1\n1\n7 0 2 4 2\n",
        16,
        2,
        5,
        4
    ),
    // full sheet cool down count line 2
    faulty!(
        b"6 3\n1\n0 2 4\n1\n0 4 1\n2\n4 1 1\n1\n7 0 2 4 2\n",
        17,
        3,
        6,
        0
    ),
];

static TICKETS: [Faulty; 28] = [
    // ticket count line missing
    faulty!(b"6 3\n0\n0\n0\n", 15, 4, 5, 0),
    // ticket count a letter
    faulty!(b"6 3\n0\n0\n0\nx\n", 15, 4, 5, 0),
    // text ends after a space past the ticket count
    faulty!(b"6 3\n0\n0\n0\n0 ", 15, 4, 5, 2),
    // ticket count with a carriage return
    faulty!(b"6 3\n0\n0\n0\n0\r\n", 15, 4, 5, 0),
    // ticket count 65
    faulty!(b"6 3\n0\n0\n0\n65\n", 17, 4, 5, 0),
    // ticket count 65 before a surplus field
    faulty!(b"6 3\n0\n0\n0\n65 1\n", 17, 4, 5, 0),
    // ticket count 65 unclosed
    faulty!(b"6 3\n0\n0\n0\n65", 15, 4, 5, 0),
    // ticket line empty
    faulty!(b"6 3\n0\n0\n0\n1\n\n", 15, 4, 6, 0),
    // job number with a leading zero
    faulty!(b"6 3\n0\n0\n0\n1\n07 0 2 4 2\n", 15, 4, 6, 0),
    // arrival unclosed
    faulty!(b"6 3\n0\n0\n0\n1\n7 0", 15, 4, 6, 2),
    // deadline missing
    faulty!(b"6 3\n0\n0\n0\n1\n7 0\n", 15, 4, 6, 4),
    // deadline 4097
    faulty!(b"6 3\n0\n0\n0\n1\n7 0 4097 4 2\n", 16, 4, 6, 4),
    // work 0
    faulty!(b"6 3\n0\n0\n0\n1\n7 0 2 0 2\n", 16, 4, 6, 6),
    // bound unclosed
    faulty!(b"6 3\n0\n0\n0\n1\n7 0 2 4 2", 15, 4, 6, 8),
    // bound 65
    faulty!(b"6 3\n0\n0\n0\n1\n7 0 2 4 65\n", 16, 4, 6, 8),
    // bound with a carriage return
    faulty!(b"6 3\n0\n0\n0\n1\n7 0 2 4 2\r\n", 15, 4, 6, 8),
    // ticket with a surplus field
    faulty!(b"6 3\n0\n0\n0\n1\n7 0 2 4 2 1\n", 15, 4, 6, 10),
    // job number 0 before missing fields
    faulty!(b"6 3\n0\n0\n0\n1\n0\n", 16, 4, 6, 0),
    // bound 65 unclosed
    faulty!(b"6 3\n0\n0\n0\n1\n7 0 2 4 65", 15, 4, 6, 8),
    // second cool down has a count above the limit
    faulty!(b"6 3\n0\n0\n1\n4 1 1\n65 1 1\n0\n", 17, 4, 6, 0),
    // ticket too many
    faulty!(b"6 3\n0\n0\n0\n0\n7 0 2 4 2\n", 15, 4, 6, 0),
    // space after the last line
    faulty!(b"6 3\n0\n0\n0\n0\n ", 15, 4, 6, 0),
    // byte 0 after the last line
    faulty!(b"6 3\n0\n0\n0\n0\n\0", 15, 4, 6, 0),
    // control z after the last line
    faulty!(b"6 3\n0\n0\n0\n0\n\x1a", 15, 4, 6, 0),
    // full sheet ticket count line 65
    faulty!(
        b"6 3\n1\n0 2 4\n1\n0 4 1\n1\n4 1 1\n65\n7 0 2 4 2\n",
        17,
        4,
        8,
        0
    ),
    // full sheet ticket count line missing
    faulty!(b"6 3\n1\n0 2 4\n1\n0 4 1\n1\n4 1 1\n", 15, 4, 8, 0),
    // full sheet with an empty line after it
    faulty!(
        b"6 3\n1\n0 2 4\n1\n0 4 1\n1\n4 1 1\n1\n7 0 2 4 2\n\n",
        15,
        4,
        10,
        0
    ),
    // worked sheet empty line after it
    faulty!(
        b"6 3\n1\n0 2 4\n0\n0\n4\n7 0 2 4 2\n9 0 4 4 1\n5 2 4 3 2\n6 2 4 2 2\n\n",
        15,
        4,
        11,
        0
    ),
];

// Scripts beside a sheet with four tickets.
static SCRIPTS: [Faulty; 44] = [
    // empty line
    faulty!(b"\n", 15, 9, 1, 0),
    // space and line end
    faulty!(b" \n", 15, 9, 1, 0),
    // unknown letter with a number
    faulty!(b"B 1\n", 15, 9, 1, 0),
    // small letter a
    faulty!(b"a 1\n", 15, 9, 1, 0),
    // number in place of the letter
    faulty!(b"1\n", 15, 9, 1, 0),
    // remark line
    faulty!(b"# admit\nA 1\n", 15, 9, 1, 0),
    // byte 255 before the letter
    faulty!(b"\xffS\n", 15, 9, 1, 0),
    // letter with its high bit set
    faulty!(b"\xd3\n", 15, 9, 1, 0),
    // admit without a number
    faulty!(b"A\n", 15, 9, 1, 2),
    // admit with an empty number
    faulty!(b"A \n", 15, 9, 1, 2),
    // admit without the space
    faulty!(b"A1\n", 15, 9, 1, 0),
    // admit as a word
    faulty!(b"ADMIT 1\n", 15, 9, 1, 0),
    // admit with a double space
    faulty!(b"A  1\n", 15, 9, 1, 2),
    // admit with a tab after the space
    faulty!(b"A \t1\n", 15, 9, 1, 2),
    // admit and text ends after a trailing space
    faulty!(b"A 1 ", 15, 9, 1, 4),
    // admit with a surplus letter
    faulty!(b"A 1 S\n", 15, 9, 1, 4),
    // admit number with a leading zero
    faulty!(b"A 01\n", 15, 9, 1, 2),
    // admit number a letter
    faulty!(b"A x\n", 15, 9, 1, 2),
    // admit number with a minus sign
    faulty!(b"A -1\n", 15, 9, 1, 2),
    // admit number with byte 0
    faulty!(b"A 1\0\n", 15, 9, 1, 2),
    // admit ticket 5 of 4
    faulty!(b"A 5\n", 13, 9, 1, 2),
    // admit ticket 5 unclosed
    faulty!(b"A 5", 15, 9, 1, 2),
    // admit ticket 5 before a trailing space
    faulty!(b"A 5 \n", 13, 9, 1, 2),
    // admit ticket 0 before a space and the end
    faulty!(b"A 0 ", 13, 9, 1, 2),
    // unknown letter before admit ticket 9
    faulty!(b"X\nA 9\n", 15, 9, 1, 0),
    // withdraw unclosed
    faulty!(b"W", 15, 9, 1, 0),
    // withdraw and text ends after the space
    faulty!(b"W ", 15, 9, 1, 2),
    // withdraw without the space
    faulty!(b"W7\n", 15, 9, 1, 0),
    // withdraw number with a leading zero
    faulty!(b"W 07\n", 15, 9, 1, 2),
    // withdraw number of seven digits
    faulty!(b"W 1000000\n", 15, 9, 1, 2),
    // withdraw with a surplus field
    faulty!(b"W 10000 5\n", 15, 9, 1, 8),
    // withdraw 0 with a surplus field
    faulty!(b"W 0 0\n", 15, 9, 1, 4),
    // finish step with a number
    faulty!(b"S 1\n", 15, 9, 1, 2),
    // finish step and text ends after the space
    faulty!(b"S ", 15, 9, 1, 2),
    // finish step twice on one line
    faulty!(b"SS\n", 15, 9, 1, 0),
    // finish step with a carriage return
    faulty!(b"S\r\n", 15, 9, 1, 0),
    // take back step unclosed
    faulty!(b"T", 15, 9, 1, 0),
    // take back step with a trailing space
    faulty!(b"T \n", 15, 9, 1, 2),
    // take back step joined to a letter
    faulty!(b"TS\n", 15, 9, 1, 0),
    // empty line in the middle
    faulty!(b"A 1\n\nS\n", 15, 9, 2, 0),
    // byte 0 after the last step
    faulty!(b"S\n\0", 15, 9, 2, 0),
    // last admit unclosed
    faulty!(b"A 1\nA 2", 15, 9, 2, 2),
    // fifth ticket on the fifth line
    faulty!(b"A 1\nA 2\nA 3\nA 4\nA 5\n", 13, 9, 5, 2),
    // withdraw any number then ticket 0
    faulty!(b"W 0\nW 999999\nA 0\n", 13, 9, 3, 2),
];

#[cfg(test)]
mod tests;
