// Scripts: a text of commands, one a line.
#![tactic(auto)]

ghost use Rattle.std.specs.Prelude.{◌≡◌, true, [], ◌∷◌, is_ok, IfOk, IfErr, IfNone, IfSome};
ghost use Rattle.text.specs.Faults.{read_refusal};
ghost use Rattle.script.specs.Script.{left_of, script, script_refusal};

use crate::line::{Line, read_line};
use text::short::ShortText;
use text::{LineFault, ReadFault, Section, TextFault, at_place};

mod line;

// What a line of a script asks for.
#[derive(Clone, Copy, PartialEq, Eq, Debug)]
pub enum Command {
    // Admits the sheet's ticket with this place, counted from 1.
    Admit(u32),
    // Withdraws the job with this number.
    Withdraw(u32),
    // Opens the next slot and finishes it.
    Serve,
    // Opens the next slot and takes it back.
    TakeBack,
}

// Checks every line of a script.
#[tactic(auto, using(crate::proofs::Scripts::reading_steps))]
fn check_lines(text: ShortText, tickets: u32) -> Result<(), LineFault>
    ensures accepted { IfOk result (λ done. is_ok (script tickets text.entry.bytes.now) ≡ true) }
    ensures fault { IfErr result (λ fault. script tickets text.entry.bytes.now ≡ Err fault) }
{
    let mut rest = text.bytes;
    // The lines are counted here: cut by `split_inclusive` before they are read, a text is walked twice, by two notions of a line.
    let mut number = 1;
    while !rest.is_empty() {
        let line = at_place(number, read_line(rest, tickets))?;
        rest = line.rest;
        number += 1;
    }
    Ok(())
}

// The commands of a script that is accepted whole, handed out one after another.
#[derive(Clone, Copy, Debug)]
pub struct Script<'a> {
    rest: &'a [u8],
    tickets: u32,
    pub ghost accepted: { is_ok (script tickets rest.now) ≡ true },
}

// Checks a whole script beside a sheet with this many tickets, before any of its commands is handed out.
pub fn read_script(text: &[u8], tickets: u32) -> Result<Script<'_>, ReadFault>
    ensures refusal { read_refusal result ≡ script_refusal tickets text.now }
    ensures whole { IfOk result (λ s. s.rest.now ≡ text.now) }
    ensures sheet { IfOk result (λ s. s.tickets ≡ tickets) }
{
    let text = ShortText::new(text)?;
    check_lines(text, tickets).map_err(|line| TextFault::from((Section::Script, line)))?;
    Ok(Script {
        rest: text.bytes,
        tickets,
    })
}

impl<'a> Script<'a> {
    // The first of the lines that are left, or none after the last.
    fn first_line(&self) -> Option<Line<'a>>
        ensures ended { IfNone result (left_of self.now.tickets self.now.rest.now ≡ []) }
        ensures first { IfSome result (λ line. left_of self.now.tickets self.now.rest.now ≡ line.command ∷ left_of self.now.tickets line.rest.now) }
        ensures accepted { IfSome result (λ line. is_ok (script self.now.tickets line.rest.now) ≡ true) }
    {
        read_line(self.rest, self.tickets).ok()
    }
}

impl Iterator for Script<'_> {
    ghost use Rattle.std.specs.Iterator.{YieldsFirst, item_count};
    ghost use Rattle.script.specs.Left.{left_in};

    type Item = Command;

    // Hands out the first of the commands that are left; the sheet stays the same.
    ghost next_gives = { λ s r t. YieldsFirst left_in s r t × (t.tickets ≡ s.tickets) };

    ghost remaining = { item_count left_in };

    // The next command, or none after the last.
    fn next(&mut self) -> Option<Command> {
        let line = self.first_line()?;
        self.rest = line.rest;
        Some(line.command)
    }
}
