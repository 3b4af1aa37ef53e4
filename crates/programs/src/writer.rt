// Lines handed to standard output. Nothing else writes there. A count of lines is made here alone, so that it counts lines that were taken.
ghost use Rattle.std.specs.Prelude.{take, true, OnOk, OnSome, ◌≡◌};
ghost use Rattle.std.specs.Io.KnownBytes.{Appends};
ghost use Rattle.outlines.specs.WeightLines.{PrintsWeights};
ghost use Rattle.programs.specs.Checks.{IsChecks};
ghost use Rattle.programs.specs.Printing.{Hands, IsLine};
ghost use Rattle.programs.specs.Same.{IsTold};
ghost use Rattle.programs.specs.Verbs.{IsText};
ghost use Rattle.reports.specs.Report.{line_of_refusal};

use plates::Refusal;
use std::io;
use std::io::{Error, Write};

// What a text that is handed over whole says of an input: its plate as a sheet, or the dual's.
#[derive(Clone, Copy)]
pub enum Text {
    Sheet,
    Dual,
}

// What a text of parity checks says of an input: its plate's checks as alist text, or an alist text's as a sheet.
#[derive(Clone, Copy)]
pub enum Checks {
    Alist,
    FromAlist,
}

// Standard output, and why it did not take what it was given.
#[derive(Drop)]
pub struct Output<W> {
    to: W,
    fault: Option<Error>,
}

impl<W> Output<W> {
    // Standard output, of which nothing has failed yet.
    pub fn new(to: W) -> Output<W> {
        Output { to, fault: None }
    }

    // Why it did not take the last of what it was given, where that failed.
    pub fn fault(&self) -> Option<Error> {
        self.fault
    }
}

// How many lines standard output has taken.
#[derive(Clone, Copy)]
pub struct Sent {
    lines: u64,
}

// Before the first line.
pub fn none() -> Sent
    ensures { result.lines ≡ 0 }
{
    Sent { lines: 0 }
}

// Writes all bytes through to the end.
fn write_through<W: Write>(to: &mut W, bytes: &[u8]) -> io::Result<()>
    ensures { OnOk result (Appends (W.contents to.old) (W.contents to.new) bytes.now) }
{
    to.write_all(bytes)?;
    to.flush()
}

// Whether standard output took all bytes. Where it did not, why is kept.
fn takes<W: Write>(output: &mut Output<W>, bytes: &[u8]) -> bool
    ensures { result ≡ true → Appends (W.contents output.old.to) (W.contents output.new.to) bytes.now }
{
    match write_through(&mut output.to, bytes) {
        Ok(()) => true,
        Err(reason) => {
            output.fault = Some(reason);
            false
        }
    }
}

// Hands over the line at the start of the room. Where it was taken, the reply is the count after it.
fn hand<W: Write>(output: &mut Output<W>, sent: Sent, room: &[u8], size: usize) -> Option<Sent>
    ensures counted { Hands sent result }
    ensures written { OnSome result (Appends (W.contents output.old.to) (W.contents output.new.to) (take size room.now)) }
{
    if u64::MAX <= sent.lines || room.len() < size || !takes(output, &room[..size]) {
        return None;
    }
    Some(Sent {
        lines: sent.lines + 1,
    })
}

// Hands over a line of a listing: it asks for the line that the input gives after as many as were taken.
pub fn hand_line<W: Write>(
    output: &mut Output<W>,
    sent: Sent,
    input: &[u8],
    room: &[u8],
    size: usize,
) -> Option<Sent>
    requires { IsLine input.now sent.lines (take size room.now) }
    ensures counted { Hands sent result }
    ensures written { OnSome result (Appends (W.contents output.old.to) (W.contents output.new.to) (take size room.now)) }
{
    hand(output, sent, room, size)
}

// Hands over a line of the weights.
pub fn hand_weighed<W: Write>(
    output: &mut Output<W>,
    sent: Sent,
    room: &[u8],
    size: usize,
) -> Option<Sent>
    ensures counted { Hands sent result }
    ensures written { OnSome result (Appends (W.contents output.old.to) (W.contents output.new.to) (take size room.now)) }
{
    hand(output, sent, room, size)
}

// Hands over the weights of an input's plate whole: it asks for the text that the input is to print.
pub fn hand_weights<W: Write>(
    output: &mut Output<W>,
    sent: Sent,
    input: &[u8],
    room: &[u8],
    size: usize,
) -> Option<Sent>
    requires { PrintsWeights input.now (take size room.now) }
    ensures counted { Hands sent result }
    ensures written { OnSome result (Appends (W.contents output.old.to) (W.contents output.new.to) (take size room.now)) }
{
    hand(output, sent, room, size)
}

// Hands over a text whole: it asks for what the input is to print.
pub fn hand_text<W: Write>(
    output: &mut Output<W>,
    sent: Sent,
    what: Text,
    input: &[u8],
    room: &[u8],
    size: usize,
) -> Option<Sent>
    requires { IsText what input.now (take size room.now) }
    ensures counted { Hands sent result }
    ensures written { OnSome result (Appends (W.contents output.old.to) (W.contents output.new.to) (take size room.now)) }
{
    hand(output, sent, room, size)
}

// Hands over a text of parity checks whole: it asks for what the input is to print.
pub fn hand_checks<W: Write>(
    output: &mut Output<W>,
    sent: Sent,
    what: Checks,
    input: &[u8],
    room: &[u8],
    size: usize,
) -> Option<Sent>
    requires { IsChecks what input.now (take size room.now) }
    ensures counted { Hands sent result }
    ensures written { OnSome result (Appends (W.contents output.old.to) (W.contents output.new.to) (take size room.now)) }
{
    hand(output, sent, room, size)
}

// Hands over a line about two inputs: it asks for what is told of them.
pub fn hand_told<W: Write>(
    output: &mut Output<W>,
    sent: Sent,
    same: bool,
    first: &[u8],
    second: &[u8],
    room: &[u8],
    size: usize,
) -> Option<Sent>
    requires { IsTold same first.now second.now (take size room.now) }
    ensures counted { Hands sent result }
    ensures written { OnSome result (Appends (W.contents output.old.to) (W.contents output.new.to) (take size room.now)) }
{
    hand(output, sent, room, size)
}

// Hands over the line of a refusal.
pub fn hand_refusal<W: Write>(
    output: &mut Output<W>,
    sent: Sent,
    refusal: Refusal,
    room: &[u8],
    size: usize,
) -> Option<Sent>
    requires { take size room.now ≡ line_of_refusal refusal }
    ensures counted { Hands sent result }
    ensures written { OnSome result (Appends (W.contents output.old.to) (W.contents output.new.to) (take size room.now)) }
{
    hand(output, sent, room, size)
}
