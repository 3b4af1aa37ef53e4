// The verb weights: the weights of an input's plate as one text by one call of `outlines`, handed over whole.
ghost use Rattle.std.specs.Prelude.{take};
ghost use Rattle.outlines.specs.WeightLines.{PrintsWeights};
ghost use Rattle.programs.specs.Weighing.{SaysWeights, Weighed, WeighingRefused};

use crate::endings::Ending;
use crate::writer::Output;
use crate::{refusing, writer};
use plates::Refusal;
use std::io::Write;

// Hands over the text at the start of the room.
fn hand_over<W: Write>(output: &mut Output<W>, input: &[u8], room: &[u8], size: usize) -> Ending
    requires { PrintsWeights input.now (take size room.now) }
    ensures { Weighed input.now result }
{
    match writer::hand_weights(output, writer::none(), input, room, size) {
        Some(sent) => Ending::Listed(sent),
        None => Ending::Unwritten,
    }
}

// Prints the weights with working room for every plate: it takes 4 MiB of stack.
fn print_wide<W: Write>(output: &mut Output<W>, input: &[u8]) -> Ending
    ensures { SaysWeights 532480 input.now result }
{
    let mut working = [0; 532480];
    let mut room = [0; 2048];
    let written = outlines::write_weights(input, &mut working, &mut room);
    match written {
        Ok(size) => hand_over(output, input, &room, size),
        Err(refusal) => refusing::print_refused(output, refusal),
    }
}

// Prints them once more where the room was too short.
fn print_again<W: Write>(output: &mut Output<W>, input: &[u8], refusal: Refusal) -> Ending
    requires { WeighingRefused 4160 input.now refusal }
    ensures { SaysWeights 532480 input.now result }
{
    if plates::refusal_number(refusal) == 8 {
        return print_wide(output, input);
    }
    refusing::print_refused(output, refusal)
}

// Prints the weights of an input's plate, with the larger room where the small one, which is enough for profile entries up to 5, is too short.
pub fn print_every<W: Write>(output: &mut Output<W>, input: &[u8]) -> Ending
    ensures { SaysWeights 532480 input.now result }
{
    let mut working = [0; 4160];
    let mut room = [0; 2048];
    let written = outlines::write_weights(input, &mut working, &mut room);
    match written {
        Ok(size) => hand_over(output, input, &room, size),
        Err(refusal) => print_again(output, input, refusal),
    }
}
