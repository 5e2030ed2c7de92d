// Replays lists of calls on a sheet: reads them from standard input, makes each call of the library and prints its answer.
//
// The input is lines, each ended by a newline; fields are separated by one space. CAP, WORDS, S, E, RULE, POSITION and
// SLOTS are decimal numbers below 2^64. HEX is bytes as pairs of hexadecimal digits in either case, left out where there are none.
//
//   # words             is copied to the output; an empty line is passed over
//   image HEX           the image that later calls are lent: at most 65,536 bytes; at first none
//   lend CAP WORDS      they are lent a text buffer of CAP bytes, at most 65,536, and a table of WORDS words, at most 131,072; at first 0
//   open HEX            opens the text HEX
//   edit S E HEX        bytes S to E - 1 give way to HEX
//   read                reads the text
//   look RULE POSITION  looks a pair up
//   list SLOTS          lists the rows of the text into SLOTS row slots, at most 65,536
//
// A call is answered by a line with the number of its input line, counted from 1: as one of
//
//   3 open: length 3
//   4 edit: length 2, standing 2
//   5 read: part, length 2, examined 3, nesting 4, evaluations 4        whole, part or none
//   6 look: word c000000800030002
//   7 list: whole, length 1, examined 2, nesting 4, evaluations 3, rows 2 0000000000000001 0100000100000001      the rows' words
//   8 read: refused 14                                                  the number of the question that fails
//
// The text's length that a call is lent is the last one that an open or an edit answered, at first 0; buffer and table keep what calls
// leave in them, also where another image or less of them is lent. A line that is none of these gets a message with its number, as
// `9: not understood`, changes nothing, and the next line follows. An input of 262,144 bytes or more gets a message and no answer.
#![tactic(auto)]

ghost use Rattle.std.specs.Prelude.{◌≤◌, length, IfOk};

mod desk;
mod errors;
mod lines;
mod printed;
mod requests;

use desk::Desk;
use lines::Replay;
use std::io;
use std::io::Read;

// The buffers are arrays, and no heap is used: with one the proof would rest on the contracts of three more C functions.
fn replay(rt: &HostRuntime, input: &[u8]) -> io::Result<()> {
    let mut image = [0u8; 65536];
    let mut buffer = [0u8; 65536];
    let mut table = [0u64; 131072];
    let mut slots = [0u64; 65536];
    let given = [0u8; 65536];
    let desk = Desk::new(&mut image, &mut buffer, &mut table, &mut slots);
    let mut replay = Replay { desk, given };
    // By hand: with `split` a blank line takes 26 instructions, and 9 so.
    let mut start = 0;
    let mut line = 0;
    for (at, byte) in input.iter().enumerate() {
        if *byte == b'\n' {
            line += 1;
            if start < at {
                replay.line(rt, line, &input[start..at])?;
            }
            start = at + 1;
        }
    }
    if start < input.len() {
        replay.line(rt, line + 1, &input[start..])?;
    }
    Ok(())
}

// Reads until there is no more or no room is left, and answers how many bytes there were. `read_to_end` of std needs a heap.
fn read_full(rt: &HostRuntime, input: &mut [u8]) -> io::Result<usize>
    ensures { IfOk result (λ k. k ≤ length input.old) }
{
    let mut reader = rt.reader();
    let mut length: usize = 0;
    loop {
        let count = reader.read(&mut input[length..])?;
        if count == 0 {
            return Ok(length);
        }
        length += count;
    }
}

fn main(rt: HostRuntime) -> io::Result<()> {
    let mut input = [0u8; 262144];
    let length = read_full(&rt, &mut input)?;
    if length == input.len() {
        return println!(rt; "the input has 262144 bytes or more: nothing is replayed");
    }
    replay(&rt, &input[..length])
}
