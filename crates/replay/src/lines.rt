// What a line does.
use crate::desk::Desk;
use crate::errors::LineError;
use crate::printed::{Listed, Shown};
use crate::requests::{Call, Request};
use std::io;
use std::io::Write;

// The bytes of a comment, whatever they are. This and the other functions here are not inlined: a line that prints nothing then clears less of
// the stack. Counted: one that lends takes 296 instructions, and 370 where all is inlined.
#[inline(never)]
fn comment(rt: &HostRuntime, words: &[u8]) -> io::Result<()> {
    let mut out = io::writer(rt);
    out.write_all(words)?;
    out.write_all(b"\n")
}

#[inline(never)]
fn message(rt: &HostRuntime, line: usize, error: LineError) -> io::Result<()> {
    println!(rt; "{line}: {error}")
}

// Makes a call and prints its answer.
#[inline(never)]
fn answer(rt: &HostRuntime, line: usize, desk: &mut Desk<'_>, call: Call<'_>) -> io::Result<()> {
    match call {
        Call::Open(bytes) => println!(rt; "{line} open: {}", Shown(desk.open(bytes))),
        Call::Edit(s, e, bytes) => println!(rt; "{line} edit: {}", Shown(desk.edit(s, e, bytes))),
        Call::Read => println!(rt; "{line} read: {}", Shown(desk.read())),
        Call::Look(rule, position) => println!(rt;
            "{line} look: {}",
            Shown(desk.look_up(rule, position))
        ),
        Call::List(count) => match desk.list(count) {
            Ok(answer) => {
                let slots = desk.slots();
                let listed = answer.map(|listing| Listed { listing, slots });
                println!(rt; "{line} list: {}", Shown(listed))
            }
            Err(error) => message(rt, line, error),
        },
    }
}

// Lends what a line gives, or takes the call that it asks for.
#[inline(never)]
fn lend_or_call<'a>(
    desk: &mut Desk<'_>,
    given: &'a mut [u8],
    text: &[u8],
) -> Result<Option<Call<'a>>, LineError> {
    match Request::of_line(text, given)? {
        Request::Image(image) => desk.keep_image(image)?,
        Request::Lend(cap, words) => desk.lend(cap, words)?,
        Request::Call(call) => return Ok(Some(call)),
    }
    Ok(None)
}

// What the lines work on: what the calls are lent, and room for the bytes that a line gives.
#[derive(Drop)]
pub struct Replay<'a> {
    pub desk: Desk<'a>,
    pub given: [u8; 65536],
}

impl Replay<'_> {
    // The line of this number, which is not empty, without its newline.
    pub fn line(&mut self, rt: &HostRuntime, line: usize, text: &[u8]) -> io::Result<()> {
        if let [b'#', ..] = text {
            return comment(rt, text);
        }
        match lend_or_call(&mut self.desk, &mut self.given, text) {
            Ok(None) => Ok(()),
            Ok(Some(call)) => answer(rt, line, &mut self.desk, call),
            Err(error) => message(rt, line, error),
        }
    }
}
