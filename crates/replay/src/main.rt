// Replays a list of the oracle's answers through the library's calls, and says how many differ.
#![tactic(auto)]

ghost use Rattle.std.specs.Prelude.{◌≡◌, ◌<◌, ◌≤◌, length};

mod adler;
mod fault;

use calls::call::Call;
use calls::{Outputs, ROOM, Request};
use fault::Fault;
use lists::{NumberError, Numbers, Text};
use std::io::Read;

// What every output holds before a call.
const FILL: u8 = 165;

// The pictures' bytes, one picture behind the other.
#[derive(Drop)]
struct Pictures {
    bytes: [u8; 131072],
    filled: usize,
    ghost within: { filled ≤ 131072 },
}

impl Pictures {
    fn none() -> Pictures {
        Pictures {
            bytes: [0; 131072],
            filled: 0,
        }
    }

    // What follows the P of a line `P place=bytes`: a picture, whose place among the pictures' bytes is its number.
    fn read(&mut self, text: &mut Text) -> Result<(), Fault> {
        let numbers = text.numbers().map_err(|_| Fault::PictureNumber)?;
        let place = self.filled;
        if numbers[0] != place || !text.take(b'=') {
            return Err(Fault::PictureNumber);
        }
        let room = &mut self.bytes[place..];
        let n = text.bytes(room).ok_or(Fault::PictureBytes)?;
        if !text.take(b'\n') {
            return Err(Fault::PictureBytes);
        }
        self.filled = place + n;
        Ok(())
    }
}

// A line of a call: the call, its numbers, and those of its answer.
#[derive(Clone, Copy)]
struct Line {
    call: Call,
    numbers: Numbers,
    answer: Numbers,
}

impl Line {
    fn read(text: &mut Text) -> Option<Line> {
        let numbers = text.numbers().ok()?;
        let call = Call::try_from(numbers[0]).ok()?;
        if !text.take(b'=') {
            return None;
        }
        let answer = text.numbers().ok()?;
        Some(Line {
            call,
            numbers,
            answer,
        })
    }

    // Whether all that the call gives is as listed; none where the rest of the line lists no outputs.
    fn judge(&self, text: &mut Text, pictures: &Pictures) -> Option<bool> {
        let mut o = [FILL; ROOM];
        let mut p = [FILL; ROOM];
        let mut q = [FILL; ROOM];
        let mut r = [FILL; ROOM];
        let mut outputs = Outputs {
            o: &mut o,
            p: &mut p,
            q: &mut q,
            r: &mut r,
        };
        let request = Request {
            numbers: &self.numbers,
            pictures: &pictures.bytes,
        };
        let answer = calls::answer(self.call, request, &mut outputs);
        let room = self.numbers[1];
        let same_o = is_as_listed(text, &o, room)?;
        let same_p = is_as_listed(text, &p, room)?;
        let same_q = is_as_listed(text, &q, room)?;
        let same_r = is_as_listed(text, &r, room)?;
        if !text.take(b'\n') {
            return None;
        }
        let same = runs::same_numbers(&answer, &self.answer);
        Some(same & same_o & same_p & same_q & same_r)
    }
}

// The first `room` bytes of an output against those that the line lists after a `|`: past these nothing may have been written.
fn is_as_listed(text: &mut Text, output: &[u8], room: usize) -> Option<bool> {
    let mut as_before = [FILL; ROOM];
    let listed = as_before.get_mut(..room)?;
    if text.take(b'|') {
        text.bytes(listed)?;
    }
    Some(runs::same_bytes(output.get(..room)?, listed))
}

// How many answers there were, and how many of them differ.
#[derive(Clone, Copy)]
struct Tally {
    done: usize,
    differ: usize,
}

impl Tally {
    fn count(&mut self, same: bool) {
        self.done = self.done.wrapping_add(1);
        if !same {
            self.differ = self.differ.wrapping_add(1);
        }
    }
}

const NONE: Tally = Tally { done: 0, differ: 0 };

// Where the replay stands: what is left of the text, the line there, and the answers so far, all and by the call's number.
#[derive(Clone, Copy)]
struct Replay<'a> {
    text: Text<'a>,
    line: usize,
    all: Tally,
    by_call: [Tally; 24],
}

impl<'a> Replay<'a> {
    // At the first line that is no comment.
    fn after_comments(s: &'a [u8]) -> Replay<'a> {
        let mut text = Text { rest: s };
        let mut line: usize = 1;
        while text.take_comment() {
            line = line.wrapping_add(1);
        }
        Replay {
            text,
            line,
            all: NONE,
            by_call: [NONE; 24],
        }
    }

    fn count(&mut self, rt: &impl Print, call: Call, same: bool) {
        self.all.count(same);
        self.by_call[call.number()].count(same);
        if !same {
            let line = self.line;
            let _ = println!(rt; "line {line}: {call} differs");
        }
    }

    // A line: a picture, or a call and its answer.
    fn step(&mut self, rt: &impl Print, pictures: &mut Pictures) -> Result<(), Fault> {
        if self.text.take(b'P') {
            pictures.read(&mut self.text)?;
        } else {
            let line = Line::read(&mut self.text).ok_or(Fault::Call)?;
            let same = line
                .judge(&mut self.text, pictures)
                .ok_or(Fault::OutputBytes)?;
            self.count(rt, line.call, same);
        }
        self.line = self.line.wrapping_add(1);
        Ok(())
    }

    // All lines; there are fewer of them than bytes.
    fn run(&mut self, rt: &impl Print) -> Result<(), Fault> {
        let mut pictures = Pictures::none();
        for _ in 0..self.text.rest.len() {
            if self.text.rest.is_empty() {
                break;
            }
            self.step(rt, &mut pictures)?;
        }
        Ok(())
    }

    fn report(&self, rt: &impl Print) {
        for call in Call::ALL {
            let tally = self.by_call[call.number()];
            let _ = println!(rt; "{call} {} answers, {} differ", tally.done, tally.differ);
        }
        let all = self.all;
        let _ = println!(rt; "{} answers replayed, {} differ", all.done, all.differ);
    }
}

fn complain(rt: &impl Print, line: usize, fault: Fault) {
    let _ = println!(rt; "line {line}: {fault}");
}

// The first line that is no comment has the number of answers, and the checksum of all that follows it. What was read of it counts.
fn run(rt: &impl Print, s: &[u8]) {
    let mut replay = Replay::after_comments(s);
    let head = replay.line;
    let numbers = replay.text.numbers();
    let whole = numbers.is_ok();
    let (count, sum) = match numbers {
        Ok(read) => (read[0], read[1]),
        Err(broken) => {
            // A number that is too large sends the replay back to the text's beginning.
            if broken.why == NumberError::TooLarge {
                replay.text = Text { rest: s };
            }
            (broken.read[0], broken.read[1])
        }
    };
    replay.text.skip();
    replay.line = replay.line.wrapping_add(1);
    if !whole || sum != adler::checksum(replay.text.rest) {
        complain(rt, head, Fault::Checksum);
    }
    if let Err(fault) = replay.run(rt) {
        complain(rt, replay.line, fault);
    }
    if count != replay.all.done {
        complain(rt, head, Fault::Count);
    }
    replay.report(rt);
}

// Room for the list.
fn no_text() -> [u8; 393216]
    ensures { 393216 ≡ length result }
{
    [0; 393216]
}

// Reads until buf is full, the input ends or a read fails: that many bytes are at its start.
fn read_full(input: &mut impl Read, buf: &mut [u8]) -> usize
    ensures { result ≤ length buf.new }
{
    let mut done = 0;
    while let Ok(n @ 1..) = input.read(&mut buf[done..]) {
        done += n;
    }
    done
}

fn main(rt: HostRuntime) {
    let mut s = no_text();
    let n = read_full(&mut rt.stdin(), &mut s);
    run(&rt, &s[..n]);
}
