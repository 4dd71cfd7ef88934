// The program `ask`: one question a line on standard input, one answer a line on standard output, in
// order. A question is an operation's name and the bit patterns of its operands, an answer the refusal
// number and the result; a line that is no question is answered `?`. docs/ASK.md has every question.
//
// This file has the stream of lines. parse.rt reads a line, a file for each layer (line.rt, circle.rt,
// rect.rt, common.rt, points.rt, boxes.rt) has that layer's questions, and print.rt writes an answer
// (reply.rt) as text.
#![tactic(auto)]

mod boxes;
mod circle;
mod common;
mod line;
mod parse;
mod points;
mod print;
mod rect;
mod reply;

ghost use Rattle.ask.specs.Room.{longest, room, HasRoom, GrewBy};

use crate::print::{Answers, CAPACITY, ROOM};
use crate::reply::Reply;
use arrayvec::ArrayVec;
use std::io::Read;

// A line of more bytes is no question.
const LONGEST: usize = 200000;

// Room for one byte more than the longest question, so that a longer line is seen to be longer though
// its rest is dropped.
const HELD: usize = LONGEST + 1;

// The most numbers that an operation takes, lists aside.
const MOST: usize = 10;

// What stands between two reads.
#[derive(Drop)]
struct Dialogue<'a, P> {
    rt: &'a P,
    // a line that has not ended
    text: ArrayVec<u8, HELD>,
    // the answers that are not written yet
    answers: Answers,
}

fn main(rt: HostRuntime) {
    let mut dialogue = Dialogue {
        rt: &rt,
        text: ArrayVec::new(),
        answers: ArrayVec::new(),
    };
    dialogue.serve(&mut rt.stdin());
}

impl<P: Print + Eprint> Dialogue<'_, P> {
    // Answers every line, and ends with the input, or where that cannot be read. A proved loop has to end,
    // and nothing says that the input does: so the loop counts its turns, up to a number that no run uses up.
    fn serve<R: Read>(&mut self, reader: &mut R) {
        let mut chunk = io::large_buffer();
        for _ in 0..u64::MAX {
            match reader.read(&mut chunk) {
                Ok(0) | Err(_) => return self.finish(),
                Ok(n) => self.take_all(&chunk[..n]),
            }
        }
    }

    // Answers the last line where it lacks its newline.
    fn finish(&mut self) {
        if !self.text.is_empty() {
            self.take_all(b"\n");
        }
    }

    // Takes the bytes of one read. Writes the answers to the lines that end in them, so that who asks by
    // hand is answered at once.
    fn take_all(&mut self, bytes: &[u8]) {
        for part in bytes.split_inclusive(|b| *b == b'\n') {
            self.take(part);
        }
        self.write();
    }

    // Takes a part of a line: its end, where a newline closes it, or else more bytes of its text.
    fn take(&mut self, part: &[u8]) {
        match part.strip_suffix(b"\n") {
            Some(end) => {
                self.hold(end);
                self.answer_line();
            }
            None => self.hold(part),
        }
    }

    // Adds bytes to the text. Where the line is too long already, they are dropped.
    fn hold(&mut self, bytes: &[u8]) {
        let n = bytes.len().min(self.text.remaining_capacity());
        let _ = self.text.try_extend_from_slice(&bytes[..n]);
    }

    // Answers the line, and makes way for the next.
    fn answer_line(&mut self) {
        self.make_room();
        if put_answer(self.text.as_slice(), &mut self.answers).is_none() {
            print::unknown(&mut self.answers);
        }
        self.text.clear();
    }

    // Writes the answers that wait where another one may not fit behind them.
    fn make_room(&mut self)
        ensures { HasRoom self.new.answers room }
    {
        if self.answers.len() > CAPACITY - ROOM {
            self.write();
        }
    }

    // Writes the answers that wait. What cannot be written, as on a full disk, is told on standard error;
    // the exit status stays 0.
    fn write(&mut self)
        ensures { HasRoom self.new.answers room }
    {
        if self.rt.write_all(self.answers.as_slice()).is_err() {
            // Where this cannot be written either, nobody is left to tell.
            let _ = self.rt.eprintln("ask: answers cannot be written");
        }
        self.answers.clear();
    }
}

// Puts a line's answer, unless it is no question. Apart are `common`, `bbox.read` and `bbox.write`, whose
// answers are a list, a box and a text.
fn put_answer(s: &[u8], out: &mut Answers) -> Option<()>
    requires { HasRoom out.old room }
    ensures { GrewBy out.old out.new longest }
{
    if s.len() > LONGEST {
        return None;
    }
    let (name, rest) = parse::name(s);
    match name {
        b"common" => common::reply(rest, out),
        b"bbox.read" => boxes::read(rest, out),
        b"bbox.write" => boxes::write(rest, out),
        _ => {
            print::reply(answer(name, rest)?, out);
            Some(())
        }
    }
}

// The answer to any other question, of which s is what follows the name. Apart are those whose operands
// are not only numbers: `rect.vertex`, `growth` and `running`, and `bbox.rect`.
fn answer(name: &[u8], s: &[u8]) -> Option<Reply> {
    match name {
        b"bbox.rect" => boxes::to_rect(s),
        b"rect.vertex" => rect::vertex(s),
        b"running" => points::running(s),
        b"growth" => points::growth(s),
        _ => {
            let mut numbers = ArrayVec::<f64, MOST>::new();
            parse::numbers(s, &mut numbers)?;
            of_numbers(name, numbers.as_slice())
        }
    }
}

// The answer to a question with numbers alone.
fn of_numbers(name: &[u8], numbers: &[f64]) -> Option<Reply> {
    if let (b"remainder", [x]) = (name, numbers) {
        return Some(reply::number(consts::remainder(*x)));
    }
    line::reply(name, numbers)
        .or_else(|| circle::reply(name, numbers))
        .or_else(|| rect::reply(name, numbers))
}
