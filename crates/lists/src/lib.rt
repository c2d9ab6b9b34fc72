// Reading the list: what is left of the text, which each reading shortens by what was read.
#![tactic(auto)]

ghost use Rattle.std.specs.Prelude.{◌≡◌, ◌<◌, ◌≤◌, ◌↔◌, length, Some, IfSome, IfOk, IsTrue, MatchBool, MatchOption, slice_get, drop};
ghost use Rattle.lists.specs.Tail.{IsTail};

use std::error::Error;
use std::fmt;

// The most numbers that a call or an answer has.
pub const MOST: usize = 24;

pub type Numbers = [usize; MOST];

// Why no number was read.
#[derive(Clone, Copy, Debug, PartialEq, Eq)]
pub enum NumberError {
    NoDigits,
    TooLarge,
    TooMany,
}

impl fmt::Display for NumberError {
    fn fmt<W: fmt::Write>(&self, f: &mut fmt::Formatter<W>) -> fmt::Result {
        f.write_str(match self {
            NumberError::NoDigits => "no number",
            NumberError::TooLarge => "a number that is not below 2^64",
            NumberError::TooMany => "more than 24 numbers",
        })
    }
}

impl Error for NumberError {}

// Numbers that break off: those before, with zeros behind them, and why there are no more.
#[derive(Clone, Copy, Debug, PartialEq, Eq)]
pub struct Broken {
    pub read: Numbers,
    pub why: NumberError,
}

// What is left of the text.
#[derive(Clone, Copy)]
pub struct Text<'a> {
    pub rest: &'a [u8],
}

impl<'a> Text<'a> {
    pub fn first(&self) -> Option<u8>
        ensures { result ≡ slice_get self.now.rest.now 0 }
    {
        self.rest.first().copied()
    }

    // Past one byte, where one is left.
    pub fn skip(&mut self)
        ensures { self.new.rest.now ≡ drop 1 self.old.rest.now }
    {
        if let Some((_, rest)) = self.rest.split_first() {
            self.rest = rest;
        }
    }

    // Past the byte `mark`, where it is the next.
    pub fn take(&mut self, mark: u8) -> bool
        ensures found { IsTrue result ↔ (slice_get self.old.rest.now 0 ≡ Some mark) }
        ensures left { MatchBool result (self.new.rest.now ≡ drop 1 self.old.rest.now)
            (self.new.rest.now ≡ self.old.rest.now) }
    {
        let found = self.first() == Some(mark);
        if found {
            self.skip();
        }
        found
    }

    // Past a line that begins with `#` and ends.
    pub fn take_comment(&mut self) -> bool
        ensures shorter { IsTrue result → length self.new.rest.now < length self.old.rest.now }
        ensures left { MatchBool result (IsTail self.old.rest.now self.new.rest.now)
            (self.new.rest.now ≡ self.old.rest.now) }
    {
        if self.first() != Some(b'#') {
            return false;
        }
        let Some(end) = self.rest.iter().position(|b| *b == b'\n') else {
            return false;
        };
        self.rest = &self.rest[end + 1..];
        true
    }

    // A decimal number below 2^64. It has twenty digits at most, also where the first are zeros.
    fn decimal(&mut self) -> Result<usize, NumberError>
        ensures shorter { IfOk result (λ _. length self.new.rest.now < length self.old.rest.now) }
        ensures left { IsTail self.old.rest.now self.new.rest.now }
    {
        let mut value = None;
        for _ in 0..20u8 {
            let Some(digit) = self.first().and_then(decimal_digit) else {
                break;
            };
            value = Some(appended(value.unwrap_or(0), digit).ok_or(NumberError::TooLarge)?);
            self.skip();
        }
        value.ok_or(NumberError::NoDigits)
    }

    // A number with its sign; below 0 it is kept as 2^64 less.
    fn signed_number(&mut self) -> Result<usize, NumberError>
        ensures shorter { IfOk result (λ _. length self.new.rest.now < length self.old.rest.now) }
        ensures left { IsTail self.old.rest.now self.new.rest.now }
    {
        if self.take(b'-') {
            return Ok(0usize.wrapping_sub(self.decimal()?));
        }
        self.decimal()
    }

    fn read_numbers(&mut self, list: &mut Numbers) -> Result<(), NumberError>
        ensures shorter { IfOk result (λ _. length self.new.rest.now < length self.old.rest.now) }
        ensures left { IsTail self.old.rest.now self.new.rest.now }
    {
        for number in list.iter_mut() {
            *number = self.signed_number()?;
            if !self.take(b' ') {
                return Ok(());
            }
        }
        Err(NumberError::TooMany)
    }

    // Numbers with a space between each two.
    pub fn numbers(&mut self) -> Result<Numbers, Broken>
        ensures shorter { IfOk result (λ _. length self.new.rest.now < length self.old.rest.now) }
        ensures left { IsTail self.old.rest.now self.new.rest.now }
    {
        let mut read = [0usize; MOST];
        match self.read_numbers(&mut read) {
            Ok(()) => Ok(read),
            Err(why) => Err(Broken { read, why }),
        }
    }

    // How often the byte before stands: `*` and a number and `.`, else once.
    fn times(&mut self) -> Option<usize>
        ensures { IsTail self.old.rest.now self.new.rest.now }
    {
        if !self.take(b'*') {
            return Some(1);
        }
        let count = self.decimal().ok()?;
        if self.take(b'.') { Some(count) } else { None }
    }

    // A byte in hexadecimal.
    fn byte(&mut self) -> Option<u8>
        ensures shorter { IfSome result (λ _. length self.new.rest.now < length self.old.rest.now) }
        ensures left { IsTail self.old.rest.now self.new.rest.now }
    {
        let [high, low, rest @ ..] = self.rest else {
            return None;
        };
        let byte = hexadecimal_digit(*high)? * 16 + hexadecimal_digit(*low)?;
        self.rest = rest;
        Some(byte)
    }

    // Bytes in hexadecimal, to the beginning of room, and how many; they end at what is no byte.
    pub fn bytes(&mut self, room: &mut [u8]) -> Option<usize>
        ensures within { IfSome result (λ n. n ≤ length room.new) }
        ensures shorter { MatchOption result (length self.new.rest.now < length self.old.rest.now)
            (λ n. 0 < n → length self.new.rest.now < length self.old.rest.now) }
        ensures left { IsTail self.old.rest.now self.new.rest.now }
    {
        let mut filled = 0;
        while let Some(byte) = self.byte() {
            let count = self.times()?;
            room.get_mut(filled..)?.get_mut(..count)?.fill(byte);
            filled += count;
        }
        Some(filled)
    }
}

fn decimal_digit(b: u8) -> Option<u8> {
    if b.is_ascii_digit() {
        Some(b - b'0')
    } else {
        None
    }
}

// A digit's value in base 16, where letters are small.
fn hexadecimal_digit(b: u8) -> Option<u8>
    ensures { IfSome result (λ d. d < 16) }
{
    match b {
        b'0'..=b'9' => Some(b - b'0'),
        b'a'..=b'f' => Some(b - b'a' + 10),
        _ => None,
    }
}

fn appended(value: usize, digit: u8) -> Option<usize> {
    value.checked_mul(10)?.checked_add(usize::from(digit))
}

// n bytes from `at` on; none where there are not so many.
pub fn cut(s: &[u8], at: usize, n: usize) -> &[u8] {
    s.get(at..).and_then(|rest| rest.get(..n)).unwrap_or(&[])
}
