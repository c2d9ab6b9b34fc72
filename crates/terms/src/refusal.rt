// Why a call is refused, and the number by which C has it.
ghost use Rattle.std.specs.Prelude.{◌≡◌};
ghost use Rattle.terms.specs.Refusal.{number_of, answered};

use std::error::Error;
use std::fmt;

// By rising number: of several that apply, a call gives the first.
#[derive(Clone, Copy, Debug, PartialEq, Eq)]
pub enum Refusal {
    BadSide,
    ShortSource,
    BadBlock,
    BadPosition,
    ShortOutput,
    NotServed,
    BadReference,
}

impl Refusal {
    pub fn number(self) -> u32
        ensures { result ≡ number_of self }
    {
        match self {
            Refusal::BadSide => 1,
            Refusal::ShortSource => 2,
            Refusal::BadBlock => 3,
            Refusal::BadPosition => 4,
            Refusal::ShortOutput => 5,
            Refusal::NotServed => 6,
            Refusal::BadReference => 7,
        }
    }
}

impl fmt::Display for Refusal {
    fn fmt<W: fmt::Write>(&self, f: &mut fmt::Formatter<W>) -> fmt::Result {
        f.write_str(match self {
            Refusal::BadSide => "a side, pad or stride is outside its range",
            Refusal::ShortSource => "a source plane or row is shorter than needed",
            Refusal::BadBlock => "a block side is outside its range",
            Refusal::BadPosition => "a position is beyond 65535",
            Refusal::ShortOutput => "an output is shorter than needed",
            Refusal::NotServed => "the half-sample planes do not serve this block",
            Refusal::BadReference => "the current reference is outside 0..31",
        })
    }
}

impl Error for Refusal {}

// The number of an answer: 0 where the call is done.
pub fn number(answer: Result<(), Refusal>) -> u32
    ensures { result ≡ answered answer }
{
    match answer {
        Ok(()) => 0,
        Err(refusal) => refusal.number(),
    }
}
