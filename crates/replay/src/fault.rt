// What is wrong with a list.
use std::error::Error;
use std::fmt;

// The first two let the replay go on; the others end it at their line.
#[derive(Clone, Copy, Debug, PartialEq, Eq)]
pub enum Fault {
    Checksum,
    Count,
    PictureNumber,
    PictureBytes,
    Call,
    OutputBytes,
}

impl fmt::Display for Fault {
    fn fmt<W: fmt::Write>(&self, f: &mut fmt::Formatter<W>) -> fmt::Result {
        f.write_str(match self {
            Fault::Checksum => "not the checksum of what follows",
            Fault::Count => "not the number of answers",
            Fault::PictureNumber => "not a picture's number",
            Fault::PictureBytes => "not a picture's bytes",
            Fault::Call => "not a call and its answer",
            Fault::OutputBytes => "not an output's bytes",
        })
    }
}

impl Error for Fault {}
