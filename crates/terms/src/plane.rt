// From what samples a call predicts.

// w by h samples by rows, without margins, at the start of what is lent.
#[derive(Clone, Copy)]
pub struct Plane<'a> {
    pub samples: &'a [u8],
    pub w: usize,
    pub h: usize,
}

// A picture of pw by ph samples inside a buffer: its first sample stands pad columns and pad rows on, in rows that start stride apart.
#[repr(C)]
#[derive(Clone, Copy, Debug, PartialEq, Eq)]
pub struct Geometry {
    pub stride: usize,
    pub pad: usize,
    pub pw: usize,
    pub ph: usize,
}
