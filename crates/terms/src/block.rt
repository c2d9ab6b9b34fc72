// Which block a call is to predict.

// A vector, in quarter samples of luma, in eighth samples of chroma.
#[repr(C)]
#[derive(Clone, Copy, Debug, PartialEq, Eq)]
pub struct Mv {
    pub x: i32,
    pub y: i32,
}

// Where a block stands, its sides, and the vector that moves it.
#[derive(Clone, Copy, Debug, PartialEq, Eq)]
pub struct Block {
    pub x: usize,
    pub y: usize,
    pub w: usize,
    pub h: usize,
    pub mv: Mv,
}
