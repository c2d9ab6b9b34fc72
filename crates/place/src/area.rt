// What is read, and where: an area of a buffer, and a block's place and phase.
ghost use Rattle.std.specs.Prelude.{◌≡◌, ◌+◌, ◌-◌, ◌*◌, ◌/◌, ◌%◌, ◌^◌, ◌<◌, ◌≤◌, length};
ghost use Rattle.signed.specs.Lift.{up};
ghost use Rattle.place.specs.Place.{phase};

use crate::coords;
use terms::block::Block;

// The samples that a block may be read from, every coordinate clamped to them: w by h from samples[at] on, in rows that start stride apart.
#[derive(Clone, Copy)]
pub struct Area<'a> {
    pub samples: &'a [u8],
    pub at: usize,
    pub stride: usize,
    pub w: usize,
    pub h: usize,
    ghost wide: { 0 < w },
    ghost high: { 0 < h },
    ghost inside: { at + (h - 1) * stride + w ≤ length samples.now },
}

// Where a block is read, where a vector makes STEPS steps in a sample: the place of its first sample, kept 2^31 / STEPS up so that it is never negative, its phase, and its sides, of at most 16 samples and 64 steps.
#[derive(Clone, Copy)]
pub struct Aim<const STEPS: usize> {
    pub x: usize,
    pub y: usize,
    pub fx: usize,
    pub fy: usize,
    pub w: usize,
    pub h: usize,
    ghost left: { x < 2 ^ 31 },
    ghost above: { y < 2 ^ 31 },
    ghost phase_across: { fx < STEPS },
    ghost phase_down: { fy < STEPS },
    ghost wide: { 1 ≤ w },
    ghost high: { 1 ≤ h },
    ghost narrow: { w ≤ 16 },
    ghost low: { h ≤ 16 },
    ghost steps_across: { w * STEPS ≤ 64 },
    ghost steps_down: { h * STEPS ≤ 64 },
}

impl<const STEPS: usize> Aim<STEPS> {
    pub fn of(block: Block) -> Aim<STEPS>
        requires { (4 ≤ STEPS) × (2 ^ 31 % STEPS ≡ 0) × (block.x ≤ 65535) × (block.y ≤ 65535) × (1 ≤ block.w) × (block.w * STEPS ≤ 64) × (1 ≤ block.h) × (block.h * STEPS ≤ 64) }
        ensures { (result.x ≡ block.x + up (2 ^ 31) block.mv.x / STEPS) × (result.y ≡ block.y + up (2 ^ 31) block.mv.y / STEPS)
            × (result.fx ≡ phase block.mv.x STEPS) × (result.fy ≡ phase block.mv.y STEPS) × (result.w ≡ block.w) × (result.h ≡ block.h) }
    {
        Aim {
            x: coords::at::<STEPS>(block.x, block.mv.x),
            y: coords::at::<STEPS>(block.y, block.mv.y),
            fx: coords::phase::<STEPS>(block.mv.x),
            fy: coords::phase::<STEPS>(block.mv.y),
            w: block.w,
            h: block.h,
        }
    }
}
