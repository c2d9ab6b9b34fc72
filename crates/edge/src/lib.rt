// How many positions of a block lie outside the picture.
#![tactic(auto)]

ghost use Rattle.std.specs.Prelude.{◌≡◌, ◌||◌, ◌+◌, ◌*◌, ◌/◌, ◌%◌, ◌^◌, ◌≤◌, ◌<◌};
ghost use Rattle.std.proofs.Math.IntN.{sub_ℕ};
ghost use Rattle.terms.specs.Refusal.{answered};
ghost use Rattle.edge.specs.Edge.{count, off, edge_refusal, outside_count, answer, edges};

use place::{coords, limits};
use terms::block::Block;
use terms::refusal::Refusal;

// The answer as C has it: the refusal's number, or 0 and the count.
#[repr(C)]
#[derive(Clone, Copy, Debug, PartialEq, Eq)]
pub struct Edges {
    pub refusal: u32,
    pub count: u32,
}

impl From<Result<u32, Refusal>> for Edges {
    ghost from_gives = { λ r e. e ≡ edges r };

    fn from(answer: Result<u32, Refusal>) -> Edges {
        match answer {
            Ok(count) => Edges { refusal: 0, count },
            Err(refusal) => Edges {
                refusal: refusal.number(),
                count: 0,
            },
        }
    }
}

fn check_edge(w: usize, h: usize, block: Block) -> Result<(), Refusal>
    ensures { answered result ≡ edge_refusal w h block.x block.y block.w block.h }
{
    if limits::bad_sides(w, h) {
        return Err(Refusal::BadSide);
    }
    if limits::bad_block(limits::LUMA, block.w, block.h) {
        return Err(Refusal::BadBlock);
    }
    if limits::bad_position(block.x, block.y) {
        return Err(Refusal::BadPosition);
    }
    Ok(())
}

// A place that is 2^29 up lies outside.
fn is_off(at: usize, n: usize) -> bool
    requires { n ≤ 8192 }
    ensures { result ≡ off (sub_ℕ at (2 ^ 29)) n }
{
    let base = coords::base::<4>();
    (at < base) | (n + base <= at)
}

// A loop and not a filter, whose closure would have to ask for all that is required here, for each k once more.
fn count_off(x: usize, y: usize, w: usize, h: usize, bw: usize, bh: usize) -> u32
    requires { (x < 2 ^ 31) × (y < 2 ^ 31) × (w ≤ 8192) × (h ≤ 8192) × (1 ≤ bw) × (bw ≤ 16) × (bh ≤ 16) × (bw * bh ≤ 256) }
    ensures { result ≡ count (bw * bh) (λ k. off (sub_ℕ (x + k % bw) (2 ^ 29)) w || off (sub_ℕ (y + k / bw) (2 ^ 29)) h) }
{
    let mut n = 0;
    let total = bw * bh;
    for k in 0..total {
        if is_off(x + k % bw, w) | is_off(y + k / bw, h) {
            n += 1;
        }
    }
    n
}

// How many positions of the block, moved by its vector, lie outside a picture of w by h samples.
pub fn edge_count(w: usize, h: usize, block: Block) -> Result<u32, Refusal>
    ensures { edges result ≡ answer (edge_refusal w h block.x block.y block.w block.h) (outside_count w h block.x block.y block.w block.h block.mv.x block.mv.y) }
{
    check_edge(w, h, block)?;
    let x = coords::at::<4>(block.x, block.mv.x);
    let y = coords::at::<4>(block.y, block.mv.y);
    Ok(count_off(x, y, w, h, block.w, block.h))
}
