// Chroma samples: the weighted average of four, in 16 bits, eight lanes a row, and four rows at a time where the block allows it.
#![tactic(auto)]

ghost use Rattle.std.specs.Prelude.{◌≡◌, true, ℕ, ◌+◌, ◌*◌, ◌%◌, ◌≤◌, ◌<◌, length, get_or};
ghost use Rattle.grid.specs.Block.{by_rows, drawn};
ghost use Rattle.grid.specs.Run.{put, narrow};
ghost use Rattle.samples.specs.Bilinear.{chroma_sample};
ghost use Rattle.samples.specs.Kernel.{window_at};

use grid::{Size, View, lanes};
use samples::taps;

// How far a block lies right of and below whole samples, in eighths.
#[derive(Clone, Copy)]
struct Fraction {
    x: u16,
    y: u16,
}

// The chroma sample in column x and row y of a view.
fn sample(v: View, f: Fraction, x: usize, y: usize) -> u8
    requires { (f.x < 8) × (f.y < 8) × (v.at + (y + 1) * v.stride + x + 1 < length v.samples.now) }
    ensures { result ≡ chroma_sample f.x f.y (window_at v.entry.samples.now v.entry.at v.entry.stride x y) }
{
    let p = v.at + y * v.stride + x;
    let q = p + v.stride;
    let a = taps::wide(v.samples[p]);
    let b = taps::wide(v.samples[p + 1]);
    let c = taps::wide(v.samples[q]);
    let d = taps::wide(v.samples[q + 1]);
    (((8 - f.x) * (8 - f.y) * a + f.x * (8 - f.y) * b + (8 - f.x) * f.y * c + f.x * f.y * d + 32)
        / 64) as u8
}

// ROWS rows of eight lanes. Four rows in one loop body are vector code; eight samples alone are not: the compiler unrolls them first. By index: what was written through a slice's iterator, no proof knows once it is gone.
fn fill<const ROWS: usize>(v: View, f: Fraction, z: &mut [u8])
    requires { (8 * ROWS ≤ length z.old) × (f.x < 8) × (f.y < 8) × (v.at + ROWS * v.stride + 9 ≤ length v.samples.now) }
    ensures { (j i : ℕ) → j < ROWS → i < 8 → get_or z.new (8 * j + i) 0 ≡ chroma_sample f.x f.y (window_at v.entry.samples.now v.entry.at v.entry.stride i j) }
{
    for i in 0..8 {
        for j in 0..ROWS {
            z[8 * j + i] = sample(v, f, i, j);
        }
    }
}

// The first n lanes of each. One row is mostly two samples wide: a literal width makes the store one move.
fn store<const ROWS: usize>(z: &[u8], n: usize, dst: &mut [u8], o: usize)
    requires { (ROWS ≡ 4 → narrow n ≡ true) × ((ROWS ≡ 4 → ⊥) → ROWS ≡ 1) × (8 * ROWS ≤ length z.now) × (n ≤ 8) × (o + ROWS * n ≤ length dst.old) }
    ensures { dst.new ≡ put dst.old o (ROWS * n) (by_rows n (λ c j. get_or z.now (8 * j + c) 0)) }
{
    if ROWS == 4 {
        lanes::store_four(z, n, dst, o);
        return;
    }
    if n == 2 {
        grid::copy_run(z, 0, 2, dst, o);
        return;
    }
    grid::copy_run(z, 0, n, dst, o);
}

// A block by ROWS rows at a time: by four, if it is eight or four samples wide, or by one. More LANES than they have would be cleared for nothing.
fn by_groups<const ROWS: usize, const LANES: usize>(
    v: View,
    f: Fraction,
    size: Size,
    dst: &mut [u8],
)
    requires grouped { (LANES ≡ 8 * ROWS) × (1 ≤ ROWS) × (ROWS ≡ 4 → narrow size.w ≡ true) × ((ROWS ≡ 4 → ⊥) → ROWS ≡ 1) × (size.h % ROWS ≡ 0) }
    requires within { (f.x < 8) × (f.y < 8) × (v.at + size.h * v.stride + 9 ≤ length v.samples.now) × (size.w ≤ 8) × (size.w * size.h ≤ length dst.old) }
    ensures { dst.new ≡ drawn dst.old size.w size.h (λ c r. chroma_sample f.x f.y (window_at v.entry.samples.now v.entry.at v.entry.stride c r)) }
{
    for k in 0..size.h / ROWS {
        let r = ROWS * k;
        let first = View {
            at: v.at + r * v.stride,
            ..v
        };
        let mut z = [0u8; LANES];
        fill::<ROWS>(first, f, &mut z);
        store::<ROWS>(&z, size.w, dst, r * size.w);
    }
}

// The chroma block of a phase, whose first sample's two by two are the view's first.
pub fn chroma_block(v: View, fx: usize, fy: usize, size: Size, dst: &mut [u8])
    requires { (fx < 8) × (fy < 8) × (v.at + size.h * v.stride + 9 ≤ length v.samples.now) × (size.w ≤ 8) × (size.w * size.h ≤ length dst.old) }
    ensures { dst.new ≡ drawn dst.old size.w size.h (λ c r. chroma_sample fx fy (window_at v.entry.samples.now v.entry.at v.entry.stride c r)) }
{
    let f = Fraction {
        x: fx as u16,
        y: fy as u16,
    };
    if lanes::is_narrow(size.w) & (size.h % 4 == 0) {
        by_groups::<4, 32>(v, f, size, dst);
        return;
    }
    by_groups::<1, 8>(v, f, size, dst);
}
