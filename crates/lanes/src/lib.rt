// Blocks out of kernels: sixteen lanes of a row at a time, or eight lanes of each of two rows.
#![tactic(auto)]

ghost use Rattle.std.specs.Prelude.{◌≡◌, true, ℕ, ◌+◌, ◌*◌, ◌%◌, ◌^◌, ◌<◌, ◌≤◌, length, get_or};
ghost use Rattle.grid.specs.Block.{drawn};
ghost use Rattle.grid.specs.Run.{narrow};

use grid::{Size, lanes};

// The samples of a block by column and row, and the rows whose lanes may be made.
pub trait Kernel {
    ghost sample: { Self → ℕ → ℕ → ℕ };

    ghost Reaches: { Self → ℕ → Type 0 };

    // Sixteen lanes of a row.
    fn row(&self, r: usize) -> [u8; 16]
        requires { Reaches self.now r }
        ensures { (c : ℕ) → c < 16 → get_or result c 0 ≡ sample self.now c r };

    // Eight lanes of a row, and after them eight of the next.
    fn pair(&self, r: usize) -> [u8; 16]
        requires { (Reaches self.now r) × (Reaches self.now (r + 1)) × (r + 1 < 2 ^ 64) }
        ensures { (j c : ℕ) → j < 2 → c < 8 → get_or result (8 * j + c) 0 ≡ sample self.now c (r + j) };
}

// A kernel whose lanes are made one by one.
pub trait Lane {
    ghost lane: { Self → ℕ → ℕ → ℕ };

    ghost Reads: { Self → ℕ → Type 0 };

    fn at(&self, c: usize, r: usize) -> u8
        requires { (Reads self.now r) × (c < 16) }
        ensures { result ≡ lane self.now c r };
}

#[derive(Clone, Copy)]
pub struct Each<L>(pub L);

impl<L: Lane> Kernel for Each<L> {
    ghost sample = { λ k. L.lane k.0 };

    ghost Reaches = { λ k. L.Reads k.0 };

    fn row(&self, r: usize) -> [u8; 16] {
        let mut z = [0u8; 16];
        for c in 0..16 {
            z[c] = self.0.at(c, r);
        }
        z
    }

    // Both rows in one body are vector code, eight lanes alone are not.
    fn pair(&self, r: usize) -> [u8; 16] {
        let mut z = [0u8; 16];
        for c in 0..8 {
            z[c] = self.0.at(c, r);
            z[8 + c] = self.0.at(c, r + 1);
        }
        z
    }
}

// Row by row, `size.w` wide; by index, as the lanes are: what was written through a slice's iterator, no proof knows once it is gone. A literal width where a row is stored makes the store one move.
fn rows<K: Kernel, const WIDE: bool>(k: &K, size: Size, dst: &mut [u8])
    requires { ((r : ℕ) → r < size.h → K.Reaches k.now r) × (size.w ≤ 16) × (WIDE ≡ true → size.w ≡ 16) × (size.w * size.h ≤ length dst.old) }
    ensures { dst.new ≡ drawn dst.old size.w size.h (K.sample k.now) }
{
    let w = if WIDE { 16 } else { size.w };
    for r in 0..size.h {
        lanes::store(&k.row(r), w, dst, r * w);
    }
}

fn pairs<K: Kernel>(k: &K, size: Size, dst: &mut [u8])
    requires { ((r : ℕ) → r < size.h → K.Reaches k.now r) × (narrow size.w ≡ true) × (size.h % 2 ≡ 0) × (size.w * size.h ≤ length dst.old) }
    ensures { dst.new ≡ drawn dst.old size.w size.h (K.sample k.now) }
{
    for i in 0..size.h / 2 {
        let r = 2 * i;
        lanes::store_pair(&k.pair(r), size.w, dst, r * size.w);
    }
}

pub fn draw<K: Kernel>(k: &K, size: Size, dst: &mut [u8])
    requires { ((r : ℕ) → r < size.h → K.Reaches k.now r) × (size.w ≤ 16) × (size.w * size.h ≤ length dst.old) }
    ensures { dst.new ≡ drawn dst.old size.w size.h (K.sample k.now) }
{
    if size.w == 16 {
        rows::<K, true>(k, size, dst);
        return;
    }
    if lanes::is_narrow(size.w) & (size.h % 2 == 0) {
        pairs(k, size, dst);
        return;
    }
    rows::<K, false>(k, size, dst);
}
