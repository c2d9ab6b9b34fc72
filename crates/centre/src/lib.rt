// The centre j: rows of unrounded sums down, then the six-tap across them.
#![tactic(auto)]

ghost use Rattle.std.specs.Prelude.{◌≡◌, ℕ, ◌+◌, ◌*◌, ◌-◌, ◌/◌, ◌<◌, ◌≤◌, min, length, get_or};
ghost use Rattle.grid.specs.Block.{drawn};
ghost use Rattle.grid.specs.Run.{put, from};
ghost use Rattle.samples.specs.Tap.{half, centre};
ghost use Rattle.samples.specs.Kernel.{biased, window_at, mid_at};

use grid::lanes::store_mostly;
use grid::{Size, View};
use lanes::Kernel;
use samples::taps;

// n sums down, the first with its first tap at p, into w from o on. What it tells of samples is that they are bytes. Loops over lanes go by index, here and below: what was written through a slice's iterator, no proof knows once it is gone.
fn sums(t: &[u8], p: usize, ts: usize, n: usize, w: &mut [u16], o: usize)
    requires { (p + n + 5 * ts ≤ length t.now) × (o + n ≤ length w.old) }
    ensures { (w.new ≡ put w.old o n (λ i. biased 2550 (from t.now (p + i) ts))) × ((k : ℕ) → get_or t.now k 0 < 256) }
{
    for i in 0..n {
        w[o + i] = taps::sum6(t, p + i, ts);
    }
}

// The second pass at column i of the row of sums.
fn mid_at(w: &[u16; 21], i: usize) -> u8
    requires { (i < 16) × ((k : ℕ) → get_or w.now k 0 < 13261) }
    ensures { result ≡ mid_at w.now i }
{
    taps::mid(w[i] + w[i + 5], w[i + 1] + w[i + 4], w[i + 2] + w[i + 3])
}

fn mid_lanes(w: &[u16; 21]) -> [u8; 16]
    requires { (k : ℕ) → get_or w.now k 0 < 13261 }
    ensures { (i : ℕ) → i < 16 → get_or result i 0 ≡ mid_at w.now i }
{
    let mut z = [0u8; 16];
    for i in 0..16 {
        z[i] = mid_at(w, i);
    }
    z
}

// Eight samples out of each of two rows of sums: in one body they are vector code, eight alone are not.
fn mid_pair_lanes(v: &[u16; 21], w: &[u16; 21]) -> [u8; 16]
    requires { ((k : ℕ) → get_or v.now k 0 < 13261) × ((k : ℕ) → get_or w.now k 0 < 13261) }
    ensures { ((i : ℕ) → i < 8 → get_or result i 0 ≡ mid_at v.now i) × ((i : ℕ) → i < 8 → get_or result (8 + i) 0 ≡ mid_at w.now i) }
{
    let mut z = [0u8; 16];
    for i in 0..8 {
        z[i] = mid_at(v, i);
        z[8 + i] = mid_at(w, i);
    }
    z
}

// A block of centre samples: the view starts at the window of the first.
#[derive(Clone, Copy)]
pub struct Centre<'a> {
    pub view: View<'a>,
}

impl<'a> Kernel for Centre<'a> {
    ghost sample = { λ k c r. centre 255 (window_at k.view.samples.now k.view.at k.view.stride c r) };

    ghost Reaches = { λ k r. k.view.at + (r + 5) * k.view.stride + 21 ≤ length k.view.samples.now };

    // A function of its own would hand the row of sums about in memory.
    #[inline(always)]
    fn row(&self, r: usize) -> [u8; 16] {
        let View {
            samples,
            at,
            stride,
        } = self.view;
        let p = at + r * stride;
        let mut w = [0u16; 21];
        // Sixteen sums are vector code, five are not: the last five come with eleven that stand already.
        sums(samples, p, stride, 16, &mut w, 0);
        sums(samples, p + 5, stride, 16, &mut w, 5);
        mid_lanes(&w)
    }

    // Rows of at most eight samples need thirteen sums each.
    fn pair(&self, r: usize) -> [u8; 16] {
        let View {
            samples,
            at,
            stride,
        } = self.view;
        let p = at + r * stride;
        let mut w = [0u16; 21];
        let mut x = [0u16; 21];
        sums(samples, p, stride, 16, &mut w, 0);
        sums(samples, p + stride, stride, 16, &mut x, 0);
        mid_pair_lanes(&w, &x)
    }
}

pub fn luma_centre(v: View, size: Size, dst: &mut [u8])
    requires { (v.at + (size.h + 4) * v.stride + 21 ≤ length v.samples.now) × (size.w ≤ 16) × (size.w * size.h ≤ length dst.old) }
    ensures { dst.new ≡ drawn dst.old size.w size.h (λ c r. centre 255 (window_at v.entry.samples.now v.entry.at v.entry.stride c r)) }
{
    lanes::draw(&Centre { view: v }, size, dst);
}

// The half samples down of columns 2 to 17, out of the row of sums.
fn round_lanes(w: &[u16; 21]) -> [u8; 16]
    requires { (k : ℕ) → get_or w.now k 0 < 13261 }
    ensures { (i : ℕ) → i < 16 → get_or result i 0 ≡ min 255 ((get_or w.now (i + 2) 0 + 16 - 2550) / 32) }
{
    let mut z = [0u8; 16];
    for i in 0..16 {
        z[i] = taps::round5(w[i + 2]);
    }
    z
}

// A row of half samples down and the row of centre samples with the same windows, over one row of sums.
pub fn down_and_centre_row(v: View, n: usize, v_out: &mut [u8], c_out: &mut [u8], o: usize)
    requires { (v.at + 21 + 5 * v.stride ≤ length v.samples.now) × (n ≤ 16) × (o + n ≤ length v_out.old) × (o + n ≤ length c_out.old) }
    ensures { (v_out.new ≡ put v_out.old o n (λ i. half 255 (from v.entry.samples.now (v.entry.at + 2 + i) v.entry.stride)))
        × (c_out.new ≡ put c_out.old o n (λ i. centre 255 (window_at v.entry.samples.now v.entry.at v.entry.stride i 0))) }
{
    let View {
        samples,
        at,
        stride,
    } = v;
    let mut w = [0u16; 21];
    sums(samples, at, stride, 16, &mut w, 0);
    sums(samples, at + 5, stride, 16, &mut w, 5);
    store_mostly::<16>(&round_lanes(&w), n, v_out, o);
    store_mostly::<16>(&mid_lanes(&w), n, c_out, o);
}
