// The rounded average of two rows, once for every width.
#![tactic(auto)]

ghost use Rattle.std.specs.Prelude.{◌≡◌, ◌+◌, ◌-◌, ◌≤◌, length, get_or};
ghost use Rattle.grid.specs.Block.{tab};
ghost use Rattle.grid.specs.Run.{put};
ghost use Rattle.samples.specs.Tap.{mean};

use samples::taps;

pub fn avg2(x: u8, y: u8) -> u8
    ensures { result ≡ mean x y }
{
    ((taps::wide(x) + taps::wide(y) + 1) / 2) as u8
}

// The averages of the first bytes of two rows, as many as z holds. It is best local: of any other z the compiler first asks whether it overlaps a row. By index: what was written through a slice's iterator, no proof knows once it is gone.
pub fn mean_lanes(a: &[u8], b: &[u8], z: &mut [u8])
    requires { (length z.old ≤ length a.now) × (length z.old ≤ length b.now) }
    ensures { z.new ≡ tab (length z.old) (λ i. mean (get_or a.now i 0) (get_or b.now i 0)) }
{
    for i in 0..z.len() {
        z[i] = avg2(a[i], b[i]);
    }
}

// N averages from index i on, by way of a local row, so that the rows may lie anywhere. A call in its place would have `avg_run` save registers.
#[inline(always)]
fn avg_lanes<const N: usize>(a: &[u8], b: &[u8], dst: &mut [u8], i: usize)
    requires { (i + N ≤ length a.now) × (i + N ≤ length b.now) × (i + N ≤ length dst.old) }
    ensures { dst.new ≡ put dst.old i N (λ j. mean (get_or a.now (i + j) 0) (get_or b.now (i + j) 0)) }
{
    let end = i + N;
    let mut z = [0u8; N];
    mean_lanes(&a[i..end], &b[i..end], &mut z);
    dst[i..end].copy_from_slice(&z);
}

// The same, if as many are left: where the next one stands.
#[inline(always)]
fn avg_once<const N: usize>(a: &[u8], b: &[u8], dst: &mut [u8], i: usize) -> usize
    requires { (length dst.old ≤ length a.now) × (length dst.old ≤ length b.now) × (i ≤ length dst.old) }
    ensures { (i ≤ result) × (result ≤ length dst.old) × (dst.new ≡ put dst.old i (result - i) (λ j. mean (get_or a.now (i + j) 0) (get_or b.now (i + j) 0))) }
{
    if dst.len() - i < N {
        return i;
    }
    avg_lanes::<N>(a, b, dst, i);
    i + N
}

// All averages from index i on. In its place, the tests for overlaps would have every `avg_run` save registers.
#[inline(never)]
fn avg_rest(a: &[u8], b: &[u8], dst: &mut [u8], i: usize)
    requires { (length dst.old ≤ length a.now) × (length dst.old ≤ length b.now) × (i ≤ length dst.old) }
    ensures { dst.new ≡ put dst.old i (length dst.old - i) (λ j. mean (get_or a.now (i + j) 0) (get_or b.now (i + j) 0)) }
{
    mean_lanes(&a[i..], &b[i..], &mut dst[i..]);
}

// The averages of the first bytes of two rows, as many as dst holds: 128 at a time, then 64, then 32, and the rest one by one.
pub fn avg_run(a: &[u8], b: &[u8], dst: &mut [u8])
    requires { (length dst.old ≤ length a.now) × (length dst.old ≤ length b.now) }
    ensures { dst.new ≡ tab (length dst.old) (λ i. mean (get_or a.now i 0) (get_or b.now i 0)) }
{
    let n = dst.len();
    for k in 0..n / 128 {
        avg_lanes::<128>(a, b, dst, 128 * k);
    }
    let i = avg_once::<64>(a, b, dst, n / 128 * 128);
    let j = avg_once::<32>(a, b, dst, i);
    if j < n {
        avg_rest(a, b, dst, j);
    }
}
