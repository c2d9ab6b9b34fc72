// Blocks copied from one plane, or averaged from two, row by row at the planes' stride.
#![tactic(auto)]

ghost use Rattle.std.specs.Prelude.{◌≡◌, true, ◌||◌, ◌+◌, ◌*◌, ◌-◌, ◌≤◌, eqb, length, get_or};
ghost use Rattle.grid.specs.Block.{drawn};
ghost use Rattle.grid.specs.Run.{put, narrow};
ghost use Rattle.samples.specs.Tap.{mean};

use grid::{Size, View};
use kernels::full;

pub fn copy_block(v: View, size: Size, dst: &mut [u8])
    requires { (v.at + (size.h - 1) * v.stride + size.w ≤ length v.samples.now) × (1 ≤ size.w) × (size.w ≤ 16) × (size.w * size.h ≤ length dst.old) }
    ensures { dst.new ≡ drawn dst.old size.w size.h (λ x y. get_or v.entry.samples.now (v.entry.at + y * v.entry.stride + x) 0) }
{
    if full::is_copied(size.w) {
        full::full_block(v, size, dst);
        return;
    }
    full::full_rows(v, size, dst);
}

// N bytes of src from p on, written from dst[o] on. A loop: with `grid::copy_run`, which is a `copy_from_slice`, lanes fall apart before they are vector code.
fn copy_lanes<const N: usize>(src: &[u8], p: usize, dst: &mut [u8], o: usize)
    requires { (p + N ≤ length src.now) × (o + N ≤ length dst.old) }
    ensures { dst.new ≡ put dst.old o N (λ i. get_or src.now (p + i) 0) }
{
    for i in 0..N {
        dst[o + i] = src[p + i];
    }
}

// N averages. Sixteen are vector code, eight are not: the first N of sixteen lanes are loaded, and stored, each by one move, since N is a literal.
// Loaded and stored by `copy_from_slice`, 8 by 8 takes 763 instructions in place of 113.
fn average_row<const N: usize>(a: &[u8], b: &[u8], p: usize, dst: &mut [u8], o: usize)
    requires { (N ≤ 16) × (p + N ≤ length a.now) × (p + N ≤ length b.now) × (o + N ≤ length dst.old) }
    ensures { dst.new ≡ put dst.old o N (λ i. mean (get_or a.now (p + i) 0) (get_or b.now (p + i) 0)) }
{
    let mut x = [0u8; 16];
    let mut y = [0u8; 16];
    copy_lanes::<N>(a, p, &mut x, 0);
    copy_lanes::<N>(b, p, &mut y, 0);
    let mut z = [0u8; 16];
    average::mean_lanes(&x, &y, &mut z);
    copy_lanes::<N>(&z, 0, dst, o);
}

// Rows go by index: of chunks that were written to, a proof knows the length alone.
fn average_rows<const N: usize>(a: &[u8], b: &[u8], stride: usize, h: usize, dst: &mut [u8])
    requires { (N ≤ 16) × ((h - 1) * stride + N ≤ length a.now) × ((h - 1) * stride + N ≤ length b.now) × (N * h ≤ length dst.old) }
    ensures { dst.new ≡ drawn dst.old N h (λ x y. mean (get_or a.now (y * stride + x) 0) (get_or b.now (y * stride + x) 0)) }
{
    for r in 0..h {
        average_row::<N>(a, b, r * stride, dst, r * N);
    }
}

// The smallest block of the standard, without a loop, whose making would take longer than its rows.
fn average_four(a: &[u8], b: &[u8], stride: usize, dst: &mut [u8])
    requires { (3 * stride + 4 ≤ length a.now) × (3 * stride + 4 ≤ length b.now) × (16 ≤ length dst.old) }
    ensures { dst.new ≡ drawn dst.old 4 4 (λ x y. mean (get_or a.now (y * stride + x) 0) (get_or b.now (y * stride + x) 0)) }
{
    average_row::<4>(a, b, 0, dst, 0);
    average_row::<4>(a, b, stride, dst, 4);
    average_row::<4>(a, b, 2 * stride, dst, 8);
    average_row::<4>(a, b, 3 * stride, dst, 12);
}

// The averages of two planes, 4, 8 or 16 wide. The widths are told apart by their order, and stand as literals where they are used.
pub fn average_block(a: &[u8], b: &[u8], stride: usize, size: Size, dst: &mut [u8])
    requires { ((narrow size.w || eqb size.w 16) ≡ true) × ((size.h - 1) * stride + size.w ≤ length a.now) × ((size.h - 1) * stride + size.w ≤ length b.now) × (size.w * size.h ≤ length dst.old) }
    ensures { dst.new ≡ drawn dst.old size.w size.h (λ x y. mean (get_or a.now (y * stride + x) 0) (get_or b.now (y * stride + x) 0)) }
{
    if size.w < 8 {
        if size.h == 4 {
            average_four(a, b, stride, dst);
            return;
        }
        average_rows::<4>(a, b, stride, size.h, dst);
        return;
    }
    if size.w < 16 {
        average_rows::<8>(a, b, stride, size.h, dst);
        return;
    }
    average_rows::<16>(a, b, stride, size.h, dst);
}
