// Full samples: a block of bw by bh copied out of rows of any stride; no byte beyond the block is read.
ghost use Rattle.std.specs.Prelude.{◌≡◌, true, ◌+◌, ◌*◌, ◌-◌, ◌≤◌, length, get_or};
ghost use Rattle.grid.specs.Block.{drawn};
ghost use Rattle.grid.specs.Run.{put};
ghost use Rattle.kernels.specs.Width.{copied};

use grid::{Size, View, lanes};

// By way of a local row, so that the row is one move whatever lies where.
fn full_row(t: &[u8], p: usize, n: usize, dst: &mut [u8], o: usize)
    requires { (n ≤ 16) × (p + n ≤ length t.now) × (o + n ≤ length dst.old) }
    ensures { dst.new ≡ put dst.old o n (λ i. get_or t.now (p + i) 0) }
{
    let mut z = [0u8; 16];
    grid::copy_run(t, p, n, &mut z, 0);
    lanes::store(&z, n, dst, o);
}

// Two rows a turn. A `for` over half as many turns takes up to a quarter more instructions.
pub fn full_rows(v: View, size: Size, dst: &mut [u8])
    requires { (v.at + (size.h - 1) * v.stride + size.w ≤ length v.samples.now) × (1 ≤ size.w) × (size.w ≤ 16) × (size.w * size.h ≤ length dst.old) }
    ensures { dst.new ≡ drawn dst.old size.w size.h (λ c r. get_or v.entry.samples.now (v.entry.at + r * v.entry.stride + c) 0) }
{
    let View {
        samples,
        at,
        stride,
    } = v;
    let Size { w, h } = size;
    let mut r = 0;
    while r + 2 <= h {
        full_row(samples, at + r * stride, w, dst, r * w);
        full_row(samples, at + r * stride + stride, w, dst, r * w + w);
        r += 2;
    }
    if r < h {
        full_row(samples, at + r * stride, w, dst, r * w);
    }
}

// The widths that `full_block` copies: 16, 8, 4 and 2, as bits of a word.
const COPIED: usize = 65812;

// Four comparisons would become a search for a power of two, which is longer.
pub fn is_copied(bw: usize) -> bool
    requires { bw ≤ 16 }
    ensures { result ≡ copied bw }
{
    (COPIED >> bw) % 2 == 1
}

// A literal width makes each row one move, and nothing else here: an unknown width would have every call save its registers. A call of its own, whose arguments are few enough to stay in registers; a view would be stored and loaded again.
#[inline(never)]
fn rows_of_width(samples: &[u8], stride: usize, size: Size, dst: &mut [u8])
    requires { (copied size.w ≡ true) × ((size.h - 1) * stride + size.w ≤ length samples.now) × (size.w * size.h ≤ length dst.old) }
    ensures { dst.new ≡ drawn dst.old size.w size.h (λ c r. get_or samples.now (r * stride + c) 0) }
{
    let v = View {
        samples,
        at: 0,
        stride,
    };
    let h = size.h;
    match size.w {
        16 => full_rows(v, Size { w: 16, h }, dst),
        8 => full_rows(v, Size { w: 8, h }, dst),
        4 => full_rows(v, Size { w: 4, h }, dst),
        _ => full_rows(v, Size { w: 2, h }, dst),
    }
}

#[inline(always)]
pub fn full_block(v: View, size: Size, dst: &mut [u8])
    requires { (copied size.w ≡ true) × (v.at + (size.h - 1) * v.stride + size.w ≤ length v.samples.now) × (size.w * size.h ≤ length dst.old) }
    ensures { dst.new ≡ drawn dst.old size.w size.h (λ c r. get_or v.entry.samples.now (v.entry.at + r * v.entry.stride + c) 0) }
{
    rows_of_width(&v.samples[v.at..], v.stride, size, dst);
}
