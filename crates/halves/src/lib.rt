// Half samples across and down, alone or averaged with other samples.
#![tactic(auto)]

ghost use Rattle.std.specs.Prelude.{◌≡◌, ◌+◌, ◌*◌, ◌-◌, ◌≤◌, length, get_or};
ghost use Rattle.grid.specs.Block.{drawn};
ghost use Rattle.grid.specs.Run.{put, from};
ghost use Rattle.samples.specs.Tap.{half, mean};

use grid::{Size, View};
use lanes::{Each, Kernel, Lane};
use samples::taps;

// A block of half samples: the view starts at the first tap of the first, and taps lie `apart`, 1 across and the stride down.
#[derive(Clone, Copy)]
pub struct Half<'a> {
    pub view: View<'a>,
    pub apart: usize,
}

impl<'a> Lane for Half<'a> {
    ghost lane = { λ k c r. half 255 (from k.view.samples.now (k.view.at + r * k.view.stride + c) k.apart) };

    ghost Reads = { λ k r. k.view.at + r * k.view.stride + 16 + 5 * k.apart ≤ length k.view.samples.now };

    fn at(&self, c: usize, r: usize) -> u8 {
        let first = self.view.at + r * self.view.stride + c;
        taps::tap6(self.view.samples, first, self.apart)
    }
}

// The averages of a block of half samples and of the block that another view starts with.
#[derive(Clone, Copy)]
pub struct Mixed<'a> {
    pub half: Half<'a>,
    pub with: View<'a>,
}

impl<'a> Lane for Mixed<'a> {
    ghost lane = { λ k c r. mean (get_or k.with.samples.now (k.with.at + r * k.with.stride + c) 0)
        (half 255 (from k.half.view.samples.now (k.half.view.at + r * k.half.view.stride + c) k.half.apart)) };

    ghost Reads = { λ k r. (k.half.view.at + r * k.half.view.stride + 16 + 5 * k.half.apart ≤ length k.half.view.samples.now)
        × (k.with.at + r * k.with.stride + 16 ≤ length k.with.samples.now) };

    fn at(&self, c: usize, r: usize) -> u8 {
        let other = self.with.samples[self.with.at + r * self.with.stride + c];
        average::avg2(other, self.half.at(c, r))
    }
}

// n half samples in a row, the first with its first tap at p.
pub fn half_row(t: &[u8], p: usize, apart: usize, n: usize, dst: &mut [u8], o: usize)
    requires { (p + 16 + 5 * apart ≤ length t.now) × (n ≤ 16) × (o + n ≤ length dst.old) }
    ensures { dst.new ≡ put dst.old o n (λ i. half 255 (from t.now (p + i) apart)) }
{
    let view = View {
        samples: t,
        at: p,
        stride: 0,
    };
    let row = Each(Half { view, apart }).row(0);
    grid::lanes::store(&row, n, dst, o);
}

pub fn half_block(k: Half, size: Size, dst: &mut [u8])
    requires { (k.view.at + (size.h - 1) * k.view.stride + 16 + 5 * k.apart ≤ length k.view.samples.now) × (size.w ≤ 16)
        × (size.w * size.h ≤ length dst.old) }
    ensures { dst.new ≡ drawn dst.old size.w size.h (λ c r. half 255 (from k.entry.view.samples.now (k.entry.view.at + r * k.entry.view.stride + c) k.entry.apart)) }
{
    lanes::draw(&Each(k), size, dst);
}

pub fn mixed_block(k: Mixed, size: Size, dst: &mut [u8])
    requires { (k.half.view.at + (size.h - 1) * k.half.view.stride + 16 + 5 * k.half.apart ≤ length k.half.view.samples.now)
        × (k.with.at + (size.h - 1) * k.with.stride + 16 ≤ length k.with.samples.now) × (size.w ≤ 16) × (size.w * size.h ≤ length dst.old) }
    ensures { dst.new ≡ drawn dst.old size.w size.h (λ c r. mean (get_or k.entry.with.samples.now (k.entry.with.at + r * k.entry.with.stride + c) 0)
        (half 255 (from k.entry.half.view.samples.now (k.entry.half.view.at + r * k.entry.half.view.stride + c) k.entry.half.apart))) }
{
    lanes::draw(&Each(k), size, dst);
}
