// The luma block that a phase other than (0, 0) predicts, by the table of phases: one anchor's samples, or the averages of two.
ghost use Rattle.std.specs.Prelude.{◌≡◌, ◌+◌, ◌*◌, ◌-◌, ◌^◌, ◌<◌, ◌≤◌, length, get_or};
ghost use Rattle.grid.specs.Block.{drawn};
ghost use Rattle.samples.specs.declared.phases.Kind.TheVariants.{Full, Across, Centre};
ghost use Rattle.samples.specs.Tap.{mean};
ghost use Rattle.samples.specs.Phase.{anchor, luma_sample};
ghost use Rattle.samples.specs.Kernel.{window_at};

use grid::{Size, View};
use halves::{Half, Mixed};
use samples::phases;
use samples::phases::{Anchor, Kind};

// The half samples of an anchor, of a block whose window starts where the view does.
fn half_of<'a>(k: Anchor, v: &View<'a>) -> Half<'a>
    requires { (k.dx ≤ 1) × (k.dy ≤ 1) × (v.now.at + 4 * v.now.stride + 21 < 2 ^ 64) }
    ensures { (k.kind ≡ Across → (result.view.at ≡ v.now.at + (2 + k.dy) * v.now.stride) × (result.apart ≡ 1))
        × ((k.kind ≡ Across → ⊥) → (result.view.at ≡ v.now.at + 2 + k.dx) × (result.apart ≡ v.now.stride))
        × (result.view.samples.now ≡ v.now.samples.now) × (result.view.stride ≡ v.now.stride) }
{
    match k.kind {
        Kind::Across => {
            let at = v.at + (2 + k.dy as usize) * v.stride;
            Half {
                view: View { at, ..*v },
                apart: 1,
            }
        }
        _ => {
            let at = v.at + 2 + k.dx as usize;
            Half {
                view: View { at, ..*v },
                apart: v.stride,
            }
        }
    }
}

// The samples of a half anchor or of the centre.
fn anchor_block(k: Anchor, v: &View, size: Size, dst: &mut [u8])
    requires { (k.kind ≡ Full → ⊥) × (k.dx ≤ 1) × (k.dy ≤ 1) × (v.now.at + (size.h + 4) * v.now.stride + 21 ≤ length v.now.samples.now) × (1 ≤ size.h)
        × (size.w ≤ 16) × (size.w * size.h ≤ length dst.old) }
    ensures { dst.new ≡ drawn dst.old size.w size.h (λ c r. anchor 255 (window_at v.now.samples.now v.now.at v.now.stride c r) k) }
{
    match k.kind {
        Kind::Centre => centre::luma_centre(*v, size, dst),
        _ => halves::half_block(half_of(k, v), size, dst),
    }
}

// The averages of a half anchor's samples and of those that another view starts with.
fn mixed_anchor(k: Anchor, v: &View, with: &View, size: Size, dst: &mut [u8])
    requires { (k.kind ≡ Full → ⊥) × (k.kind ≡ Centre → ⊥) × (k.dx ≤ 1) × (k.dy ≤ 1) × (v.now.at + (size.h + 4) * v.now.stride + 21 ≤ length v.now.samples.now)
        × (with.now.at + (size.h - 1) * with.now.stride + 16 ≤ length with.now.samples.now) × (1 ≤ size.h) × (size.w ≤ 16) × (size.w * size.h ≤ length dst.old) }
    ensures { dst.new ≡ drawn dst.old size.w size.h (λ c r. mean (get_or with.now.samples.now (with.now.at + r * with.now.stride + c) 0)
        (anchor 255 (window_at v.now.samples.now v.now.at v.now.stride c r) k)) }
{
    let half = half_of(k, v);
    halves::mixed_block(Mixed { half, with: *with }, size, dst);
}

// How far apart the rows of a local block start: the lanes that kernels fill.
fn lanes_of(bw: usize) -> usize
    requires { bw ≤ 16 }
    ensures { (bw ≤ result) × (8 ≤ result) × (result ≤ 16) }
{
    if bw <= 8 { 8 } else { 16 }
}

// Two anchors that are not full: x goes into a local block, and y is averaged with it.
fn luma_between(x: Anchor, y: Anchor, v: &View, size: Size, dst: &mut [u8])
    requires { (x.kind ≡ Full → ⊥) × (x.dx ≤ 1) × (x.dy ≤ 1) × (y.kind ≡ Full → ⊥) × (y.kind ≡ Centre → ⊥) × (y.dx ≤ 1) × (y.dy ≤ 1)
        × (v.now.at + (size.h + 4) * v.now.stride + 21 ≤ length v.now.samples.now) × (1 ≤ size.h) × (size.w ≤ 16) × (size.h ≤ 16) × (size.w * size.h ≤ length dst.old) }
    ensures { dst.new ≡ drawn dst.old size.w size.h (λ c r. mean (anchor 255 (window_at v.now.samples.now v.now.at v.now.stride c r) x)
        (anchor 255 (window_at v.now.samples.now v.now.at v.now.stride c r) y)) }
{
    let w = lanes_of(size.w);
    let mut a = [0u8; 256];
    anchor_block(x, v, Size { w, h: size.h }, &mut a);
    let with = View {
        samples: &a,
        at: 0,
        stride: w,
    };
    mixed_anchor(y, v, &with, size, dst);
}

// The luma block of a phase, whose window starts where the view does.
pub fn luma_block(v: View, fx: usize, fy: usize, size: Size, dst: &mut [u8])
    requires { (1 ≤ fx + fy) × (fx < 4) × (fy < 4) × (v.at + (size.h + 4) * v.stride + 21 ≤ length v.samples.now) × (1 ≤ size.h) × (size.w ≤ 16) × (size.h ≤ 16)
        × (size.w * size.h ≤ length dst.old) }
    ensures { dst.new ≡ drawn dst.old size.w size.h (λ c r. luma_sample 255 fx fy (window_at v.entry.samples.now v.entry.at v.entry.stride c r)) }
{
    let f = phases::phase_at(fx, fy);
    let x = f.p;
    let y = f.q;
    // Half phases name one anchor twice.
    if x == y {
        anchor_block(x, &v, size, dst);
        return;
    }
    match (x.kind, y.kind) {
        (Kind::Full, _) => {
            let at = v.at + (2 + x.dy as usize) * v.stride + 2 + x.dx as usize;
            mixed_anchor(y, &v, &View { at, ..v }, size, dst);
        }
        (_, Kind::Centre) => luma_between(y, x, &v, size, dst),
        _ => luma_between(x, y, &v, size, dst),
    }
}
