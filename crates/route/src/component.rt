// Luma and chroma: what predicting a block of either asks.
ghost use Rattle.std.specs.Prelude.{◌≡◌, ℕ, ◌+◌, ◌*◌, ◌-◌, ◌≤◌, ◌<◌, length};
ghost use Rattle.grid.specs.Block.{drawn};
ghost use Rattle.samples.specs.Kernel.{window_at};
ghost use Rattle.samples.specs.Phase.{luma_sample};
ghost use Rattle.samples.specs.Bilinear.{chroma_sample};
ghost use Rattle.std.proofs.Common.{rules};
ghost use Rattle.route.specs.Laws.{Sample, Phases, but_full, every, ReadsWithin, AtFull, TileHolds, luma_reads, luma_at_full, luma_fits, chroma_reads, chroma_at_full, chroma_fits};

use grid::{Size, View};
use kernels::predict;
use place::area::Aim;

// A vector makes STEPS steps in a sample; the window of a block, and the lanes that are read from its last row on, take at most TILE bytes.
pub trait Component<const STEPS: usize, const TILE: usize> {
    // How many samples more than its own a sample reads before its place, and in all, on each axis; and how many bytes are read from the start of a window's last row on.
    const BEFORE: usize;

    const AROUND: usize;

    const LANES: usize;

    ghost BEFORE: { ℕ };

    ghost AROUND: { ℕ };

    ghost LANES: { ℕ };

    ghost sample: { Sample };

    // The phases whose blocks are made: by default all but (0, 0).
    ghost phases: { Phases } = { but_full };

    // The block of such a phase, whose window starts at samples[at].
    fn block(samples: &[u8], at: usize, stride: usize, aim: Aim<STEPS>, out: &mut [u8])
        requires { (phases.Takes aim.fx aim.fy) × (at + (aim.h - 1 + AROUND) * stride + LANES ≤ length samples.now) × (aim.w * aim.h ≤ length out.old) }
        ensures { out.new ≡ drawn out.old aim.entry.w aim.entry.h (λ c r. sample aim.entry.fx aim.entry.fy (window_at samples.now at stride c r)) };

    ghost near: { (BEFORE ≤ 2) × (AROUND ≤ 5) × (TILE ≤ 441) };

    // Each phase but (0, 0) is among `phases`: as a law, which proofs find by themselves.
    ghost between: { (fx fy : ℕ) → 1 ≤ fx + fy → phases.Takes fx fy } = { phases.between };

    ghost reads: { ReadsWithin sample AROUND };

    ghost full: { AtFull sample BEFORE };

    ghost fits: { TileHolds STEPS AROUND LANES TILE };
}

pub struct Luma;

impl Component<4, 441> for Luma {
    const BEFORE: usize = 2;

    const AROUND: usize = 5;

    const LANES: usize = 21;

    ghost BEFORE = { 2 };

    ghost AROUND = { 5 };

    ghost LANES = { 21 };

    ghost sample = { luma_sample 255 };

    ghost near = { Prim.search rules };

    ghost reads = { luma_reads };

    ghost full = { luma_at_full };

    ghost fits = { luma_fits };

    #[inline(always)]
    fn block(samples: &[u8], at: usize, stride: usize, aim: Aim<4>, out: &mut [u8])
        requires { (1 ≤ aim.fx + aim.fy) × (at + (aim.h - 1 + 5) * stride + 21 ≤ length samples.now) × (aim.w * aim.h ≤ length out.old) }
        ensures { out.new ≡ drawn out.old aim.w aim.h (λ c r. luma_sample 255 aim.fx aim.fy (window_at samples.now at stride c r)) }
    {
        let view = View {
            samples,
            at,
            stride,
        };
        let size = Size { w: aim.w, h: aim.h };
        predict::luma_block(view, aim.fx, aim.fy, size, out);
    }
}

pub struct Chroma;

impl Component<8, 81> for Chroma {
    const BEFORE: usize = 0;

    const AROUND: usize = 1;

    const LANES: usize = 9;

    ghost BEFORE = { 0 };

    ghost AROUND = { 1 };

    ghost LANES = { 9 };

    ghost sample = { chroma_sample };

    ghost phases = { every };

    ghost near = { Prim.search rules };

    ghost reads = { chroma_reads };

    ghost full = { chroma_at_full };

    ghost fits = { chroma_fits };

    #[inline(always)]
    fn block(samples: &[u8], at: usize, stride: usize, aim: Aim<8>, out: &mut [u8])
        requires { (at + (aim.h - 1 + 1) * stride + 9 ≤ length samples.now) × (aim.w * aim.h ≤ length out.old) }
        ensures { out.new ≡ drawn out.old aim.w aim.h (λ c r. chroma_sample aim.fx aim.fy (window_at samples.now at stride c r)) }
    {
        let view = View {
            samples,
            at,
            stride,
        };
        let size = Size { w: aim.w, h: aim.h };
        bilinear::chroma_block(view, aim.fx, aim.fy, size, out);
    }
}
