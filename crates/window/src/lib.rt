// Blocks of planes with margins, of which nothing is refused: read in place where the block's window lies inside picture plus margin, else from the interior, clamped.
#![tactic(auto)]

ghost use Rattle.std.specs.Prelude.{◌≡◌, true, ◌+◌, ◌*◌, ◌/◌, ◌^◌, ◌≤◌, ◌<◌, length};
ghost use Rattle.std.proofs.Math.IntN.{sub_ℕ};
ghost use Rattle.grid.specs.Block.{drawn};
ghost use Rattle.window.specs.Area.{passes, part_of, area_of};
ghost use Rattle.window.specs.Padded.{in_reach, padded_luma, padded_chroma};

use margins::Geometry;
use place::area::{Aim, Area};
use place::coords;
use route::component::{Chroma, Luma};
use terms::block::Block;

// A picture with margins in its buffer, of which nothing is refused.
#[derive(Clone, Copy)]
pub struct PaddedPlane<'a> {
    pub samples: &'a [u8],
    pub g: Geometry,
    ghost wide: { (1 ≤ g.pw) × (g.pw ≤ 8192) },
    ghost high: { (1 ≤ g.ph) × (g.ph ≤ 8192) },
    ghost margin: { g.pad ≤ 128 },
    ghost rows: { (g.pw + 2 * g.pad ≤ g.stride) × (g.stride ≤ 16384) },
    ghost whole: { g.stride * (g.ph + 2 * g.pad) ≤ length samples.now },
}

// What is read of a plane, and where in it a block is read.
#[derive(Clone, Copy)]
struct Sight<'a, const STEPS: usize> {
    area: Area<'a>,
    aim: Aim<STEPS>,
}

// On one axis: b samples, with those before and behind, lie inside n samples and their margins. Each stands in a record of its own, so they come as numbers.
fn in_reach<const STEPS: usize>(
    at: usize,
    b: usize,
    n: usize,
    pad: usize,
    before: usize,
    behind: usize,
) -> bool
    requires { (0 < STEPS) × (at < 2 ^ 31) × (before ≤ 2) × (behind ≤ 3) × (b ≤ 16) × (n ≤ 8192) × (pad ≤ 128) }
    ensures { result ≡ in_reach before behind (sub_ℕ at (2 ^ 31 / STEPS)) b n pad }
{
    let base = coords::base::<STEPS>();
    (base + before <= at + pad) & (at + b + behind <= n + pad + base)
}

// The one test for both axes.
fn reaches<const STEPS: usize>(
    plane: PaddedPlane,
    aim: Aim<STEPS>,
    before: usize,
    behind: usize,
) -> bool
    requires { (before ≤ 2) × (behind ≤ 3) }
    ensures { result ≡ passes before behind (2 ^ 31 / STEPS) aim.entry.x aim.entry.y aim.entry.w aim.entry.h plane.entry.g.pw plane.entry.g.ph plane.entry.g.pad }
{
    let g = plane.g;
    let across = in_reach::<STEPS>(aim.x, aim.w, g.pw, g.pad, before, behind);
    let down = in_reach::<STEPS>(aim.y, aim.h, g.ph, g.pad, before, behind);
    across & down
}

// The whole buffer where the block's window lies inside picture plus margin, else the picture.
fn look<'a, const STEPS: usize>(
    whole: bool,
    plane: PaddedPlane<'a>,
    aim: Aim<STEPS>,
) -> Sight<'a, STEPS>
    requires { whole ≡ true → (aim.x + plane.g.pad < 2 ^ 31) × (aim.y + plane.g.pad < 2 ^ 31) }
    ensures source { (result.area.samples.now ≡ plane.entry.samples.now) × (result.area.stride ≡ plane.entry.g.stride) }
    ensures block { (result.aim.fx ≡ aim.entry.fx) × (result.aim.fy ≡ aim.entry.fy) × (result.aim.w ≡ aim.entry.w) × (result.aim.h ≡ aim.entry.h) }
    ensures place { part_of result.area.at result.area.w result.area.h result.aim.x result.aim.y ≡ area_of whole plane.entry.g.stride plane.entry.g.pad plane.entry.g.pw plane.entry.g.ph aim.entry.x aim.entry.y }
{
    let Geometry {
        stride,
        pad,
        pw,
        ph,
    } = plane.g;
    if whole {
        return Sight {
            area: Area {
                samples: plane.samples,
                at: 0,
                stride,
                w: pw + 2 * pad,
                h: ph + 2 * pad,
            },
            aim: Aim {
                x: aim.x + pad,
                y: aim.y + pad,
                fx: aim.fx,
                fy: aim.fy,
                w: aim.w,
                h: aim.h,
            },
        };
    }
    Sight {
        area: Area {
            samples: plane.samples,
            at: pad * stride + pad,
            stride,
            w: pw,
            h: ph,
        },
        aim,
    }
}

// A luma block of which nothing is refused. The four lines stand again below: one function of luma and chroma would need a third word beside padded_luma and padded_chroma.
pub fn luma_block(plane: PaddedPlane, block: Block, out: &mut [u8])
    requires { (block.x ≤ 65535) × (block.y ≤ 65535) × (1 ≤ block.w) × (block.w ≤ 16) × (1 ≤ block.h) × (block.h ≤ 16) × (block.w * block.h ≤ length out.old) }
    ensures { out.new ≡ drawn out.old block.w block.h (padded_luma plane.entry.samples.now plane.entry.g.stride plane.entry.g.pad plane.entry.g.pw plane.entry.g.ph block.x block.y block.w block.h block.mv.x block.mv.y) }
{
    let aim = Aim::<4>::of(block);
    let whole = reaches(plane, aim, 2, 3);
    let seen = look(whole, plane, aim);
    route::predict::<Luma, 4, 441>(seen.area, seen.aim, out);
}

// The same with the tile in lent scratch.
pub fn luma_block_with(tile: &mut [u8], plane: PaddedPlane, block: Block, out: &mut [u8])
    requires { (block.x ≤ 65535) × (block.y ≤ 65535) × (1 ≤ block.w) × (block.w ≤ 16) × (1 ≤ block.h) × (block.h ≤ 16) × (block.w * block.h ≤ length out.old) × (441 ≤ length tile.old) }
    ensures { out.new ≡ drawn out.old block.w block.h (padded_luma plane.entry.samples.now plane.entry.g.stride plane.entry.g.pad plane.entry.g.pw plane.entry.g.ph block.x block.y block.w block.h block.mv.x block.mv.y) }
{
    let aim = Aim::<4>::of(block);
    let whole = reaches(plane, aim, 2, 3);
    let seen = look(whole, plane, aim);
    route::predict_with::<Luma, 4, 441>(tile, seen.area, seen.aim, out);
}

// A chroma block of which nothing is refused.
pub fn chroma_block(plane: PaddedPlane, block: Block, out: &mut [u8])
    requires { (block.x ≤ 65535) × (block.y ≤ 65535) × (1 ≤ block.w) × (block.w ≤ 8) × (1 ≤ block.h) × (block.h ≤ 8) × (block.w * block.h ≤ length out.old) }
    ensures { out.new ≡ drawn out.old block.w block.h (padded_chroma plane.entry.samples.now plane.entry.g.stride plane.entry.g.pad plane.entry.g.pw plane.entry.g.ph block.x block.y block.w block.h block.mv.x block.mv.y) }
{
    let aim = Aim::<8>::of(block);
    let whole = reaches(plane, aim, 0, 1);
    let seen = look(whole, plane, aim);
    route::predict::<Chroma, 8, 81>(seen.area, seen.aim, out);
}

// A block of each of two planes of one geometry, of which nothing is refused: located once.
pub fn chroma_pair(u: PaddedPlane, v: PaddedPlane, block: Block, outu: &mut [u8], outv: &mut [u8])
    requires { (v.g ≡ u.g) × (block.x ≤ 65535) × (block.y ≤ 65535) × (1 ≤ block.w) × (block.w ≤ 8) × (1 ≤ block.h) × (block.h ≤ 8) × (block.w * block.h ≤ length outu.old) × (block.w * block.h ≤ length outv.old) }
    ensures { (outu.new ≡ drawn outu.old block.w block.h (padded_chroma u.entry.samples.now u.entry.g.stride u.entry.g.pad u.entry.g.pw u.entry.g.ph block.x block.y block.w block.h block.mv.x block.mv.y))
        × (outv.new ≡ drawn outv.old block.w block.h (padded_chroma v.entry.samples.now u.entry.g.stride u.entry.g.pad u.entry.g.pw u.entry.g.ph block.x block.y block.w block.h block.mv.x block.mv.y)) }
{
    let aim = Aim::<8>::of(block);
    let inside = reaches(u, aim, 0, 1);
    let len = u.samples.len().min(v.samples.len());
    let both = PaddedPlane {
        samples: &u.samples[..len],
        g: u.g,
    };
    let seen = look(inside, both, aim);
    let Area {
        at,
        stride,
        w,
        h,
        ..
    } = seen.area;
    let in_u = Area {
        samples: u.samples,
        at,
        stride,
        w,
        h,
    };
    let in_v = Area {
        samples: v.samples,
        at,
        stride,
        w,
        h,
    };
    if aim.fx + aim.fy == 0 {
        // The window lies inside, so the block does.
        let spot = route::locate_known(inside, seen.area, seen.aim);
        route::full_from(spot, in_u, seen.aim, outu);
        route::full_from(spot, in_v, seen.aim, outv);
        return;
    }
    let spot = route::locate_window::<Chroma, 8, 81>(seen.area, seen.aim);
    route::predict_from::<Chroma, 8, 81>(spot, in_u, seen.aim, outu);
    route::predict_from::<Chroma, 8, 81>(spot, in_v, seen.aim, outv);
}
