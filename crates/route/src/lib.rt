// Blocks predicted from an area of a buffer, every coordinate clamped to it: read in place where the window lies inside, else by way of a tile.
#![tactic(auto)]

ghost use Rattle.std.specs.Prelude.{◌≡◌, true, ◌+◌, ◌*◌, ◌-◌, ◌/◌, ◌^◌, ◌≤◌, ◌<◌, ◌⊎◌, length, IfSome};
ghost use Rattle.grid.specs.Block.{drawn};
ghost use Rattle.place.specs.Near.{near_area};
ghost use Rattle.kernels.specs.Width.{copied};
ghost use Rattle.route.specs.Area.{near_by, Lies};

use crate::component::Component;
use grid::{Size, View};
use kernels::full;
use place::area::{Aim, Area};
use place::{coords, tiles};
use terms::plane::Plane;

pub mod component;
#[cfg(test)]
mod tests;

// Where a block starts with `around` samples more on each axis, `before` of them before it, if they lie inside the area.
fn spot_in<const STEPS: usize>(
    area: Area,
    aim: Aim<STEPS>,
    before: usize,
    around: usize,
) -> Option<usize>
    requires { (before ≤ 2) × (around ≤ 5) }
    ensures { IfSome result (λ at. Lies (length area.entry.samples.now) area.entry.at area.entry.stride area.entry.w area.entry.h aim.entry.x aim.entry.y (2 ^ 31 / STEPS + before) (aim.entry.w + around) (aim.entry.h + around) (aim.entry.w + around) at) }
{
    let base = coords::base::<STEPS>() + before;
    let x = aim.x.checked_sub(base)?;
    let y = aim.y.checked_sub(base)?;
    let w = aim.w + around;
    let h = aim.h + around;
    if area.w < x + w {
        return None;
    }
    if area.h < y + h {
        return None;
    }
    Some(area.at + y * area.stride + x)
}

// The same of a window whose last row is read with as many lanes.
fn locate<const STEPS: usize>(
    area: Area,
    aim: Aim<STEPS>,
    before: usize,
    around: usize,
    lanes: usize,
) -> Option<usize>
    requires { (before ≤ 2) × (around ≤ 5) }
    ensures { IfSome result (λ at. Lies (length area.entry.samples.now) area.entry.at area.entry.stride area.entry.w area.entry.h aim.entry.x aim.entry.y (2 ^ 31 / STEPS + before) (aim.entry.w + around) (aim.entry.h + around) lanes at) }
{
    let at = spot_in(area, aim, before, around)?;
    let last = at + (aim.h + around - 1) * area.stride;
    (lanes <= area.samples.len() - last).then_some(at)
}

// The same of a block of a width that is copied.
fn locate_full<const STEPS: usize>(area: Area, aim: Aim<STEPS>) -> Option<usize>
    ensures { IfSome result (λ at. (copied aim.entry.w ≡ true) × Lies (length area.entry.samples.now) area.entry.at area.entry.stride area.entry.w area.entry.h aim.entry.x aim.entry.y (2 ^ 31 / STEPS) aim.entry.w aim.entry.h aim.entry.w at) }
{
    if full::is_copied(aim.w) {
        return spot_in(area, aim, 0, 0);
    }
    None
}

// The same where the caller may know already that the block lies inside.
pub fn locate_known<const STEPS: usize>(inside: bool, area: Area, aim: Aim<STEPS>) -> Option<usize>
    requires { inside ≡ true → (2 ^ 31 / STEPS ≤ aim.x) × (aim.x - 2 ^ 31 / STEPS + aim.w ≤ area.w) × (2 ^ 31 / STEPS ≤ aim.y) × (aim.y - 2 ^ 31 / STEPS + aim.h ≤ area.h) }
    ensures { IfSome result (λ at. (copied aim.entry.w ≡ true) × Lies (length area.entry.samples.now) area.entry.at area.entry.stride area.entry.w area.entry.h aim.entry.x aim.entry.y (2 ^ 31 / STEPS) aim.entry.w aim.entry.h aim.entry.w at) }
{
    if inside & full::is_copied(aim.w) {
        let base = coords::base::<STEPS>();
        return Some(area.at + (aim.y - base) * area.stride + (aim.x - base));
    }
    locate_full(area, aim)
}

// The block's full samples, which were located at the spot. This and the others so marked stand in the place of their calls, so that the records stay in registers.
#[inline(always)]
pub fn full_from<const STEPS: usize>(
    spot: Option<usize>,
    area: Area,
    aim: Aim<STEPS>,
    out: &mut [u8],
)
    requires { (aim.w * aim.h ≤ length out.old)
        × IfSome spot (λ at. (copied aim.w ≡ true) × Lies (length area.samples.now) area.at area.stride area.w area.h aim.x aim.y (2 ^ 31 / STEPS) aim.w aim.h aim.w at) }
    ensures { out.new ≡ drawn out.old aim.entry.w aim.entry.h (λ c r. near_area area.entry.samples.now area.entry.at area.entry.stride area.entry.w area.entry.h (2 ^ 31 / STEPS) (aim.entry.x + c) (aim.entry.y + r)) }
{
    match spot {
        Some(at) => {
            let view = View {
                samples: area.samples,
                at,
                stride: area.stride,
            };
            let size = Size { w: aim.w, h: aim.h };
            full::full_block(view, size, out)
        }
        None => tiles::tile_into(out, area, aim, 0, 0),
    }
}

// The block's full samples.
#[inline(always)]
fn predict_full<const STEPS: usize>(area: Area, aim: Aim<STEPS>, out: &mut [u8])
    requires { aim.w * aim.h ≤ length out.old }
    ensures { out.new ≡ drawn out.old aim.entry.w aim.entry.h (λ c r. near_area area.entry.samples.now area.entry.at area.entry.stride area.entry.w area.entry.h (2 ^ 31 / STEPS) (aim.entry.x + c) (aim.entry.y + r)) }
{
    full_from(locate_full(area, aim), area, aim, out);
}

// Where the window of a block starts, if it can be read there.
pub fn locate_window<C: Component<STEPS, TILE>, const STEPS: usize, const TILE: usize>(
    area: Area,
    aim: Aim<STEPS>,
) -> Option<usize>
    ensures { IfSome result (λ at. Lies (length area.entry.samples.now) area.entry.at area.entry.stride area.entry.w area.entry.h aim.entry.x aim.entry.y (2 ^ 31 / STEPS + C.BEFORE) (aim.entry.w + C.AROUND) (aim.entry.h + C.AROUND) C.LANES at) }
{
    locate(area, aim, C::BEFORE, C::AROUND, C::LANES)
}

// The block of a phase that the component takes, by way of its clamped tile.
fn tiled<C: Component<STEPS, TILE>, const STEPS: usize, const TILE: usize>(
    tile: &mut [u8],
    area: Area,
    aim: Aim<STEPS>,
    out: &mut [u8],
)
    requires { (TILE ≤ length tile.old) × (C.phases.Takes aim.fx aim.fy) × (aim.w * aim.h ≤ length out.old) }
    ensures { out.new ≡ drawn out.old aim.entry.w aim.entry.h (near_by C.sample area.entry.samples.now area.entry.at area.entry.stride area.entry.w area.entry.h (2 ^ 31 / STEPS + C.BEFORE) aim.entry.x aim.entry.y aim.entry.fx aim.entry.fy) }
{
    tiles::tile_into(tile, area, aim, C::BEFORE, C::AROUND);
    C::block(tile, 0, aim.w + C::AROUND, aim, out);
}

// The same with a tile of its own, in a function of its own: where the block is read in place, nothing pays for the tile.
fn by_tile<C: Component<STEPS, TILE>, const STEPS: usize, const TILE: usize>(
    area: Area,
    aim: Aim<STEPS>,
    out: &mut [u8],
)
    requires { (C.phases.Takes aim.fx aim.fy) × (aim.w * aim.h ≤ length out.old) }
    ensures { out.new ≡ drawn out.old aim.entry.w aim.entry.h (near_by C.sample area.entry.samples.now area.entry.at area.entry.stride area.entry.w area.entry.h (2 ^ 31 / STEPS + C.BEFORE) aim.entry.x aim.entry.y aim.entry.fx aim.entry.fy) }
{
    let mut tile = [0u8; TILE];
    tiled::<C, STEPS, TILE>(&mut tile, area, aim, out);
}

// The block of a phase that the component takes, whose window was located at the spot. Each but (0, 0) is one, which is said here so that a caller needs no law.
#[inline(always)]
pub fn predict_from<C: Component<STEPS, TILE>, const STEPS: usize, const TILE: usize>(
    spot: Option<usize>,
    area: Area,
    aim: Aim<STEPS>,
    out: &mut [u8],
)
    requires { ((1 ≤ aim.fx + aim.fy) ⊎ (C.phases.Takes aim.fx aim.fy)) × (aim.w * aim.h ≤ length out.old)
        × IfSome spot (λ at. Lies (length area.samples.now) area.at area.stride area.w area.h aim.x aim.y (2 ^ 31 / STEPS + C.BEFORE) (aim.w + C.AROUND) (aim.h + C.AROUND) C.LANES at) }
    ensures { out.new ≡ drawn out.old aim.entry.w aim.entry.h (near_by C.sample area.entry.samples.now area.entry.at area.entry.stride area.entry.w area.entry.h (2 ^ 31 / STEPS + C.BEFORE) aim.entry.x aim.entry.y aim.entry.fx aim.entry.fy) }
{
    match spot {
        Some(at) => C::block(area.samples, at, area.stride, aim, out),
        None => by_tile::<C, STEPS, TILE>(area, aim, out),
    }
}

// The block of any phase.
#[inline(always)]
pub fn predict<C: Component<STEPS, TILE>, const STEPS: usize, const TILE: usize>(
    area: Area,
    aim: Aim<STEPS>,
    out: &mut [u8],
)
    requires { aim.w * aim.h ≤ length out.old }
    ensures { out.new ≡ drawn out.old aim.entry.w aim.entry.h (near_by C.sample area.entry.samples.now area.entry.at area.entry.stride area.entry.w area.entry.h (2 ^ 31 / STEPS + C.BEFORE) aim.entry.x aim.entry.y aim.entry.fx aim.entry.fy) }
{
    if aim.fx + aim.fy == 0 {
        predict_full(area, aim, out);
        return;
    }
    let spot = locate_window::<C, STEPS, TILE>(area, aim);
    predict_from::<C, STEPS, TILE>(spot, area, aim, out);
}

// The same of a plain picture, which is the area of its own sides.
pub fn predict_plain<C: Component<STEPS, TILE>, const STEPS: usize, const TILE: usize>(
    plane: Plane,
    aim: Aim<STEPS>,
    out: &mut [u8],
)
    requires { (1 ≤ plane.w) × (1 ≤ plane.h) × ((plane.h - 1) * plane.w + plane.w ≤ length plane.samples.now) × (aim.w * aim.h ≤ length out.old) }
    ensures { out.new ≡ drawn out.old aim.entry.w aim.entry.h (near_by C.sample plane.entry.samples.now 0 plane.entry.w plane.entry.w plane.entry.h (2 ^ 31 / STEPS + C.BEFORE) aim.entry.x aim.entry.y aim.entry.fx aim.entry.fy) }
{
    let area = Area {
        samples: plane.samples,
        at: 0,
        stride: plane.w,
        w: plane.w,
        h: plane.h,
    };
    predict::<C, STEPS, TILE>(area, aim, out);
}

// The block of any phase, with the tile in a lent slice.
pub fn predict_with<C: Component<STEPS, TILE>, const STEPS: usize, const TILE: usize>(
    tile: &mut [u8],
    area: Area,
    aim: Aim<STEPS>,
    out: &mut [u8],
)
    requires { (TILE ≤ length tile.old) × (aim.w * aim.h ≤ length out.old) }
    ensures { out.new ≡ drawn out.old aim.entry.w aim.entry.h (near_by C.sample area.entry.samples.now area.entry.at area.entry.stride area.entry.w area.entry.h (2 ^ 31 / STEPS + C.BEFORE) aim.entry.x aim.entry.y aim.entry.fx aim.entry.fy) }
{
    if aim.fx + aim.fy == 0 {
        predict_full(area, aim, out);
        return;
    }
    match locate_window::<C, STEPS, TILE>(area, aim) {
        Some(at) => C::block(area.samples, at, area.stride, aim, out),
        None => tiled::<C, STEPS, TILE>(tile, area, aim, out),
    }
}
