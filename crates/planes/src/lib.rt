// Half-sample planes: the picture padded, and the half samples across, down and at the centre of it, at every place.
#![tactic(auto)]

ghost use Rattle.std.specs.Prelude.{◌≡◌, ◌+◌, ◌*◌, ◌≤◌, ◌<◌, length};
ghost use Rattle.grid.specs.Block.{drawn};
ghost use Rattle.grid.specs.Run.{put};
ghost use Rattle.place.specs.Outcome.{after};
ghost use Rattle.samples.specs.Tap.{half, centre};
ghost use Rattle.samples.specs.Kernel.{window_at};
ghost use Rattle.terms.specs.Refusal.{answered};
ghost use Rattle.planes.specs.Planes.{wide, padded_at, across_at, down_at, centre_at, padded_plane, pad_refusal, build_refusal};

use grid::{Size, View};
use place::area::{Aim, Area};
use place::{coords, limits, tiles};
use route::component::Luma;
use terms::plane::Plane;
use terms::refusal::Refusal;

// 1, 2 and 5; out is the length of the plane to be written.
fn check_pad(plane: Plane, pad: usize, out: usize) -> Result<(), Refusal>
    ensures { answered result ≡ pad_refusal (length plane.entry.samples.now) plane.entry.w plane.entry.h pad out }
{
    if limits::bad_sides(plane.w, plane.h) {
        return Err(Refusal::BadSide);
    }
    if limits::MAX_PAD < pad {
        return Err(Refusal::BadSide);
    }
    if plane.samples.len() < plane.w * plane.h {
        return Err(Refusal::ShortSource);
    }
    if out < (plane.w + 2 * pad) * (plane.h + 2 * pad) {
        return Err(Refusal::ShortOutput);
    }
    Ok(())
}

// The picture with pad columns and rows of its nearest samples around it.
pub fn pad_plane(plane: Plane, pad: usize, out: &mut [u8]) -> Result<(), Refusal>
    ensures { (answered result ≡ pad_refusal (length plane.entry.samples.now) plane.entry.w plane.entry.h pad (length out.old))
        × (out.new ≡ after (answered result) out.old (drawn out.old (wide plane.entry.w pad) (wide plane.entry.h pad) (padded_at plane.entry.samples.now plane.entry.w plane.entry.h pad))) }
{
    check_pad(plane, pad, out.len())?;
    draw_padded(plane, pad, out);
    Ok(())
}

fn draw_padded(plane: Plane, pad: usize, out: &mut [u8])
    requires { (1 ≤ plane.w) × (plane.w ≤ 8192) × (1 ≤ plane.h) × (plane.h ≤ 8192) × (pad ≤ 128) × (plane.w * plane.h ≤ length plane.samples.now) × (wide plane.w pad * wide plane.h pad ≤ length out.old) }
    ensures { out.new ≡ drawn out.old (wide plane.entry.w pad) (wide plane.entry.h pad) (padded_at plane.entry.samples.now plane.entry.w plane.entry.h pad) }
{
    let Plane { samples, w, h } = plane;
    let picture = Area {
        samples,
        at: 0,
        stride: w,
        w,
        h,
    };
    let size = Size {
        w: w + 2 * pad,
        h: h + 2 * pad,
    };
    // A place pad up: column 0 of the plane is pad before the picture.
    let left = 0;
    tiles::clamped_area(picture, left, 0, pad, size, out);
}

// A picture with its margins, all of it lent, of which half samples are built.
#[derive(Clone, Copy)]
struct Padded<'a> {
    samples: &'a [u8],
    w: usize,
    h: usize,
    ghost wide: { (1 ≤ w) × (w ≤ 8448) },
    ghost high: { (1 ≤ h) × (h ≤ 8448) },
    ghost whole: { w * h ≤ length samples.now },
}

// n samples of each plane, written from o on; the view starts at the window of the first.
fn build_lanes(view: View, n: usize, o: usize, h: &mut [u8], v: &mut [u8], c: &mut [u8])
    requires { (view.at + 5 * view.stride + 21 ≤ length view.samples.now) × (n ≤ 16) × (o + n ≤ length h.old) × (o + n ≤ length v.old) × (o + n ≤ length c.old) }
    ensures { (h.new ≡ put h.old o n (λ i. half 255 (λ k. window_at view.entry.samples.now view.entry.at view.entry.stride i 0 k 2)))
        × (v.new ≡ put v.old o n (λ i. half 255 (λ k. window_at view.entry.samples.now view.entry.at view.entry.stride i 0 2 k)))
        × (c.new ≡ put c.old o n (λ i. centre 255 (window_at view.entry.samples.now view.entry.at view.entry.stride i 0))) }
{
    halves::half_row(view.samples, view.at + 2 * view.stride, 1, n, h, o);
    centre::down_and_centre_row(view, n, v, c, o);
}

// The n samples of each plane from column x of row y on: read in place where their windows lie inside the picture, else by way of a tile.
fn build_part(f: Padded, x: usize, y: usize, n: usize, h: &mut [u8], v: &mut [u8], c: &mut [u8])
    requires { (1 ≤ n) × (n ≤ 16) × (x + n ≤ f.w) × (y < f.h) × (f.w * f.h ≤ length h.old) × (f.w * f.h ≤ length v.old) × (f.w * f.h ≤ length c.old) }
    ensures { (h.new ≡ put h.old (y * f.entry.w + x) n (λ i. across_at f.entry.samples.now f.entry.w f.entry.h (x + i) y))
        × (v.new ≡ put v.old (y * f.entry.w + x) n (λ i. down_at f.entry.samples.now f.entry.w f.entry.h (x + i) y))
        × (c.new ≡ put c.old (y * f.entry.w + x) n (λ i. centre_at f.entry.samples.now f.entry.w f.entry.h (x + i) y)) }
{
    let o = y * f.w + x;
    let area = Area {
        samples: f.samples,
        at: 0,
        stride: f.w,
        w: f.w,
        h: f.h,
    };
    let base = coords::base::<4>();
    let aim = Aim::<4> {
        x: x + base,
        y: y + base,
        fx: 0,
        fy: 0,
        w: n,
        h: 1,
    };
    match route::locate_window::<Luma, 4, 441>(area, aim) {
        Some(at) => {
            let view = View {
                samples: f.samples,
                at,
                stride: f.w,
            };
            build_lanes(view, n, o, h, v, c);
        }
        None => {
            let mut tile = [0u8; 126];
            tiles::tile_into(&mut tile, area, aim, 2, 5);
            let view = View {
                samples: &tile,
                at: 0,
                stride: n + 5,
            };
            build_lanes(view, n, o, h, v, c);
        }
    }
}

// Row y of each plane, sixteen samples at a time, then the rest; by index, since three planes are written at one place.
fn build_row(f: Padded, y: usize, h: &mut [u8], v: &mut [u8], c: &mut [u8])
    requires { (y < f.h) × (f.w * f.h ≤ length h.old) × (f.w * f.h ≤ length v.old) × (f.w * f.h ≤ length c.old) }
    ensures { (h.new ≡ put h.old (y * f.entry.w) f.entry.w (λ x. across_at f.entry.samples.now f.entry.w f.entry.h x y))
        × (v.new ≡ put v.old (y * f.entry.w) f.entry.w (λ x. down_at f.entry.samples.now f.entry.w f.entry.h x y))
        × (c.new ≡ put c.old (y * f.entry.w) f.entry.w (λ x. centre_at f.entry.samples.now f.entry.w f.entry.h x y)) }
{
    for k in 0..f.w / 16 {
        build_part(f, 16 * k, y, 16, h, v, c);
    }
    let rest = f.w % 16;
    if 0 < rest {
        build_part(f, f.w - rest, y, rest, h, v, c);
    }
}

// The three planes of half samples, by rows.
fn build_hpel_rows(f: Padded, h: &mut [u8], v: &mut [u8], c: &mut [u8])
    requires { (f.w * f.h ≤ length h.old) × (f.w * f.h ≤ length v.old) × (f.w * f.h ≤ length c.old) }
    ensures { (h.new ≡ drawn h.old f.entry.w f.entry.h (across_at f.entry.samples.now f.entry.w f.entry.h))
        × (v.new ≡ drawn v.old f.entry.w f.entry.h (down_at f.entry.samples.now f.entry.w f.entry.h))
        × (c.new ≡ drawn c.old f.entry.w f.entry.h (centre_at f.entry.samples.now f.entry.w f.entry.h)) }
{
    for y in 0..f.h {
        build_row(f, y, h, v, c);
    }
}

// The same of all four planes, by their lengths.
fn check_build(
    plane: Plane,
    pad: usize,
    f: usize,
    across: usize,
    down: usize,
    middle: usize,
) -> Result<(), Refusal>
    ensures { answered result ≡ build_refusal (length plane.entry.samples.now) plane.entry.w plane.entry.h pad f across down middle }
{
    check_pad(plane, pad, f)?;
    let need = (plane.w + 2 * pad) * (plane.h + 2 * pad);
    let short = (across < need) | (down < need) | (middle < need);
    if short {
        return Err(Refusal::ShortOutput);
    }
    Ok(())
}

// f, h, v and c of a picture. They are lent mutably, each by itself, so they stay four parameters.
pub fn build_hpel_planes(
    plane: Plane,
    pad: usize,
    f: &mut [u8],
    h: &mut [u8],
    v: &mut [u8],
    c: &mut [u8],
) -> Result<(), Refusal>
    ensures { (answered result ≡ build_refusal (length plane.entry.samples.now) plane.entry.w plane.entry.h pad (length f.old) (length h.old) (length v.old) (length c.old))
        × (f.new ≡ after (answered result) f.old (drawn f.old (wide plane.entry.w pad) (wide plane.entry.h pad) (padded_at plane.entry.samples.now plane.entry.w plane.entry.h pad)))
        × (h.new ≡ after (answered result) h.old (drawn h.old (wide plane.entry.w pad) (wide plane.entry.h pad) (across_at (padded_plane plane.entry.samples.now plane.entry.w plane.entry.h pad) (wide plane.entry.w pad) (wide plane.entry.h pad))))
        × (v.new ≡ after (answered result) v.old (drawn v.old (wide plane.entry.w pad) (wide plane.entry.h pad) (down_at (padded_plane plane.entry.samples.now plane.entry.w plane.entry.h pad) (wide plane.entry.w pad) (wide plane.entry.h pad))))
        × (c.new ≡ after (answered result) c.old (drawn c.old (wide plane.entry.w pad) (wide plane.entry.h pad) (centre_at (padded_plane plane.entry.samples.now plane.entry.w plane.entry.h pad) (wide plane.entry.w pad) (wide plane.entry.h pad)))) }
{
    check_build(plane, pad, f.len(), h.len(), v.len(), c.len())?;
    draw_padded(plane, pad, f);
    let padded = Padded {
        samples: f,
        w: plane.w + 2 * pad,
        h: plane.h + 2 * pad,
    };
    build_hpel_rows(padded, h, v, c);
    Ok(())
}
