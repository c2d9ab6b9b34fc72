// Half-sample planes in use: the lookups of numbers, the views, and the block. The planes are read as lent, whatever they hold.
// The calls over a bundle of planes take it apart and call these, so the planes stay slices and numbers here.
#![tactic(auto)]

ghost use Rattle.std.specs.Prelude.{◌≡◌, ◌+◌, ◌*◌, ◌/◌, ◌^◌, ◌<◌, ◌≤◌, length, drop};
ghost use Rattle.std.proofs.Math.IntN.{sub_ℕ};
ghost use Rattle.signed.specs.Lift.{up};
ghost use Rattle.grid.specs.Block.{drawn};
ghost use Rattle.place.specs.Outcome.{after};
ghost use Rattle.place.specs.Place.{phase};
ghost use Rattle.samples.specs.Phase.{plane_number, phase_of};
ghost use Rattle.terms.specs.Refusal.{answered};
ghost use Rattle.planes.specs.Planes.{wide};
ghost use Rattle.served.specs.Served.{block_refusal};
ghost use Rattle.hpel.specs.Lookup.{first_at, in_order, ref_at, qpel_at};
ghost use Rattle.hpel.specs.Answer.{at_answer, pair_answer};
ghost use Rattle.hpel.specs.Reading.{plane_of, contents, ref_tail, qpel_tails, hpel_sample};

use grid::{Size, View};
use place::coords;
use samples::phases;
use samples::phases::{Anchor, Phase};
use served::Lent;
use terms::block::Block;
use terms::refusal::Refusal;

// The planes f, h, v and c, by what they hold.
pub use samples::phases::Kind;

// Where samples lie: their plane, the offset of the block's first sample in it, and the stride.
#[derive(Clone, Copy, Debug, PartialEq, Eq)]
pub struct Spot {
    pub plane: Kind,
    pub offset: usize,
    pub stride: usize,
}

// The same of the two that a quarter phase averages.
#[derive(Clone, Copy, Debug, PartialEq, Eq)]
pub struct Pair {
    pub plane_a: Kind,
    pub plane_b: Kind,
    pub offset_a: usize,
    pub offset_b: usize,
    pub stride: usize,
}

// A lookup's answer as C has it: the refusal, or 0 and the spot; zeros on a refusal.
#[repr(C)]
#[derive(Clone, Copy)]
pub struct HpelAt {
    pub refusal: u32,
    pub plane: u32,
    pub offset: usize,
    pub stride: usize,
}

impl From<Result<Spot, Refusal>> for HpelAt {
    ghost from_gives = { λ r k. k ≡ at_answer r };

    fn from(answer: Result<Spot, Refusal>) -> HpelAt {
        match answer {
            Ok(spot) => HpelAt {
                refusal: 0,
                plane: spot.plane.number(),
                offset: spot.offset,
                stride: spot.stride,
            },
            Err(refusal) => HpelAt {
                refusal: refusal.number(),
                plane: 0,
                offset: 0,
                stride: 0,
            },
        }
    }
}

#[repr(C)]
#[derive(Clone, Copy)]
pub struct HpelPair {
    pub refusal: u32,
    pub plane_a: u32,
    pub plane_b: u32,
    pub offset_a: usize,
    pub offset_b: usize,
    pub stride: usize,
}

impl From<Result<Pair, Refusal>> for HpelPair {
    ghost from_gives = { λ r k. k ≡ pair_answer r };

    fn from(answer: Result<Pair, Refusal>) -> HpelPair {
        match answer {
            Ok(pair) => HpelPair {
                refusal: 0,
                plane_a: pair.plane_a.number(),
                plane_b: pair.plane_b.number(),
                offset_a: pair.offset_a,
                offset_b: pair.offset_b,
                stride: pair.stride,
            },
            Err(refusal) => HpelPair {
                refusal: refusal.number(),
                plane_a: 0,
                plane_b: 0,
                offset_a: 0,
                offset_b: 0,
                stride: 0,
            },
        }
    }
}

// Where an anchor's samples begin in its plane, of a place that is 2^29 up.
fn first_at(a: Anchor, pw: usize, x: usize, y: usize) -> usize
    requires { (2 ^ 29 ≤ x) × (2 ^ 29 ≤ y) × (x ≤ 2 ^ 31) × (y ≤ 2 ^ 31) × (pw ≤ 8448) × (a.dx ≤ 1) × (a.dy ≤ 1) }
    ensures { result ≡ first_at a pw (sub_ℕ x (2 ^ 29)) (sub_ℕ y (2 ^ 29)) }
{
    let base = coords::base::<4>();
    (y - base + a.dy as usize) * pw + (x - base + a.dx as usize)
}

fn in_order(k: Phase) -> Phase
    ensures { result ≡ in_order k }
{
    let p = k.p;
    let q = k.q;
    if q.kind.number() < p.kind.number() {
        return Phase { p: q, q: p };
    }
    k
}

// A block's place in planes whose rows have pw samples, 2^29 up.
#[derive(Clone, Copy)]
struct Corner {
    pw: usize,
    x: usize,
    y: usize,
}

fn place_of(cw: usize, pad: usize, block: Block) -> Corner
    requires { (cw ≤ 8192) × (pad ≤ 128) × (block.x ≤ 65535) × (block.y ≤ 65535) }
    ensures { (result.pw ≡ wide cw pad)
        × (result.x ≡ block.x + up (2 ^ 31) block.mv.x / 4 + pad)
        × (result.y ≡ block.y + up (2 ^ 31) block.mv.y / 4 + pad) }
{
    Corner {
        pw: cw + 2 * pad,
        x: coords::at::<4>(block.x, block.mv.x) + pad,
        y: coords::at::<4>(block.y, block.mv.y) + pad,
    }
}

fn anchors(block: Block) -> Phase
    ensures { result ≡ phase_of (phase block.mv.x 4) (phase block.mv.y 4) }
{
    phases::phase_at(
        coords::phase::<4>(block.mv.x),
        coords::phase::<4>(block.mv.y),
    )
}

// Where the samples of a full or half phase lie. The planes have one lifetime, as the planes of a bundle have.
pub fn hpel_ref_at<'a>(
    f: &'a [u8],
    h: &'a [u8],
    v: &'a [u8],
    c: &'a [u8],
    cw: usize,
    ch: usize,
    pad: usize,
    block: Block,
) -> Result<Spot, Refusal>
    ensures { at_answer result ≡ ref_at (length f.now) (length h.now) (length v.now) (length c.now) cw ch pad block.x block.y block.w block.h block.mv.x block.mv.y }
{
    let lent = Lent {
        f: f.len(),
        h: h.len(),
        v: v.len(),
        c: c.len(),
        cw,
        ch,
        pad,
    };
    served::check_ref(lent, block)?;
    let a = anchors(block).p;
    let Corner { pw, x, y } = place_of(cw, pad, block);
    Ok(Spot {
        plane: a.kind,
        offset: first_at(a, pw, x, y),
        stride: pw,
    })
}

// Where the two samples that a quarter phase averages lie, in the plane order f, h, v, c.
pub fn hpel_qpel_refs_at<'a>(
    f: &'a [u8],
    h: &'a [u8],
    v: &'a [u8],
    c: &'a [u8],
    cw: usize,
    ch: usize,
    pad: usize,
    block: Block,
) -> Result<Pair, Refusal>
    ensures { pair_answer result ≡ qpel_at (length f.now) (length h.now) (length v.now) (length c.now) cw ch pad block.x block.y block.w block.h block.mv.x block.mv.y }
{
    let lent = Lent {
        f: f.len(),
        h: h.len(),
        v: v.len(),
        c: c.len(),
        cw,
        ch,
        pad,
    };
    served::check_qpel(lent, block)?;
    let Phase { p: a, q: b } = in_order(anchors(block));
    let Corner { pw, x, y } = place_of(cw, pad, block);
    Ok(Pair {
        plane_a: a.kind,
        plane_b: b.kind,
        offset_a: first_at(a, pw, x, y),
        offset_b: first_at(b, pw, x, y),
        stride: pw,
    })
}

fn choose<'a>(f: &'a [u8], h: &'a [u8], v: &'a [u8], c: &'a [u8], plane: Kind) -> &'a [u8]
    ensures { result.now ≡ plane_of f.now h.now v.now c.now (plane_number plane) }
{
    match plane {
        Kind::Full => f,
        Kind::Across => h,
        Kind::Down => v,
        Kind::Centre => c,
    }
}

fn tail<'a>(p: &'a [u8], at: usize) -> &'a [u8]
    ensures { result.now ≡ drop at p.now }
{
    if at <= p.len() { &p[at..] } else { &p[..0] }
}

// The plane of a full or half phase, from the block's first sample on; empty when the lookup of numbers refuses.
pub fn hpel_ref<'a>(
    f: &'a [u8],
    h: &'a [u8],
    v: &'a [u8],
    c: &'a [u8],
    cw: usize,
    ch: usize,
    pad: usize,
    block: Block,
) -> &'a [u8]
    ensures { result.now ≡ ref_tail f.now h.now v.now c.now cw ch pad block.x block.y block.w block.h block.mv.x block.mv.y }
{
    match hpel_ref_at(f, h, v, c, cw, ch, pad, block) {
        Ok(spot) => tail(choose(f, h, v, c, spot.plane), spot.offset),
        Err(_) => &f[..0],
    }
}

// The two planes of a quarter phase, each from its first sample on, in the plane order; both empty when the lookup of numbers refuses.
pub fn hpel_qpel_refs<'a>(
    f: &'a [u8],
    h: &'a [u8],
    v: &'a [u8],
    c: &'a [u8],
    cw: usize,
    ch: usize,
    pad: usize,
    block: Block,
) -> [&'a [u8]; 2]
    ensures { contents result ≡ qpel_tails f.now h.now v.now c.now cw ch pad block.x block.y block.w block.h block.mv.x block.mv.y }
{
    match hpel_qpel_refs_at(f, h, v, c, cw, ch, pad, block) {
        Ok(pair) => {
            let a = tail(choose(f, h, v, c, pair.plane_a), pair.offset_a);
            let b = tail(choose(f, h, v, c, pair.plane_b), pair.offset_b);
            [a, b]
        }
        Err(_) => [&f[..0], &f[..0]],
    }
}

// The block of a half phase, copied, or of a quarter phase, averaged, into out by rows.
pub fn hpel_block<'a>(
    f: &'a [u8],
    h: &'a [u8],
    v: &'a [u8],
    c: &'a [u8],
    cw: usize,
    ch: usize,
    pad: usize,
    block: Block,
    out: &mut [u8],
) -> Result<(), Refusal>
    ensures { (answered result ≡ block_refusal (length f.now) (length h.now) (length v.now) (length c.now) cw ch pad block.x block.y block.w block.h block.mv.x block.mv.y (length out.old))
        × (out.new ≡ after (answered result) out.old (drawn out.old block.w block.h (hpel_sample f.now h.now v.now c.now cw pad block.x block.y block.mv.x block.mv.y))) }
{
    let lent = Lent {
        f: f.len(),
        h: h.len(),
        v: v.len(),
        c: c.len(),
        cw,
        ch,
        pad,
    };
    served::check_block(lent, block, out.len())?;
    let fx = coords::phase::<4>(block.mv.x);
    let fy = coords::phase::<4>(block.mv.y);
    let Phase { p, q } = phases::phase_at(fx, fy);
    // Chosen by their place in an array, each is one load.
    let planes = [f, h, v, c];
    let Corner { pw, x, y } = place_of(cw, pad, block);
    let size = Size {
        w: block.w,
        h: block.h,
    };
    let i = first_at(p, pw, x, y);
    if served::at_quarter(fx, fy) {
        let j = first_at(q, pw, x, y);
        let a = tail(planes[p.kind.number() as usize], i);
        let b = tail(planes[q.kind.number() as usize], j);
        rows::average_block(a, b, pw, size, out);
        return Ok(());
    }
    // Full and half phases name one anchor twice.
    let view = View {
        samples: planes[p.kind.number() as usize],
        at: i,
        stride: pw,
    };
    rows::copy_block(view, size, out);
    Ok(())
}
