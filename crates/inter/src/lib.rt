// The calls as C has them, which is why kinds, refusals and parameters are single numbers here: one thin call over the library's each. The crate inter_c exports them under the same names.
#![tactic(auto)]

ghost use Rattle.std.specs.Prelude.{◌≡◌, length, min};
ghost use Rattle.vectors.specs.Median.{median};
ghost use Rattle.vectors.specs.Predict.{predict_answer};
ghost use Rattle.vectors.specs.Partition.{partition_answer, partitions_of};
ghost use Rattle.grid.specs.Block.{drawn};
ghost use Rattle.place.specs.Refusal.{plain_block_refusal, padded_refusal, padded_block_refusal};
ghost use Rattle.place.specs.Outcome.{after};
ghost use Rattle.luma.specs.Luma.{predicted_luma};
ghost use Rattle.luma.specs.Average.{row_refusal, row_mean};
ghost use Rattle.chroma.specs.Chroma.{predicted_chroma};
ghost use Rattle.margins.specs.Margin.{expanded};
ghost use Rattle.window.specs.Padded.{padded_luma, padded_chroma};
ghost use Rattle.lent.specs.Lent.{Predicted};
ghost use Rattle.planes.specs.Planes.{wide, padded_at, across_at, down_at, centre_at, padded_plane, pad_refusal, build_refusal};
ghost use Rattle.served.specs.Served.{block_refusal};
ghost use Rattle.hpel.specs.Lookup.{ref_at, qpel_at};
ghost use Rattle.hpel.specs.Reading.{hpel_sample};
ghost use Rattle.edge.specs.Edge.{edge_refusal, outside_count, answer};

use edge::Edges;
use hpel::{HpelAt, HpelPair};
use lent::McScratch;
use terms::block::{Block, Mv};
use terms::plane::{Geometry, Plane};
use terms::refusal::number;
use vectors::{MvAnswer, MvNeighbor, Neighbors, Partitions};

pub fn inter_mc_luma(
    reference: &[u8],
    cw: usize,
    ch: usize,
    x0: usize,
    y0: usize,
    bw: usize,
    bh: usize,
    mvx: i32,
    mvy: i32,
    out: &mut [u8],
) -> u32
    ensures { (result ≡ plain_block_refusal 16 (length reference.now) cw ch x0 y0 bw bh (length out.old))
        × (out.new ≡ after result out.old (drawn out.old bw bh (predicted_luma reference.now cw ch x0 y0 mvx mvy))) }
{
    let plane = Plane {
        samples: reference,
        w: cw,
        h: ch,
    };
    let block = Block {
        x: x0,
        y: y0,
        w: bw,
        h: bh,
        mv: Mv { x: mvx, y: mvy },
    };
    number(luma::mc_luma(plane, block, out))
}

pub fn inter_mc_chroma(
    reference: &[u8],
    cw: usize,
    ch: usize,
    x0: usize,
    y0: usize,
    bw: usize,
    bh: usize,
    mvx: i32,
    mvy: i32,
    out: &mut [u8],
) -> u32
    ensures { (result ≡ plain_block_refusal 8 (length reference.now) cw ch x0 y0 bw bh (length out.old))
        × (out.new ≡ after result out.old (drawn out.old bw bh (predicted_chroma reference.now cw ch x0 y0 mvx mvy))) }
{
    let plane = Plane {
        samples: reference,
        w: cw,
        h: ch,
    };
    let block = Block {
        x: x0,
        y: y0,
        w: bw,
        h: bh,
        mv: Mv { x: mvx, y: mvy },
    };
    number(chroma::mc_chroma(plane, block, out))
}

pub fn inter_expand_plane(buf: &mut [u8], stride: usize, pad: usize, pw: usize, ph: usize) -> u32
    ensures { (result ≡ padded_refusal (length buf.old) pw ph pad stride)
        × (buf.new ≡ after result buf.old (expanded buf.old stride pad pw ph)) }
{
    let g = Geometry {
        stride,
        pad,
        pw,
        ph,
    };
    number(margins::expand_plane(buf, g))
}

pub fn inter_mc_luma_padded(
    padded: &[u8],
    stride: usize,
    pad: usize,
    pw: usize,
    ph: usize,
    x0: usize,
    y0: usize,
    bw: usize,
    bh: usize,
    mvx: i32,
    mvy: i32,
    out: &mut [u8],
) -> u32
    ensures { (result ≡ padded_block_refusal 16 (length padded.now) pw ph pad stride x0 y0 bw bh (length out.old))
        × (out.new ≡ after result out.old (drawn out.old bw bh (padded_luma padded.now stride pad pw ph x0 y0 bw bh mvx mvy))) }
{
    let g = Geometry {
        stride,
        pad,
        pw,
        ph,
    };
    let block = Block {
        x: x0,
        y: y0,
        w: bw,
        h: bh,
        mv: Mv { x: mvx, y: mvy },
    };
    number(padded::mc_luma_padded(padded, g, block, out))
}

pub fn inter_mc_luma_padded_pre(
    scr: &mut McScratch,
    padded: &[u8],
    stride: usize,
    pad: usize,
    pw: usize,
    ph: usize,
    x0: usize,
    y0: usize,
    bw: usize,
    bh: usize,
    mvx: i32,
    mvy: i32,
    out: &mut [u8],
) -> u32
    ensures { Predicted scr.old.tile scr.old.a scr.old.b padded.now stride pad pw ph x0 y0 bw bh mvx mvy out.old scr.new.tile scr.new.a scr.new.b out.new result }
{
    let g = Geometry {
        stride,
        pad,
        pw,
        ph,
    };
    let block = Block {
        x: x0,
        y: y0,
        w: bw,
        h: bh,
        mv: Mv { x: mvx, y: mvy },
    };
    number(lent::luma_arrays(&mut scr.tile, &mut scr.a, &mut scr.b, padded, g, block, out))
}

pub fn inter_mc_chroma_padded(
    padded: &[u8],
    stride: usize,
    pad: usize,
    pw: usize,
    ph: usize,
    x0: usize,
    y0: usize,
    bw: usize,
    bh: usize,
    mvx: i32,
    mvy: i32,
    out: &mut [u8],
) -> u32
    ensures { (result ≡ padded_block_refusal 8 (length padded.now) pw ph pad stride x0 y0 bw bh (length out.old))
        × (out.new ≡ after result out.old (drawn out.old bw bh (padded_chroma padded.now stride pad pw ph x0 y0 bw bh mvx mvy))) }
{
    let g = Geometry {
        stride,
        pad,
        pw,
        ph,
    };
    let block = Block {
        x: x0,
        y: y0,
        w: bw,
        h: bh,
        mv: Mv { x: mvx, y: mvy },
    };
    number(padded::mc_chroma_padded(padded, g, block, out))
}

pub fn inter_mc_chroma_padded_pair(
    pu: &[u8],
    pv: &[u8],
    stride: usize,
    pad: usize,
    pw: usize,
    ph: usize,
    x0: usize,
    y0: usize,
    bw: usize,
    bh: usize,
    mvx: i32,
    mvy: i32,
    outu: &mut [u8],
    outv: &mut [u8],
) -> u32
    ensures { (result ≡ padded_block_refusal 8 (min (length pu.now) (length pv.now)) pw ph pad stride x0 y0 bw bh (min (length outu.old) (length outv.old)))
        × (outu.new ≡ after result outu.old (drawn outu.old bw bh (padded_chroma pu.now stride pad pw ph x0 y0 bw bh mvx mvy)))
        × (outv.new ≡ after result outv.old (drawn outv.old bw bh (padded_chroma pv.now stride pad pw ph x0 y0 bw bh mvx mvy))) }
{
    let g = Geometry {
        stride,
        pad,
        pw,
        ph,
    };
    let block = Block {
        x: x0,
        y: y0,
        w: bw,
        h: bh,
        mv: Mv { x: mvx, y: mvy },
    };
    number(padded::mc_chroma_padded_pair(pu, pv, g, block, outu, outv))
}

pub fn inter_pad_plane(src: &[u8], w: usize, h: usize, pad: usize, out: &mut [u8]) -> u32
    ensures { (result ≡ pad_refusal (length src.now) w h pad (length out.old))
        × (out.new ≡ after result out.old (drawn out.old (wide w pad) (wide h pad) (padded_at src.now w h pad))) }
{
    let plane = Plane { samples: src, w, h };
    number(planes::pad_plane(plane, pad, out))
}

pub fn inter_build_hpel_planes(
    reference: &[u8],
    cw: usize,
    ch: usize,
    pad: usize,
    f: &mut [u8],
    h: &mut [u8],
    v: &mut [u8],
    c: &mut [u8],
) -> u32
    ensures { (result ≡ build_refusal (length reference.now) cw ch pad (length f.old) (length h.old) (length v.old) (length c.old))
        × (f.new ≡ after result f.old (drawn f.old (wide cw pad) (wide ch pad) (padded_at reference.now cw ch pad)))
        × (h.new ≡ after result h.old (drawn h.old (wide cw pad) (wide ch pad) (across_at (padded_plane reference.now cw ch pad) (wide cw pad) (wide ch pad))))
        × (v.new ≡ after result v.old (drawn v.old (wide cw pad) (wide ch pad) (down_at (padded_plane reference.now cw ch pad) (wide cw pad) (wide ch pad))))
        × (c.new ≡ after result c.old (drawn c.old (wide cw pad) (wide ch pad) (centre_at (padded_plane reference.now cw ch pad) (wide cw pad) (wide ch pad)))) }
{
    let plane = Plane {
        samples: reference,
        w: cw,
        h: ch,
    };
    number(planes::build_hpel_planes(plane, pad, f, h, v, c))
}

pub fn inter_hpel_ref<'a>(
    f: &'a [u8],
    h: &'a [u8],
    v: &'a [u8],
    c: &'a [u8],
    cw: usize,
    ch: usize,
    pad: usize,
    x0: usize,
    y0: usize,
    bw: usize,
    bh: usize,
    mvx: i32,
    mvy: i32,
) -> HpelAt
    ensures { result ≡ ref_at (length f.now) (length h.now) (length v.now) (length c.now) cw ch pad x0 y0 bw bh mvx mvy }
{
    let block = Block {
        x: x0,
        y: y0,
        w: bw,
        h: bh,
        mv: Mv { x: mvx, y: mvy },
    };
    HpelAt::from(hpel::hpel_ref_at(f, h, v, c, cw, ch, pad, block))
}

pub fn inter_hpel_qpel_refs<'a>(
    f: &'a [u8],
    h: &'a [u8],
    v: &'a [u8],
    c: &'a [u8],
    cw: usize,
    ch: usize,
    pad: usize,
    x0: usize,
    y0: usize,
    bw: usize,
    bh: usize,
    mvx: i32,
    mvy: i32,
) -> HpelPair
    ensures { result ≡ qpel_at (length f.now) (length h.now) (length v.now) (length c.now) cw ch pad x0 y0 bw bh mvx mvy }
{
    let block = Block {
        x: x0,
        y: y0,
        w: bw,
        h: bh,
        mv: Mv { x: mvx, y: mvy },
    };
    HpelPair::from(hpel::hpel_qpel_refs_at(f, h, v, c, cw, ch, pad, block))
}

pub fn inter_hpel_block<'a>(
    f: &'a [u8],
    h: &'a [u8],
    v: &'a [u8],
    c: &'a [u8],
    cw: usize,
    ch: usize,
    pad: usize,
    x0: usize,
    y0: usize,
    bw: usize,
    bh: usize,
    mvx: i32,
    mvy: i32,
    out: &mut [u8],
) -> u32
    ensures { (result ≡ block_refusal (length f.now) (length h.now) (length v.now) (length c.now) cw ch pad x0 y0 bw bh mvx mvy (length out.old))
        × (out.new ≡ after result out.old (drawn out.old bw bh (hpel_sample f.now h.now v.now c.now cw pad x0 y0 mvx mvy))) }
{
    let block = Block {
        x: x0,
        y: y0,
        w: bw,
        h: bh,
        mv: Mv { x: mvx, y: mvy },
    };
    number(hpel::hpel_block(f, h, v, c, cw, ch, pad, block, out))
}

pub fn inter_avg_row_into(a: &[u8], b: &[u8], w: usize, out: &mut [u8]) -> u32
    ensures { (result ≡ row_refusal (length a.now) (length b.now) w (length out.old))
        × (out.new ≡ after result out.old (drawn out.old w 1 (row_mean a.now b.now))) }
{
    number(luma::avg_row_into(a, b, w, out))
}

pub fn inter_edge_count(
    cw: usize,
    ch: usize,
    x0: usize,
    y0: usize,
    bw: usize,
    bh: usize,
    mvx: i32,
    mvy: i32,
) -> Edges
    ensures { result ≡ answer (edge_refusal cw ch x0 y0 bw bh) (outside_count cw ch x0 y0 bw bh mvx mvy) }
{
    let block = Block {
        x: x0,
        y: y0,
        w: bw,
        h: bh,
        mv: Mv { x: mvx, y: mvy },
    };
    Edges::from(edge::edge_count(cw, ch, block))
}

pub fn inter_median3(a: i32, b: i32, c: i32) -> i32
    ensures { result ≡ median a b c }
{
    vectors::median3(a, b, c)
}

pub fn inter_predict_mv(a: MvNeighbor, b: MvNeighbor, c: MvNeighbor, cur_ref: i32) -> MvAnswer
    ensures { result ≡ predict_answer a b c cur_ref }
{
    MvAnswer::from(vectors::predict_mv(Neighbors { a, b, c }, cur_ref))
}

pub fn inter_predict_partition_mv(
    mode: u8,
    part: usize,
    a: MvNeighbor,
    b: MvNeighbor,
    c: MvNeighbor,
    cur_ref: i32,
) -> MvAnswer
    ensures { result ≡ partition_answer mode part a b c cur_ref }
{
    let near = Neighbors { a, b, c };
    MvAnswer::from(vectors::predict_partition_mv(mode, part, near, cur_ref))
}

pub fn inter_inter_partitions(mode: u8) -> Partitions
    ensures { result ≡ partitions_of mode }
{
    vectors::inter_partitions(mode)
}
