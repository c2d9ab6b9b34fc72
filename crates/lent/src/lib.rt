// Records that a caller lends. Each call over one takes it apart and hands its parts to the plain form.
#![tactic(auto)]

ghost use Rattle.std.specs.Prelude.{◌≡◌};
ghost use Rattle.terms.specs.Refusal.{answered};
ghost use Rattle.lent.specs.Lent.{Predicted};

use margins::Geometry;
use terms::block::Block;
use terms::refusal::Refusal;

// The scratch of the luma route: a tile of 21 by 21 samples and two anchors.
#[repr(C)]
#[derive(Clone, Copy)]
pub struct McScratch {
    pub tile: [u8; 441],
    pub a: [u8; 256],
    pub b: [u8; 256],
}

// The scratch's arrays as slices, which are never short.
pub fn luma_arrays(
    tile: &mut [u8; 441],
    a: &mut [u8; 256],
    b: &mut [u8; 256],
    padded: &[u8],
    g: Geometry,
    block: Block,
    out: &mut [u8],
) -> Result<(), Refusal>
    ensures { Predicted tile.old a.old b.old padded.now g.stride g.pad g.pw g.ph block.x block.y block.w block.h block.mv.x block.mv.y out.old tile.new a.new b.new out.new (answered result) }
{
    padded::mc_luma_padded_slices(tile, a, b, padded, g, block, out)
}

// `mc_luma_padded` with the scratch lent.
pub fn mc_luma_padded_pre(
    scr: &mut McScratch,
    padded: &[u8],
    g: Geometry,
    block: Block,
    out: &mut [u8],
) -> Result<(), Refusal>
    ensures { Predicted scr.old.tile scr.old.a scr.old.b padded.now g.stride g.pad g.pw g.ph block.x block.y block.w block.h block.mv.x block.mv.y out.old scr.new.tile scr.new.a scr.new.b out.new (answered result) }
{
    luma_arrays(&mut scr.tile, &mut scr.a, &mut scr.b, padded, g, block, out)
}
