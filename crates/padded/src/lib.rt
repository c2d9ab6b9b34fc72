// Prediction from planes with margins: what is refused, and then the block.
#![tactic(auto)]

ghost use Rattle.std.specs.Prelude.{◌≡◌, min, length};
ghost use Rattle.terms.specs.Refusal.{answered};
ghost use Rattle.grid.specs.Block.{drawn};
ghost use Rattle.place.specs.Refusal.{padded_block_refusal};
ghost use Rattle.place.specs.Outcome.{after};
ghost use Rattle.window.specs.Padded.{padded_luma, padded_chroma, slices_refusal};

use margins::Geometry;
use place::limits;
use terms::block::Block;
use terms::refusal::Refusal;
use window::PaddedPlane;

// What the scratch needs: a tile of 21 by 21 samples, and the anchors of a block of 16 by 16.
pub const TILE: usize = 441;

pub const ANCHOR: usize = 256;

// A luma block with scratch of these lengths: short scratch is refused as a short output is.
fn check_lent(
    tile: usize,
    a: usize,
    b: usize,
    len: usize,
    g: Geometry,
    block: Block,
    out: usize,
) -> Result<(), Refusal>
    ensures { answered result ≡ slices_refusal tile a b len g.pw g.ph g.pad g.stride block.x block.y block.w block.h out }
{
    limits::check_padded_block(limits::LUMA, len, g, block, out)?;
    if tile < TILE {
        return Err(Refusal::ShortOutput);
    }
    if a < ANCHOR {
        return Err(Refusal::ShortOutput);
    }
    if b < ANCHOR {
        return Err(Refusal::ShortOutput);
    }
    Ok(())
}

// The luma block, moved by its vector in quarter samples, into out by rows.
pub fn mc_luma_padded(
    padded: &[u8],
    g: Geometry,
    block: Block,
    out: &mut [u8],
) -> Result<(), Refusal>
    ensures { (answered result ≡ padded_block_refusal 16 (length padded.now) g.pw g.ph g.pad g.stride block.x block.y block.w block.h (length out.old))
        × (out.new ≡ after (answered result) out.old (drawn out.old block.w block.h (padded_luma padded.now g.stride g.pad g.pw g.ph block.x block.y block.w block.h block.mv.x block.mv.y))) }
{
    limits::check_padded_block(limits::LUMA, padded.len(), g, block, out.len())?;
    let plane = PaddedPlane { samples: padded, g };
    window::luma_block(plane, block, out);
    Ok(())
}

// The same with lent scratch, which is as it was after a refusal, and free after a done call.
pub fn mc_luma_padded_slices(
    tile: &mut [u8],
    a: &mut [u8],
    b: &mut [u8],
    padded: &[u8],
    g: Geometry,
    block: Block,
    out: &mut [u8],
) -> Result<(), Refusal>
    ensures { (answered result ≡ slices_refusal (length tile.old) (length a.old) (length b.old) (length padded.now) g.pw g.ph g.pad g.stride block.x block.y block.w block.h (length out.old))
        × (out.new ≡ after (answered result) out.old (drawn out.old block.w block.h (padded_luma padded.now g.stride g.pad g.pw g.ph block.x block.y block.w block.h block.mv.x block.mv.y)))
        × (tile.new ≡ after (answered result) tile.old tile.new) × (a.new ≡ after (answered result) a.old a.new) × (b.new ≡ after (answered result) b.old b.new) }
{
    check_lent(
        tile.len(),
        a.len(),
        b.len(),
        padded.len(),
        g,
        block,
        out.len(),
    )?;
    let plane = PaddedPlane { samples: padded, g };
    window::luma_block_with(tile, plane, block, out);
    Ok(())
}

// The chroma block, moved by its vector in eighth samples, into out by rows. It reads like the luma call; the paper names both, and each has a rule of its own.
pub fn mc_chroma_padded(
    padded: &[u8],
    g: Geometry,
    block: Block,
    out: &mut [u8],
) -> Result<(), Refusal>
    ensures { (answered result ≡ padded_block_refusal 8 (length padded.now) g.pw g.ph g.pad g.stride block.x block.y block.w block.h (length out.old))
        × (out.new ≡ after (answered result) out.old (drawn out.old block.w block.h (padded_chroma padded.now g.stride g.pad g.pw g.ph block.x block.y block.w block.h block.mv.x block.mv.y))) }
{
    limits::check_padded_block(limits::CHROMA, padded.len(), g, block, out.len())?;
    let plane = PaddedPlane { samples: padded, g };
    window::chroma_block(plane, block, out);
    Ok(())
}

// Both chroma planes at once: the shorter plane and the shorter output decide, and a refusal writes neither.
pub fn mc_chroma_padded_pair(
    pu: &[u8],
    pv: &[u8],
    g: Geometry,
    block: Block,
    outu: &mut [u8],
    outv: &mut [u8],
) -> Result<(), Refusal>
    ensures { (answered result ≡ padded_block_refusal 8 (min (length pu.now) (length pv.now)) g.pw g.ph g.pad g.stride block.x block.y block.w block.h (min (length outu.old) (length outv.old)))
        × (outu.new ≡ after (answered result) outu.old (drawn outu.old block.w block.h (padded_chroma pu.now g.stride g.pad g.pw g.ph block.x block.y block.w block.h block.mv.x block.mv.y)))
        × (outv.new ≡ after (answered result) outv.old (drawn outv.old block.w block.h (padded_chroma pv.now g.stride g.pad g.pw g.ph block.x block.y block.w block.h block.mv.x block.mv.y))) }
{
    let source = pu.len().min(pv.len());
    let target = outu.len().min(outv.len());
    limits::check_padded_block(limits::CHROMA, source, g, block, target)?;
    let u = PaddedPlane { samples: pu, g };
    let v = PaddedPlane { samples: pv, g };
    window::chroma_pair(u, v, block, outu, outv);
    Ok(())
}
