// Chroma prediction from a plain picture.
#![tactic(auto)]

ghost use Rattle.std.specs.Prelude.{◌≡◌, length};
ghost use Rattle.terms.specs.Refusal.{answered};
ghost use Rattle.grid.specs.Block.{drawn};
ghost use Rattle.place.specs.Refusal.{plain_block_refusal};
ghost use Rattle.place.specs.Outcome.{after};
ghost use Rattle.chroma.specs.Chroma.{predicted_chroma};

use place::area::Aim;
use place::limits;
use route::component::Chroma;
use terms::block::Block;
use terms::plane::Plane;
use terms::refusal::Refusal;

// The block, moved by its vector in eighth samples, into out by rows. It reads like the luma call; the paper names both, and each has a rule of its own.
pub fn mc_chroma(plane: Plane, block: Block, out: &mut [u8]) -> Result<(), Refusal>
    ensures { (answered result ≡ plain_block_refusal 8 (length plane.entry.samples.now) plane.entry.w plane.entry.h block.x block.y block.w block.h (length out.old))
        × (out.new ≡ after (answered result) out.old (drawn out.old block.w block.h (predicted_chroma plane.entry.samples.now plane.entry.w plane.entry.h block.x block.y block.mv.x block.mv.y))) }
{
    limits::check_plain_block(limits::CHROMA, plane, block, out.len())?;
    let aim = Aim::of(block);
    route::predict_plain::<Chroma, 8, 81>(plane, aim, out);
    Ok(())
}
