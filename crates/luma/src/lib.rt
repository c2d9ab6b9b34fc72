// Luma prediction from a plain picture, and the average of two rows.
#![tactic(auto)]

ghost use Rattle.std.specs.Prelude.{◌≡◌, length};
ghost use Rattle.terms.specs.Refusal.{answered};
ghost use Rattle.grid.specs.Block.{drawn};
ghost use Rattle.place.specs.Refusal.{plain_block_refusal};
ghost use Rattle.place.specs.Outcome.{after};
ghost use Rattle.luma.specs.Luma.{predicted_luma};
ghost use Rattle.luma.specs.Average.{row_refusal, row_mean};

use place::area::Aim;
use place::limits;
use route::component::Luma;
use terms::block::Block;
use terms::plane::Plane;
use terms::refusal::Refusal;

// The block, moved by its vector in quarter samples, into out by rows.
pub fn mc_luma(plane: Plane, block: Block, out: &mut [u8]) -> Result<(), Refusal>
    ensures { (answered result ≡ plain_block_refusal 16 (length plane.entry.samples.now) plane.entry.w plane.entry.h block.x block.y block.w block.h (length out.old))
        × (out.new ≡ after (answered result) out.old (drawn out.old block.w block.h (predicted_luma plane.entry.samples.now plane.entry.w plane.entry.h block.x block.y block.mv.x block.mv.y))) }
{
    limits::check_plain_block(limits::LUMA, plane, block, out.len())?;
    let aim = Aim::of(block);
    route::predict_plain::<Luma, 4, 441>(plane, aim, out);
    Ok(())
}

// (a + b + 1) / 2 of the first w bytes of two rows.
pub fn avg_row_into(a: &[u8], b: &[u8], w: usize, out: &mut [u8]) -> Result<(), Refusal>
    ensures { (answered result ≡ row_refusal (length a.now) (length b.now) w (length out.old))
        × (out.new ≡ after (answered result) out.old (drawn out.old w 1 (row_mean a.now b.now))) }
{
    if a.len() < w {
        return Err(Refusal::ShortSource);
    }
    if b.len() < w {
        return Err(Refusal::ShortSource);
    }
    if out.len() < w {
        return Err(Refusal::ShortOutput);
    }
    average::avg_run(&a[..w], &b[..w], &mut out[..w]);
    Ok(())
}
