// The four half-sample planes and their geometry as one lent bundle. Each call takes it apart and hands its parts to the slice form.
#![tactic(auto)]

ghost use Rattle.std.specs.Prelude.{◌≡◌, length};
ghost use Rattle.grid.specs.Block.{drawn};
ghost use Rattle.place.specs.Outcome.{after};
ghost use Rattle.terms.specs.Refusal.{answered};
ghost use Rattle.served.specs.Served.{block_refusal};
ghost use Rattle.hpel.specs.Lookup.{ref_at, qpel_at};
ghost use Rattle.hpel.specs.Answer.{at_answer, pair_answer};
ghost use Rattle.hpel.specs.Reading.{contents, ref_tail, qpel_tails, hpel_sample};

use hpel::{Pair, Spot};
use terms::block::Block;
use terms::refusal::Refusal;

// f, h, v and c of a picture of cw by ch samples, with pad samples around it.
#[derive(Clone, Copy)]
pub struct HpelPlanes<'a> {
    pub f: &'a [u8],
    pub h: &'a [u8],
    pub v: &'a [u8],
    pub c: &'a [u8],
    pub cw: usize,
    pub ch: usize,
    pub pad: usize,
}

pub fn hpel_ref_at<'a>(p: HpelPlanes<'a>, block: Block) -> Result<Spot, Refusal>
    ensures { at_answer result ≡ ref_at (length p.entry.f.now) (length p.entry.h.now) (length p.entry.v.now) (length p.entry.c.now) p.entry.cw p.entry.ch p.entry.pad block.x block.y block.w block.h block.mv.x block.mv.y }
{
    hpel::hpel_ref_at(p.f, p.h, p.v, p.c, p.cw, p.ch, p.pad, block)
}

pub fn hpel_qpel_refs_at<'a>(p: HpelPlanes<'a>, block: Block) -> Result<Pair, Refusal>
    ensures { pair_answer result ≡ qpel_at (length p.entry.f.now) (length p.entry.h.now) (length p.entry.v.now) (length p.entry.c.now) p.entry.cw p.entry.ch p.entry.pad block.x block.y block.w block.h block.mv.x block.mv.y }
{
    hpel::hpel_qpel_refs_at(p.f, p.h, p.v, p.c, p.cw, p.ch, p.pad, block)
}

pub fn hpel_ref<'a>(p: HpelPlanes<'a>, block: Block) -> &'a [u8]
    ensures { result.now ≡ ref_tail p.entry.f.now p.entry.h.now p.entry.v.now p.entry.c.now p.entry.cw p.entry.ch p.entry.pad block.x block.y block.w block.h block.mv.x block.mv.y }
{
    hpel::hpel_ref(p.f, p.h, p.v, p.c, p.cw, p.ch, p.pad, block)
}

pub fn hpel_qpel_refs<'a>(p: HpelPlanes<'a>, block: Block) -> [&'a [u8]; 2]
    ensures { contents result ≡ qpel_tails p.entry.f.now p.entry.h.now p.entry.v.now p.entry.c.now p.entry.cw p.entry.ch p.entry.pad block.x block.y block.w block.h block.mv.x block.mv.y }
{
    hpel::hpel_qpel_refs(p.f, p.h, p.v, p.c, p.cw, p.ch, p.pad, block)
}

pub fn hpel_block<'a>(p: HpelPlanes<'a>, block: Block, out: &mut [u8]) -> Result<(), Refusal>
    ensures { (answered result ≡ block_refusal (length p.entry.f.now) (length p.entry.h.now) (length p.entry.v.now) (length p.entry.c.now) p.entry.cw p.entry.ch p.entry.pad block.x block.y block.w block.h block.mv.x block.mv.y (length out.old))
        × (out.new ≡ after (answered result) out.old (drawn out.old block.w block.h (hpel_sample p.entry.f.now p.entry.h.now p.entry.v.now p.entry.c.now p.entry.cw p.entry.pad block.x block.y block.mv.x block.mv.y))) }
{
    hpel::hpel_block(p.f, p.h, p.v, p.c, p.cw, p.ch, p.pad, block, out)
}
