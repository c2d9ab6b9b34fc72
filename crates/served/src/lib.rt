// Which blocks the half-sample planes serve: document 01's tests, in the order of the numbers.
#![tactic(auto)]

ghost use Rattle.std.specs.Prelude.{◌≡◌, ◌+◌, ◌-◌, ◌*◌, ◌^◌, ◌<◌, ◌≤◌, ◌++◌, not};
ghost use Rattle.terms.specs.Refusal.{answered};
ghost use Rattle.place.specs.Refusal.{lowest};
ghost use Rattle.place.specs.Place.{luma_place, phase};
ghost use Rattle.planes.specs.Planes.{wide};
ghost use Rattle.served.specs.Served.{at_full, at_quarter, bad_width, lent_tests, place_tests, ref_refusal, qpel_refusal, block_refusal};

use place::{coords, limits};
use std::num;
use terms::block::Block;
use terms::refusal::Refusal;

// What is lent: the lengths of the planes f, h, v and c, each of which must suffice, read or not, the picture's sides, and the pad around it.
#[derive(Clone, Copy, Debug, PartialEq, Eq)]
pub struct Lent {
    pub f: usize,
    pub h: usize,
    pub v: usize,
    pub c: usize,
    pub cw: usize,
    pub ch: usize,
    pub pad: usize,
}

pub fn at_full(fx: usize, fy: usize) -> bool
    ensures { result ≡ at_full fx fy }
{
    (fx == 0) & (fy == 0)
}

pub fn at_quarter(fx: usize, fy: usize) -> bool
    ensures { result ≡ at_quarter fx fy }
{
    (fx % 2 == 1) | (fy % 2 == 1)
}

// The widths of a quarter phase: 4, 8 and 16, as bits of a word. In 32 bits the call is three instructions shorter.
const WIDTHS: u32 = 65808;

fn bad_width(bw: usize) -> bool
    requires { bw ≤ 16 }
    ensures { result ≡ bad_width bw }
{
    (WIDTHS >> (bw as u32)) % 2 == 0
}

// 1 to 4.
fn check_lent(lent: Lent, block: Block) -> Result<(), Refusal>
    ensures { answered result ≡ lowest (lent_tests lent.f lent.h lent.v lent.c lent.cw lent.ch lent.pad block.x block.y block.w block.h) }
{
    if limits::bad_sides(lent.cw, lent.ch) {
        return Err(Refusal::BadSide);
    }
    if limits::MAX_PAD < lent.pad {
        return Err(Refusal::BadSide);
    }
    let need = (lent.cw + 2 * lent.pad) * (lent.ch + 2 * lent.pad);
    let short = (lent.f < need) | (lent.h < need) | (lent.v < need) | (lent.c < need);
    if short {
        return Err(Refusal::ShortSource);
    }
    if limits::bad_block(limits::LUMA, block.w, block.h) {
        return Err(Refusal::BadBlock);
    }
    if limits::bad_position(block.x, block.y) {
        return Err(Refusal::BadPosition);
    }
    Ok(())
}

// 6: the phase, then left and right, above and below.
fn check_place(unserved: bool, lent: Lent, block: Block) -> Result<(), Refusal>
    requires { (lent.cw ≤ 8192) × (lent.ch ≤ 8192) × (lent.pad ≤ 128) × (block.x ≤ 65535) × (block.y ≤ 65535) × (block.w ≤ 16) × (block.h ≤ 16) }
    ensures { answered result ≡ lowest (place_tests unserved (wide lent.cw lent.pad) (wide lent.ch lent.pad) block.w block.h (luma_place block.x block.mv.x lent.pad) (luma_place block.y block.mv.y lent.pad)) }
{
    if unserved {
        return Err(Refusal::NotServed);
    }
    let base = coords::base::<4>();
    let x = num::wrapping_sub_usize(coords::at::<4>(block.x, block.mv.x) + lent.pad, base);
    let y = num::wrapping_sub_usize(coords::at::<4>(block.y, block.mv.y) + lent.pad, base);
    // n samples have room for n - b blocks of b samples and one to spare, at full and half phase too. A place before the plane wraps, and lies beyond every room.
    let across = (lent.cw + 2 * lent.pad).saturating_sub(block.w);
    if across <= x {
        return Err(Refusal::NotServed);
    }
    let down = (lent.ch + 2 * lent.pad).saturating_sub(block.h);
    if down <= y {
        return Err(Refusal::NotServed);
    }
    Ok(())
}

fn quarter(block: Block) -> bool
    ensures { result ≡ at_quarter (phase block.mv.x 4) (phase block.mv.y 4) }
{
    at_quarter(
        coords::phase::<4>(block.mv.x),
        coords::phase::<4>(block.mv.y),
    )
}

// Of `hpel_ref`: a full or half phase. This and the next each say one refusal of the paper; their body is one.
pub fn check_ref(lent: Lent, block: Block) -> Result<(), Refusal>
    ensures { answered result ≡ ref_refusal lent.f lent.h lent.v lent.c lent.cw lent.ch lent.pad block.x block.y block.w block.h block.mv.x block.mv.y }
{
    check_lookup(lent, block, quarter(block))
}

// Of `hpel_qpel_refs`: a quarter phase.
pub fn check_qpel(lent: Lent, block: Block) -> Result<(), Refusal>
    ensures { answered result ≡ qpel_refusal lent.f lent.h lent.v lent.c lent.cw lent.ch lent.pad block.x block.y block.w block.h block.mv.x block.mv.y }
{
    check_lookup(lent, block, !quarter(block))
}

fn check_lookup(lent: Lent, block: Block, unserved: bool) -> Result<(), Refusal>
    ensures { answered result ≡ lowest (lent_tests lent.f lent.h lent.v lent.c lent.cw lent.ch lent.pad block.x block.y block.w block.h
        ++ place_tests unserved (wide lent.cw lent.pad) (wide lent.ch lent.pad) block.w block.h (luma_place block.x block.mv.x lent.pad) (luma_place block.y block.mv.y lent.pad)) }
{
    check_lent(lent, block)?;
    check_place(unserved, lent, block)
}

// Of `hpel_block`: any phase but (0, 0), and widths 4, 8 and 16 alone at a quarter phase.
pub fn check_block(lent: Lent, block: Block, out: usize) -> Result<(), Refusal>
    ensures { answered result ≡ block_refusal lent.f lent.h lent.v lent.c lent.cw lent.ch lent.pad block.x block.y block.w block.h block.mv.x block.mv.y out }
{
    check_lent(lent, block)?;
    if out < block.w * block.h {
        return Err(Refusal::ShortOutput);
    }
    let fx = coords::phase::<4>(block.mv.x);
    let fy = coords::phase::<4>(block.mv.y);
    check_place(at_full(fx, fy), lent, block)?;
    if at_quarter(fx, fy) & bad_width(block.w) {
        return Err(Refusal::NotServed);
    }
    Ok(())
}
