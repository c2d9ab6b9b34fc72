// Document 01's cases as a run: each line is a case, the answer's number (0 done) and what the call gave. The file stdout has what the document says.
#![tactic(auto)]

use margins::Geometry;
use terms::block::{Block, Mv};
use terms::plane::Plane;
use terms::refusal::{Refusal, number};
use vectors::{MvNeighbor, Neighbors};

// A case in a line: its name, the answer's number (0 done), and the value. One that does not go out is let go, and the run goes on.
fn line(rt: &impl Print, name: &str, answer: Result<(), Refusal>, value: u32) {
    let _ = println!(rt; "{name} {} {value:03}", number(answer));
}

// One sample at (x, y), moved by (mvx, mvy).
fn sample(x: usize, y: usize, mvx: i32, mvy: i32) -> Block {
    Block {
        x,
        y,
        w: 1,
        h: 1,
        mv: Mv { x: mvx, y: mvy },
    }
}

// The 16 by 16 block at (0, 0), moved by (mvx, mvy).
fn macroblock(mvx: i32, mvy: i32) -> Block {
    Block {
        x: 0,
        y: 0,
        w: 16,
        h: 16,
        mv: Mv { x: mvx, y: mvy },
    }
}

// A picture of one row.
fn row(samples: &[u8]) -> Plane<'_> {
    Plane {
        samples,
        w: samples.len(),
        h: 1,
    }
}

// One luma sample.
fn luma(rt: &impl Print, name: &str, pic: Plane, b: Block) {
    let mut out = [0u8; 1];
    let answer = luma::mc_luma(pic, b, &mut out);
    line(rt, name, answer, u32::from(out[0]));
}

// One chroma sample of the picture 0 64 over 128 192.
fn chroma(rt: &impl Print, name: &str, mvx: i32, mvy: i32) {
    let mut out = [0u8; 1];
    let pic = Plane {
        samples: &[0, 64, 128, 192],
        w: 2,
        h: 2,
    };
    let answer = chroma::mc_chroma(pic, sample(0, 0, mvx, mvy), &mut out);
    line(rt, name, answer, u32::from(out[0]));
}

// The same sample at every phase.
fn every_phase(rt: &impl Print, v: u8) {
    let pic = [v];
    let pic = row(&pic);
    for mvy in 0..4i32 {
        for mvx in 0..4i32 {
            luma(
                rt,
                "1x1 picture, phase by rows",
                pic,
                sample(0, 0, mvx, mvy),
            );
        }
    }
}

fn edges(rt: &impl Print, name: &str, mvx: i32, mvy: i32) {
    let e = edge::edge_count(16, 16, macroblock(mvx, mvy));
    line(rt, name, e.map(|_| ()), e.unwrap_or(0));
}

// A picture of 16 by 16 with margins of 32.
const WIDE: Geometry = Geometry {
    stride: 80,
    pad: 32,
    pw: 16,
    ph: 16,
};

// The picture black, and its margins at 255, as before they are filled.
fn black() -> [u8; 6400] {
    let mut buf = [255u8; 6400];
    for row in buf.chunks_exact_mut(80).skip(32).take(16) {
        row[32..48].fill(0);
    }
    buf
}

// The first and the last byte of the 16 by 16 block at column ix, of margins that were never filled.
fn unfilled(rt: &impl Print, name: &str, ix: i32) {
    let buf = black();
    let mut out = [0u8; 256];
    let answer = padded::mc_luma_padded(&buf, WIDE, macroblock(ix, 0), &mut out);
    line(rt, name, answer, u32::from(out[0]));
    line(rt, name, answer, u32::from(out[255]));
}

// The same once the margins are filled.
fn filled(rt: &impl Print, name: &str, ix: i32) {
    let mut buf = black();
    let done = margins::expand_plane(&mut buf, WIDE);
    let mut out = [0u8; 256];
    let answer = padded::mc_luma_padded(&buf, WIDE, macroblock(ix, 0), &mut out);
    line(rt, name, done, u32::from(out[0]));
    line(rt, name, answer, u32::from(out[255]));
}

// The last byte of the 16 by 16 block of a picture of 77, by way of its half-sample planes with 32 samples around them.
fn from_planes(rt: &impl Print, name: &str, mvx: i32) {
    let pic = Plane {
        samples: &[77u8; 256],
        w: 16,
        h: 16,
    };
    let mut f = [0u8; 6400];
    let mut h = [0u8; 6400];
    let mut v = [0u8; 6400];
    let mut c = [0u8; 6400];
    let built = planes::build_hpel_planes(pic, 32, &mut f, &mut h, &mut v, &mut c);
    let mut out = [0u8; 256];
    let answer = hpel::hpel_block(&f, &h, &v, &c, 16, 16, 32, macroblock(mvx, 0), &mut out);
    line(rt, name, built, u32::from(h[0]));
    line(rt, name, answer, u32::from(out[255]));
}

fn neighbour(available: bool, x: i32, y: i32, ref_idx: i32) -> MvNeighbor {
    MvNeighbor {
        available,
        mv: Mv { x, y },
        ref_idx,
    }
}

// A vector whose components are known to be 0..999.
fn vector(rt: &impl Print, name: &str, a: MvNeighbor, b: MvNeighbor, c: MvNeighbor, cur_ref: i32) {
    let m = vectors::predict_mv(Neighbors { a, b, c }, cur_ref);
    let mv = m.unwrap_or(Mv { x: 0, y: 0 });
    line(rt, name, m.map(|_| ()), mv.x.cast_unsigned());
    line(rt, name, m.map(|_| ()), mv.y.cast_unsigned());
}

// The worked row, and what the taps make of steps.
fn worked_rows(rt: &impl Print) {
    let r = row(&[10, 20, 30, 40, 50, 60]);
    luma(rt, "R at 2 by (2,0)", r, sample(2, 0, 2, 0));
    luma(rt, "R at 2 by (1,0)", r, sample(2, 0, 1, 0));
    luma(rt, "R at 2 by (3,0)", r, sample(2, 0, 3, 0));
    luma(
        rt,
        "R at 2 by (-1,0), not toward zero",
        r,
        sample(2, 0, -1, 0),
    );
    luma(rt, "R at 0 by (2,0)", r, sample(0, 0, 2, 0));
    luma(rt, "R at 5 by (2,0)", r, sample(5, 0, 2, 0));
    luma(
        rt,
        "two high samples by (2,0)",
        row(&[0, 0, 255, 255, 0, 0]),
        sample(2, 0, 2, 0),
    );
    luma(
        rt,
        "two low samples by (2,0)",
        row(&[0, 255, 0, 0, 255, 0]),
        sample(2, 0, 2, 0),
    );
}

// What rounds up, and what is not rounded between the passes.
fn rise_and_dot(rt: &impl Print) {
    let rise = row(&[0, 0, 0, 1, 1, 1]);
    luma(rt, "a rise by (2,0)", rise, sample(2, 0, 2, 0));
    luma(rt, "a rise by (1,0)", rise, sample(2, 0, 1, 0));
    let mut dot = [0u8; 36];
    dot[14] = 1;
    let dot = Plane {
        samples: &dot,
        w: 6,
        h: 6,
    };
    luma(rt, "a dot by (2,0)", dot, sample(2, 2, 2, 0));
    luma(
        rt,
        "a dot by (2,2), first pass unrounded",
        dot,
        sample(2, 2, 2, 2),
    );
    luma(rt, "a dot by (2,1)", dot, sample(2, 2, 2, 1));
}

// Chroma, and blocks that hang over.
fn places(rt: &impl Print) {
    chroma(rt, "chroma by (4,4)", 4, 4);
    chroma(rt, "chroma by (1,0)", 1, 0);
    edges(rt, "edge count by (-4,0)", -4, 0);
    edges(rt, "edge count by (0,0)", 0, 0);
}

// Where margins are read, and where the picture is clamped.
fn margins_read(rt: &impl Print) {
    unfilled(rt, "margins at 255, column -31: clamped", -124);
    unfilled(rt, "margins at 255, column -30: in place", -120);
    unfilled(rt, "margins at 255, column 29: in place", 116);
    unfilled(rt, "margins at 255, column 30: clamped", 120);
    filled(rt, "margins filled, column -31", -124);
    filled(rt, "margins filled, column -30", -120);
    filled(rt, "margins filled, column 29", 116);
    filled(rt, "margins filled, column 30", 120);
}

// Which blocks the half-sample planes serve.
fn half_planes(rt: &impl Print) {
    from_planes(rt, "half-sample planes by (126,0): served", 126);
    from_planes(rt, "half-sample planes by (-126,0): served", -126);
    from_planes(rt, "half-sample planes by (130,0): not served", 130);
    from_planes(rt, "half-sample planes by (-130,0): not served", -130);
}

// One refusal of each kind that a small picture can have.
fn refusals(rt: &impl Print) {
    let r = row(&[10, 20, 30, 40, 50, 60]);
    luma(rt, "side 0", Plane { w: 0, ..r }, sample(0, 0, 0, 0));
    luma(
        rt,
        "source one short",
        Plane { w: 7, ..r },
        sample(0, 0, 0, 0),
    );
    luma(rt, "position 65536", r, sample(65536, 0, 0, 0));
}

// The vector of a block from its neighbours.
fn predicted_vectors(rt: &impl Print) {
    let a = neighbour(true, 4, 8, 0);
    let b = neighbour(true, 0, 0, 1);
    let c = neighbour(true, 12, -4, 1);
    vector(rt, "current 0", a, b, c, 0);
    vector(rt, "current 1", a, b, c, 1);
    vector(rt, "current 32", a, b, c, 32);
    // An intra B is available, so nothing is taken from A.
    let intra = neighbour(true, 0, 0, -1);
    let absent = neighbour(false, 0, 0, -1);
    vector(rt, "intra B, C absent, current 1", a, intra, absent, 1);
    vector(rt, "B and C absent, current 1", a, absent, absent, 1);
}

fn main(rt: HostRuntime) {
    worked_rows(&rt);
    rise_and_dot(&rt);
    every_phase(&rt, 77);
    places(&rt);
    margins_read(&rt);
    half_planes(&rt);
    refusals(&rt);
    predicted_vectors(&rt);
}
