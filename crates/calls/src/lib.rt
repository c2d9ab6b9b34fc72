// The library's calls on the numbers of a line. A source is named by its place among the pictures' bytes and by how many are lent.
#![tactic(auto)]

ghost use Rattle.std.specs.Prelude.{◌<◌, ◌≤◌, ◌≡◌, length};

pub mod call;
mod half;

use call::Call;
use edge::Edges;
use lists::Numbers;
use terms::block::{Block, Mv};
use terms::plane::{Geometry, Plane};
use terms::refusal::{Refusal, number};
use vectors::{MvAnswer, MvNeighbor, Neighbors};

// Room for the largest output that the list has, a plane of 257 by 257.
pub const ROOM: usize = 66560;

// What a call may write to, of any length; most write to the first alone.
#[derive(Drop)]
pub struct Outputs<'a> {
    pub o: &'a mut [u8],
    pub p: &'a mut [u8],
    pub q: &'a mut [u8],
    pub r: &'a mut [u8],
}

// What a call is made with: the numbers of its line, whose arguments begin at place 2, and the bytes of all pictures.
#[derive(Clone, Copy)]
pub struct Request<'a> {
    pub numbers: &'a Numbers,
    pub pictures: &'a [u8],
}

impl<'a> Request<'a> {
    // The source at argument k: its place among the pictures' bytes, and how many are lent.
    fn source(&self, k: usize) -> &'a [u8]
        requires { k < 23 }
    {
        lists::cut(self.pictures, self.numbers[k], self.numbers[k + 1])
    }

    // The plane at argument k: its source, and its sides.
    fn plane(&self, k: usize) -> Plane<'a>
        requires { k < 21 }
    {
        Plane {
            samples: self.source(k),
            w: self.numbers[k + 2],
            h: self.numbers[k + 3],
        }
    }

    // The bytes of an output that argument k lends, or all where there are fewer.
    fn lent<'o>(&self, k: usize, out: &'o mut [u8]) -> &'o mut [u8]
        requires { k < 24 }
    {
        let n = self.numbers[k];
        if n <= out.len() { &mut out[..n] } else { out }
    }

    fn signed(&self, k: usize) -> i32
        requires { k < 24 }
    {
        signed_of(self.numbers[k])
    }

    fn vector(&self, k: usize) -> Mv
        requires { k < 23 }
    {
        Mv {
            x: self.signed(k),
            y: self.signed(k + 1),
        }
    }

    fn block(&self, k: usize) -> Block
        requires { k < 19 }
    {
        Block {
            x: self.numbers[k],
            y: self.numbers[k + 1],
            w: self.numbers[k + 2],
            h: self.numbers[k + 3],
            mv: self.vector(k + 4),
        }
    }

    fn geometry(&self, k: usize) -> Geometry
        requires { k < 21 }
    {
        Geometry {
            stride: self.numbers[k],
            pad: self.numbers[k + 1],
            pw: self.numbers[k + 2],
            ph: self.numbers[k + 3],
        }
    }

    fn neighbour(&self, k: usize) -> MvNeighbor
        requires { k < 21 }
    {
        MvNeighbor {
            available: self.numbers[k] == 1,
            mv: self.vector(k + 1),
            ref_idx: self.signed(k + 3),
        }
    }

    fn neighbors(&self) -> Neighbors {
        Neighbors {
            a: self.neighbour(2),
            b: self.neighbour(6),
            c: self.neighbour(10),
        }
    }
}

// The last 32 bits, as a number with a sign.
fn signed_of(n: usize) -> i32 {
    ((n % 4294967296) as u32).cast_signed()
}

// A number below 0 is kept as 2^64 less, as the list's are.
fn number_of(v: i32) -> usize {
    (v as isize).cast_unsigned()
}

fn low_byte(n: usize) -> u8 {
    (n % 256) as u8
}

// An answer's numbers, with zeros behind them.
fn answered(first: &[usize]) -> Numbers
    requires { length first.now ≤ 24 }
{
    let mut numbers = [0usize; lists::MOST];
    numbers[..first.len()].copy_from_slice(first);
    numbers
}

// An answer of one number.
fn only(answer: Result<(), Refusal>) -> Numbers {
    answered(&[number(answer) as usize])
}

fn vector_answer(answer: Result<Mv, Refusal>) -> Numbers {
    let m = MvAnswer::from(answer);
    answered(&[m.refusal as usize, number_of(m.mv.x), number_of(m.mv.y)])
}

fn median3(a: Request) -> Numbers {
    answered(&[number_of(vectors::median3(a.signed(2), a.signed(3), a.signed(4)))])
}

fn predict_mv(a: Request) -> Numbers {
    vector_answer(vectors::predict_mv(a.neighbors(), a.signed(14)))
}

fn predict_partition_mv(a: Request) -> Numbers {
    let mode = low_byte(a.numbers[15]);
    let m = vectors::predict_partition_mv(mode, a.numbers[16], a.neighbors(), a.signed(14));
    vector_answer(m)
}

fn inter_partitions(a: Request) -> Numbers {
    let p = vectors::inter_partitions(low_byte(a.numbers[2]));
    let [b, c, d, e] = p.parts;
    answered(&[
        p.count, b.x, b.y, b.w, b.h, c.x, c.y, c.w, c.h, d.x, d.y, d.w, d.h, e.x, e.y, e.w, e.h,
    ])
}

fn edge_count(a: Request) -> Numbers {
    let e = Edges::from(edge::edge_count(a.numbers[2], a.numbers[3], a.block(4)));
    answered(&[e.refusal as usize, e.count as usize])
}

fn mc_luma(a: Request, out: &mut [u8]) -> Result<(), Refusal> {
    luma::mc_luma(a.plane(2), a.block(6), a.lent(12, out))
}

fn mc_chroma(a: Request, out: &mut [u8]) -> Result<(), Refusal> {
    chroma::mc_chroma(a.plane(2), a.block(6), a.lent(12, out))
}

fn avg_row_into(a: Request, out: &mut [u8]) -> Result<(), Refusal> {
    luma::avg_row_into(a.source(2), a.source(4), a.numbers[6], a.lent(7, out))
}

// The picture is copied to the output, which is changed in place; one that has no room stays as it is.
fn expand_plane(a: Request, out: &mut [u8]) -> Result<(), Refusal> {
    let picture = a.source(2);
    let buf = a.lent(3, out);
    if picture.len() <= buf.len() {
        buf[..picture.len()].copy_from_slice(picture);
    }
    margins::expand_plane(buf, a.geometry(4))
}

fn mc_luma_padded(a: Request, out: &mut [u8]) -> Result<(), Refusal> {
    padded::mc_luma_padded(a.source(2), a.geometry(4), a.block(8), a.lent(14, out))
}

fn mc_luma_padded_pre(a: Request, out: &mut [u8]) -> Result<(), Refusal> {
    let mut tile = [0u8; 441];
    let mut p = [0u8; 256];
    let mut q = [0u8; 256];
    lent::luma_arrays(
        &mut tile,
        &mut p,
        &mut q,
        a.source(2),
        a.geometry(4),
        a.block(8),
        a.lent(14, out),
    )
}

fn mc_chroma_padded(a: Request, out: &mut [u8]) -> Result<(), Refusal> {
    padded::mc_chroma_padded(a.source(2), a.geometry(4), a.block(8), a.lent(14, out))
}

fn mc_chroma_padded_pair(a: Request, out: &mut Outputs) -> Result<(), Refusal> {
    padded::mc_chroma_padded_pair(
        a.source(2),
        a.source(15),
        a.geometry(4),
        a.block(8),
        a.lent(14, out.o),
        a.lent(17, out.p),
    )
}

fn pad_plane(a: Request, out: &mut [u8]) -> Result<(), Refusal> {
    planes::pad_plane(a.plane(2), a.numbers[6], a.lent(7, out))
}

fn build_hpel_planes(a: Request, out: &mut Outputs) -> Result<(), Refusal> {
    planes::build_hpel_planes(
        a.plane(2),
        a.numbers[6],
        a.lent(7, out.o),
        a.lent(8, out.p),
        a.lent(9, out.q),
        a.lent(10, out.r),
    )
}

// What the library answers to a line.
pub fn answer(call: Call, a: Request, out: &mut Outputs) -> Numbers {
    match call {
        Call::Median3 => median3(a),
        Call::PredictMv => predict_mv(a),
        Call::PredictPartitionMv => predict_partition_mv(a),
        Call::InterPartitions => inter_partitions(a),
        Call::EdgeCount => edge_count(a),
        Call::McLuma => only(mc_luma(a, out.o)),
        Call::McChroma => only(mc_chroma(a, out.o)),
        Call::AvgRowInto => only(avg_row_into(a, out.o)),
        Call::ExpandPlane => only(expand_plane(a, out.o)),
        Call::McLumaPadded => only(mc_luma_padded(a, out.o)),
        Call::McLumaPaddedPre => only(mc_luma_padded_pre(a, out.o)),
        Call::McChromaPadded => only(mc_chroma_padded(a, out.o)),
        Call::McChromaPaddedPair => only(mc_chroma_padded_pair(a, out)),
        Call::PadPlane => only(pad_plane(a, out.o)),
        Call::BuildHpelPlanes => only(build_hpel_planes(a, out)),
        Call::HpelRefAt => half::hpel_ref_at(a),
        Call::HpelQpelRefsAt => half::hpel_qpel_refs_at(a),
        Call::HpelRef => half::hpel_ref(a),
        Call::HpelQpelRefs => half::hpel_qpel_refs(a),
        Call::HpelBlock => only(half::hpel_block(a, out.o)),
    }
}
