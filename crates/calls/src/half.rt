// The calls on half-sample planes. A view is answered by its length and its first four bytes.
use crate::{Request, answered};
use hpel::{HpelAt, HpelPair};
use lists::Numbers;
use terms::refusal::Refusal;

// The four planes of a picture of cw by ch samples, with pad samples around it.
#[derive(Clone, Copy)]
struct Planes<'a> {
    f: &'a [u8],
    h: &'a [u8],
    v: &'a [u8],
    c: &'a [u8],
    cw: usize,
    ch: usize,
    pad: usize,
}

impl<'a> Planes<'a> {
    fn of(a: Request<'a>) -> Planes<'a> {
        Planes {
            f: a.source(2),
            h: a.source(13),
            v: a.source(15),
            c: a.source(17),
            cw: a.numbers[4],
            ch: a.numbers[5],
            pad: a.numbers[6],
        }
    }
}

pub fn hpel_ref_at(a: Request) -> Numbers {
    let p = Planes::of(a);
    let spot = hpel::hpel_ref_at(p.f, p.h, p.v, p.c, p.cw, p.ch, p.pad, a.block(7));
    let k = HpelAt::from(spot);
    answered(&[k.refusal as usize, k.plane as usize, k.offset, k.stride])
}

pub fn hpel_qpel_refs_at(a: Request) -> Numbers {
    let p = Planes::of(a);
    let pair = hpel::hpel_qpel_refs_at(p.f, p.h, p.v, p.c, p.cw, p.ch, p.pad, a.block(7));
    let k = HpelPair::from(pair);
    answered(&[
        k.refusal as usize,
        k.plane_a as usize,
        k.plane_b as usize,
        k.offset_a,
        k.offset_b,
        k.stride,
    ])
}

// A view's length and its first four bytes, with zeros for those past its end.
fn beginning(view: &[u8]) -> [usize; 5] {
    let mut got = [view.len(), 0, 0, 0, 0];
    for (number, byte) in got[1..].iter_mut().zip(view) {
        *number = usize::from(*byte);
    }
    got
}

pub fn hpel_ref(a: Request) -> Numbers {
    let p = Planes::of(a);
    let view = hpel::hpel_ref(p.f, p.h, p.v, p.c, p.cw, p.ch, p.pad, a.block(7));
    answered(&beginning(view))
}

pub fn hpel_qpel_refs(a: Request) -> Numbers {
    let p = Planes::of(a);
    let views = hpel::hpel_qpel_refs(p.f, p.h, p.v, p.c, p.cw, p.ch, p.pad, a.block(7));
    let [n, i, j, k, l] = beginning(views[0]);
    let [o, q, r, s, t] = beginning(views[1]);
    answered(&[n, i, j, k, l, o, q, r, s, t])
}

pub fn hpel_block(a: Request, out: &mut [u8]) -> Result<(), Refusal> {
    let p = Planes::of(a);
    hpel::hpel_block(
        p.f,
        p.h,
        p.v,
        p.c,
        p.cw,
        p.ch,
        p.pad,
        a.block(7),
        a.lent(19, out),
    )
}
