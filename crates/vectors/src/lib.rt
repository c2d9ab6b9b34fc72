// Vector prediction, Rec. ITU-T H.264, clause 8.4.1.3. Choosing the neighbours A, B and C is the caller's work.
#![tactic(auto)]

ghost use Rattle.std.specs.Prelude.{◌≡◌, not, ◌&&◌};
ghost use Rattle.vectors.specs.Median.{median};
ghost use Rattle.vectors.specs.Predict.{resolved, median_mv, chosen_mv, predicted, bad_reference, predict_answer, mv_answer};
ghost use Rattle.vectors.specs.Partition.{side_of, served, partition_answer, partitions_of, mode_of, mode_number, side_number, at_side};

pub use terms::block::Mv;
use terms::refusal::Refusal;

// The wrapping sum of the three less the smallest and the largest: the sum may pass the ends of 32 bits and comes back.
pub fn median3(a: i32, b: i32, c: i32) -> i32
    ensures { result ≡ median a b c }
{
    let lo = a.min(b.min(c));
    let hi = a.max(b.max(c));
    let sum = a.wrapping_add(b).wrapping_add(c);
    sum.wrapping_sub(lo).wrapping_sub(hi)
}

#[repr(C)]
#[derive(Clone, Copy, Debug, PartialEq, Eq)]
pub struct MvNeighbor {
    pub available: bool,
    pub mv: Mv,
    pub ref_idx: i32,
}

// What a neighbour counts as.
#[derive(Clone, Copy, Debug, PartialEq, Eq)]
pub struct Resolved {
    pub mv: Mv,
    pub ref_idx: i32,
}

const ZERO: Mv = Mv { x: 0, y: 0 };

impl MvNeighbor {
    // Unavailable, or with a negative reference: vector (0,0), reference -1.
    #[tactic(auto, unfolding(crate::specs::Predict::resolved))]
    fn resolved(self) -> Resolved
        ensures { result ≡ resolved self }
    {
        if self.available && 0 <= self.ref_idx {
            return Resolved {
                mv: self.mv,
                ref_idx: self.ref_idx,
            };
        }
        Resolved {
            mv: ZERO,
            ref_idx: -1,
        }
    }

    #[tactic(auto, unfolding(crate::specs::Partition::served))]
    fn serves(self, cur_ref: i32) -> bool
        ensures { result ≡ served self cur_ref }
    {
        self.available && self.ref_idx == cur_ref
    }
}

#[tactic(auto, unfolding(crate::specs::Predict::median_mv))]
fn median_mv(a: Mv, b: Mv, c: Mv) -> Mv
    ensures { result ≡ median_mv a b c }
{
    Mv {
        x: median3(a.x, b.x, c.x),
        y: median3(a.y, b.y, c.y),
    }
}

// The vector of the only one whose reference is the current one, else the median.
#[tactic(auto, unfolding(crate::specs::Predict::chosen_mv))]
fn chosen(a: Resolved, b: Resolved, c: Resolved, cur_ref: i32) -> Mv
    ensures { result ≡ chosen_mv a b c cur_ref }
{
    let p = a.ref_idx == cur_ref;
    let q = b.ref_idx == cur_ref;
    let s = c.ref_idx == cur_ref;
    match (p, q, s) {
        (true, false, false) => a.mv,
        (false, true, false) => b.mv,
        (false, false, true) => c.mv,
        _ => median_mv(a.mv, b.mv, c.mv),
    }
}

fn alone(p: bool, q: bool, s: bool) -> bool
    ensures { result ≡ (p && (not q && not s)) }
{
    matches!((p, q, s), (true, false, false))
}

// The neighbours A, B and C of a block.
#[derive(Clone, Copy, Debug, PartialEq, Eq)]
pub struct Neighbors {
    pub a: MvNeighbor,
    pub b: MvNeighbor,
    pub c: MvNeighbor,
}

#[derive(Clone, Copy, Debug, PartialEq, Eq)]
enum Side {
    A,
    B,
    C,
}

impl Neighbors {
    #[tactic(auto, unfolding(crate::specs::Predict::predicted))]
    fn predicted(self, cur_ref: i32) -> Mv
        ensures { result ≡ predicted self.a self.b self.c cur_ref }
    {
        let a = self.a.resolved();
        if alone(self.a.available, self.b.available, self.c.available) {
            return chosen(a, a, a, cur_ref);
        }
        chosen(a, self.b.resolved(), self.c.resolved(), cur_ref)
    }

    fn at(self, side: Side) -> MvNeighbor
        ensures { result ≡ at_side side self.a self.b self.c }
    {
        match side {
            Side::A => self.a,
            Side::B => self.b,
            Side::C => self.c,
        }
    }
}

// As C has an answer: the refusal's number, or 0 and the vector.
#[repr(C)]
#[derive(Clone, Copy, Debug, PartialEq, Eq)]
pub struct MvAnswer {
    pub refusal: u32,
    pub mv: Mv,
}

impl From<Result<Mv, Refusal>> for MvAnswer {
    ghost from_gives = { λ r m. m ≡ mv_answer r };

    fn from(answer: Result<Mv, Refusal>) -> MvAnswer {
        match answer {
            Ok(mv) => MvAnswer { refusal: 0, mv },
            Err(refusal) => MvAnswer {
                refusal: refusal.number(),
                mv: ZERO,
            },
        }
    }
}

#[tactic(auto, unfolding(crate::specs::Predict::bad_reference))]
fn bad_reference(cur_ref: i32) -> bool
    ensures { result ≡ bad_reference cur_ref }
{
    !(0..=31).contains(&cur_ref)
}

#[tactic(auto, unfolding(crate::specs::Predict::predict_answer))]
pub fn predict_mv(near: Neighbors, cur_ref: i32) -> Result<Mv, Refusal>
    ensures { mv_answer result ≡ predict_answer near.a near.b near.c cur_ref }
{
    if bad_reference(cur_ref) {
        return Err(Refusal::BadReference);
    }
    Ok(near.predicted(cur_ref))
}

// How a macroblock is divided.
#[derive(Clone, Copy, Debug, PartialEq, Eq)]
enum Mode {
    Whole,
    Rows,
    Columns,
    Quarters,
}

// The public calls take a mode by its number, and serve every number: what is no other mode is the whole.
impl From<u8> for Mode {
    ghost from_gives = { λ n m. m ≡ mode_of n };

    fn from(n: u8) -> Mode {
        match n {
            1 => Mode::Rows,
            2 => Mode::Columns,
            3 => Mode::Quarters,
            _ => Mode::Whole,
        }
    }
}

impl Mode {
    // Which neighbour a part takes directly.
    #[tactic(auto, unfolding(crate::specs::Partition::side_of))]
    fn side(self, part: usize) -> Option<Side>
        ensures { side_number result ≡ side_of (mode_number self) part }
    {
        match (self, part) {
            (Mode::Rows, 0) => Some(Side::B),
            (Mode::Rows, 1) => Some(Side::A),
            (Mode::Columns, 0) => Some(Side::A),
            (Mode::Columns, 1) => Some(Side::C),
            _ => None,
        }
    }
}

// Any mode is served, so it comes as a number, as in `inter_partitions`.
#[tactic(auto, unfolding(crate::specs::Partition::partition_answer))]
pub fn predict_partition_mv(
    mode: u8,
    part: usize,
    near: Neighbors,
    cur_ref: i32,
) -> Result<Mv, Refusal>
    ensures { mv_answer result ≡ partition_answer mode part near.a near.b near.c cur_ref }
{
    if bad_reference(cur_ref) {
        return Err(Refusal::BadReference);
    }
    if let Some(side) = Mode::from(mode).side(part) {
        let n = near.at(side);
        if n.serves(cur_ref) {
            return Ok(n.mv);
        }
    }
    Ok(near.predicted(cur_ref))
}

#[repr(C)]
#[derive(Clone, Copy, Debug, PartialEq, Eq)]
pub struct Rect {
    pub x: usize,
    pub y: usize,
    pub w: usize,
    pub h: usize,
}

#[repr(C)]
#[derive(Clone, Copy, Debug, PartialEq, Eq)]
pub struct Partitions {
    pub count: usize,
    pub parts: [Rect; 4],
}

// What stands past the count.
const NONE: Rect = Rect {
    x: 0,
    y: 0,
    w: 0,
    h: 0,
};

const WHOLE: [Rect; 4] = [
    Rect {
        x: 0,
        y: 0,
        w: 16,
        h: 16,
    },
    NONE,
    NONE,
    NONE,
];

const ROWS: [Rect; 4] = [
    Rect {
        x: 0,
        y: 0,
        w: 16,
        h: 8,
    },
    Rect {
        x: 0,
        y: 8,
        w: 16,
        h: 8,
    },
    NONE,
    NONE,
];

const COLUMNS: [Rect; 4] = [
    Rect {
        x: 0,
        y: 0,
        w: 8,
        h: 16,
    },
    Rect {
        x: 8,
        y: 0,
        w: 8,
        h: 16,
    },
    NONE,
    NONE,
];

const QUARTERS: [Rect; 4] = [
    Rect {
        x: 0,
        y: 0,
        w: 8,
        h: 8,
    },
    Rect {
        x: 8,
        y: 0,
        w: 8,
        h: 8,
    },
    Rect {
        x: 0,
        y: 8,
        w: 8,
        h: 8,
    },
    Rect {
        x: 8,
        y: 8,
        w: 8,
        h: 8,
    },
];

impl Mode {
    fn partitions(self) -> Partitions
        ensures { result ≡ partitions_of (mode_number self) }
    {
        match self {
            Mode::Whole => Partitions {
                count: 1,
                parts: WHOLE,
            },
            Mode::Rows => Partitions {
                count: 2,
                parts: ROWS,
            },
            Mode::Columns => Partitions {
                count: 2,
                parts: COLUMNS,
            },
            Mode::Quarters => Partitions {
                count: 4,
                parts: QUARTERS,
            },
        }
    }
}

pub fn inter_partitions(mode: u8) -> Partitions
    ensures { result ≡ partitions_of mode }
{
    Mode::from(mode).partitions()
}
