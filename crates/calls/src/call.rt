// The calls that the list has, by number and by name.
ghost use Rattle.std.specs.Prelude.{◌≡◌, ◌<◌, ◌≤◌};
ghost use Rattle.calls.specs.Call.{number_of, Numbers};

use std::error::Error;
use std::fmt;

#[derive(Clone, Copy, Debug, PartialEq, Eq)]
pub enum Call {
    Median3,
    PredictMv,
    PredictPartitionMv,
    InterPartitions,
    EdgeCount,
    McLuma,
    McChroma,
    AvgRowInto,
    ExpandPlane,
    McLumaPadded,
    McLumaPaddedPre,
    McChromaPadded,
    McChromaPaddedPair,
    PadPlane,
    BuildHpelPlanes,
    HpelRefAt,
    HpelQpelRefsAt,
    HpelRef,
    HpelQpelRefs,
    HpelBlock,
}

impl Call {
    // By rising number.
    pub const ALL: [Call; 20] = [
        Call::Median3,
        Call::PredictMv,
        Call::PredictPartitionMv,
        Call::InterPartitions,
        Call::EdgeCount,
        Call::McLuma,
        Call::McChroma,
        Call::AvgRowInto,
        Call::ExpandPlane,
        Call::McLumaPadded,
        Call::McLumaPaddedPre,
        Call::McChromaPadded,
        Call::McChromaPaddedPair,
        Call::PadPlane,
        Call::BuildHpelPlanes,
        Call::HpelRefAt,
        Call::HpelQpelRefsAt,
        Call::HpelRef,
        Call::HpelQpelRefs,
        Call::HpelBlock,
    ];

    pub fn number(self) -> usize
        ensures is { result ≡ number_of self }
        ensures range { (1 ≤ result) × (result ≤ 20) }
    {
        match self {
            Call::Median3 => 1,
            Call::PredictMv => 2,
            Call::PredictPartitionMv => 3,
            Call::InterPartitions => 4,
            Call::EdgeCount => 5,
            Call::McLuma => 6,
            Call::McChroma => 7,
            Call::AvgRowInto => 8,
            Call::ExpandPlane => 9,
            Call::McLumaPadded => 10,
            Call::McLumaPaddedPre => 11,
            Call::McChromaPadded => 12,
            Call::McChromaPaddedPair => 13,
            Call::PadPlane => 14,
            Call::BuildHpelPlanes => 15,
            Call::HpelRefAt => 16,
            Call::HpelQpelRefsAt => 17,
            Call::HpelRef => 18,
            Call::HpelQpelRefs => 19,
            Call::HpelBlock => 20,
        }
    }
}

// A number that no call has.
#[derive(Clone, Copy, Debug, PartialEq, Eq)]
pub struct UnknownCall(pub usize);

impl TryFrom<usize> for Call {
    type Error = UnknownCall;

    ghost try_from_gives = { Numbers };

    fn try_from(number: usize) -> Result<Self, UnknownCall> {
        match number {
            1 => Ok(Call::Median3),
            2 => Ok(Call::PredictMv),
            3 => Ok(Call::PredictPartitionMv),
            4 => Ok(Call::InterPartitions),
            5 => Ok(Call::EdgeCount),
            6 => Ok(Call::McLuma),
            7 => Ok(Call::McChroma),
            8 => Ok(Call::AvgRowInto),
            9 => Ok(Call::ExpandPlane),
            10 => Ok(Call::McLumaPadded),
            11 => Ok(Call::McLumaPaddedPre),
            12 => Ok(Call::McChromaPadded),
            13 => Ok(Call::McChromaPaddedPair),
            14 => Ok(Call::PadPlane),
            15 => Ok(Call::BuildHpelPlanes),
            16 => Ok(Call::HpelRefAt),
            17 => Ok(Call::HpelQpelRefsAt),
            18 => Ok(Call::HpelRef),
            19 => Ok(Call::HpelQpelRefs),
            20 => Ok(Call::HpelBlock),
            _ => Err(UnknownCall(number)),
        }
    }
}

impl fmt::Display for Call {
    fn fmt<W: fmt::Write>(&self, f: &mut fmt::Formatter<W>) -> fmt::Result {
        f.write_str(match self {
            Call::Median3 => "median3",
            Call::PredictMv => "predict_mv",
            Call::PredictPartitionMv => "predict_partition_mv",
            Call::InterPartitions => "inter_partitions",
            Call::EdgeCount => "edge_count",
            Call::McLuma => "mc_luma",
            Call::McChroma => "mc_chroma",
            Call::AvgRowInto => "avg_row_into",
            Call::ExpandPlane => "expand_plane",
            Call::McLumaPadded => "mc_luma_padded",
            Call::McLumaPaddedPre => "mc_luma_padded_pre",
            Call::McChromaPadded => "mc_chroma_padded",
            Call::McChromaPaddedPair => "mc_chroma_padded_pair",
            Call::PadPlane => "pad_plane",
            Call::BuildHpelPlanes => "build_hpel_planes",
            Call::HpelRefAt => "hpel_ref_at",
            Call::HpelQpelRefsAt => "hpel_qpel_refs_at",
            Call::HpelRef => "hpel_ref",
            Call::HpelQpelRefs => "hpel_qpel_refs",
            Call::HpelBlock => "hpel_block",
        })
    }
}

impl fmt::Display for UnknownCall {
    fn fmt<W: fmt::Write>(&self, f: &mut fmt::Formatter<W>) -> fmt::Result {
        write!(f, "no call has the number {}", self.0)
    }
}

impl Error for UnknownCall {}
