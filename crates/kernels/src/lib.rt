// Luma blocks over rows of any stride: full samples, and the fifteen other phases by their anchors.
#![tactic(auto)]

pub mod full;
pub mod predict;
