// Why a policy was not made.

/// The width of a tier is 0, or above the 64 subchannels of a view.
#[derive(Clone, Copy, Debug, PartialEq, Eq)]
pub struct BadWidth;
