//! The places of the parts of a chart, in pixels.

/// How wide a chart is.
pub(crate) const WIDTH: u32 = 960;

/// Where titles begin.
pub(crate) const MARGIN: u32 = 16;

/// Where lines begin: the place of the first moment.
pub(crate) const LEFT: u32 = 144;

/// Where the texts at the left end.
pub(crate) const SIDE: u32 = LEFT - 8;

/// The place of the last moment.
pub(crate) const LAST: u32 = 928;

/// Where lines end, so that the last values are seen.
pub(crate) const RIGHT: u32 = 944;

/// Where the first strip begins.
pub(crate) const HEAD: u64 = 64;

/// How much room is below the last strip.
pub(crate) const FOOT: u64 = 28;

/// How high the heading of a strip is.
pub(crate) const HEADING: u32 = 18;

/// How much room is below a strip.
pub(crate) const GAP: u32 = 14;

/// How high a line of steps is at least.
pub(crate) const STEPS_HEIGHT: u32 = 56;

/// How high a band is.
pub(crate) const BAND_HEIGHT: u32 = 16;

/// How far levels are apart at least.
pub(crate) const LEVEL_HEIGHT: u32 = 14;

/// How high a lane is.
pub(crate) const LANE_HEIGHT: u32 = 24;

/// The greatest number of levels that are marked at one line.
pub const MOST_LEVELS: usize = 9;
