/// How many curves of a script's layer may have a name.
pub const MAX_CURVES: u32 = 2_000;

/// How many pieces of segments there may be in a script's layer.
pub const MAX_PIECES: u32 = 10_000;

/// How many points of a script's layer may be pinned.
pub const MAX_PINS: u32 = 10_000;

/// The limits of a layer, and the number of its first curve.
#[derive(Clone, Copy)]
pub struct Limits {
    /// How many curves may have a name.
    pub curves: u32,
    /// How many pieces of segments there may be.
    pub pieces: u32,
    /// How many points may be pinned.
    pub pins: u32,
    /// The number of the first curve; at least 1.
    pub first: u32,
}

impl Limits {
    /// The limits of a script.
    pub const FULL: Limits = Limits {
        curves: MAX_CURVES,
        pieces: MAX_PIECES,
        pins: MAX_PINS,
        first: 1,
    };
}
