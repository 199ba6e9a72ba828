//! The bounds of the plane and of its predicates, all in one place.

/// No coordinate of a point or of a segment's end passes it in size, in whole plane units.
pub const MAX_COORDINATE: u128 = (1 << 24) - 1;

/// A point's weight stays below it.
pub const WEIGHT_LIMIT: u128 = 1 << 51;

/// The numbers a and b of a line are at most it in size: two coordinates differ by no more.
pub const MAX_DIFFERENCE: u128 = 2 * MAX_COORDINATE;

/// The number c of a line is at most it in size: twice the largest coordinate's square.
pub const MAX_OFFSET: u128 = 2 * MAX_COORDINATE * MAX_COORDINATE;

/// The numbers x and y of the crossing of two lines stay below it in size.
pub const NUMERATOR_LIMIT: u128 = 1 << 75;

/// The side of a point, a sum of three products, stays below it in size.
pub const SIDE_LIMIT: u128 = 1 << 102;

/// How far a line is below 0 at an abscissa, a sum of two products, stays below it in size.
pub const DEPTH_LIMIT: u128 = 1 << 101;

/// What two heights at an abscissa compare by stays below it in size.
pub const HEIGHT_LIMIT: u128 = 1 << 127;

/// The turn of two directions stays below it in size.
pub const TURN_LIMIT: u128 = 1 << 51;

/// A path has at most so many sides.
pub const MAX_SIDES: usize = 8;
