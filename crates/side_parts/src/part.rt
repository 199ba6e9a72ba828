/// The part of a side between two neighbours among the points on it: the places of these in a list of points, and that of the
/// side in a list of sides. Parts go by their lower ends, then by their upper ends, then by their sides.
#[derive(Clone, Copy, PartialEq, Eq, PartialOrd, Ord)]
pub struct Part {
    pub low: usize,
    pub high: usize,
    pub side: usize,
}
