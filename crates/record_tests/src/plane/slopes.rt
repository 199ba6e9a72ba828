use crate::shapes::{Ends, line};
use exact_plane::{Line, slope_order};
use std::cmp::Ordering;
use std::test::Fail;

// Slopes beside 1/2: less, equal, greater, and that of a vertical line.
const SLOPES: [(Ends, Ordering); 4] = [
    ((0, 1, 1, 0), Ordering::Less),
    ((-4, -2, 4, 2), Ordering::Equal),
    ((0, 0, 1, 2), Ordering::Greater),
    ((5, 9, 5, -9), Ordering::Greater),
];

// Whether the first slope is so beside the second, and the second the other way beside the first.
fn are_ordered(first: &Line, second: &Line, wanted: Ordering) -> bool {
    slope_order(first, second) == wanted && slope_order(second, first) == wanted.reverse()
}

#[test]
fn slopes_are_ordered_up_to_the_vertical(rt: HostRuntime) -> Result<(), Fail> {
    let half = line((0, 0, 2, 1))?;
    for (ends, wanted) in &SLOPES {
        assert!(rt; are_ordered(&line(*ends)?, &half, *wanted));
    }
    Ok(())
}
