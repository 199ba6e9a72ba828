use crate::shapes::{At, line, point};
use exact_plane::{Line, Span};
use std::test::Fail;

// Two points, and whether the line (0, 0), (2, 1) has a part from the first to the second.
const PARTS: [(At, At, bool); 5] = [
    ((0, 0, 1), (2, 1, 3), true),
    ((2, 1, 3), (2, 1, 1), true),
    ((2, 1, 3), (0, 0, 1), false),
    ((2, 1, 3), (2, 1, 3), false),
    ((0, 0, 1), (1, 1, 1), false),
];

fn has_part(line: Line, lower: At, upper: At) -> Result<bool, Fail> {
    Ok(Span::new(point(lower)?, point(upper)?, line).is_some())
}

#[test]
fn spans_are_parts_of_lines(rt: HostRuntime) -> Result<(), Fail> {
    let flat = line((0, 0, 2, 1))?;
    for (lower, upper, is_part) in &PARTS {
        assert!(rt; has_part(flat, *lower, *upper)? == *is_part);
    }
    Ok(())
}
