use crate::shapes::{Ends, point, segment};
use exact_plane::{Meet, meeting};
use std::test::Fail;

fn meet(first: Ends, second: Ends) -> Result<Meet, Fail> {
    Ok(meeting(&segment(first)?, &segment(second)?))
}

#[test]
fn segments_meet_at_a_point_or_along_a_part(rt: HostRuntime) -> Result<(), Fail> {
    let crossing = Meet::At(point((2, 1, 3))?);
    assert!(rt; meet((0, 0, 2, 1), (0, 1, 1, 0))? == crossing);
    let part = Meet::Along(point((2, 0, 1))?, point((4, 0, 1))?);
    assert!(rt; meet((2, 0, 4, 0), (0, 0, 6, 0))? == part);
    assert!(rt; meet((0, 0, 2, 1), (0, 1, 2, 2))? == Meet::Apart);
    Ok(())
}
