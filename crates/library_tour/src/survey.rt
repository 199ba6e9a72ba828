ghost use Rattle.arrangement.specs.Arranged.{arranged, IsWatched};

use crate::maps::{draw, draw_all, new_map, seat};
use crate::parcels::{ParcelId, Parcels};
use crate::surveyor::Surveyor;
use anyhow::{Context, bail};
use arrangement::{Arrangement, FaceId, Observer, Point};
use std::alloc::Global;
use std::cell::RefCell;
use std::rc::Rc;

// The number under which the surveyor is seated.
const SURVEYOR: u32 = 1;

// The face at a point with whole coordinates.
fn face_at(map: &Arrangement, x: i128, y: i128) -> anyhow::Result<FaceId> {
    let point = Point::new(x, y, 1).context("there is no such point")?;
    map.face_at(&point).context("the point is in no face")
}

// The face at a point is the parcel's land.
fn claim(
    map: &Arrangement,
    parcels: &RefCell<Parcels>,
    x: i128,
    y: i128,
    parcel: u32,
) -> anyhow::Result<()> {
    let face = face_at(map, x, y)?;
    let Ok(mut parcels) = parcels.try_borrow_mut() else {
        bail!("the parcels are read");
    };
    parcels.claim(face, ParcelId(parcel))?;
    Ok(())
}

// A line with a point, and the parcels that have land in the face there.
fn put_owners(
    alloc: Global,
    out: &mut String,
    map: &Arrangement,
    parcels: &RefCell<Parcels>,
    x: i128,
    y: i128,
) -> anyhow::Result<()> {
    let face = face_at(map, x, y)?;
    let Ok(parcels) = parcels.try_borrow() else {
        bail!("the parcels are written");
    };
    out.push_str(&format!(in alloc; "land at {x} {y}:")?)?;
    for parcel in &parcels.in_face(face)? {
        let number = parcel.0;
        out.push_str(&format!(in alloc; " {number}")?)?;
    }
    out.push_str("\n")?;
    Ok(())
}

// The parcels that have land below the road and above it, in the west and in the east.
fn put_quarters(
    alloc: Global,
    out: &mut String,
    map: &Arrangement,
    parcels: &RefCell<Parcels>,
) -> anyhow::Result<()> {
    put_owners(alloc, out, map, parcels, 1, 1)?;
    put_owners(alloc, out, map, parcels, 1, 3)?;
    put_owners(alloc, out, map, parcels, 5, 1)?;
    put_owners(alloc, out, map, parcels, 5, 3)
}

// The lower part of the fence goes.
fn open_fence(map: &mut Arrangement) -> anyhow::Result<()>
    requires watched { IsWatched (arranged Observer-dyn map.old) }
    ensures watched { IsWatched (arranged Observer-dyn map.new) }
{
    let foot = Point::new(3, 0, 1).context("the fence has no foot")?;
    let crossing = Point::new(3, 2, 1).context("the fence has no crossing")?;
    map.remove_edge(&foot, &crossing)
        .context("there is no such fence")
}

// Two parcels, side by side, that a fence parts.
fn draw_parcels(map: &mut Arrangement) -> anyhow::Result<()>
    requires watched { IsWatched (arranged Observer-dyn map.old) }
    ensures watched { IsWatched (arranged Observer-dyn map.new) }
{
    let sides = [
        (0, 0, 6, 0),
        (6, 0, 6, 4),
        (6, 4, 0, 4),
        (0, 4, 0, 0),
        (3, 0, 3, 4),
    ];
    draw_all(map, &sides)
}

// A road is built across two parcels, and then the lower part of the fence between them goes.
fn survey(
    alloc: Global,
    out: &mut String,
    map: &mut Arrangement,
    parcels: &RefCell<Parcels>,
    surveyor: Box<dyn Observer>,
) -> anyhow::Result<()>
    requires watched { IsWatched (arranged Observer-dyn map.old) }
{
    seat(map, SURVEYOR, surveyor)?;
    draw_parcels(map)?;
    claim(map, parcels, 1, 1, 1)?;
    claim(map, parcels, 5, 1, 2)?;
    draw(map, -2, 2, 8, 2)?;
    put_quarters(alloc, out, map, parcels)?;
    open_fence(map)?;
    put_quarters(alloc, out, map, parcels)
}

/// Whose land the faces are, after a road was built and after a fence was opened.
pub fn told_land(alloc: Global) -> anyhow::Result<String> {
    let mut out = String::new(alloc);
    let parcels = Rc::new(alloc, RefCell::new(Parcels::new(alloc)))?;
    let surveyor = Box::new(alloc, Surveyor::new(alloc, parcels.clone()?))?;
    let mut map = new_map(alloc)?;
    let told = survey(alloc, &mut out, &mut map, &parcels, surveyor);
    drop(map);
    told?;
    Ok(out)
}
