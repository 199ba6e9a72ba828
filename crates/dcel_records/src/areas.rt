//! The box of a cycle: it grows with what comes to the cycle, and stays where something leaves it.
ghost use Rattle.std.specs.Prelude.{◌≡◌, option_map};
ghost use Rattle.std.specs.Int.{int_max, int_min};
ghost use Rattle.exact_plane.specs.WholeParts.{whole_parts};
ghost use Rattle.slab.specs.Slab.{get, slab_len, ContainsKey, Updates};
ghost use Rattle.slab_laws.specs.View.{HasCycle, HasDart, cycle_in, point_in, source_in};
ghost use Rattle.dcel_records.specs.Areas.{Covers, widened, row_widened};

use crate::records::Records;
use crate::rows::StoredCycle;
use crate::table::Table;
use exact_plane::{BoundingBox, WholeParts};
use slab_laws::CycleId;

/// The box that nothing is in.
pub(crate) fn nothing() -> BoundingBox {
    BoundingBox {
        least: WholeParts {
            x: i32::MAX,
            y: i32::MAX,
        },
        greatest: WholeParts {
            x: i32::MIN,
            y: i32::MIN,
        },
    }
}

// The lesser of two, along each axis.
fn lesser(a: WholeParts, b: WholeParts) -> WholeParts
    ensures x { result.x ≡ int_min a.x b.x }
    ensures y { result.y ≡ int_min a.y b.y }
{
    WholeParts {
        x: a.x.min(b.x),
        y: a.y.min(b.y),
    }
}

// The greater of two, along each axis.
fn greater(a: WholeParts, b: WholeParts) -> WholeParts
    ensures x { result.x ≡ int_max a.x b.x }
    ensures y { result.y ≡ int_max a.y b.y }
{
    WholeParts {
        x: a.x.max(b.x),
        y: a.y.max(b.y),
    }
}

// The least box that has all of another one, and these parts.
fn widened(area: BoundingBox, parts: WholeParts) -> BoundingBox
    ensures { result ≡ widened parts area }
{
    BoundingBox {
        least: lesser(area.least, parts),
        greatest: greater(area.greatest, parts),
    }
}

/// The cycle's box has these parts too.
pub(crate) fn widen(cycles: &mut Table<StoredCycle>, c: CycleId, parts: WholeParts)
    requires { ContainsKey cycles.old c.0 }
    ensures row { Updates cycles.old cycles.new c.0 (option_map (row_widened parts) (get cycles.old c.0)) }
    ensures len { slab_len cycles.new ≡ slab_len cycles.old }
    ensures capacity { cycles.new.capacity ≡ cycles.old.capacity }
{
    let area = widened(cycles[c.0].area, parts);
    cycles[c.0].area = area;
}

impl Records {
    /// A box that has the whole parts of all points on the cycle. It may be larger than the least such box once darts have left the cycle
    /// or moved: so it tells where the cycle isn't (CGAL manual, `Bbox_2`).
    #[inline(always)]
    pub fn area(&self, c: CycleId) -> BoundingBox
        requires { HasCycle self.now.faces.tables c }
        ensures { (d : _) → HasDart self.now.graph d → cycle_in self.now.faces.tables d ≡ c → Covers result (whole_parts (point_in self.now.graph (source_in self.now.graph d))) }
    {
        self.cycles[c.0].area
    }
}
