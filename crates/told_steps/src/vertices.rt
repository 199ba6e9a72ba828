ghost use Rattle.std.specs.Prelude.{◌≡◌, ◌≢◌, ◌≤◌, false, [], ◌∷◌};
ghost use Rattle.edit_steps.specs.Steps.{AddVertex, RemoveVertex, apply};
ghost use Rattle.plane_graphs.specs.Plane.{IsPlane};
ghost use Rattle.slab_laws.specs.View.{HasVertex, pinned_in, point_in};
ghost use Rattle.arr_notes.specs.RecordGraph.{drawn_graph};
ghost use Rattle.arr_notes.specs.ViewChanges.{with_vertex, without_vertex};
ghost use Rattle.curve_history.specs.Past.{curves_on};
ghost use Rattle.dcel_records.specs.RecordsView.{IsSpare, IsSpareFaces};
ghost use Rattle.dcel_records.specs.SoundMaps.{IsMapAtRest, map_of};
ghost use Rattle.face_steps.specs.VertexSteps.{IsFaceRound};
ghost use Rattle.observer_bus.specs.Rows.{bus_row};
ghost use Rattle.rotation_order.specs.VertexRings.{IsBare};
ghost use Rattle.sound_views.specs.RecordGraphLaws.{IsVertexAt};
ghost use Rattle.told_steps.specs.StrandRuns.{IsStrandRun};
ghost use Rattle.told_steps.specs.ToldRuns.{AreInStep, IsToldRun};

use crate::told::{tell_after, tell_before};
use arr_notes::{Change, Intent};
use curve_history::History;
use dcel_records::Records;
use exact_plane::Point;
use observer_bus::Bus;
use slab_laws::{Darts, FaceId, VertexId};
use std::alloc::Global;

/// A vertex comes at a point where none is, in the face that has the point, in room that is there. Where no observer joins it takes no memory of its own.
pub fn add_vertex(
    alloc: Global,
    records: &mut Records,
    history: &History,
    bus: &mut Bus,
    face: FaceId,
    p: Point,
) -> VertexId
    requires in_step { AreInStep (map_of records.old) (curves_on history.now)
        (bus_row Observer-dyn bus.old) }
    requires map { IsMapAtRest records.old }
    requires free { (u : _) → HasVertex records.old.graph u → point_in records.old.graph u ≢ p }
    requires plane { IsPlane (apply (AddVertex p) (drawn_graph records.old.graph (curves_on history.now))) }
    requires face { IsFaceRound records.old.graph records.old.faces.tables face p }
    requires room { 1 ≤ records.old.spare_vertices }
    ensures told { IsToldRun (map_of records.old) (curves_on history.now)
        (bus_row Observer-dyn bus.old)
        (AddVertex p ∷ []) (map_of records.new) (curves_on history.now)
        (bus_row Observer-dyn bus.new) }
    ensures strands { IsStrandRun records.old.graph history.now (AddVertex p ∷ []) records.new.graph history.now }
    ensures in_step { AreInStep (map_of records.new) (curves_on history.now)
        (bus_row Observer-dyn bus.new) }
    ensures map { IsMapAtRest records.new }
    ensures fresh { ¬ HasVertex records.old.graph result }
    ensures vertex { IsVertexAt records.new.graph p result }
    ensures graph { records.new.graph ≡ with_vertex records.old.graph result p }
    ensures spare { IsSpare records.new records.old 1 0 }
    ensures spare_faces { IsSpareFaces records.old.faces records.new.faces 0 0 }
{
    p.laws();
    tell_before(alloc, &*records, history, bus, Intent::AddVertex(p));
    let v = records.add_vertex(p, face);
    tell_after(
        alloc,
        &*records,
        history,
        bus,
        Change::AddVertex { v, p, face },
    );
    v
}

/// A vertex that is not pinned and has no edge goes. Where no observer joins it takes no memory of its own.
pub fn remove_vertex(
    alloc: Global,
    records: &mut Records,
    history: &History,
    bus: &mut Bus,
    v: VertexId,
)
    requires in_step { AreInStep (map_of records.old) (curves_on history.now)
        (bus_row Observer-dyn bus.old) }
    requires map { IsMapAtRest records.old }
    requires vertex { HasVertex records.old.graph v }
    requires bare { IsBare records.old.graph v }
    requires unpinned { pinned_in records.old.graph v ≡ false }
    ensures told { IsToldRun (map_of records.old) (curves_on history.now)
        (bus_row Observer-dyn bus.old)
        (RemoveVertex (point_in records.old.graph v) ∷ []) (map_of records.new) (curves_on history.now)
        (bus_row Observer-dyn bus.new) }
    ensures strands { IsStrandRun records.old.graph history.now (RemoveVertex (point_in records.old.graph v) ∷ []) records.new.graph history.now }
    ensures in_step { AreInStep (map_of records.new) (curves_on history.now)
        (bus_row Observer-dyn bus.new) }
    ensures map { IsMapAtRest records.new }
    ensures graph { records.new.graph ≡ without_vertex records.old.graph v }
    ensures spare { IsSpare records.old records.new 1 0 }
    ensures spare_faces { IsSpareFaces records.old.faces records.new.faces 0 0 }
{
    let p = records.point(v);
    tell_before(alloc, &*records, history, bus, Intent::RemoveVertex(p));
    records.remove_vertex(v);
    tell_after(alloc, &*records, history, bus, Change::RemoveVertex { v });
}
