ghost use Rattle.std.specs.Prelude.{◌≡◌, ◌≢◌, ◌≤◌, option_map};
ghost use Rattle.exact_plane.specs.WholeParts.{whole_parts};
ghost use Rattle.slab.specs.Slab.{get, slab_len, ContainsKey, Updates};
ghost use Rattle.slab_laws.specs.View.{HasVertex, HasDart, HasCycle, IsOutOf, point_in, source_in, twin_in, target_in};
ghost use Rattle.arr_notes.specs.FaceWriters.{on_cycle, off_cycles};
ghost use Rattle.arr_notes.specs.ViewChanges.{without_pair, with_next, with_source};
ghost use Rattle.dcel_records.specs.Edges.{with_edge};
ghost use Rattle.dcel_records.specs.RecordsView.{ends_found, graph_part, IsSpare};
ghost use Rattle.dcel_records.specs.Outs.{IsRest};
ghost use Rattle.dcel_records.specs.Given.{given, reaching};

use crate::areas::widen;
use crate::records::Records;
use crate::rows::{StoredDart, StoredVertex};
use crate::table::Table;
use exact_plane::{Line, WholeParts};
use slab_laws::{CycleId, DartId, VertexId};

// A vertex that no dart leaves gets a dart out.
fn give_out(vertices: &mut Table<StoredVertex>, v: VertexId, d: DartId)
    requires { ContainsKey vertices.old v.0 }
    ensures row { Updates vertices.old vertices.new v.0 (option_map (given d) (get vertices.old v.0)) }
    ensures len { slab_len vertices.new ≡ slab_len vertices.old }
    ensures capacity { vertices.new.capacity ≡ vertices.old.capacity }
{
    let out = vertices[v.0].out.or(Some(d));
    vertices[v.0].out = out;
}

// A dart keeps other whole parts of the point that it reaches.
fn set_target_parts(darts: &mut Table<StoredDart>, d: DartId, parts: WholeParts)
    requires { ContainsKey darts.old d.0 }
    ensures row { Updates darts.old darts.new d.0 (option_map (reaching parts) (get darts.old d.0)) }
    ensures len { slab_len darts.new ≡ slab_len darts.old }
    ensures capacity { darts.new.capacity ≡ darts.old.capacity }
{
    darts[d.0].target_parts = parts;
}

impl Records {
    /// The whole parts of the point that the dart leaves. They are kept with the dart, so no vertex is read.
    #[inline(always)]
    pub fn source_parts(&self, d: DartId) -> WholeParts
        requires { HasDart self.now.graph d }
        ensures { result ≡ whole_parts (point_in self.now.graph (source_in self.now.graph d)) }
    {
        self.darts[d.0].parts
    }

    /// The whole parts of the point that the dart reaches. They are kept with the dart too, so its twin isn't read.
    #[inline(always)]
    pub fn target_parts(&self, d: DartId) -> WholeParts
        requires { HasDart self.now.graph d }
        ensures { result ≡ whole_parts (point_in self.now.graph (target_in self.now.graph d)) }
    {
        self.darts[d.0].target_parts
    }

    /// The source and the target of the dart, or `None` for a name without a record.
    pub fn ends_of(&self, d: DartId) -> Option<(VertexId, VertexId)>
        ensures { result ≡ ends_found self.now.graph d }
    {
        match self.darts.get(d.0) {
            None => None,
            Some(dart) => Some((dart.source, self.darts[dart.twin.0].source)),
        }
    }

    /// Two new darts, from `u` to `v` and back, each the other's twin and followed by the other, in room that is there. Both
    /// are on the cycle.
    pub fn add_pair_on(
        &mut self,
        u: VertexId,
        v: VertexId,
        line: Line,
        cycle: CycleId,
    ) -> (DartId, DartId)
        requires room { 2 ≤ self.old.spare_darts }
        requires u { HasVertex self.old.graph u }
        requires v { HasVertex self.old.graph v }
        requires cycle { HasCycle self.old.faces.tables cycle }
        ensures dart { ¬ HasDart self.old.graph result.0 }
        ensures twin { ¬ HasDart self.old.graph result.1 }
        ensures two { result.0 ≢ result.1 }
        ensures graph { self.new.graph ≡ with_edge self.old.graph result.0 result.1 u v line }
        ensures spare { IsSpare self.new self.old 0 2 }
        ensures faces { self.new.faces ≡ record self.old.faces { tables = on_cycle result.1 cycle (on_cycle result.0 cycle self.old.faces.tables) } }
        ensures mapped { self.new.mapped ≡ self.old.mapped }
    {
        let source_parts = self.vertices[u.0].point.whole_parts();
        let target_parts = self.vertices[v.0].point.whole_parts();
        widen(&mut self.cycles, cycle, source_parts);
        widen(&mut self.cycles, cycle, target_parts);
        let d = self.darts.insert_reserved(StoredDart {
            source: u,
            twin: DartId(0),
            next: DartId(0),
            parts: source_parts,
            target_parts,
            line,
            cycle,
        });
        let m = self.darts.insert_reserved(StoredDart {
            source: v,
            twin: DartId(d),
            next: DartId(d),
            parts: target_parts,
            target_parts: source_parts,
            line,
            cycle,
        });
        let dart = &mut self.darts[d];
        dart.twin = DartId(m);
        dart.next = DartId(m);
        give_out(&mut self.vertices, u, DartId(d));
        give_out(&mut self.vertices, v, DartId(m));
        (DartId(d), DartId(m))
    }

    /// The dart and its twin go; `rest_u` and `rest_v` are other darts out of their sources, `None` where none is left.
    pub fn remove_pair(&mut self, d: DartId, rest_u: Option<DartId>, rest_v: Option<DartId>)
        requires dart { HasDart self.old.graph d }
        requires ends { source_in self.old.graph d ≢ target_in self.old.graph d }
        requires rest_u { IsRest self.old.graph d rest_u }
        requires rest_v { IsRest self.old.graph (twin_in self.old.graph d) rest_v }
        ensures graph { self.new.graph ≡ without_pair self.old.graph d (twin_in self.old.graph d) }
        ensures spare { IsSpare self.old self.new 0 2 }
        ensures faces { self.new.faces ≡ record self.old.faces { tables = off_cycles (twin_in self.old.graph d) (off_cycles d self.old.faces.tables) } }
        ensures mapped { self.new.mapped ≡ self.old.mapped }
    {
        let dart = self.darts.remove(d.0);
        let twin = self.darts.remove(dart.twin.0);
        self.vertices[dart.source.0].out = rest_u;
        self.vertices[twin.source.0].out = rest_v;
    }

    /// The dart `n` follows `d`.
    pub fn set_next(&mut self, d: DartId, n: DartId)
        requires { HasDart self.old.graph d }
        ensures graph { self.new.graph ≡ with_next self.old.graph d n }
        ensures spare { IsSpare self.old self.new 0 0 }
        ensures faces { self.new.faces ≡ self.old.faces }
        ensures mapped { self.new.mapped ≡ self.old.mapped }
    {
        self.darts[d.0].next = n;
    }

    /// The dart is on the cycle.
    pub fn set_cycle(&mut self, d: DartId, c: CycleId)
        requires dart { HasDart self.old.graph d }
        requires cycle { HasCycle self.old.faces.tables c }
        ensures graph { graph_part self.new ≡ graph_part self.old }
        ensures faces { self.new.faces ≡ record self.old.faces { tables = on_cycle d c self.old.faces.tables } }
        ensures mapped { self.new.mapped ≡ self.old.mapped }
    {
        let parts = self.darts[d.0].parts;
        widen(&mut self.cycles, c, parts);
        self.darts[d.0].cycle = c;
    }

    /// The dart leaves `w`, which a dart leaves already; `rest` is another dart out of the vertex that it left.
    pub fn move_source(&mut self, d: DartId, w: VertexId, rest: DartId)
        requires dart { HasDart self.old.graph d }
        requires rest { IsOutOf self.old.graph (source_in self.old.graph d) rest × (rest ≢ d) }
        requires vertex { HasVertex self.old.graph w }
        requires out { (e : _) × IsOutOf self.old.graph w e }
        ensures graph { self.new.graph ≡ with_source self.old.graph d w }
        ensures spare { IsSpare self.old self.new 0 0 }
        ensures faces { self.new.faces ≡ self.old.faces }
        ensures mapped { self.new.mapped ≡ self.old.mapped }
    {
        let u = self.darts[d.0].source;
        let twin = self.darts[d.0].twin;
        let cycle = self.darts[d.0].cycle;
        let parts = self.vertices[w.0].point.whole_parts();
        widen(&mut self.cycles, cycle, parts);
        set_target_parts(&mut self.darts, twin, parts);
        let dart = &mut self.darts[d.0];
        dart.source = w;
        dart.parts = parts;
        self.vertices[u.0].out = Some(rest);
    }
}
