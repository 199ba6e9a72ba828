ghost use Rattle.std.specs.Prelude.{◌≡◌, [], ◌∷◌};

use crate::curved::Curved;
use crate::darts::Darts;
use crate::faced::Faced;
use crate::names::{CurveId, CycleId, CycleKind, DartId, FaceId, VertexId};
use exact_plane::{Line, Point};
use no_memory::NoMemory;
use std::alloc::Global;
use std::marker::Model;

#[derive(Clone, Copy)]
struct DartRecord {
    source: usize,
    twin: usize,
    next: usize,
    cycle: usize,
}

/// One triangle in memory: the least arrangement with a bounded face.
///
/// Its darts 0, 2 and 4 go round counterclockwise from the corners a, b and c; their twins are 1, 3 and 5.
#[derive(Drop)]
pub struct Triangle {
    a: Point,
    b: Point,
    c: Point,
    line_ab: Line,
    line_bc: Line,
    line_ca: Line,
    darts: [DartRecord; 6],
}

impl Model for Triangle {
    ghost use Rattle.std.specs.Prelude.{◌≡◌};
    ghost use Rattle.slab_laws.specs.Triangle.{Shape};
    ghost use Rattle.slab_laws.specs.TriangleRows.{triangle_rows};

    ghost Value = { Shape };

    ghost view = { λ t. record { a = t.a; b = t.b; c = t.c; ab = t.line_ab; bc = t.line_bc; ca = t.line_ca } };

    ghost invariant = { λ t. t.darts ≡ triangle_rows };
}

fn record(source: usize, twin: usize, next: usize, cycle: usize) -> DartRecord
    ensures { result ≡ record { source = source; twin = twin; next = next; cycle = cycle } }
{
    DartRecord {
        source,
        twin,
        next,
        cycle,
    }
}

impl Triangle {
    /// The triangle with these corners, which go round counterclockwise, and the lines of its sides.
    pub fn new(a: Point, b: Point, c: Point, ab: Line, bc: Line, ca: Line) -> Triangle
        ensures { result ≡ record { a = a; b = b; c = c; ab = ab; bc = bc; ca = ca } }
    {
        Triangle {
            a,
            b,
            c,
            line_ab: ab,
            line_bc: bc,
            line_ca: ca,
            darts: [
                record(0, 1, 2, 0),
                record(1, 0, 5, 1),
                record(1, 3, 4, 0),
                record(2, 2, 1, 1),
                record(2, 5, 0, 0),
                record(0, 4, 3, 1),
            ],
        }
    }
}

impl Darts for Triangle {
    ghost use Rattle.slab_laws.specs.Triangle.{triangle_view};

    ghost graph = { triangle_view };

    fn source(&self, d: DartId) -> VertexId {
        VertexId(self.darts[d.0].source)
    }

    fn target(&self, d: DartId) -> VertexId {
        self.source(self.twin(d))
    }

    fn twin(&self, d: DartId) -> DartId {
        DartId(self.darts[d.0].twin)
    }

    fn next(&self, d: DartId) -> DartId {
        DartId(self.darts[d.0].next)
    }

    fn point(&self, v: VertexId) -> Point {
        if v.0 == 0 {
            self.a
        } else if v.0 == 1 {
            self.b
        } else {
            self.c
        }
    }

    fn line(&self, d: DartId) -> Line {
        if d.0 < 2 {
            self.line_ab
        } else if d.0 < 4 {
            self.line_bc
        } else {
            self.line_ca
        }
    }

    fn pinned(&self, _v: VertexId) -> bool {
        false
    }

    fn out_of(&self, v: VertexId) -> Option<DartId> {
        if v.0 == 0 {
            Some(DartId(0))
        } else if v.0 == 1 {
            Some(DartId(2))
        } else {
            Some(DartId(4))
        }
    }

    fn vertex_after(&self, v: Option<VertexId>) -> Option<VertexId> {
        match v {
            None => Some(VertexId(0)),
            Some(v) if v.0 < 2 => Some(VertexId(v.0 + 1)),
            Some(_) => None,
        }
    }

    fn dart_after(&self, d: Option<DartId>) -> Option<DartId> {
        match d {
            None => Some(DartId(0)),
            Some(d) if d.0 < 5 => Some(DartId(d.0 + 1)),
            Some(_) => None,
        }
    }
}

impl Curved for Triangle {
    ghost use Rattle.std.specs.Prelude.{[], ◌∷◌};

    ghost curve_list = { λ _ _. record { 0 = 1 } ∷ [] };

    fn curves(&self, alloc: Global, _d: DartId) -> Result<Vec<CurveId>, NoMemory> {
        let mut curves = Vec::new(alloc);
        curves.push(CurveId(1))?;
        Ok(curves)
    }
}

impl Faced for Triangle {
    ghost use Rattle.slab_laws.specs.Triangle.{triangle_faces};

    ghost faces = { λ _. triangle_faces };

    fn cycle(&self, d: DartId) -> CycleId {
        CycleId(self.darts[d.0].cycle)
    }

    fn face(&self, c: CycleId) -> FaceId {
        if c.0 == 0 { FaceId(1) } else { FaceId(0) }
    }

    fn kind(&self, c: CycleId) -> CycleKind {
        if c.0 == 0 {
            CycleKind::Outer
        } else {
            CycleKind::Inner
        }
    }

    fn bare_face(&self, _v: VertexId) -> FaceId {
        FaceId(0)
    }

    fn cycle_after(&self, c: Option<CycleId>) -> Option<CycleId> {
        match c {
            None => Some(CycleId(0)),
            Some(c) if c.0 < 1 => Some(CycleId(1)),
            Some(_) => None,
        }
    }

    fn face_after(&self, f: Option<FaceId>) -> Option<FaceId> {
        match f {
            None => Some(FaceId(0)),
            Some(f) if f.0 < 1 => Some(FaceId(1)),
            Some(_) => None,
        }
    }
}
