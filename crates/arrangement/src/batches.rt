ghost use Rattle.std.specs.Prelude.{◌≡◌, ◌<◌, length, map, IfOk};
ghost use Rattle.slab_laws.specs.Subdivision.{holds};
ghost use Rattle.face_location.specs.Spots.{IsSpotOf};
ghost use Rattle.vertical_parts.specs.Batch.{AreSpotsOf};
ghost use Rattle.arrangement.specs.Arranged.{arranged, subdivision_by};
ghost use Rattle.arrangement.specs.LayerRecords.{subdivision_of};

use crate::arrangement::Arrangement;
use crate::layer_records::LayerRecords;
use dcel_records::Spot;
use exact_plane::Point;
use no_memory::NoMemory;
use slab_laws::{Cell, Strategy};
use std::alloc::Global;
use vertical_parts::locate_all as sweep_to_all;

// With so many times the square root of the edges' number of points a sweep over all edges costs what the walks cost
// (benchmarks/README.md): it costs what all edges cost, and a walk passes some square root of them where most are inside.
const POINTS_A_ROOT: usize = 4;

impl LayerRecords {
    // Where each of many points lies, by a walk to each. It takes no memory but for the answer.
    fn walk_to_each(&mut self, alloc: Global, points: &[Point]) -> Result<Vec<Cell>, NoMemory>
        ensures cells { IfOk result (λ v. v.items ≡ map (holds (subdivision_of self.old)) points.now) }
        ensures same { self.new ≡ self.old }
    {
        let mut cells = Vec::new(alloc);
        for point in points {
            let cell = self.locate(alloc, Strategy::Walk, point)?;
            cells.push(cell)?;
        }
        Ok(cells)
    }

    // What points are told to lie in, which lie at these spots.
    fn cells_at(
        &mut self,
        alloc: Global,
        spots: &[Spot],
        points: &[Point],
    ) -> Result<Vec<Cell>, NoMemory>
        requires { AreSpotsOf self.old.graph self.old.faces points.now spots.now }
        ensures cells { IfOk result (λ v. v.items ≡ map (holds (subdivision_of self.old)) points.now) }
        ensures same { self.new ≡ self.old }
    {
        let mut cells = Vec::new(alloc);
        for place in 0..points.len() {
            let cell = self.cell_at(spots[place], &points[place]);
            cells.push(cell)?;
        }
        Ok(cells)
    }

    // Where each of many points lies, by one sweep.
    fn sweep_to_each(&mut self, alloc: Global, points: &[Point]) -> Result<Vec<Cell>, NoMemory>
        ensures cells { IfOk result (λ v. v.items ≡ map (holds (subdivision_of self.old)) points.now) }
        ensures same { self.new ≡ self.old }
    {
        let spots = sweep_to_all(alloc, &self.records, points)?;
        self.cells_at(alloc, &spots, points)
    }

    // Where each of many points lies, by what is cheaper.
    fn locate_all(&mut self, alloc: Global, points: &[Point]) -> Result<Vec<Cell>, NoMemory>
        ensures cells { IfOk result (λ v. v.items ≡ map (holds (subdivision_of self.old)) points.now) }
        ensures same { self.new ≡ self.old }
    {
        let edges = self.records.counts().darts / 2;
        if points.len() / POINTS_A_ROOT < edges.isqrt() {
            self.walk_to_each(alloc, points)
        } else {
            self.sweep_to_each(alloc, points)
        }
    }
}

impl Arrangement {
    /// Where each of many points lies, in the order in which they were given: each answer is what [`locate`](Arrangement::locate) says of its
    /// point (CGAL manual, batched point location). Points may stand twice.
    ///
    /// Few points beside many edges are walked to one by one. Many are sorted, and one sweep over all edges comes to each of them, in
    /// n log n steps for n edges and points together.
    ///
    /// # Errors
    ///
    /// There was no memory for the answers or for the sweep.
    pub fn locate_all(&mut self, points: &[Point]) -> Result<Vec<Cell>, NoMemory>
        ensures cells { IfOk result (λ v. v.items ≡ map (holds (subdivision_by (arranged Observer-dyn self.old))) points.now) }
        ensures same { self.new ≡ self.old }
    {
        let alloc = self.alloc;
        self.layer.locate_all(alloc, points)
    }
}
