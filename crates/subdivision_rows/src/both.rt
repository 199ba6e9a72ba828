ghost use Rattle.std.specs.Prelude.{◌≡◌, ◌<◌, length, slice_index_or, IfOk};
ghost use Rattle.plane_graphs.specs.Graph.{edges};
ghost use Rattle.slab_laws.specs.View.{HasDart};
ghost use Rattle.arr_text.specs.Reading.{overlay_text_in};
ghost use Rattle.subdivision_rows.specs.Listed.{view_of};
ghost use Rattle.subdivision_rows.specs.OverlayInMemory.{AreRowsOf, edge_place_at, graph_of, faces_in, red_of, blue_of};

use crate::both_records::edge_of;
use crate::layer_table::LayerTable;
use crate::rows::Rows;
use arr_text::overlay_text;
use no_memory::NoMemory;
use slab_laws::DartId;
use std::alloc::Global;
use std::marker::Model;

/// The overlay of two layers, red and blue, in ascending lists: the subdivision of the plane by the segments and points of both,
/// whose edges know their curves of each layer, and how many of its pieces hold them, and whose faces know the faces of each layer
/// that hold them (CGAL manual, `overlay`).
#[derive(Drop)]
pub struct Both {
    alloc: Global,
    pub(crate) rows: Rows,
    pub(crate) red: LayerTable,
    pub(crate) blue: LayerTable,
    // Of each edge how many red pieces hold it, and how many blue ones.
    pub(crate) red_pieces: Vec<usize>,
    pub(crate) blue_pieces: Vec<usize>,
}

impl Model for Both {
    ghost use Rattle.subdivision_rows.specs.OverlayInMemory.{Overlaid};

    ghost Value = { Overlaid };

    ghost use Rattle.subdivision_rows.specs.BothInMemory.{overlaid_of, IsSoundOverlay};

    ghost view = { overlaid_of };

    ghost invariant = { IsSoundOverlay };
}

// The number at a place.
fn number_at(numbers: &[usize], place: usize) -> usize
    requires { place < length numbers.now }
    ensures { result ≡ slice_index_or numbers.now place 0 }
{
    numbers[place]
}

impl Both {
    /// The overlay of the subdivision by both layers and what this tells of each: its table, and of each edge how many of its pieces
    /// hold it.
    pub fn of(
        alloc: Global,
        rows: Rows,
        red: LayerTable,
        blue: LayerTable,
        red_pieces: Vec<usize>,
        blue_pieces: Vec<usize>,
    ) -> Both
        requires red { AreRowsOf rows red }
        requires blue { AreRowsOf rows blue }
        requires red_pieces { length red_pieces.items ≡ length (edges rows.graph) }
        requires blue_pieces { length blue_pieces.items ≡ length (edges rows.graph) }
        ensures { result ≡ record { drawing = rows; red = red; blue = blue; red_pieces = red_pieces.items; blue_pieces = blue_pieces.items } }
    {
        Both {
            alloc,
            rows,
            red,
            blue,
            red_pieces,
            blue_pieces,
        }
    }

    /// The allocator of what is made of the overlay.
    pub fn allocator(&self) -> Global {
        self.alloc
    }

    /// The text of the overlay.
    ///
    /// # Errors
    ///
    /// There was no memory for it.
    pub fn text(&self) -> Result<Vec<u8>, NoMemory>
        ensures { IfOk result (λ bytes. bytes.items
            ≡ overlay_text_in (graph_of self.now) (faces_in self.now) (red_of self.now) (blue_of self.now)) }
    {
        self.rows.laws();
        overlay_text(self.alloc, self)
    }

    /// The subdivision by both layers.
    pub fn rows(&self) -> &Rows
        ensures { result.now ≡ self.now.drawing }
    {
        &self.rows
    }

    /// Of each edge how many red pieces hold it.
    pub fn red_counts(&self) -> &[usize]
        ensures counts { result.now ≡ self.now.red_pieces }
        ensures counted { length self.now.red_pieces ≡ length (edges self.now.drawing.graph) }
    {
        &self.red_pieces
    }

    /// Of each edge how many blue pieces hold it.
    pub fn blue_counts(&self) -> &[usize]
        ensures counts { result.now ≡ self.now.blue_pieces }
        ensures counted { length self.now.blue_pieces ≡ length (edges self.now.drawing.graph) }
    {
        &self.blue_pieces
    }

    /// How many red pieces hold the dart's edge. A curve several of whose sides run along it counts several times.
    pub fn red_pieces(&self, d: DartId) -> usize
        requires { HasDart (view_of self.now.drawing) d }
        ensures { result ≡ slice_index_or self.now.red_pieces (edge_place_at self.now.drawing d.0) 0 }
    {
        number_at(&self.red_pieces, edge_of(&self.rows, d))
    }

    /// How many blue pieces hold the dart's edge.
    pub fn blue_pieces(&self, d: DartId) -> usize
        requires { HasDart (view_of self.now.drawing) d }
        ensures { result ≡ slice_index_or self.now.blue_pieces (edge_place_at self.now.drawing d.0) 0 }
    {
        number_at(&self.blue_pieces, edge_of(&self.rows, d))
    }
}
