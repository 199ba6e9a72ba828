ghost use Rattle.std.specs.Prelude.{◌≡◌, IfOk};
ghost use Rattle.plane_graphs.specs.Graph.{graph};
ghost use Rattle.slab_laws.specs.Text.{skeleton};
ghost use Rattle.vertical_laws.specs.VerticalText.{vertical_text};
ghost use Rattle.vertical_parts.specs.VerticalParts.{ArePartsOf};
ghost use Rattle.arrangement.specs.Arranged.{arranged, layer_in};

use crate::arrangement::Arrangement;
use no_memory::NoMemory;
use vertical_parts::{Part, parts, text as text_of_parts};

impl Arrangement {
    /// What is directly above and directly below each vertex, by ascending point: a vertical edge where one covers the wall there, else the
    /// nearest vertex of the wall or edge that passes it (CGAL manual, vertical decomposition). One sweep over the edges.
    ///
    /// # Errors
    ///
    /// There was no memory.
    pub fn vertical_parts(&self) -> Result<Vec<Part>, NoMemory>
        ensures { IfOk result (λ v. ArePartsOf (arranged Observer-dyn self.now).graph v.items) }
    {
        parts(self.alloc, &self.layer.records)
    }

    /// The text of what is directly above and directly below each vertex.
    ///
    /// # Errors
    ///
    /// There was no memory for the text or for a table on the way.
    pub fn vertical_text(&self) -> Result<Vec<u8>, NoMemory>
        ensures { IfOk result (λ bytes. bytes.items ≡ vertical_text (skeleton (graph (layer_in (arranged Observer-dyn self.now)).present))) }
    {
        text_of_parts(self.alloc, &self.layer.records)
    }
}
