ghost use Rattle.std.specs.Prelude.{◌≡◌, IfOk};
ghost use Rattle.envelope_laws.specs.EnvelopeText.{envelope_text};
ghost use Rattle.lower_envelope.specs.Corners.{IsEnvelopeOf};
ghost use Rattle.arrangement.specs.Arranged.{arranged, layer_in};

use crate::arrangement::Arrangement;
use curve_history::Drawn;
use lower_envelope::{Envelope, Which, envelope_of, text_of as text_of_envelope};
use no_memory::NoMemory;

impl Arrangement {
    /// The lower or the upper envelope: its vertices and what stands between them, from left to right (CGAL manual, envelopes). Isolated
    /// vertices don't count. Looked at are the boundaries of the unbounded face alone: it takes n log n steps, where n is their length.
    ///
    /// # Errors
    ///
    /// There was no memory.
    pub fn envelope(&self, which: Which) -> Result<Envelope, NoMemory>
        ensures { IfOk result (IsEnvelopeOf which (arranged Observer-dyn self.now).graph) }
    {
        self.layer.records.face_laws();
        envelope_of(self.alloc, &self.layer.records, which)
    }

    /// The text of the lower or the upper envelope.
    ///
    /// # Errors
    ///
    /// There was no memory for the text or for a table on the way.
    pub fn envelope_text(&self, which: Which) -> Result<Vec<u8>, NoMemory>
        ensures { IfOk result (λ bytes. bytes.items ≡ envelope_text which (layer_in (arranged Observer-dyn self.now)).present) }
    {
        self.layer.records.face_laws();
        let envelope = envelope_of(self.alloc, &self.layer.records, which)?;
        let drawn = Drawn::new(&self.layer.records, &self.layer.history);
        text_of_envelope(self.alloc, &drawn, which, &envelope)
    }
}
