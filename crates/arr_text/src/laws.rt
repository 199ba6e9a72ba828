ghost use Rattle.arr_text.specs.LayerTexts.{OverlayTextIsTheLayers};
ghost use Rattle.arr_text.specs.RecordTexts.{RecordsTellTheirGraph};

/// What sound records say by name is the text of the graph that they draw.
pub fn records_tell_their_graph()
    ensures { RecordsTellTheirGraph }
{}

/// What sound records of an overlay say by name, with the curves of both layers and the ranks of their faces, is the text of
/// the two layers' overlay.
pub fn overlay_text_is_the_layers()
    ensures { OverlayTextIsTheLayers }
{}
