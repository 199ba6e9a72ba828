ghost use Rattle.arrangement.specs.Arranged.{arranged, IsWatched};

use crate::layers::asked::names_in;
use crate::layers::edits::{Answer, Edit, apply};
use arrangement::Arrangement;
use std::test::Fail;

/// Whether the edit answers so, and the names of records along the abscissa, all there, are as before.
pub fn keeps_names(layer: &mut Arrangement, edit: Edit, wanted: Answer) -> Result<bool, Fail>
    requires watched { IsWatched (arranged Observer-dyn layer.old) }
    ensures watched { IsWatched (arranged Observer-dyn layer.new) }
{
    let before = names_in(layer)?;
    let answer = apply(layer, edit)?;
    let after = names_in(layer)?;
    Ok(answer == wanted && before.is_some() && after == before)
}
