ghost use Rattle.arrangement.specs.Arranged.{arranged, IsWatched};

use arrangement::{Arrangement, AttachError, Observer, ReportError};
use std::test::Fail;

/// Whether the last of the observers is answered so under a name; one that is refused is handed back.
pub fn is_met(
    layer: &mut Arrangement,
    name: u32,
    wanted: Option<AttachError>,
    observers: &mut Vec<Box<dyn Observer>>,
) -> Result<bool, Fail>
    requires watched { IsWatched (arranged Observer-dyn layer.old) }
    ensures watched { IsWatched (arranged Observer-dyn layer.new) }
{
    let Some(observer) = observers.pop() else {
        return Ok(false);
    };
    match layer.attach(name, observer, None) {
        Ok(()) => Ok(wanted.is_none()),
        Err((back, error)) => {
            observers.push(back)?;
            Ok(wanted == Some(error))
        }
    }
}

/// Whether a seated observer of the name leaves.
pub fn leaves(layer: &mut Arrangement, name: u32) -> bool
    requires watched { IsWatched (arranged Observer-dyn layer.old) }
    ensures watched { IsWatched (arranged Observer-dyn layer.new) }
{
    layer.leave(name, None).is_ok()
}

/// Whether the observer of the name reports this, or none is seated.
pub fn reports(layer: &Arrangement, name: u32, wanted: Option<&[u8]>) -> bool
    requires watched { IsWatched (arranged Observer-dyn layer.now) }
{
    match (layer.report(name), wanted) {
        (Ok(bytes), Some(wanted)) => bytes.as_slice() == wanted,
        (Err(ReportError::NoSeat), None) => true,
        _ => false,
    }
}
