ghost use Rattle.std.specs.Prelude.{◌≡◌, ◌++◌, flat_map, map, codes, OnOk};
ghost use Rattle.slab_laws.specs.Text.{word};
ghost use Rattle.slab_laws.specs.View.{HasDart, HasFace};
ghost use Rattle.slab_laws.specs.OverlayText.{lettered};
ghost use Rattle.arr_text.specs.Reading.{curve_words};

use crate::put::{put_lettered, put_number};
use no_memory::NoMemory;
use slab_laws::{CurveId, Curved, DartId, FaceId, Faced, Layered};
use std::alloc::Global;

/// What differs between the text of a subdivision and that of an overlay.
pub(crate) trait Words<R: Faced> {
    ghost use Rattle.std.specs.Prelude.{List, ℕ};
    ghost use Rattle.slab_laws.specs.declared.names.DartId.{DartId};
    ghost use Rattle.slab_laws.specs.declared.names.FaceId.{FaceId};

    /// The first word of the text.
    ghost title: { List ℕ };

    /// The words of the curves along a dart's edge.
    ghost curves: { R → DartId → List (List ℕ) };

    /// What follows the rank of a face.
    ghost labels: { R → FaceId → List ℕ };

    /// The first word of the text.
    fn title() -> &'static str
        ensures { result.now ≡ title };

    /// Puts the words of the curves along a dart's edge.
    fn put_curves(
        alloc: Global,
        out: &mut Vec<u8>,
        records: &R,
        dart: DartId,
    ) -> Result<(), NoMemory>
        requires { HasDart (R.graph records.now) dart }
        ensures { OnOk result (out.new.items ≡ out.old.items ++ flat_map word (curves records.now dart)) };

    /// Puts what follows the rank of a face.
    fn put_labels(out: &mut Vec<u8>, records: &R, face: FaceId) -> Result<(), NoMemory>
        requires { HasFace (R.faces records.now) face }
        ensures { OnOk result (out.new.items ≡ out.old.items ++ labels records.now face) };
}

// Puts the numbers of curves.
fn put_numbers(out: &mut Vec<u8>, curves: &[CurveId]) -> Result<(), NoMemory>
    ensures { OnOk result (out.new.items ≡ out.old.items ++ flat_map word (curve_words curves.now)) }
{
    for curve in curves {
        put_number(out, curve.0)?;
    }
    Ok(())
}

/// The words of a subdivision: curves by their numbers, and faces by their ranks alone.
pub(crate) struct Plain;

impl<R: Curved + Faced> Words<R> for Plain {
    ghost use Rattle.std.specs.Prelude.{[], codes};
    ghost use Rattle.arr_text.specs.Reading.{curve_words};

    ghost title = { codes "arrangement" };

    ghost curves = { λ r d. curve_words (R.curve_list r d) };

    ghost labels = { λ _ _. [] };

    fn title() -> &'static str {
        "arrangement"
    }

    fn put_curves(
        alloc: Global,
        out: &mut Vec<u8>,
        records: &R,
        dart: DartId,
    ) -> Result<(), NoMemory> {
        let curves = records.curves(alloc, dart)?;
        put_numbers(out, &curves)
    }

    fn put_labels(_out: &mut Vec<u8>, _records: &R, _face: FaceId) -> Result<(), NoMemory> {
        Ok(())
    }
}

// Puts the numbers of curves, each after the letter of its layer.
fn put_layer(out: &mut Vec<u8>, letter: &str, curves: &[CurveId]) -> Result<(), NoMemory>
    ensures { OnOk result
        (out.new.items ≡ out.old.items ++ flat_map word (lettered letter.now (map (λ c. c.0) curves.now))) }
{
    for curve in curves {
        put_lettered(out, letter, curve.0)?;
    }
    Ok(())
}

/// The words of an overlay: red and blue curves, each after the letter of its layer, and beside the rank of a face those of
/// the red face and of the blue face that hold it.
pub(crate) struct Coloured;

impl<R: Layered> Words<R> for Coloured {
    ghost use Rattle.std.specs.Prelude.{codes};
    ghost use Rattle.arr_text.specs.Reading.{layer_words, layer_labels};

    ghost title = { codes "overlay" };

    ghost curves = { λ r d. layer_words (R.red r) (R.blue r) d };

    ghost labels = { λ r f. layer_labels (R.red r) (R.blue r) f };

    fn title() -> &'static str {
        "overlay"
    }

    fn put_curves(
        alloc: Global,
        out: &mut Vec<u8>,
        records: &R,
        dart: DartId,
    ) -> Result<(), NoMemory> {
        let red = records.red_curves(alloc, dart)?;
        let blue = records.blue_curves(alloc, dart)?;
        put_layer(out, "r", &red)?;
        put_layer(out, "b", &blue)
    }

    fn put_labels(out: &mut Vec<u8>, records: &R, face: FaceId) -> Result<(), NoMemory> {
        let red = records.red_of(face);
        let blue = records.blue_of(face);
        put_number(out, red)?;
        put_number(out, blue)
    }
}
