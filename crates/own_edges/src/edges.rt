ghost use Rattle.std.specs.Prelude.{◌≡◌, IfOk};
ghost use Rattle.slab_laws.specs.Overlay.{plane_of};
ghost use Rattle.slab_laws.specs.Sound.{IsGraphSound, skeleton_of};
ghost use Rattle.slab_laws.specs.View.{HasDart};
ghost use Rattle.arr_notes.specs.Curves.{is_forward as goes_forward};
ghost use Rattle.plane_graphs.specs.Piece.{Present};
ghost use Rattle.dcel_records.specs.SoundMaps.{IsSoundMap};
ghost use Rattle.face_ranks.specs.Ranks.{AreRankedAs};
ghost use Rattle.overlay_sweep.specs.OwnEdges.{AreOwnEdges};
ghost use Rattle.own_edges.specs.OwnDarts.{own_of};
ghost use Rattle.own_edges.specs.RankTables.{AreRanksFound};

use crate::ranks::{found_ranks, rank_by};
use arr_notes::dart_names;
use dcel_records::Records;
use face_ranks::Ranking;
use no_memory::NoMemory;
use overlay_sweep::OwnEdge;
use slab_laws::{DartId, Darts, Faced};
use sound_views::span_of;
use std::alloc::Global;

// Whether a dart goes from the lower to the upper end of its edge.
fn is_forward(records: &Records, dart: DartId) -> bool
    requires sound { IsGraphSound records.now.graph }
    requires dart { HasDart records.now.graph dart }
    ensures { result ≡ goes_forward records.now.graph dart }
{
    records.point(records.source(dart)) < records.point(records.target(dart))
}

// The edge of a dart, with the rank of the face on the dart's left.
fn own_edge(records: &Records, ranking: Ranking, found: &[usize], dart: DartId) -> OwnEdge
    requires map { IsSoundMap records.now }
    requires found { AreRanksFound ranking records.now found.now }
    requires dart { HasDart records.now.graph dart }
    ensures { result ≡ own_of records.now dart }
{
    let face = records.face(records.cycle(dart));
    OwnEdge {
        span: span_of(records, dart),
        over: rank_by(records, ranking, found, face),
    }
}

/// All edges, each with the rank of the face above it, in the order of the names of the darts from their lower to their upper ends (CGAL
/// manual: the face incident to a halfedge).
///
/// `ranking` says what the records keep of the ranks of their faces. Where each face was given its rank this is one look at each dart; else
/// the keys of the outer cycles are sorted on the way, as many as there are bounded faces, and where they aren't listed one walk goes along
/// each outer cycle.
///
/// # Errors
///
/// There was no memory for the list or for a table on the way.
pub fn own_edges(
    alloc: Global,
    records: &Records,
    ranking: Ranking,
) -> Result<Vec<OwnEdge>, NoMemory>
    requires map { IsSoundMap records.now }
    requires known { AreRankedAs ranking records.now }
    ensures { IfOk result (λ v. (p : Present) → plane_of p ≡ skeleton_of records.now.graph → AreOwnEdges p v.items) }
{
    let found = found_ranks(alloc, records, ranking)?;
    let names = dart_names(alloc, records)?;
    let mut edges = Vec::new(alloc);
    'names: for name in &names {
        if is_forward(records, *name) {
            edges.push(own_edge(records, ranking, &found, *name))?;
        }
    }
    Ok(edges)
}
