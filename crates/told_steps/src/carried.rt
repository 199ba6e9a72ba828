ghost use Rattle.std.specs.Prelude.{◌≡◌};
ghost use Rattle.dcel_records.specs.RecordsView.{graph_part, tables_of, IsSpareFaces};
ghost use Rattle.dcel_records.specs.SoundMaps.{IsMapAtRest, IsSoundMap};
ghost use Rattle.edge_link.specs.FacedLinks.{IsCarried as IsLinkCarried};
ghost use Rattle.edge_unlink.specs.FacedUnlinks.{IsCarried as IsUnlinkCarried};
ghost use Rattle.told_steps.specs.StepsMade.{IsChangeCarried};

use arr_notes::{Change, Linked, Unlinked};
use dcel_records::Records;

// Where an edge came, a link that split a face has carried off the lists of what moved.
fn settle_link(records: &mut Records, faces: Linked)
    requires map { IsSoundMap records.old }
    requires carried { IsLinkCarried records.old faces }
    ensures map { IsMapAtRest records.new }
    ensures graph { graph_part records.new ≡ graph_part records.old }
    ensures tables { tables_of records.new ≡ tables_of records.old }
    ensures spare { IsSpareFaces records.old.faces records.new.faces 0 0 }
{
    match faces {
        Linked::NewHole { .. } => {}
        Linked::Grows { .. } => {}
        Linked::Joins { .. } => {}
        Linked::Splits { moved, .. } => records.give_back(moved),
    }
}

// Where an edge went, what united two faces has.
fn settle_unlink(records: &mut Records, faces: Unlinked)
    requires map { IsSoundMap records.old }
    requires carried { IsUnlinkCarried records.old faces }
    ensures map { IsMapAtRest records.new }
    ensures graph { graph_part records.new ≡ graph_part records.old }
    ensures tables { tables_of records.new ≡ tables_of records.old }
    ensures spare { IsSpareFaces records.old.faces records.new.faces 0 0 }
{
    match faces {
        Unlinked::Vanishes { .. } => {}
        Unlinked::Shrinks { .. } => {}
        Unlinked::Breaks { .. } => {}
        Unlinked::Unites { moved, .. } => records.give_back(moved),
    }
}

/// The records get back the lists of what moved, which a change may have on their way; observers have been told it.
pub(crate) fn settle(records: &mut Records, told: Change)
    requires map { IsSoundMap records.old }
    requires carried { IsChangeCarried records.old told }
    ensures map { IsMapAtRest records.new }
    ensures graph { graph_part records.new ≡ graph_part records.old }
    ensures tables { tables_of records.new ≡ tables_of records.old }
    ensures spare { IsSpareFaces records.old.faces records.new.faces 0 0 }
{
    match told {
        Change::AddEdge { faces, .. } => settle_link(records, faces),
        Change::RemoveEdge { faces, .. } => settle_unlink(records, faces),
        _ => {}
    }
}
