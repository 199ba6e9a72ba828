ghost use Rattle.std.specs.Prelude.{◌≡◌, ◌<◌, List, length, map, flat_map, IfOk};
ghost use Rattle.std.specs.List.{All, Contains};
ghost use Rattle.plane_graphs.specs.Ascending.{ascending, IsAscending};
ghost use Rattle.slab_laws.specs.Classes.{class_of, classes};
ghost use Rattle.slab_laws.specs.Faces.{same_cell, cell_below};
ghost use Rattle.slab_laws.specs.declared.slab_cell.SlabCell.{SlabCell};
ghost use Rattle.plain_slabs.specs.MetNumbers.{AreBelow};
ghost use Rattle.plain_slabs.specs.CellLabels.{cell_cmp, ends, cell_at, link_at};

use crate::numbers::least_of_classes;
use no_memory::NoMemory;
use slab_laws::{Link, SlabCell};
use std::alloc::{AllocError, Global};
use std::marker::Model;

/// For each cell of some links the least cell of its class.
#[derive(Drop)]
pub(crate) struct CellLabels {
    cells: Vec<SlabCell>,
    least: Vec<SlabCell>,
}

impl Model for CellLabels {
    ghost use Rattle.std.specs.Prelude.{◌≡◌, List, length};
    ghost use Rattle.plane_graphs.specs.Ascending.{IsAscending};
    ghost use Rattle.slab_laws.specs.declared.slab_cell.SlabCell.{SlabCell};
    ghost use Rattle.slab_laws.specs.declared.classes.Label.{Label};
    ghost use Rattle.plain_slabs.specs.CellLabels.{cell_cmp, labels};

    ghost Value = { List (Label SlabCell) };

    ghost view = { λ t. labels t.cells.items t.least.items };

    ghost invariant = { λ t. IsAscending cell_cmp t.cells.items × (length t.least.items ≡ length t.cells.items) };
}

// Brings cells into their order, each once.
fn arrange(cells: &mut Vec<SlabCell>)
    ensures { cells.new.items ≡ ascending cell_cmp cells.old.items }
{
    cells.sort_unstable();
    cells.dedup();
}

// The cells of the links, one link after the other.
fn gather(alloc: Global, links: &[Link<SlabCell>]) -> Result<Vec<SlabCell>, NoMemory>
    ensures { IfOk result (λ v. v.items ≡ flat_map ends links.now) }
{
    let mut cells = Vec::new(alloc);
    for link in links {
        cells.push(link.one)?;
        cells.push(link.other)?;
    }
    Ok(cells)
}

// The place of a cell that stands in the list.
fn number_of(cells: &[SlabCell], cell: SlabCell) -> usize
    requires ascend { IsAscending cell_cmp cells.now }
    requires among { Contains cells.now cell }
    ensures below { result < length cells.now }
    ensures there { cell_at cells.now result ≡ cell }
{
    match cells.binary_search(&cell) {
        Ok(place) => place,
        // never: the cell stands in the list
        Err(place) => place,
    }
}

// The links between the numbers of the cells.
fn number_links(
    alloc: Global,
    cells: &[SlabCell],
    links: &[Link<SlabCell>],
) -> Result<Vec<Link<usize>>, NoMemory>
    requires ascend { IsAscending cell_cmp cells.now }
    requires among { All (λ l. Contains cells.now l.one × Contains cells.now l.other) links.now }
    ensures below { IfOk result (λ v. AreBelow (length cells.now) v.items) }
    ensures links { IfOk result (λ v. map (link_at cells.now) v.items ≡ links.now) }
{
    let mut numbered = Vec::new(alloc);
    for link in links {
        let one = number_of(cells, link.one);
        let other = number_of(cells, link.other);
        numbered.push(Link { one, other })?;
    }
    Ok(numbered)
}

// The cells with these numbers.
fn cells_at(
    alloc: Global,
    cells: &[SlabCell],
    numbers: &[usize],
) -> Result<Vec<SlabCell>, AllocError>
    requires { All (λ k. k < length cells.now) numbers.now }
    ensures { IfOk result (λ v. v.items ≡ map (cell_at cells.now) numbers.now) }
{
    numbers.iter().map(|n| cells[*n]).collect(alloc)
}

impl CellLabels {
    /// The labels that the links give.
    ///
    /// Cells are numbered in their order, so the least number of a class is that of its least cell.
    ///
    /// # Errors
    ///
    /// There was no memory for the labels or for the tables that they are found with.
    pub(crate) fn of_links(alloc: Global, links: &[Link<SlabCell>]) -> Result<CellLabels, NoMemory>
        ensures { IfOk result (λ ls. (c : SlabCell) → class_of same_cell ls c
            ≡ class_of same_cell (classes same_cell cell_below links.now) c) }
    {
        let mut cells = gather(alloc, links)?;
        arrange(&mut cells);
        let numbered = number_links(alloc, &cells, links)?;
        let numbers = least_of_classes(alloc, cells.len(), &numbered)?;
        let least = cells_at(alloc, &cells, &numbers)?;
        Ok(CellLabels { cells, least })
    }

    /// The least cell of the class of a cell; a cell of no link is alone in its class.
    ///
    /// It takes time logarithmic in the number of cells.
    pub(crate) fn least_of(&self, cell: SlabCell) -> SlabCell
        ensures { result ≡ class_of same_cell self.now cell }
    {
        match self.cells.binary_search(&cell) {
            Ok(place) => self.least[place],
            Err(_) => cell,
        }
    }
}
