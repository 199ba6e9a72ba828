ghost use Rattle.std.specs.Prelude.{◌≡◌, ℕ, ◌<◌, ◌==◌, length, slice_index, IfOk, MatchBool, not, fold, sum, reverse};
ghost use Rattle.std.specs.List.{All, range_with_len};
ghost use Rattle.slab_laws.specs.Classes.{class_of, classes};
ghost use Rattle.dart_orbits.specs.LeastNumbers.{same_number, is_less};
ghost use Rattle.plain_slabs.specs.MetNumbers.{AreBelow, AgreesOn, met};

use no_memory::NoMemory;
use slab_laws::Link;
use std::alloc::{AllocError, Global};

// Gives both numbers of a link the lesser of their entries, and says whether the entries differed.
fn meet(table: &mut [usize], link: &Link<usize>) -> bool
    requires one { link.now.one < length table.old }
    requires other { link.now.other < length table.old }
    ensures table { table.new ≡ met table.old link.now }
    ensures changed { result
        ≡ not (slice_index table.old link.now.one == slice_index table.old link.now.other) }
{
    let one = table[link.one];
    let other = table[link.other];
    let low = one.min(other);
    table[link.one] = low;
    table[link.other] = low;
    one != other
}

// Lets the links meet, the first one first, and says whether two entries of a link differed.
fn pass_forwards(table: &mut [usize], links: &[Link<usize>]) -> bool
    requires { AreBelow (length table.old) links.now }
    ensures table { table.new ≡ fold met table.old links.now }
    ensures changed { MatchBool result (sum table.new < sum table.old) (All (AgreesOn table.old) links.now) }
{
    let mut changed = false;
    for link in links {
        if meet(table, link) {
            changed = true;
        }
    }
    changed
}

// Lets the links meet, the last one first: a chain that runs against the order of the links takes one pass.
fn pass_backwards(table: &mut [usize], links: &[Link<usize>])
    requires { AreBelow (length table.old) links.now }
    ensures { table.new ≡ fold met table.old (reverse links.now) }
{
    for link in links.iter().rev() {
        meet(table, link);
    }
}

// Lets the links meet until each link's two entries are equal.
fn settle(table: &mut [usize], links: &[Link<usize>])
    requires below { AreBelow (length table.old) links.now }
    requires alone { table.old ≡ range_with_len 0 (length table.old) }
    ensures { (k : ℕ) → k < length table.old → slice_index table.new k
        ≡ class_of same_number (classes same_number is_less links.now) k }
{
    while pass_forwards(table, links) {
        pass_backwards(table, links);
    }
}

// The table in which each number below `count` has itself.
fn each_alone(alloc: Global, count: usize) -> Result<Vec<usize>, AllocError>
    ensures { IfOk result (λ v. v.items ≡ range_with_len 0 count) }
{
    (0..count).collect(alloc)
}

/// For each number below `count` the least of its class, where each link puts its two numbers into one class.
///
/// A table holds for each number one of its class that isn't above it, at first the number itself. Each link brings its
/// two numbers down to the lesser of their entries, by passes over all links to and fro, until a pass changes nothing.
/// A pass takes as many steps as there are links.
///
/// # Errors
///
/// There was no memory for the table.
pub(crate) fn least_of_classes(
    alloc: Global,
    count: usize,
    links: &[Link<usize>],
) -> Result<Vec<usize>, NoMemory>
    requires { AreBelow count links.now }
    ensures length { IfOk result (λ v. length v.items ≡ count) }
    ensures least { IfOk result (λ v. (k : ℕ) → k < count → slice_index v.items k
        ≡ class_of same_number (classes same_number is_less links.now) k) }
{
    let mut table = each_alone(alloc, count)?;
    settle(&mut table, links);
    Ok(table)
}
