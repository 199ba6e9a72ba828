// Boxes whose meetings were found by hand.
use crate::{BoxTree, Entry, Visitor};
use exact_plane::{BoundingBox, WholeParts};
use std::alloc::Global;
use std::test::Fail;

// By the numbers of its sides: left, bottom, right, top.
type Sides = (i32, i32, i32, i32);

// Two boxes that share a side, one within the first, one above all, and one that reaches past all of them.
const FEW: [Sides; 5] = [
    (0, 0, 4, 4),
    (4, 0, 8, 4),
    (1, 1, 2, 2),
    (0, 10, 8, 12),
    (-20, -20, 20, -5),
];

// Notes how many entries it was shown, and the sum of their names; its floor is the top of the highest one, where it rises.
#[derive(Drop)]
struct Tally {
    shown: u32,
    sum: usize,
    floor: i32,
    rises: bool,
}

impl Visitor for Tally {
    ghost may_visit = { λ k l. Unit {0} };

    ghost knows = { λ k e. Unit {0} };

    ghost has_seen = { λ l e. Unit {0} };

    ghost floor_of = { λ l. l.floor };

    fn floor(&self) -> i32 {
        self.floor
    }

    fn visit(&mut self, entry: &Entry) {
        self.shown = self.shown.saturating_add(1);
        self.sum = self.sum.saturating_add(entry.name);
        if self.rises && self.floor < entry.bounds.greatest.y {
            self.floor = entry.bounds.greatest.y;
        }
    }
}

fn box_of(sides: Sides) -> BoundingBox {
    BoundingBox {
        least: WholeParts {
            x: sides.0,
            y: sides.1,
        },
        greatest: WholeParts {
            x: sides.2,
            y: sides.3,
        },
    }
}

// Their names are 1, 2, 4 and so on, so that a sum tells which they are.
fn tree_of(alloc: Global, boxes: &[Sides]) -> Result<BoxTree, Fail> {
    let mut tree = BoxTree::new(alloc);
    let mut name = 1usize;
    for sides in boxes {
        tree.reserve(alloc, 1)?;
        tree.insert(Entry {
            name,
            bounds: box_of(*sides),
        });
        name = name.wrapping_mul(2);
    }
    Ok(tree)
}

fn shown_in(tree: &BoxTree, area: Sides) -> (u32, usize) {
    let mut tally = Tally {
        shown: 0,
        sum: 0,
        floor: i32::MIN,
        rises: false,
    };
    tree.visit(&box_of(area), &mut tally);
    (tally.shown, tally.sum)
}

#[test]
fn boxes_that_touch_meet(rt: HostRuntime) -> Result<(), Fail> {
    let tree = tree_of(rt.alloc(), &FEW)?;
    assert_eq!(rt; shown_in(&tree, (4, 4, 4, 4)), (2, 3));
    assert_eq!(rt; shown_in(&tree, (2, 2, 3, 3)), (2, 5));
    assert_eq!(rt; shown_in(&tree, (-3, 4, -1, 9)), (0, 0));
    assert_eq!(rt; shown_in(&tree, (-30, -30, 30, 30)), (5, 31));
    Ok(())
}

#[test]
fn a_removed_entry_is_not_met(rt: HostRuntime) -> Result<(), Fail> {
    let mut tree = tree_of(rt.alloc(), &FEW)?;
    let second = Entry {
        name: 2,
        bounds: box_of((4, 0, 8, 4)),
    };
    assert!(rt; tree.remove(&second));
    assert!(rt; !tree.remove(&second));
    assert_eq!(rt; shown_in(&tree, (-30, -30, 30, 30)), (4, 29));
    tree.clear();
    assert_eq!(rt; shown_in(&tree, (-30, -30, 30, 30)), (0, 0));
    Ok(())
}

// One box lies higher than the ray begins. The floor rises to the top of the first that is shown, below which the last one lies.
#[test]
fn a_floor_that_rises_passes_over_what_is_below(rt: HostRuntime) -> Result<(), Fail> {
    let tree = tree_of(rt.alloc(), &FEW)?;
    let mut still = Tally {
        shown: 0,
        sum: 0,
        floor: i32::MIN,
        rises: false,
    };
    tree.visit_below(WholeParts { x: 1, y: 5 }, &mut still);
    assert_eq!(rt; (still.shown, still.sum), (3, 21));
    let mut rising = Tally {
        shown: 0,
        sum: 0,
        floor: 3,
        rises: true,
    };
    tree.visit_below(WholeParts { x: 1, y: 5 }, &mut rising);
    assert_eq!(rt; (rising.shown, rising.sum, rising.floor), (1, 1, 4));
    Ok(())
}

// As many alike as no tree of 96 levels has places for.
#[test]
fn one_entry_may_be_in_it_many_times(rt: HostRuntime) -> Result<(), Fail> {
    let mut tree = BoxTree::new(rt.alloc());
    let entry = Entry {
        name: 7,
        bounds: box_of((1, 1, 2, 2)),
    };
    for _ in 0..200 {
        tree.reserve(rt.alloc(), 1)?;
        tree.insert(entry);
    }
    assert_eq!(rt; shown_in(&tree, (2, 2, 2, 2)), (200, 1400));
    for _ in 0..199 {
        assert!(rt; tree.remove(&entry));
    }
    assert_eq!(rt; shown_in(&tree, (2, 2, 2, 2)), (1, 7));
    Ok(())
}

// Their names alone tell them apart.
#[test]
fn entries_of_one_box_are_told_apart(rt: HostRuntime) -> Result<(), Fail> {
    let mut tree = tree_of(rt.alloc(), &[(1, 1, 2, 2); 5])?;
    assert_eq!(rt; shown_in(&tree, (2, 2, 2, 2)), (5, 31));
    for (name, left) in [(4, 27), (1, 26), (16, 10), (8, 2), (2, 0)] {
        let entry = Entry {
            name,
            bounds: box_of((1, 1, 2, 2)),
        };
        assert!(rt; tree.remove(&entry));
        assert!(rt; !tree.remove(&entry));
        assert_eq!(rt; shown_in(&tree, (2, 2, 2, 2)).1, left);
    }
    Ok(())
}

// Three boxes side by side, and then one that goes another way at the first level: a fork comes above the three, through which they are
// found and removed. One of the three is moved across that fork, and removed from there.
#[test]
fn a_far_entry_forks_above_all(rt: HostRuntime) -> Result<(), Fail> {
    let far = (-9_000_000, 8_000_000, -8_999_999, 8_000_001);
    let mut tree = tree_of(rt.alloc(), &[(0, 0, 1, 1), (2, 0, 3, 1), (0, 2, 1, 3), far])?;
    assert_eq!(rt; shown_in(&tree, (0, 0, 9, 9)), (3, 7));
    assert_eq!(rt; shown_in(&tree, far), (1, 8));
    let second = Entry {
        name: 2,
        bounds: box_of((2, 0, 3, 1)),
    };
    assert!(rt; tree.remove(&second));
    assert!(rt; !tree.remove(&second));
    assert_eq!(rt; shown_in(&tree, (0, 0, 9, 9)), (2, 5));
    let third = Entry {
        name: 4,
        bounds: box_of((0, 2, 1, 3)),
    };
    let moved = Entry {
        name: 4,
        bounds: box_of(far),
    };
    assert!(rt; tree.replace(&third, moved));
    assert_eq!(rt; shown_in(&tree, (0, 0, 9, 9)), (1, 1));
    assert_eq!(rt; shown_in(&tree, far), (2, 12));
    assert!(rt; tree.remove(&moved));
    assert_eq!(rt; shown_in(&tree, far), (1, 8));
    Ok(())
}
