ghost use Rattle.std.specs.Prelude.{◌≡◌};
ghost use Rattle.box_tree.specs.Entries.{is_same};

use exact_plane::BoundingBox;

/// A name with its box, in whole plane units.
#[derive(Clone, Copy)]
pub struct Entry {
    pub name: usize,
    pub bounds: BoundingBox,
}

// Of the sum of two ends, how many bits tell places apart, from the highest on: ends below 2^24 have sums of 26 bits with their sign.
const BITS: u32 = 26;

impl Entry {
    // Whether it has the other one's name and box.
    pub fn is(&self, other: &Entry) -> bool
        ensures { result ≡ is_same self.now other.now }
    {
        self.name == other.name && self.bounds.is_same(&other.bounds)
    }

    // The longer side of its box.
    pub(crate) fn size(&self) -> u32 {
        let wide = self.bounds.greatest.x.abs_diff(self.bounds.least.x);
        let tall = self.bounds.greatest.y.abs_diff(self.bounds.least.y);
        wide.max(tall)
    }

    // The side on which it goes down from a fork at this level: by the bits of the middle, x and y by turns, then by
    // those of the name, the lowest first.
    pub(crate) fn is_high(&self, level: u32) -> bool {
        let turn = level / 2;
        if turn < BITS {
            let sum = if level % 2 == 0 {
                self.sum_x()
            } else {
                self.sum_y()
            };
            sum >> (BITS - 1 - turn) & 1 == 1
        } else {
            self.name >> (level - 2 * BITS) % 64 & 1 == 1
        }
    }

    // The first level at which it and another one go down on different sides. Where there is none, it is past all levels.
    pub(crate) fn parting(&self, other: &Entry) -> u32 {
        let x = first_bit(self.sum_x() ^ other.sum_x());
        let y = first_bit(self.sum_y() ^ other.sum_y());
        if x.min(y) >= BITS {
            return 2 * BITS + (self.name ^ other.name).trailing_zeros();
        }
        if x <= y { 2 * x } else { 2 * y + 1 }
    }

    // Twice the abscissa of its middle, from 0 on.
    fn sum_x(&self) -> u32 {
        let sum = self.bounds.least.x.wrapping_add(self.bounds.greatest.x);
        sum.cast_unsigned().wrapping_add(1 << (BITS - 1))
    }

    fn sum_y(&self) -> u32 {
        let sum = self.bounds.least.y.wrapping_add(self.bounds.greatest.y);
        sum.cast_unsigned().wrapping_add(1 << (BITS - 1))
    }
}

// The first of the bits that tell places apart which is set, from the highest on. Where none is, it is past all of them.
fn first_bit(bits: u32) -> u32 {
    (bits << (u32::BITS - BITS)).leading_zeros()
}
