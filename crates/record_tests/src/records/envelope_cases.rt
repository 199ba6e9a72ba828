use crate::shapes::{At, Ends};

pub(crate) struct Case {
    pub(crate) name: &'static str,
    pub(crate) segments: &'static [Ends],
    pub(crate) pins: &'static [At],
    /// A line for each vertex of the lower envelope, and behind it one for the edge, by its ends, or the gap on its right. By
    /// another program.
    pub(crate) lower: &'static [u8],
    /// Those of the upper one.
    pub(crate) upper: &'static [u8],
}

pub(crate) const CASES: [Case; 14] = [
    Case {
        name: "nothing",
        segments: &[],
        pins: &[],
        lower: b"",
        upper: b"",
    },
    Case {
        name: "a pin alone",
        segments: &[],
        pins: &[(1, 3, 2)],
        lower: b"",
        upper: b"",
    },
    Case {
        name: "a long segment, a short one below it, and one further right",
        segments: &[(0, 2, 6, 2), (1, 0, 3, 0), (8, 1, 9, 1)],
        pins: &[],
        lower: b"\
            v 0 2 1 \n\
            e 0 2 1 6 2 1 \n\
            v 1 0 1 \n\
            e 1 0 1 3 0 1 \n\
            v 3 0 1 \n\
            e 0 2 1 6 2 1 \n\
            v 6 2 1 \n\
            gap\n\
            v 8 1 1 \n\
            e 8 1 1 9 1 1 \n\
            v 9 1 1 \n",
        upper: b"\
            v 0 2 1 \n\
            e 0 2 1 6 2 1 \n\
            v 6 2 1 \n\
            gap\n\
            v 8 1 1 \n\
            e 8 1 1 9 1 1 \n\
            v 9 1 1 \n",
    },
    Case {
        name: "a vertical segment alone",
        segments: &[(1, 0, 1, 2)],
        pins: &[],
        lower: b"\
            v 1 0 1 \n",
        upper: b"\
            v 1 2 1 \n",
    },
    Case {
        name: "a pin on a segment",
        segments: &[(0, 0, 4, 0)],
        pins: &[(2, 0, 1)],
        lower: b"\
            v 0 0 1 \n\
            e 0 0 1 2 0 1 \n\
            v 2 0 1 \n\
            e 2 0 1 4 0 1 \n\
            v 4 0 1 \n",
        upper: b"\
            v 0 0 1 \n\
            e 0 0 1 2 0 1 \n\
            v 2 0 1 \n\
            e 2 0 1 4 0 1 \n\
            v 4 0 1 \n",
    },
    Case {
        name: "a pin in a gap",
        segments: &[(0, 0, 1, 0), (3, 0, 4, 0)],
        pins: &[(2, 5, 1)],
        lower: b"\
            v 0 0 1 \n\
            e 0 0 1 1 0 1 \n\
            v 1 0 1 \n\
            gap\n\
            v 3 0 1 \n\
            e 3 0 1 4 0 1 \n\
            v 4 0 1 \n",
        upper: b"\
            v 0 0 1 \n\
            e 0 0 1 1 0 1 \n\
            v 1 0 1 \n\
            gap\n\
            v 3 0 1 \n\
            e 3 0 1 4 0 1 \n\
            v 4 0 1 \n",
    },
    Case {
        name: "pins below and above",
        segments: &[(0, 0, 4, 0)],
        pins: &[(1, -1, 1), (2, 2, 1)],
        lower: b"\
            v 0 0 1 \n\
            e 0 0 1 4 0 1 \n\
            v 4 0 1 \n",
        upper: b"\
            v 0 0 1 \n\
            e 0 0 1 4 0 1 \n\
            v 4 0 1 \n",
    },
    Case {
        name: "two that cross",
        segments: &[(0, 0, 3, 1), (0, 1, 3, 0)],
        pins: &[],
        lower: b"\
            v 0 0 1 \n\
            e 0 0 1 3 1 2 \n\
            v 3 1 2 \n\
            e 3 1 2 3 0 1 \n\
            v 3 0 1 \n",
        upper: b"\
            v 0 1 1 \n\
            e 0 1 1 3 1 2 \n\
            v 3 1 2 \n\
            e 3 1 2 3 1 1 \n\
            v 3 1 1 \n",
    },
    Case {
        name: "a post below and one above",
        segments: &[(0, 4, 8, 4), (2, 1, 2, 3), (6, 4, 6, 7)],
        pins: &[],
        lower: b"\
            v 0 4 1 \n\
            e 0 4 1 6 4 1 \n\
            v 2 1 1 \n\
            e 0 4 1 6 4 1 \n\
            v 6 4 1 \n\
            e 6 4 1 8 4 1 \n\
            v 8 4 1 \n",
        upper: b"\
            v 0 4 1 \n\
            e 0 4 1 6 4 1 \n\
            v 6 7 1 \n\
            e 6 4 1 8 4 1 \n\
            v 8 4 1 \n",
    },
    Case {
        name: "posts at both ends",
        segments: &[(0, 0, 4, 2), (0, -1, 0, 3), (4, 0, 4, 2)],
        pins: &[],
        lower: b"\
            v 0 -1 1 \n\
            e 0 0 1 4 2 1 \n\
            v 4 0 1 \n",
        upper: b"\
            v 0 3 1 \n\
            e 0 0 1 4 2 1 \n\
            v 4 2 1 \n",
    },
    Case {
        name: "roofs under a roof",
        segments: &[
            (0, 6, 10, 6),
            (1, 1, 3, 3),
            (3, 3, 5, 1),
            (5, 1, 7, 4),
            (7, 4, 9, 1),
            (2, 0, 8, -2),
        ],
        pins: &[(4, 2, 1)],
        lower: b"\
            v 0 6 1 \n\
            e 0 6 1 10 6 1 \n\
            v 1 1 1 \n\
            e 1 1 1 3 3 1 \n\
            v 2 0 1 \n\
            e 2 0 1 8 -2 1 \n\
            v 8 -2 1 \n\
            e 7 4 1 9 1 1 \n\
            v 9 1 1 \n\
            e 0 6 1 10 6 1 \n\
            v 10 6 1 \n",
        upper: b"\
            v 0 6 1 \n\
            e 0 6 1 10 6 1 \n\
            v 10 6 1 \n",
    },
    Case {
        name: "many through one vertex",
        segments: &[(0, 0, 4, 4), (0, 4, 4, 0), (2, 0, 2, 4), (0, 2, 4, 2)],
        pins: &[],
        lower: b"\
            v 0 0 1 \n\
            e 0 0 1 2 2 1 \n\
            v 2 0 1 \n\
            e 2 2 1 4 0 1 \n\
            v 4 0 1 \n",
        upper: b"\
            v 0 4 1 \n\
            e 0 4 1 2 2 1 \n\
            v 2 4 1 \n\
            e 2 2 1 4 4 1 \n\
            v 4 4 1 \n",
    },
    Case {
        name: "a square within a square",
        segments: &[
            (0, 0, 8, 0),
            (8, 0, 8, 8),
            (8, 8, 0, 8),
            (0, 8, 0, 0),
            (2, 2, 4, 2),
            (4, 2, 4, 4),
            (4, 4, 2, 4),
            (2, 4, 2, 2),
        ],
        pins: &[],
        lower: b"\
            v 0 0 1 \n\
            e 0 0 1 8 0 1 \n\
            v 8 0 1 \n",
        upper: b"\
            v 0 8 1 \n\
            e 0 8 1 8 8 1 \n\
            v 8 8 1 \n",
    },
    Case {
        name: "stairs",
        segments: &[(0, 0, 5, 0), (1, 1, 6, 1), (2, 2, 7, 2), (3, 3, 8, 3)],
        pins: &[],
        lower: b"\
            v 0 0 1 \n\
            e 0 0 1 5 0 1 \n\
            v 5 0 1 \n\
            e 1 1 1 6 1 1 \n\
            v 6 1 1 \n\
            e 2 2 1 7 2 1 \n\
            v 7 2 1 \n\
            e 3 3 1 8 3 1 \n\
            v 8 3 1 \n",
        upper: b"\
            v 0 0 1 \n\
            e 0 0 1 5 0 1 \n\
            v 1 1 1 \n\
            e 1 1 1 6 1 1 \n\
            v 2 2 1 \n\
            e 2 2 1 7 2 1 \n\
            v 3 3 1 \n\
            e 3 3 1 8 3 1 \n\
            v 8 3 1 \n",
    },
];
