use std::alloc::Global;
use std::test::Fail;

/// A line of a script, and its reply.
pub type Told = (&'static str, &'static str);

/// Two points.
pub const PINS: [Told; 3] = [
    ("pin 0 0 1", "ok\n"),
    ("pin 1 0 1", "ok\n"),
    (
        "show",
        "arrangement 2 0 1\nv 1 0 0 1 pin :\nv 2 1 0 1 pin :\nf 0\np 1\np 2\nend\n",
    ),
];

/// Two curves along one edge.
pub const EQUAL: [Told; 7] = [
    ("segment 0 0 4 0", "ok 1\n"),
    ("segment 4 0 0 0", "ok 2\n"),
    ("edge 4 0 1 0 0 1", "curves 1 2\n"),
    ("drop 1", "ok\n"),
    ("edge 0 0 1 4 0 1", "curves 2\n"),
    ("count", "counts 2 1 1 1 0 1\n"),
    ("drop 1", "refused 8\n"),
];

/// A square with two holes and two pins.
pub const ISLANDS: [Told; 12] = [
    ("segment 0 0 12 0", "ok 1\n"),
    ("segment 12 0 12 12", "ok 2\n"),
    ("segment 12 12 0 12", "ok 3\n"),
    ("segment 0 12 0 0", "ok 4\n"),
    ("segment 1 1 3 1", "ok 5\n"),
    ("segment 3 1 2 3", "ok 6\n"),
    ("segment 2 3 1 1", "ok 7\n"),
    ("segment 9 9 11 9", "ok 8\n"),
    ("segment 11 9 10 11", "ok 9\n"),
    ("segment 10 11 9 9", "ok 10\n"),
    ("pin 8 2 1", "ok\n"),
    ("pin 3 9 1", "ok\n"),
];

/// The segment that parts it, in three steps.
pub const DIVIDER: &str = "segment 6 0 6 12";

/// It, and what is then.
pub const PARTING: [Told; 2] = [(DIVIDER, "ok 11\n"), ("show", PARTED)];

/// The text of the square that is parted.
pub const PARTED: &str =
    "arrangement 14 13 5\nv 1 0 0 1 : 2 7\nv 2 0 12 1 : 1 8\nv 3 1 1 1 : 4 5\nv 4 2 3 1 : 3 5\nv 5 3 1 1 : 3 4\nv 6 3 9 1 pin :\nv 7 6 0 1 : 1 8 13\nv 8 6 12 1 : 2 14 7\nv 9 8 2 1 pin :\nv 10 9 9 1 : 11 12\nv 11 10 11 1 : 10 12\nv 12 11 9 1 : 10 11\nv 13 12 0 1 : 7 14\nv 14 12 12 1 : 8 13\ne 1 2 : 4\ne 1 7 : 1\ne 2 8 : 3\ne 3 4 : 7\ne 3 5 : 5\ne 4 5 : 6\ne 7 8 : 11\ne 7 13 : 1\ne 8 14 : 3\ne 10 11 : 10\ne 10 12 : 8\ne 11 12 : 9\ne 13 14 : 2\nf 0\nh 1 2 8 14 13 7\nf 1\no 1 7 8 2\nh 3 4 5\np 6\nf 2\no 3 5 4\nf 3\no 7 13 14 8\nh 10 11 12\np 9\nf 4\no 10 12 11\nend\n";

/// Edges cut from two curves.
pub const CUTS: [Told; 14] = [
    ("segment 0 0 9 0", "ok 1\n"),
    ("segment 0 0 9 0", "ok 2\n"),
    ("pin 3 0 1", "ok\n"),
    ("pin 6 0 1", "ok\n"),
    ("cut 3 0 1 6 0 1", "ok\n"),
    ("curve 1", "curve 1\ne 0 0 1 3 0 1\ne 6 0 1 9 0 1\nend\n"),
    ("cut 3 0 1 6 0 1", "refused 9\n"),
    ("count", "counts 4 2 1 2 0 2\n"),
    ("unpin 3 0 1", "ok\n"),
    ("count", "counts 4 2 1 2 0 2\n"),
    ("cut 0 0 1 3 0 1", "ok\n"),
    ("cut 6 0 1 9 0 1", "ok\n"),
    ("curve 2", "curve 2\nend\n"),
    ("count", "counts 1 0 1 0 1 2\n"),
];

/// A square in one line, a path that folds back, and one that crosses itself.
pub const PATHS: [Told; 13] = [
    ("path 0 0 4 0 4 4 0 4 0 0", "ok 1\n"),
    (
        "show",
        "arrangement 4 4 2\nv 1 0 0 1 : 2 3\nv 2 0 4 1 : 1 4\nv 3 4 0 1 : 1 4\nv 4 4 4 1 : 2 3\ne 1 2 : 1\ne 1 3 : 1\ne 2 4 : 1\ne 3 4 : 1\nf 0\nh 1 2 4 3\nf 1\no 1 3 4 2\nend\n",
    ),
    ("clear", "ok\n"),
    ("path 0 0 4 0 1 0", "ok 2\n"),
    ("count", "counts 3 2 1 1 0 1\n"),
    ("merge 1 0 1", "refused 12\n"),
    ("cut 1 0 1 4 0 1", "ok\n"),
    ("count", "counts 2 1 1 1 0 1\n"),
    ("clear", "ok\n"),
    ("path 0 0 2 2 2 0 0 2", "ok 3\n"),
    ("count", "counts 5 5 2 1 0 1\n"),
    ("path 0 0 0 0 1 1", "refused 7\n"),
    ("path 0 0 1", "refused 2\n"),
];

/// Observers that join and leave by plan.
pub const JOINS: [Told; 12] = [
    ("segment 1 0 1 2", "ok 1\n"),
    ("attach 2", "ok\n"),
    ("attach 1 at 3", "ok\n"),
    ("leave 2 at 4", "ok\n"),
    ("segment 0 1 2 1", "ok 2 joined 1 left 2\n"),
    ("mirror 2", "refused 16\n"),
    ("attach 1", "refused 15\n"),
    ("attach 2", "refused 14\n"),
    ("leave 2", "refused 16\n"),
    ("attach 5", "refused 14\n"),
    ("mirror 1", CROSS),
    ("show", CROSS),
];

const CROSS: &str =
    "arrangement 5 4 1\nv 1 0 1 1 : 3\nv 2 1 0 1 : 3\nv 3 1 1 1 : 1 4 5 2\nv 4 1 2 1 : 3\nv 5 2 1 1 : 3\ne 1 3 : 2\ne 2 3 : 1\ne 3 4 : 1\ne 3 5 : 2\nf 0\nh 1 3 4 3 5 3 2 3\nend\n";

/// The overlay of two squares.
pub const SQUARES: [Told; 10] = [
    ("segment 0 0 4 0", "ok 1\n"),
    ("segment 4 0 4 4", "ok 2\n"),
    ("segment 4 4 0 4", "ok 3\n"),
    ("segment 0 4 0 0", "ok 4\n"),
    ("layer blue", "ok\n"),
    ("segment 4 1 7 1", "ok 1\n"),
    ("segment 7 1 7 3", "ok 2\n"),
    ("segment 7 3 4 3", "ok 3\n"),
    ("segment 4 3 4 1", "ok 4\n"),
    (
        "overlay",
        "overlay 8 9 3\nv 1 0 0 1 : 2 3\nv 2 0 4 1 : 1 6\nv 3 4 0 1 : 1 4\nv 4 4 1 1 : 3 5 7\nv 5 4 3 1 : 4 6 8\nv 6 4 4 1 : 2 5\nv 7 7 1 1 : 4 8\nv 8 7 3 1 : 5 7\ne 1 2 : r4\ne 1 3 : r1\ne 2 6 : r3\ne 3 4 : r2\ne 4 5 : r2 b4\ne 4 7 : b1\ne 5 6 : r2\ne 5 8 : b3\ne 7 8 : b2\nf 0 0 0\nh 1 2 6 5 8 7 4 3\nf 1 1 0\no 1 3 4 5 6 2\nf 2 0 1\no 4 7 8 5\nend\n",
    ),
];

/// A square with both diagonals.
pub const DIAGONALS: [Told; 10] = [
    ("segment 0 0 4 0", "ok 1\n"),
    ("segment 4 0 4 4", "ok 2\n"),
    ("segment 4 4 0 4", "ok 3\n"),
    ("segment 0 4 0 0", "ok 4\n"),
    ("segment 0 0 4 4", "ok 5\n"),
    ("segment 0 4 4 0", "ok 6\n"),
    (
        "show",
        "arrangement 5 8 5\nv 1 0 0 1 : 2 3 4\nv 2 0 4 1 : 1 5 3\nv 3 2 2 1 : 1 2 5 4\nv 4 4 0 1 : 1 3 5\nv 5 4 4 1 : 2 4 3\ne 1 2 : 4\ne 1 3 : 5\ne 1 4 : 1\ne 2 3 : 6\ne 2 5 : 3\ne 3 4 : 6\ne 3 5 : 5\ne 4 5 : 2\nf 0\nh 1 2 5 4\nf 1\no 1 3 2\nf 2\no 1 4 3\nf 3\no 2 3 5\nf 4\no 3 4 5\nend\n",
    ),
    ("locate 2 1 1", "face 2\n"),
    ("locate 1 1 1", "edge 0 0 1 2 2 1\n"),
    ("locate 2 2 1", "vertex 2 2 1\n"),
];

/// Nineteen segments across a line, and a pin on it before them.
pub const FENCE: [Told; 20] = [
    ("segment 1 -1 1 1", "ok 1\n"),
    ("segment 2 -1 2 1", "ok 2\n"),
    ("segment 3 -1 3 1", "ok 3\n"),
    ("segment 4 -1 4 1", "ok 4\n"),
    ("segment 5 -1 5 1", "ok 5\n"),
    ("segment 6 -1 6 1", "ok 6\n"),
    ("segment 7 -1 7 1", "ok 7\n"),
    ("segment 8 -1 8 1", "ok 8\n"),
    ("segment 9 -1 9 1", "ok 9\n"),
    ("segment 10 -1 10 1", "ok 10\n"),
    ("segment 11 -1 11 1", "ok 11\n"),
    ("segment 12 -1 12 1", "ok 12\n"),
    ("segment 13 -1 13 1", "ok 13\n"),
    ("segment 14 -1 14 1", "ok 14\n"),
    ("segment 15 -1 15 1", "ok 15\n"),
    ("segment 16 -1 16 1", "ok 16\n"),
    ("segment 17 -1 17 1", "ok 17\n"),
    ("segment 18 -1 18 1", "ok 18\n"),
    ("segment 19 -1 19 1", "ok 19\n"),
    ("pin 0 0 1", "ok\n"),
];

/// The bytes of a script of these lines and then those.
pub fn script_of(alloc: Global, first: &[Told], then: &[Told]) -> Result<Vec<u8>, Fail> {
    let mut script = Vec::new(alloc);
    for (line, _) in first.iter().chain(then) {
        script.extend_from_slice(line.as_bytes())?;
        script.push(b'\n')?;
    }
    Ok(script)
}

/// What follows the replies to those lines whose end is among so many first bytes of the script, if these come first.
pub fn after_replies<'a>(
    taken: &'a [u8],
    first: &[Told],
    then: &[Told],
    read: usize,
) -> Option<&'a [u8]> {
    let mut rest = taken;
    let mut end: usize = 0;
    for (line, reply) in first.iter().chain(then) {
        end = end.saturating_add(line.len()).saturating_add(1);
        if end > read {
            return Some(rest);
        }
        rest = rest.strip_prefix(reply.as_bytes())?;
    }
    Some(rest)
}

/// Whether these are just those replies.
pub fn are_replies(taken: &[u8], first: &[Told], then: &[Told], read: usize) -> bool {
    match after_replies(taken, first, then, read) {
        Some(rest) => rest.is_empty(),
        None => false,
    }
}
