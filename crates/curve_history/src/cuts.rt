ghost use Rattle.std.specs.Prelude.{◌≡◌, ◌≤◌, ◌+◌, ◌∷◌, ◌++◌, [], ◌^◌, ◌<◌, ◌&&◌, ◌||◌, ◌≢◌, not, true, false, cond, length, map, drop};
ghost use Rattle.std.specs.List.{filter};
ghost use Rattle.exact_plane.specs.Segment.{line_of_segment};
ghost use Rattle.edit_steps.specs.Steps.{cut_piece};
ghost use Rattle.plane_graphs.specs.Ascending.{Member};
ghost use Rattle.plane_graphs.specs.Line.{is_on as is_on_line, precedes};
ghost use Rattle.plane_graphs.specs.Piece.{along, on};
ghost use Rattle.slab_laws.specs.FaceLists.{first_of};
ghost use Rattle.slab_laws.specs.Pieces.{piece_of};
ghost use Rattle.slab_laws.specs.Tables.{names};
ghost use Rattle.curve_pieces.specs.PieceRows.{items, HasPiece};
ghost use Rattle.curve_history.specs.Cuts.{kept_whole, leaves_some, rests_of, spans, AllLeaveSome, ArePut, IsPlanOfCut, IsPlanWithNext, IsReplaced};

use curve_pieces::Pieces;
use exact_plane::{Point, Segment, Sign, orientation};
use slab_laws::Piece;

/// What a cut between two points will leave of pieces, told before the first change.
#[derive(Clone, Copy)]
pub struct CutPlan {
    /// How many pieces will be left.
    pub left: u64,
    /// The place of the first piece that holds both points; one past the last piece where none does.
    pub first: usize,
    /// The place after the last piece that holds both points.
    pub end: usize,
    /// Whether nothing will be left of some piece.
    pub some_go: bool,
}

// Whether a point is on the line through the ends of a segment.
fn is_on(segment: &Segment, point: &Point) -> bool
    ensures { result ≡ is_on_line (line_of_segment segment.now) point.now }
{
    orientation(segment, point) == Sign::Zero
}

// Whether both points are on the line of a piece.
fn runs_along(piece: &Piece, p: &Point, q: &Point) -> bool
    ensures { result ≡ (along (piece_of piece.now) p.now && along (piece_of piece.now) q.now) }
{
    is_on(&piece.segment, p) && is_on(&piece.segment, q)
}

pub(crate) fn comes_before(p: &Point, q: &Point) -> bool
    ensures { result ≡ precedes p.now q.now }
{
    *p < *q
}

// Whether a piece neither begins after the first point nor ends before the second one.
#[inline(always)]
fn spans(piece: &Piece, p: &Point, q: &Point) -> bool
    ensures { result ≡ spans (piece_of piece.now) p.now q.now }
{
    !comes_before(p, &piece.from) && !comes_before(&piece.to, q)
}

// Whether both points are on the line of a piece that neither begins after the first nor ends before the second.
#[inline(never)]
fn lies_along(piece: &Piece, p: &Point, q: &Point) -> bool
    ensures { result ≡ ((along (piece_of piece.now) p.now && along (piece_of piece.now) q.now) && spans (piece_of piece.now) p.now q.now) }
{
    runs_along(piece, p, q) && spans(piece, p, q)
}

// Whether both points are on a piece, in whatever order they come. Most pieces don't reach from the first to the second, which
// costs least to see.
#[inline(always)]
fn holds_both(piece: &Piece, p: &Point, q: &Point) -> bool
    ensures { result ≡ (on (piece_of piece.now) p.now && on (piece_of piece.now) q.now) }
{
    spans(piece, p, q) && lies_along(piece, q, p)
}

// Whether a piece begins before the first point or ends after the second one.
fn passes_one(piece: &Piece, p: &Point, q: &Point) -> bool
    ensures { result ≡ (precedes piece.now.from p.now || precedes q.now piece.now.to) }
{
    comes_before(&piece.from, p) || comes_before(q, &piece.to)
}

// Whether something is left of a piece without the part between two points.
fn leaves_rest(piece: &Piece, p: &Point, q: &Point) -> bool
    ensures { result ≡ leaves_some p.now q.now (piece_of piece.now) }
{
    passes_one(piece, p, q) || !holds_both(piece, p, q)
}

// The number of pieces that a test gives.
fn one_if(test: bool) -> u64
    ensures { result ≡ cond test 1 0 }
{
    if test { 1 } else { 0 }
}

// How many pieces are left of one that holds both points without the part between them.
fn count_rests(piece: &Piece, p: &Point, q: &Point) -> u64
    requires { (on (piece_of piece.now) p.now && on (piece_of piece.now) q.now) ≡ true }
    ensures { result ≡ length (cut_piece p.now q.now (piece_of piece.now)) }
{
    let begins = comes_before(&piece.from, p);
    let ends = comes_before(q, &piece.to);
    one_if(begins) + one_if(ends)
}

// The plan with one piece more, which holds both points and leaves so many.
fn with_held(plan: CutPlan, place: usize, rests: u64) -> CutPlan
    requires place { place < 2 ^ 32 }
    requires left { plan.left < 2 ^ 34 }
    requires rests { rests ≤ 2 }
    ensures left { result.left ≡ plan.left + rests }
    ensures first { result.first ≡ plan.first }
    ensures end { result.end ≡ place + 1 }
    ensures stay { result.some_go ≡ false → (plan.some_go ≡ false) × (1 ≤ rests) }
{
    CutPlan {
        left: plan.left + rests,
        first: plan.first,
        end: place + 1,
        some_go: plan.some_go || rests == 0,
    }
}

// The plan with one piece more, which stays whole. The run of those that hold both points begins behind it, unless one came
// before.
fn with_whole(plan: CutPlan, place: usize) -> CutPlan
    requires place { place < 2 ^ 32 }
    requires left { plan.left < 2 ^ 34 }
    ensures left { result.left ≡ plan.left + 1 }
    ensures none { plan.first ≡ place → (result.first ≡ place + 1) × (result.end ≡ place + 1) }
    ensures some { plan.first ≢ place → (result.first ≡ plan.first) × (result.end ≡ plan.end) }
    ensures stay { result.some_go ≡ plan.some_go }
{
    let left = plan.left + 1;
    if plan.first == place {
        CutPlan {
            left,
            first: place + 1,
            end: place + 1,
            some_go: plan.some_go,
        }
    } else {
        CutPlan { left, ..plan }
    }
}

// The plan with the piece at a place, where the plan is one for those before it.
fn with_next(plan: CutPlan, place: usize, piece: &Piece, p: &Point, q: &Point) -> CutPlan
    requires place { place < 2 ^ 32 }
    requires left { plan.left < 2 ^ 34 }
    ensures { IsPlanWithNext p.now q.now plan place (piece_of piece.now) result }
{
    if holds_both(piece, p, q) {
        with_held(plan, place, count_rests(piece, p, q))
    } else {
        with_whole(plan, place)
    }
}

/// What the cut between two points will leave of pieces.
pub(crate) fn plan_of_cut(pieces: &Pieces, p: &Point, q: &Point) -> CutPlan
    requires { length pieces.now.rows < 2 ^ 32 }
    ensures { IsPlanOfCut p.now q.now (map piece_of (items pieces.now)) result }
{
    let mut plan = CutPlan {
        left: 0,
        first: 0,
        end: 0,
        some_go: false,
    };
    'each: for (place, piece) in pieces.iter().enumerate() {
        plan = with_next(plan, place, piece, p, q);
    }
    plan
}

// The piece of a name goes where nothing is left of it.
fn drop_spent(pieces: &mut Pieces, name: usize, p: &Point, q: &Point)
    requires { HasPiece pieces.old name }
    ensures rows { IsReplaced (kept_whole p.now q.now) pieces.old pieces.new name }
    ensures capacity { pieces.new.capacity ≡ pieces.old.capacity }
{
    pieces.laws();
    if !leaves_rest(pieces.piece(name), p, q) {
        pieces.remove(name);
    }
}

// The pieces of which nothing is left go.
fn remove_spent(pieces: &mut Pieces, p: &Point, q: &Point)
    ensures items { map piece_of (items pieces.new) ≡ filter (leaves_some p.now q.now) (map piece_of (items pieces.old)) }
    ensures capacity { pieces.new.capacity ≡ pieces.old.capacity }
{
    let mut at = pieces.first();
    'each: for _ in 0..pieces.len() {
        let Some(name) = at else {
            return;
        };
        at = pieces.after(name);
        drop_spent(pieces, name, p, q);
    }
}

// In place of the piece of a name stand the part below and the part above, each if a test says so; they are of its curve.
fn put_parts(pieces: &mut Pieces, name: usize, begins: bool, below: Piece, ends: bool, above: Piece)
    requires has { HasPiece pieces.old name }
    requires below { (k : _) → Member (name, k) pieces.old.rows → k.curve ≡ below.curve }
    requires above { below.curve ≡ above.curve }
    requires room { begins ≡ true → ends ≡ true → length pieces.old.rows + 1 ≤ pieces.old.capacity }
    ensures rows { ArePut pieces.old pieces.new name (cond begins (below ∷ []) [] ++ cond ends (above ∷ []) []) }
    ensures capacity { pieces.new.capacity ≡ pieces.old.capacity }
{
    if begins {
        pieces.set(name, below);
        if ends {
            pieces.put_after(name, above);
        }
    } else if ends {
        pieces.set(name, above);
    } else {
        pieces.remove(name);
    }
}

// What is left of the piece of a name stands in its place, in room that is there.
fn cut_one(pieces: &mut Pieces, name: usize, p: &Point, q: &Point)
    requires has { HasPiece pieces.old name }
    requires room { (k : _) → Member (name, k) pieces.old.rows → length pieces.old.rows + length (cut_piece p.now q.now (piece_of k)) ≤ pieces.old.capacity + 1 }
    ensures rows { IsReplaced (cut_piece p.now q.now) pieces.old pieces.new name }
    ensures capacity { pieces.new.capacity ≡ pieces.old.capacity }
{
    pieces.laws();
    let piece = *pieces.piece(name);
    if holds_both(&piece, p, q) {
        let begins = comes_before(&piece.from, p);
        let ends = comes_before(q, &piece.to);
        let below = Piece { to: *p, ..piece };
        let above = Piece { from: *q, ..piece };
        put_parts(pieces, name, begins, below, ends, above);
    }
}

// The name of the piece at a place.
fn name_at(pieces: &Pieces, place: usize) -> Option<usize>
    ensures { result ≡ first_of (names (drop place pieces.now.rows)) }
{
    let mut at = pieces.first();
    'each: for _ in 0..place {
        let Some(name) = at else {
            return None;
        };
        at = pieces.after(name);
    }
    at
}

// What is left of pieces, of which each leaves some.
fn cut_run(pieces: &mut Pieces, p: &Point, q: &Point, plan: CutPlan)
    requires plan { IsPlanOfCut p.now q.now (map piece_of (items pieces.old)) plan }
    requires some { AllLeaveSome p.now q.now (map piece_of (items pieces.old)) }
    requires room { plan.left ≤ pieces.old.capacity }
    ensures { map piece_of (items pieces.new) ≡ rests_of p.now q.now (map piece_of (items pieces.old)) }
{
    let mut at = name_at(pieces, plan.first);
    'each: for _ in plan.first..plan.end {
        pieces.laws();
        let Some(name) = at else {
            return;
        };
        at = pieces.after(name);
        cut_one(pieces, name, p, q);
    }
}

/// What is left of pieces without the part between two points, in their memory. Only pieces that hold both change.
pub(crate) fn cut_all(pieces: &mut Pieces, p: &Point, q: &Point, plan: CutPlan)
    requires plan { IsPlanOfCut p.now q.now (map piece_of (items pieces.old)) plan }
    requires room { plan.left ≤ pieces.old.capacity }
    ensures { map piece_of (items pieces.new) ≡ rests_of p.now q.now (map piece_of (items pieces.old)) }
{
    if plan.some_go {
        // Without the pieces that go, their number only grows, so that it is at most the last one all along.
        remove_spent(pieces, p, q);
        let end = pieces.len();
        cut_run(pieces, p, q, CutPlan { end, ..plan });
    } else {
        cut_run(pieces, p, q, plan);
    }
}
