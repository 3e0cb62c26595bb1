// The rows, drawn.
#![tactic(auto, using(pens::proofs::Pens::writing))]

ghost use Rattle.std.specs.Prelude.{◌≡◌, true, ◌≤◌, ◌<◌, length, take};
ghost use Rattle.join.specs.Join.{common_in, kind_in};
ghost use Rattle.pens.specs.Pens.{RoomFor, wrote};
ghost use Rattle.plan.specs.Plan.{layers_of};
ghost use Rattle.plan.specs.Frames.{Framed};
ghost use Rattle.rows.specs.RowCall.{is_row};
ghost use Rattle.picture.specs.Pictures.{mark, row_part};

use crate::fill::put_filled;
use crate::numbers::{corners_of, cross_of};
use crate::texts::{edge_text, ground_text, point_text, row_text};
use geometry::{Kind, Rect};
use pens::Pen;
use printing_code::lines::put_joined;
use rows_code::row_ground;

// The mark of a row's kind.
fn put_mark(pen: &mut Pen, unit: u64, kind: Kind, r: Rect)
    requires { (unit < 536870912) × RoomFor pen.old (mark unit kind r) }
    ensures { pen.new ≡ wrote pen.old (mark unit kind r) }
{
    match kind {
        Kind::Ground => put_filled(pen, &ground_text(), &corners_of(r)),
        Kind::Edge => put_filled(pen, &edge_text(), &corners_of(r)),
        Kind::Point => put_filled(pen, &point_text(), &cross_of(r, unit)),
    }
}

// The mark of a row of the first k layers' join.
fn put_ground(pen: &mut Pen, unit: u64, sizes: &[u32], k: usize, cells: &[i32], row: &[u32])
    requires k_in_bounds { (k ≤ length sizes.now) × Framed (take k sizes.now) cells.now × (unit < 536870912) }
    requires row_value { is_row (layers_of (take k sizes.now) cells.now) row.now ≡ true }
    requires room { let ls = layers_of (take k sizes.now) cells.now in
        RoomFor pen.old (mark unit (kind_in ls row.now) (common_in ls row.now)) }
    ensures { let ls = layers_of (take k sizes.now) cells.now in
        pen.new ≡ wrote pen.old (mark unit (kind_in ls row.now) (common_in ls row.now)) }
{
    match row_ground(sizes, k, cells, row) {
        None => {}
        Some(g) => {
            let kind = g.kind;
            put_mark(pen, unit, kind, g.common);
        }
    }
}

// A row: its title is the report's line.
#[tactic(auto, using(pens::proofs::Pens::writing), unfolding(picture::specs::Pictures::row_part))]
pub fn put_row(pen: &mut Pen, unit: u64, sizes: &[u32], k: usize, cells: &[i32], row: &[u32])
    requires k_in_bounds { (k ≤ length sizes.now) × Framed (take k sizes.now) cells.now × (unit < 536870912) }
    requires row_value { is_row (layers_of (take k sizes.now) cells.now) row.now ≡ true }
    requires room { RoomFor pen.old (row_part unit (layers_of (take k sizes.now) cells.now) row.now) }
    ensures { pen.new ≡ wrote pen.old (row_part unit (layers_of (take k sizes.now) cells.now) row.now) }
{
    pen.put(&row_text());
    put_joined(pen, sizes, k, cells, row);
    put_ground(pen, unit, sizes, k, cells, row);
}
