// The lines of the rows of two layers.
#![tactic(auto, using(pens::proofs::Pens::writing))]

ghost use Rattle.std.specs.Prelude.{◌≡◌, true, ◌≤◌, length, take};
ghost use Rattle.pens.specs.Pens.{RoomFor, wrote};
ghost use Rattle.plan.specs.Plan.{layers_of};
ghost use Rattle.plan.specs.Frames.{Framed};
ghost use Rattle.rows.specs.RowCall.{is_row};
ghost use Rattle.rows.specs.Tables.{rows_in};
ghost use Rattle.rows.specs.inner.TableRows.{TableRows};
ghost use Rattle.asking_runs_code.specs.Parts.{of_two, lines_of_two, pair_fields};

use geometry::Kind;
use geometry_code::area;
use pens::Pen;
use printing_code::lines::{put_field, put_layer};
use rows_code::{row_at, row_ground};

// The lines of the first n rows of a table of the layers at `lower` and `higher`.
pub fn put_pair_rows(
    pen: &mut Pen,
    sizes: &[u32],
    k: usize,
    cells: &[i32],
    table: &[u32],
    n: usize,
    lower: u32,
    higher: u32,
)
    requires table_rows { TableRows sizes.now k cells.now table.now n × (lower ≤ 5) × (higher ≤ 5) }
    requires room { RoomFor pen.old (lines_of_two (layers_of (take k sizes.now) cells.now) lower higher (rows_in k n table.now)) }
    ensures { pen.new ≡ wrote pen.old (lines_of_two (layers_of (take k sizes.now) cells.now) lower higher (rows_in k n table.now)) }
{
    for i in 0..n {
        put_pair(pen, sizes, k, cells, row_at(table, i * k, k), lower, higher);
    }
}

// The line of a row of the first k layers' join.
fn put_pair(
    pen: &mut Pen,
    sizes: &[u32],
    k: usize,
    cells: &[i32],
    row: &[u32],
    lower: u32,
    higher: u32,
)
    requires k_in_bounds { (k ≤ length sizes.now) × Framed (take k sizes.now) cells.now × (lower ≤ 5) × (higher ≤ 5) }
    requires row_value { is_row (layers_of (take k sizes.now) cells.now) row.now ≡ true }
    requires room { RoomFor pen.old (of_two (layers_of (take k sizes.now) cells.now) lower higher row.now) }
    ensures { pen.new ≡ wrote pen.old (of_two (layers_of (take k sizes.now) cells.now) lower higher row.now) }
{
    match row_ground(sizes, k, cells, row) {
        None => {}
        Some(g) => {
            let kind = g.kind;
            put_line(pen, lower + 1, higher + 1, row, area(g.common), kind);
        }
    }
}

// A PAIR line. Layers are numbered from 1.
#[tactic(auto, using(pens::proofs::Pens::writing), unfolding(printing::specs::Lines::line_of))]
fn put_line(pen: &mut Pen, lower: u32, higher: u32, row: &[u32], area: u64, kind: Kind)
    requires { RoomFor pen.old (pair_fields lower higher row.now area kind) }
    ensures { pen.new ≡ wrote pen.old (pair_fields lower higher row.now area kind) }
{
    pen.put(b"PAIR");
    put_field(pen, lower as u64);
    put_layer(pen, higher, row, area, kind);
}
