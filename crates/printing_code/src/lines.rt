// The lines, written by a pen.
#![tactic(auto, using(pens::proofs::Pens::writing, printing::proofs::Lines::told))]

ghost use Rattle.std.specs.Prelude.{◌≡◌, true, [], ◌∷◌, ◌++◌, ◌+◌, ◌%◌, ◌≤◌, ◌<◌, length, take};
ghost use Rattle.decimal.specs.Numerals.{digits, decimal};
ghost use Rattle.geometry.specs.Rectangles.{letter_of};
ghost use Rattle.pens.specs.Pens.{RoomFor, wrote};
ghost use Rattle.plan.specs.Plan.{layers_of};
ghost use Rattle.plan.specs.Frames.{Framed};
ghost use Rattle.rows.specs.RowCall.{is_row};
ghost use Rattle.rows.specs.Tables.{rows_in};
ghost use Rattle.rows.specs.inner.TableRows.{TableRows};
ghost use Rattle.totals.specs.Totals.{metre, Kept};
ghost use Rattle.printing.specs.Lines.{fields_end, ROW, line_of, row_fields, row_line, row_lines, hundredths, total_line, refused_line};
ghost use Rattle.printing.specs.inner.Parts.{tabbed};

use geometry::Kind;
use geometry_code::{area, letter};
use pens::Pen;
use rows_code::{row_at, row_ground};
use speller::put_natural;
use totals::Total;

// A tab and a number.
pub fn put_field(pen: &mut Pen, n: u64)
    requires { RoomFor pen.old (9 ∷ decimal n) }
    ensures { pen.new ≡ wrote pen.old (9 ∷ decimal n) }
{
    pen.put_byte(b'\t');
    put_natural(pen, n);
}

// Numbers, each behind its tab.
fn put_fields(pen: &mut Pen, ns: &[u32])
    requires { RoomFor pen.old (tabbed ns.now) }
    ensures { pen.new ≡ wrote pen.old (tabbed ns.now) }
{
    for n in ns {
        put_field(pen, *n as u64);
    }
}

// The last field of a line, and the byte that ends it.
pub fn put_last(pen: &mut Pen, n: u64)
    requires { RoomFor pen.old (fields_end (decimal n ∷ [])) }
    ensures { pen.new ≡ wrote pen.old (fields_end (decimal n ∷ [])) }
{
    put_field(pen, n);
    pen.put_byte(b'\n');
}

// The last field of a ROW line, its kind, and the byte that ends it.
fn put_kind(pen: &mut Pen, kind: Kind)
    requires { RoomFor pen.old (fields_end ((letter_of kind ∷ []) ∷ [])) }
    ensures { pen.new ≡ wrote pen.old (fields_end ((letter_of kind ∷ []) ∷ [])) }
{
    let byte = letter(kind);
    pen.put(&[b'\t', byte, b'\n']);
}

// A ROW line from its layer on.
pub fn put_layer(pen: &mut Pen, layer: u32, row: &[u32], area: u64, kind: Kind)
    requires { RoomFor pen.old (fields_end (row_fields layer row.now area kind)) }
    ensures { pen.new ≡ wrote pen.old (fields_end (row_fields layer row.now area kind)) }
{
    put_field(pen, layer as u64);
    put_fields(pen, row);
    put_field(pen, area);
    put_kind(pen, kind);
}

// A ROW line.
#[tactic(auto, using(pens::proofs::Pens::writing), unfolding(printing::specs::Lines::line_of))]
fn put_row(pen: &mut Pen, layer: u32, row: &[u32], area: u64, kind: Kind)
    requires { RoomFor pen.old (line_of ROW (row_fields layer row.now area kind)) }
    ensures { pen.new ≡ wrote pen.old (line_of ROW (row_fields layer row.now area kind)) }
{
    pen.put(b"ROW");
    put_layer(pen, layer, row, area, kind);
}

// The ROW line of a row of the first k layers' join.
pub fn put_joined(pen: &mut Pen, sizes: &[u32], k: usize, cells: &[i32], row: &[u32])
    requires k_in_bounds { (k ≤ length sizes.now) × Framed (take k sizes.now) cells.now }
    requires row_value { is_row (layers_of (take k sizes.now) cells.now) row.now ≡ true }
    requires room { RoomFor pen.old (row_line (layers_of (take k sizes.now) cells.now) row.now) }
    ensures { pen.new ≡ wrote pen.old (row_line (layers_of (take k sizes.now) cells.now) row.now) }
{
    match row_ground(sizes, k, cells, row) {
        None => {}
        Some(g) => {
            let layer = g.guard + 1;
            let kind = g.kind;
            put_row(pen, layer, row, area(g.common), kind);
        }
    }
}

// The ROW lines of the first n rows of a table.
fn put_rows(pen: &mut Pen, sizes: &[u32], k: usize, cells: &[i32], table: &[u32], n: usize)
    requires table_rows { TableRows sizes.now k cells.now table.now n }
    requires room { RoomFor pen.old (row_lines (layers_of (take k sizes.now) cells.now) (rows_in k n table.now)) }
    ensures { pen.new ≡ wrote pen.old (row_lines (layers_of (take k sizes.now) cells.now) (rows_in k n table.now)) }
{
    let mut start: usize = 0;
    for _ in 0..n {
        put_joined(pen, sizes, k, cells, row_at(table, start, k));
        start += k;
    }
}

// The hundredths of a square metre that a rest is rounded to. A hundred of them are one metre more.
fn hundredths_of(rest: u64) -> u64
    requires { rest < metre }
    ensures { (result ≡ hundredths rest) × (result ≤ 100) }
{
    (rest + 5000) / 10000
}

// The last digit of a number, as a byte.
fn last_digit(n: u64) -> u8
    ensures { result ≡ 48 + n % 10 }
{
    48 + (n % 10) as u8
}

// The point and two decimals of hundredths.
fn put_decimals(pen: &mut Pen, h: u64)
    requires { RoomFor pen.old (46 ∷ digits 2 h) }
    ensures { pen.new ≡ wrote pen.old (46 ∷ digits 2 h) }
{
    let tenths = last_digit(h / 10);
    let last = last_digit(h);
    pen.put(&[b'.', tenths, last]);
}

// A tab, whole metres and hundredths with two decimals.
pub fn put_metres(pen: &mut Pen, metres: u64, h: u64)
    requires { RoomFor pen.old (9 ∷ decimal metres ++ 46 ∷ digits 2 h) }
    ensures { pen.new ≡ wrote pen.old (9 ∷ decimal metres ++ 46 ∷ digits 2 h) }
{
    put_field(pen, metres);
    put_decimals(pen, h);
}

// The TOTAL line. A rest that is rounded up to a hundred hundredths carries into the whole metres.
#[tactic(auto, using(pens::proofs::Pens::writing, printing::proofs::Lines::told), unfolding(printing::specs::Lines::line_of))]
pub fn put_total(pen: &mut Pen, rows: u32, probes: u64, total: Total)
    requires { Kept total × RoomFor pen.old (total_line rows probes total) }
    ensures { pen.new ≡ wrote pen.old (total_line rows probes total) }
{
    let h = hundredths_of(total.rest);
    pen.put(b"TOTAL");
    put_field(pen, rows as u64);
    put_field(pen, probes);
    put_metres(pen, total.metres + h / 100, h);
    pen.put_byte(b'\n');
}

// The lines of the first n rows of a table, and the total.
pub fn put_table(
    pen: &mut Pen,
    sizes: &[u32],
    k: usize,
    cells: &[i32],
    table: &[u32],
    n: u32,
    probes: u64,
    total: Total,
)
    requires table_rows { TableRows sizes.now k cells.now table.now n × Kept total }
    requires room { RoomFor pen.old (row_lines (layers_of (take k sizes.now) cells.now) (rows_in k n table.now) ++ total_line n probes total) }
    ensures { pen.new
        ≡ wrote pen.old (row_lines (layers_of (take k sizes.now) cells.now) (rows_in k n table.now) ++ total_line n probes total) }
{
    put_rows(pen, sizes, k, cells, table, n as usize);
    put_total(pen, n, probes, total);
}

// The REFUSED line.
#[tactic(auto, using(pens::proofs::Pens::writing), unfolding(printing::specs::Lines::line_of))]
pub fn put_refused(pen: &mut Pen, cause: u32)
    requires { RoomFor pen.old (refused_line cause) }
    ensures { pen.new ≡ wrote pen.old (refused_line cause) }
{
    pen.put(b"REFUSED");
    put_last(pen, cause as u64);
}
