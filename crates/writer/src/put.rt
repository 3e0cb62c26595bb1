// The text of a plan, written by a pen.
#![tactic(auto, using(pens::proofs::Pens::writing))]

ghost use Rattle.std.specs.Prelude.{◌≡◌, ◌∷◌, ◌*◌, ◌≤◌, pos, length};
ghost use Rattle.lists.specs.Lists.{sum};
ghost use Rattle.lists.specs.inner.Stores.{Put};
ghost use Rattle.line.specs.declared.Line.TheVariants.{Layer};
ghost use Rattle.pens.specs.Pens.{RoomFor, wrote};
ghost use Rattle.plan.specs.Plan.{Sound};
ghost use Rattle.text.specs.Spelling.{spell};
ghost use Rattle.text.specs.Plans.{rect_lines, layer_lines, text_of};

use pens::Pen;
use plan::Shape;
use plan_code::{layer_cells, rect_at};
use speller::{put_layer_line, put_plan_line, put_rect_line};

// The RECT lines of n rectangles.
fn put_rects(pen: &mut Pen, cells: &[i32], n: usize)
    requires { (length cells.now ≡ 4 * n) × RoomFor pen.old (spell (rect_lines cells.now)) }
    ensures { pen.new ≡ wrote pen.old (spell (rect_lines cells.now)) }
{
    for p in 0..n {
        put_rect_line(pen, rect_at(cells, p));
    }
}

// The LAYER line and the RECT lines of a layer.
pub fn put_layer(pen: &mut Pen, n: u32, margin: u32, cells: &[i32])
    requires { (length cells.now ≡ 4 * n) × RoomFor pen.old (spell (Layer (pos n) (pos margin) ∷ rect_lines cells.now)) }
    ensures { pen.new ≡ wrote pen.old (spell (Layer (pos n) (pos margin) ∷ rect_lines cells.now)) }
{
    put_layer_line(pen, n, margin);
    put_rects(pen, cells, n as usize);
}

// The lines of layers of these sizes and margins.
fn put_layers(pen: &mut Pen, sizes: &[u32], margins: &[u32], cells: &[i32])
    requires sizes_len { (length margins.now ≡ length sizes.now) × (length cells.now ≡ 4 * sum sizes.now) }
    requires room { RoomFor pen.old (spell (layer_lines sizes.now margins.now cells.now)) }
    ensures { pen.new ≡ wrote pen.old (spell (layer_lines sizes.now margins.now cells.now)) }
{
    let mut start: usize = 0;
    for (j, n) in sizes.iter().enumerate() {
        let part = layer_cells(cells, start, *n as usize);
        put_layer(pen, *n, margins[j], part);
        start += *n as usize;
    }
}

// The text of a sound plan.
fn put_text(pen: &mut Pen, shape: Shape, cells: &[i32])
    requires { Sound shape cells.now × RoomFor pen.old (text_of shape cells.now) }
    ensures { pen.new ≡ wrote pen.old (text_of shape cells.now) }
{
    let k = shape.k as usize;
    put_plan_line(pen, shape.k);
    put_layers(pen, &shape.sizes[..k], &shape.margins[..k], cells);
}

// The text of a sound plan, at the start of the buffer; its length.
#[tactic(auto, unfolding(pens::specs::Pens::place, pens::specs::Pens::capacity, pens::specs::Pens::wrote))]
pub fn put_plan(buf: &mut [u8], shape: Shape, cells: &[i32]) -> usize
    requires sound { Sound shape cells.now }
    requires cells_in_bounds { length (text_of shape cells.now) ≤ length buf.old }
    ensures { Put buf.old 0 (text_of shape cells.now) buf.new result }
{
    let mut pen = Pen { buf, at: 0 };
    put_text(&mut pen, shape, cells);
    pen.at
}
