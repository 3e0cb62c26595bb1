// The rectangles of the layers, drawn.
#![tactic(auto, using(pens::proofs::Pens::writing))]

ghost use Rattle.std.specs.Prelude.{◌≡◌, true, ◌<◌, ◌≤◌};
ghost use Rattle.geometry.specs.Rectangles.{in_range, most_margin};
ghost use Rattle.pens.specs.Pens.{RoomFor, wrote};
ghost use Rattle.picture.specs.Pictures.{outlined, grown_part, shape_at};
ghost use Rattle.picture.specs.inner.Parts.{Drawable, LayerDrawable, shapes_in};

use crate::fill::put_filled;
use crate::hatchings::points_of;
use crate::numbers::{corners_of, title_of};
use crate::texts::{end_text, hatch_text, margin_text, outline_text, title_text};
use geometry::Rect;
use geometry_code::grow;
use pens::Pen;
use plan_code::rect_at;

// The outline of a rectangle, and its layer's hatching in it.
#[tactic(auto, using(pens::proofs::Pens::writing), unfolding(picture::specs::Pictures::outlined))]
pub fn put_outlined(pen: &mut Pen, unit: u64, layer: u64, r: Rect)
    requires { (unit < 536870912) × RoomFor pen.old (outlined unit layer r) }
    ensures { pen.new ≡ wrote pen.old (outlined unit layer r) }
{
    put_filled(pen, &outline_text(), &corners_of(r));
    put_filled(pen, &hatch_text(), &points_of(unit, layer, r));
}

// The end of a rectangle, and the grown one where there is a margin.
fn put_grown(pen: &mut Pen, margin: u32, r: Rect)
    requires { (in_range r ≡ true) × (margin ≤ most_margin) × RoomFor pen.old (grown_part margin r) }
    ensures { pen.new ≡ wrote pen.old (grown_part margin r) }
{
    let numbers = corners_of(grow(r, margin));
    if margin == 0 {
        put_filled(pen, &end_text(), &numbers);
        return;
    }
    put_filled(pen, &margin_text(), &numbers);
}

// A rectangle behind its title.
#[tactic(auto, using(pens::proofs::Pens::writing), unfolding(picture::specs::Pictures::shape_at))]
fn put_shape(pen: &mut Pen, unit: u64, layer: u64, margin: u32, place: usize, r: Rect)
    requires unit_bound { (unit < 536870912) × Drawable layer margin r × (place < 9223372036854775808) }
    requires room { RoomFor pen.old (shape_at unit layer margin place r) }
    ensures { pen.new ≡ wrote pen.old (shape_at unit layer margin place r) }
{
    put_filled(pen, &title_text(), &title_of(layer, place as u64));
    put_outlined(pen, unit, layer, r);
    put_grown(pen, margin, r);
}

// The rectangles of a layer, in their order.
pub fn put_shapes(pen: &mut Pen, unit: u64, layer: u64, margin: u32, cells: &[i32], size: usize)
    requires unit_bound { (unit < 536870912) × LayerDrawable layer margin cells.now size }
    requires room { RoomFor pen.old (shapes_in unit layer margin cells.now size) }
    ensures { pen.new ≡ wrote pen.old (shapes_in unit layer margin cells.now size) }
{
    for p in 0..size {
        put_shape(pen, unit, layer, margin, p, rect_at(cells, p));
    }
}
