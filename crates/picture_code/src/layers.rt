// The layers, drawn.
#![tactic(auto, using(pens::proofs::Pens::writing))]

ghost use Rattle.std.specs.Prelude.{◌≡◌, ◌≤◌, take};
ghost use Rattle.pens.specs.Pens.{RoomFor, wrote};
ghost use Rattle.plan.specs.Plan.{layers_of};
ghost use Rattle.picture.specs.Pictures.{legend, layer_parts};
ghost use Rattle.picture.specs.inner.Parts.{Small, LayerDrawable, LayersDrawable, layer_in};

use crate::fill::put_filled;
use crate::numbers::{open_of, place_of, sample_of, says_of};
use crate::shapes::{put_outlined, put_shapes};
use crate::texts::{close_text, legend_text, open_text};
use pens::Pen;
use picture::Frame;
use plan_code::layer_cells;

// The end of a layer, and its line of the legend: its sample, and what it says.
#[tactic(auto, using(pens::proofs::Pens::writing), unfolding(picture::specs::Pictures::legend))]
fn put_legend(pen: &mut Pen, frame: Frame, layer: u64, margin: u32, size: u32)
    requires small { Small frame × (layer ≤ 6) }
    requires room { RoomFor pen.old (legend frame layer margin size) }
    ensures { pen.new ≡ wrote pen.old (legend frame layer margin size) }
{
    put_filled(pen, &close_text(), &place_of(frame, layer));
    put_outlined(pen, frame.unit, layer, sample_of(frame.unit));
    put_filled(pen, &legend_text(), &says_of(frame, layer, margin, size));
}

// A layer: its start, its rectangles, and its end.
#[tactic(auto, using(pens::proofs::Pens::writing), unfolding(picture::specs::Pictures::layer_part))]
fn put_layer(pen: &mut Pen, frame: Frame, layer: u64, margin: u32, cells: &[i32], size: u32)
    requires small { Small frame × LayerDrawable layer margin cells.now size }
    requires room { RoomFor pen.old (layer_in frame layer margin cells.now size) }
    ensures { pen.new ≡ wrote pen.old (layer_in frame layer margin cells.now size) }
{
    put_filled(pen, &open_text(), &open_of(frame, layer));
    put_shapes(pen, frame.unit, layer, margin, cells, size as usize);
    put_legend(pen, frame, layer, margin, size);
}

// The first k layers.
pub fn put_layers(
    pen: &mut Pen,
    frame: Frame,
    sizes: &[u32],
    margins: &[u32],
    k: usize,
    cells: &[i32],
)
    requires small { Small frame × LayersDrawable sizes.now margins.now k cells.now }
    requires room { RoomFor pen.old (layer_parts frame margins.now 0 (layers_of (take k sizes.now) cells.now)) }
    ensures { pen.new ≡ wrote pen.old (layer_parts frame margins.now 0 (layers_of (take k sizes.now) cells.now)) }
{
    let mut start: usize = 0;
    for j in 0..k {
        let size = sizes[j];
        let n = size as usize;
        let layer = j as u64 + 1;
        put_layer(
            pen,
            frame,
            layer,
            margins[j],
            layer_cells(cells, start, n),
            size,
        );
        start += n;
    }
}
