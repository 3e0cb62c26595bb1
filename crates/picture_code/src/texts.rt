// The texts of a picture, with holes.
ghost use Rattle.std.specs.Prelude.{◌≡◌};
ghost use Rattle.picture.specs.Texts.{head_text, open_text, title_text, outline_text, hatch_text, end_text, margin_text};
ghost use Rattle.picture.specs.Texts.{close_text, legend_text, rows_text, row_text, ground_text, edge_text, point_text, tail_text};

// The head: the part of the ground that is seen, how each layer is drawn (a colour), how its hatching and its margin are, and white ground.
pub fn head_text() -> [u8; 705]
    ensures { result ≡ head_text }
{
    *b"<svg xmlns='http://www.w3.org/2000/svg' viewBox='-@ -@ @ @'>\n<style>\n\
path{stroke-width:@.@px;stroke-linecap:round;stroke-linejoin:round;fill-opacity:.1}\n\
text{font-family:sans-serif;font-size:2px;fill:#000;stroke:none}\n\
.l1{stroke:#0072b2;fill:#0072b2}\n.l2{stroke:#d55e00;fill:#d55e00}\n.l3{stroke:#009e73;fill:#009e73}\n\
.l4{stroke:#cc79a7;fill:#cc79a7}\n.l5{stroke:#56b4e9;fill:#56b4e9}\n.l6{stroke:#e69f00;fill:#e69f00}\n\
.h{stroke-width:@.@px;fill:none}\n.m{fill:none;stroke-dasharray:@.@ @.@}\n.g{stroke:#000;fill:#000;fill-opacity:.5}\n\
.e{stroke:#000;stroke-width:@.@px;fill:none}\n.p{stroke:#000;stroke-width:.6px;fill:none}\n.k{stroke-width:.3px}\n</style>\n\
<rect x='-@' y='-@' width='@' height='@' fill='#fff'/>\n"
}

// A layer's rectangles: its number, and how far the ground is moved; north is up, so y grows upward.
pub fn open_text() -> [u8; 57]
    ensures { result ≡ open_text }
{
    *b"<g class='l@'><g transform='scale(1 -1) translate(@ @)'>\n"
}

// A rectangle's title: its layer and place.
pub fn title_text() -> [u8; 34]
    ensures { result ≡ title_text }
{
    *b"<g><title>layer @, place @</title>"
}

// Its outline.
pub fn outline_text() -> [u8; 23]
    ensures { result ≡ outline_text }
{
    *b"<path d='M@ @H@V@H@Z'/>"
}

// Its hatching.
pub fn hatch_text() -> [u8; 46]
    ensures { result ≡ hatch_text }
{
    *b"<path class='h' d='M@ @L@ @ @ @ @ @ @ @ @ @'/>"
}

// Its end.
pub fn end_text() -> [u8; 5]
    ensures { result ≡ end_text }
{
    *b"</g>\n"
}

// Its end in a layer with a margin: the grown rectangle around it, dashed.
pub fn margin_text() -> [u8; 38]
    ensures { result ≡ margin_text }
{
    *b"<path class='m' d='M@ @H@V@H@Z'/></g>\n"
}

// The end of a layer, and where its line of the legend stands.
pub fn close_text() -> [u8; 61]
    ensures { result ≡ close_text }
{
    *b"</g><g transform='translate(@ @)'><g transform='scale(1 -1)'>"
}

// Behind the sample what the line says.
pub fn legend_text() -> [u8; 104]
    ensures { result ≡ legend_text }
{
    *b"</g><g transform='scale(@)'><text x='5' y='-.3'>layer @, rectangles: @, margin: @ mm</text></g></g></g>\n"
}

// The rows, which stand on top.
pub fn rows_text() -> [u8; 43]
    ensures { result ≡ rows_text }
{
    *b"<g transform='scale(1 -1) translate(@ @)'>\n"
}

// A row: its title is the report's line.
pub fn row_text() -> [u8; 10]
    ensures { result ≡ row_text }
{
    *b"<g><title>"
}

// The common ground of a row.
pub fn ground_text() -> [u8; 46]
    ensures { result ≡ ground_text }
{
    *b"</title><path class='g' d='M@ @H@V@H@Z'/></g>\n"
}

// A row that only touches along a line.
pub fn edge_text() -> [u8; 46]
    ensures { result ≡ edge_text }
{
    *b"</title><path class='e' d='M@ @H@V@H@Z'/></g>\n"
}

// A row that only touches in a point: a cross.
pub fn point_text() -> [u8; 91]
    ensures { result ≡ point_text }
{
    *b"</title><path class='p' transform='translate(@ @) scale(@)' d='M-1 -1L1 1M-1 1L1 -1'/></g>\n"
}

// The rows' lines of the legend, and the scale bar with its metres.
pub fn tail_text() -> [u8; 415]
    ensures { result ≡ tail_text }
{
    *b"</g><g transform='translate(@ 0) scale(@)'><path class='g k' d='M0 -3h4v2H0Z'/><text x='5' y='-1.3'>all layers meet: @</text>\
<path class='p' d='M0 1h4'/><text x='5' y='1.7'>all meet in a line</text>\
<path class='p' d='M27 0l2 2m0 -2l-2 2'/><text x='30' y='1.7'>all meet in a point</text></g>\n\
<g transform='translate(@ @)'><path class='e' d='M0 0h@'/><g transform='scale(@)'><text y='3'>@.@@@ m</text></g></g>\n</svg>\n"
}
