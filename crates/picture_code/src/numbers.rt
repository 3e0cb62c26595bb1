// Numbers as they stand in the holes of the texts.
ghost use Rattle.std.specs.Prelude.{◌≡◌, [], ◌∷◌, ◌<◌, ◌≤◌, pos, neg_ℤ};
ghost use Rattle.picture.specs.Pictures.{corners, moved, sample, legend_place, legend_says};
ghost use Rattle.picture.specs.inner.Parts.{Small};

use geometry::Rect;
use picture::Frame;

// A coordinate.
pub fn wide(z: i32) -> i64
    ensures { result ≡ z }
{
    z as i64
}

// A coordinate with the other sign.
fn minus(z: i32) -> i64
    ensures { result ≡ neg_ℤ z }
{
    0 - z as i64
}

// A number that is not below 0.
pub fn whole(n: u64) -> i64
    requires { n < 9223372036854775808 }
    ensures { result ≡ pos n }
{
    n as i64
}

// How far the ground is moved.
pub fn moved_by(frame: Frame) -> [i64; 2]
    ensures { result ≡ moved frame }
{
    [minus(frame.left), minus(frame.top)]
}

// A layer, and how far the ground is moved.
pub fn open_of(frame: Frame, layer: u64) -> [i64; 3]
    requires { layer ≤ 6 }
    ensures { result ≡ pos layer ∷ moved frame }
{
    [whole(layer), minus(frame.left), minus(frame.top)]
}

// A rectangle's layer and place.
pub fn title_of(layer: u64, place: u64) -> [i64; 2]
    requires { (layer ≤ 6) × (place < 9223372036854775808) }
    ensures { result ≡ pos layer ∷ pos place ∷ [] }
{
    [whole(layer), whole(place)]
}

// Where a layer's line of the legend stands.
pub fn place_of(frame: Frame, layer: u64) -> [i64; 2]
    requires { Small frame × (layer ≤ 6) }
    ensures { result ≡ legend_place frame layer }
{
    let u = frame.unit;
    [whole(frame.width + 5 * u), whole(3 * u * layer + 2 * u)]
}

// What it says.
pub fn says_of(frame: Frame, layer: u64, margin: u32, size: u32) -> [i64; 4]
    requires { Small frame × (layer ≤ 6) }
    ensures { result ≡ legend_says frame layer margin size }
{
    [
        whole(frame.unit),
        whole(layer),
        whole(size as u64),
        whole(margin as u64),
    ]
}

// The sample of a layer in the legend.
pub fn sample_of(unit: u64) -> Rect
    requires { unit < 536870912 }
    ensures { result ≡ sample unit }
{
    Rect {
        left: 0,
        bottom: 0,
        right: (4 * unit) as i32,
        top: (2 * unit) as i32,
    }
}

// The corners of a rectangle.
pub fn corners_of(r: Rect) -> [i64; 5]
    ensures { result ≡ corners r }
{
    [
        wide(r.left),
        wide(r.bottom),
        wide(r.right),
        wide(r.top),
        wide(r.left),
    ]
}

// The corner that a cross is drawn at, and its unit.
pub fn cross_of(r: Rect, unit: u64) -> [i64; 3]
    requires { unit < 536870912 }
    ensures { result ≡ r.left ∷ r.bottom ∷ pos unit ∷ [] }
{
    [wide(r.left), wide(r.bottom), whole(unit)]
}
