// What the command `cover` says, from its strips on.
ghost use Rattle.std.specs.Prelude.{◌≡◌, ◌/◌, ◌%◌, ◌<◌, ◌≤◌, length};
ghost use Rattle.outcomes.specs.Outcomes.{Told};
ghost use Rattle.outcomes.specs.inner.Rooms.{Room};
ghost use Rattle.listing.specs.Cover.{floats_in, float_of, is_given, across_of, upward_of, corners_said};
ghost use Rattle.listing.specs.inner.Parts.{stop_if, strip_between};

use crate::corners::put_floats;
use geometry::Rect;
use outcomes::Reply;
use outcomes_code::put_refusal;
use survey::Strip;
use survey_code::cover_records;
use writer::put_layer;

// The most floats of an input.
const MOST_FLOATS: usize = 8192;

// The cells of the longest layer.
const LAYER_CELLS: usize = 2048;

// The stop of a weight, where it is given.
fn stop_of(given: u32, weight: u32, z: i32) -> Option<f64>
    requires { 0 < weight }
    ensures { result ≡ stop_if (is_given given weight) (float_of z) }
{
    if given / weight % 2 == 1 {
        return Some(z as f64);
    }
    None
}

// The strip of the stops that there are.
fn strip_of(lower: Option<f64>, upper: Option<f64>) -> Strip
    ensures { result ≡ strip_between lower upper }
{
    match (lower, upper) {
        (Some(a), Some(b)) => Strip::Between(a, b),
        (Some(a), None) => Strip::From(a),
        (None, Some(b)) => Strip::To(b),
        (None, None) => Strip::Free,
    }
}

// The strip of the left and the right stop.
pub fn across_of(stops: Rect, given: u32) -> Strip
    ensures { result ≡ across_of stops given }
{
    strip_of(
        stop_of(given, 1, stops.left),
        stop_of(given, 4, stops.right),
    )
}

// The strip of the bottom and the top stop.
pub fn upward_of(stops: Rect, given: u32) -> Strip
    ensures { result ≡ upward_of stops given }
{
    strip_of(
        stop_of(given, 2, stops.bottom),
        stop_of(given, 8, stops.top),
    )
}

// The covers of records, whose bytes are not too many.
pub fn cover_bytes(
    across: Strip,
    upward: Strip,
    records: &[u8],
    out: &mut [u8],
    err: &mut [u8],
) -> Reply
    requires { (length records.now ≤ 65536) × Room out.old err.old }
    ensures { Told (corners_said across upward (floats_in records.now))
        out.old err.old out.new err.new result }
{
    let mut corners = [0.0f64; MOST_FLOATS];
    cover_floats(across, upward, records, &mut corners, out, err)
}

// The same, with a buffer for the floats.
fn cover_floats(
    across: Strip,
    upward: Strip,
    records: &[u8],
    corners: &mut [f64],
    out: &mut [u8],
    err: &mut [u8],
) -> Reply
    requires { (length records.now ≤ 65536) × (length corners.old ≡ 8192) × Room out.old err.old }
    ensures { Told (corners_said across upward (floats_in records.now))
        out.old err.old out.new err.new result }
{
    let n = put_floats(records, corners);
    cover_corners(across, upward, &corners[..n], out, err)
}

// The covers of corners.
fn cover_corners(
    across: Strip,
    upward: Strip,
    corners: &[f64],
    out: &mut [u8],
    err: &mut [u8],
) -> Reply
    requires { Room out.old err.old }
    ensures { Told (corners_said across upward corners.now)
        out.old err.old out.new err.new result }
{
    let mut cells = [0i32; LAYER_CELLS];
    cover_cells(across, upward, corners, &mut cells, out, err)
}

// The same, with a buffer for the layer's cells.
fn cover_cells(
    across: Strip,
    upward: Strip,
    corners: &[f64],
    cells: &mut [i32],
    out: &mut [u8],
    err: &mut [u8],
) -> Reply
    requires { (length cells.old ≡ 2048) × Room out.old err.old }
    ensures { Told (corners_said across upward corners.now)
        out.old err.old out.new err.new result }
{
    match cover_records(across, upward, corners, cells) {
        Err(cause) => put_refusal(out, err, cause),
        Ok(n) => {
            let m = 4 * n;
            Reply::done(put_layer(out, 0, n as u32, 0, &cells[..m]))
        }
    }
}
