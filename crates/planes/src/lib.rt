// Planes: "A plane is its bytes together with its row step". It gives its rows, and the picture
// calls take it. Whatever the bytes and the step, every open function answers. A function over
// a plane takes it apart and leaves the work to one on slices and numbers.
#![tactic(auto)]

ghost use Rattle.std.specs.Prelude.{◌≡◌};
ghost use Rattle.pictures.specs.OneTable.{OneTableCall};
ghost use Rattle.pictures.specs.Runs.{SetCall};
ghost use Rattle.planes.specs.Planes.{row_of};

use answers::{Answer, Refusal};
use formats::PixelFormat;
use pictures::{Job, Steps, apply_pixels, apply_tone_lut};

// A plane that is read.
#[derive(Clone, Copy)]
pub struct Plane<'a> {
    pub bytes: &'a [u8],
    pub step: usize,
}

// A plane that is toned in place.
#[derive(Drop)]
pub struct PlaneMut<'a> {
    pub bytes: &'a mut [u8],
    pub step: usize,
}

// The row at y, of n bytes, as far as the plane holds it.
#[tactic(auto, unfolding(crate::specs::Planes::row_of))]
pub fn row_at<'a>(bytes: &'a [u8], step: usize, y: usize, n: usize) -> &'a [u8]
    ensures { result.now ≡ row_of bytes.now step y n }
{
    let len = bytes.len();
    let start = y.saturating_mul(step).min(len);
    let end = start.saturating_add(n).min(len);
    &bytes[start..end]
}

impl<'a> Plane<'a> {
    // The row at y, of n bytes, as far as the plane holds it.
    pub fn row(self, y: usize, n: usize) -> &'a [u8]
        ensures { result.now ≡ row_of self.entry.bytes.now self.entry.step y n }
    {
        row_at(self.bytes, self.step, y, n)
    }
}

// The set call on planes: tones a picture by a set of curves into tight rows; chroma is copied. On
// a refusal no output changes.
// Stays: three outputs, which a struct would hold only from a call to the next line.
pub fn tone_picture<'a, 'x, 'y, 'z>(
    job: Job,
    plane: Plane<'a>,
    cb: Plane<'a>,
    cr: Plane<'a>,
    out: &'x mut [u8],
    out_cb: &'y mut [u8],
    out_cr: &'z mut [u8],
) -> Result<Steps, Refusal>
    ensures { SetCall (record {
      job = job;
      lent = record {
        plane = record { bytes = plane.entry.bytes.now; step = plane.entry.step };
        cb = record { bytes = cb.entry.bytes.now; step = cb.entry.step };
        cr = record { bytes = cr.entry.bytes.now; step = cr.entry.step };
        outputs = record {
          first = out.old;
          cb = out_cb.old;
          cr = out_cr.old;
        };
      };
    }) result (record {
      first = out.new;
      cb = out_cb.new;
      cr = out_cr.new;
    }) }
{
    apply_pixels(
        job,
        plane.bytes,
        plane.step,
        cb.bytes,
        cb.step,
        cr.bytes,
        cr.step,
        out,
        out_cb,
        out_cr,
    )
}

// The one-table call on a plane: tones it in place, all twelve formats. Alpha, chroma and
// padding stay as they are.
pub fn tone_plane<'a>(
    plane: PlaneMut<'a>,
    table: [u8; 256],
    format: PixelFormat,
    width: u32,
    height: u32,
) -> Answer
    ensures { OneTableCall format width height plane.entry.step table plane.entry.bytes.now result
        plane.exit.0.now }
{
    let PlaneMut { bytes, step } = plane;
    apply_tone_lut(bytes, step, table, format, width, height)
}
