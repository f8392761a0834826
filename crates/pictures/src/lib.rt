// Tones pictures: by one table within the plane, or by a set of curves into tight rows.
#![tactic(auto)]

ghost use Rattle.std.specs.Prelude.{◌≡◌, true, ◌*◌, ◌≤◌, length};
ghost use Rattle.points.specs.Points.{list_of};
ghost use Rattle.tables.specs.Tables.{byte_table};
ghost use Rattle.sets.specs.Sets.{view_of};
ghost use Rattle.rows.specs.Lent.{HasRows};
ghost use Rattle.formats.specs.Formats.{bytes_a_pixel};
ghost use Rattle.formats.specs.Checks.{Supported};
ghost use Rattle.pictures.specs.OneTable.{OneTableCall};
ghost use Rattle.pictures.specs.Runs.{tables_of, tight_rows, SetCall};

use answers::{Answer, Refusal};
use formats::{Lengths, PixelFormat, checks};
use points::{Curve, Heights};
use rows::{Grid, Tables, copy_bytes, tone_rows, tone_rows_into};
use sets::{Curves, chosen_table};
use tables::{CurveInterpolation, entries_of};

// What is to be toned, and by what: the set of curves, the format, the size, and how many planes
// are given.
#[derive(Clone, Copy)]
pub struct Job {
    pub set: Curves,
    pub format: PixelFormat,
    pub width: u32,
    pub height: u32,
    pub planes: usize,
}

// The row steps of the set call's outputs: of the tight rows, then of Cb and Cr as they were given,
// 0 where there is no chroma.
#[derive(Clone, Copy)]
pub struct Steps {
    pub step: usize,
    pub cb_step: usize,
    pub cr_step: usize,
}

// Tones a plane in place by one table, all twelve formats. Alpha, chroma and
// padding stay as they are. Its parameters stay apart: "the core first on slice and number".
pub fn apply_tone_lut(
    plane: &mut [u8],
    step: usize,
    table: [u8; 256],
    format: PixelFormat,
    width: u32,
    height: u32,
) -> Answer
    ensures { OneTableCall format width height step table plane.old result plane.new }
{
    let grid = Grid {
        w: width as usize,
        h: height as usize,
        step,
    };
    checks::lut_answer(format, grid, plane.len())?;
    tone_rows(plane, grid, format.bytes_a_pixel(), format.alpha(), &table);
    Ok(())
}

// The table of a list, where it is present. Else nothing is built, and nothing reads the zeros.
// Stays: an Option would be opened at once, as `chosen_table` of `sets` takes the mark beside it.
fn own_table(present: bool, curve: Curve, kind: CurveInterpolation) -> [u8; 256]
    ensures { present ≡ true → result ≡ byte_table kind (list_of curve) }
{
    if present {
        entries_of(curve, kind)
    } else {
        [0; 256]
    }
}

// Tones the first plane of an accepted run: by colour, each by its own table or else the
// master's; or all by the master.
fn tone_first(set: Curves, format: PixelFormat, plane: &[u8], grid: Grid, out: &mut [u8])
    requires supported { Supported format }
    requires rows { HasRows grid (bytes_a_pixel format) (length plane.now) }
    requires room { grid.h * (grid.w * bytes_a_pixel format) ≤ length out.old }
    ensures { out.new
        ≡ tight_rows format grid.w grid.h grid.step (tables_of format (view_of set)) plane.now
        out.old }
{
    let kind = set.interpolation;
    let by_colour = format.by_colour();
    let red = by_colour & set.red.present;
    let green = by_colour & set.green.present;
    let blue = by_colour & set.blue.present;
    let master_table = entries_of(set.master, kind);
    let red_table = own_table(red, set.red.curve, kind);
    let green_table = own_table(green, set.green.curve, kind);
    let blue_table = own_table(blue, set.blue.curve, kind);
    tone_rows_into(
        plane,
        grid,
        format.bytes_a_pixel(),
        Tables {
            red: chosen_table(red, &red_table, &master_table),
            green: chosen_table(green, &green_table, &master_table),
            blue: chosen_table(blue, &blue_table, &master_table),
        },
        out,
    );
}

// Tones a picture by a set of curves into tight rows; chroma is copied. On a
// refusal no output changes.
// Stays: slices and numbers, as document 01's "the core first on slice and number" wants;
// `tone_picture` of `planes` takes each plane whole.
pub fn apply_pixels<'a, 'x, 'y, 'z>(
    job: Job,
    plane: &'a [u8],
    step: usize,
    cb: &'a [u8],
    cb_step: usize,
    cr: &'a [u8],
    cr_step: usize,
    out: &'x mut [u8],
    out_cb: &'y mut [u8],
    out_cr: &'z mut [u8],
) -> Result<Steps, Refusal>
    ensures { SetCall (record {
      job = job;
      lent = record {
        plane = record { bytes = plane.entry.now; step = step };
        cb = record { bytes = cb.now; step = cb_step };
        cr = record { bytes = cr.now; step = cr_step };
        outputs = record {
          first = out.old;
          cb = out_cb.old;
          cr = out_cr.old;
        };
      };
    }) result (record {
      first = out.new;
      cb = out_cb.new;
      cr = out_cr.new;
    }) }
{
    let set = job.set;
    let format = job.format;
    let grid = Grid {
        w: job.width as usize,
        h: job.height as usize,
        step,
    };
    let held = Lengths {
        plane: plane.len(),
        cb: cb.len(),
        cr: cr.len(),
        out: out.len(),
        out_cb: out_cb.len(),
        out_cr: out_cr.len(),
    };
    set.check(Heights::Fine)?;
    checks::picture_answer(format, grid, job.planes, held)?;
    tone_first(set, format, plane, grid, out);
    let row = grid.w * format.bytes_a_pixel();
    if format.planes_read() == 3 {
        copy_bytes(cb, out_cb);
        copy_bytes(cr, out_cr);
        return Ok(Steps {
            step: row,
            cb_step,
            cr_step,
        });
    }
    Ok(Steps {
        step: row,
        cb_step: 0,
        cr_step: 0,
    })
}
