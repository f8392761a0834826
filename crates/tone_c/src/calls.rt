// The calls, each as far as its answer; the root hands that on as its number.
// Stays: parameters one by one, as C gives them; a struct of them would be taken apart at once.
ghost use Rattle.answers.specs.Numbers.{number_of};
ghost use Rattle.points.specs.Points.{list_of};
ghost use Rattle.tone_c.specs.Boundary.{
  PutTable,
  ToneTableCall,
  ToneFineTableCall,
  TonePlaneCall,
  TonePictureCall,
  ToneRecordTableCall,
  ToneRecordCopyCall,
};

use crate::given;
use answers::{Answer, room_for};
use formats::PixelFormat;
use pictures::{Job, apply_pixels, apply_tone_lut};
use points::Curve;
use records::read_set;
use rows::copy_bytes;
use tables::{CurveInterpolation, entries_of, length_answer, sample_curve};
use writing::write_record;

// 13, then the byte table of a list that has passed at the front of table.
fn put_table(curve: Curve, kind: CurveInterpolation, table: &mut [u8]) -> Answer
    ensures { PutTable kind (list_of curve) table.old result table.new }
{
    room_for(256, table.len())?;
    let bytes = entries_of(curve, kind);
    copy_bytes(&bytes, table);
    Ok(())
}

// 3, 20, 5 and 13 of `tone_table`.
pub fn table(
    points: &[u8],
    kind: u8,
    tension: u8,
    start_slope: i16,
    end_slope: i16,
    table: &mut [u8],
) -> Answer
    ensures { ToneTableCall points.now kind «tension» start_slope end_slope
        table.old (number_of result) table.new }
{
    let (curve, kind) = given::curve_of(points, kind, tension, start_slope, end_slope)?;
    put_table(curve, kind, table)
}

// 3, 20, 5 and 14 of `tone_fine_table`.
pub fn fine_table(
    points: &[u8],
    kind: u8,
    tension: u8,
    start_slope: i16,
    end_slope: i16,
    table: &mut [f32],
) -> Answer
    ensures { ToneFineTableCall points.now kind «tension» start_slope end_slope
        table.old (number_of result) table.new }
{
    let (curve, interpolation) = given::curve_of(points, kind, tension, start_slope, end_slope)?;
    length_answer(table.len())?;
    sample_curve(&curve, interpolation, table);
    Ok(())
}

// 8, then 9, 11 and 12 of `tone_plane`.
pub fn plane(
    table: &[u8; 256],
    format: u8,
    width: u32,
    height: u32,
    plane: &mut [u8],
    step: usize,
) -> Answer
    ensures { TonePlaneCall table.now format width height step plane.old (number_of result)
        plane.new }
{
    let pixel_format = PixelFormat::try_from(format)?;
    apply_tone_lut(plane, step, *table, pixel_format, width, height)
}

// 2 to 7 of the record, 8 of the format's number, then 8 to 13 of `tone_picture`.
pub fn picture<'a, 'x, 'y, 'z>(
    record: &[u8],
    format: u8,
    width: u32,
    height: u32,
    planes: usize,
    y: &'a [u8],
    y_step: usize,
    u: &'a [u8],
    v: &'a [u8],
    out_y: &'x mut [u8],
    out_u: &'y mut [u8],
    out_v: &'z mut [u8],
) -> Answer
    ensures { TonePictureCall (record {
      stored = «record».now;
      format = format;
      width = width;
      height = height;
      planes = planes;
      lent = record {
        plane = record { bytes = y.now; step = y_step };
        cb = record { bytes = u.now; step = 0 };
        cr = record { bytes = v.now; step = 0 };
        outputs = record {
          first = out_y.old;
          cb = out_u.old;
          cr = out_v.old;
        };
      };
    }) (number_of result) (record {
      first = out_y.new;
      cb = out_u.new;
      cr = out_v.new;
    }) }
{
    let job = Job {
        set: read_set(record)?,
        format: PixelFormat::try_from(format)?,
        width,
        height,
        planes,
    };
    apply_pixels(job, y, y_step, u, 0, v, 0, out_y, out_u, out_v)?;
    Ok(())
}

// 2 to 7 of the record, then 13 of `tone_record_table`.
pub fn record_table(record: &[u8], table: &mut [u8]) -> Answer
    ensures { ToneRecordTableCall «record».now table.old (number_of result) table.new }
{
    let set = read_set(record)?;
    put_table(set.master, set.interpolation, table)
}

// 2 to 7 of the record, then 13 of `tone_record_copy`.
pub fn record_copy(record: &[u8], out: &mut [u8], written: &mut usize) -> Answer
    ensures { ToneRecordCopyCall «record».now out.old written.old (number_of result)
        out.new written.new }
{
    let set = read_set(record)?;
    *written = write_record(set, out)?;
    Ok(())
}
