// The tone calls, which the crate `tone_exports` offers to a C or Rust caller under the same names.
// Each answers one byte: 0 when it did its work, else the first refusal's number; then no lent byte
// has changed.
// Stays, here and in `calls`: a parameter for each of the call's in the C interface.
#![tactic(auto)]

ghost use Rattle.tone_c.specs.Boundary.{
  ToneTableCall,
  ToneFineTableCall,
  ToneLookupCall,
  TonePlaneCall,
  TonePictureCall,
  ToneRecordTableCall,
  ToneRecordCopyCall,
};
ghost use Rattle.std.specs.Prelude.{◌≡◌};
ghost use Rattle.tone_c.specs.Version.{version};

use answers::number_of;

mod calls;
mod given;

// The version of this boundary, for a caller to compare with its header's. It is no answer.
pub fn tone_version() -> u32
    ensures { result ≡ version }
{
    3
}

// Writes the byte table of the curve through the points, in any order, to the front of table. A
// point is three bytes: x, then the height in 256ths of a level, low byte first. One or two bytes
// left over are ignored.
// The tension is read for kind 7 only, the slopes for kind 8 only.
pub fn tone_table(
    points: &[u8],
    kind: u8,
    tension: u8,
    start_slope: i16,
    end_slope: i16,
    table: &mut [u8],
) -> u8
    ensures { ToneTableCall points.now kind «tension» start_slope end_slope
        table.old result table.new }
{
    number_of(calls::table(points, kind, tension, start_slope, end_slope, table))
}

// Fills table, 256 or 4,096 floats, with the samples of that curve.
pub fn tone_fine_table(
    points: &[u8],
    kind: u8,
    tension: u8,
    start_slope: i16,
    end_slope: i16,
    table: &mut [f32],
) -> u8
    ensures { ToneFineTableCall points.now kind «tension» start_slope end_slope
        table.old result table.new }
{
    number_of(calls::fine_table(points, kind, tension, start_slope, end_slope, table))
}

// Replaces each value, in 0..1, by the height there of a fine table of
// 4,096 samples, in 0..1 again.
pub fn tone_lookup(table: &[f32], values: &mut [f32]) -> u8
    ensures { ToneLookupCall table.now values.old result values.new }
{
    number_of(lookup::lookup(table, values))
}

// Tones a plane of any of the twelve formats in place by one table. Alpha, chroma and
// padding stay as they are.
pub fn tone_plane(
    table: &[u8; 256],
    format: u8,
    width: u32,
    height: u32,
    plane: &mut [u8],
    step: usize,
) -> u8
    ensures { TonePlaneCall table.now format width height step plane.old result
        plane.new }
{
    number_of(calls::plane(table, format, width, height, plane, step))
}

// Tones a picture by the set that a record holds into tight rows at the front of out_y; for YUV the
// chroma planes u and v are copied.
// y is the luma or colour plane. The chroma planes of other formats are not
// read, and their outputs stay.
// A caller gives no chroma steps and gets none: they are 0.
pub fn tone_picture<'a, 'x, 'y, 'z>(
    record: &[u8],
    format: u8,
    width: u32,
    height: u32,
    planes: usize,
    y: &'a [u8],
    y_step: usize,
    u: &'a [u8],
    v: &'a [u8],
    out_y: &'x mut [u8],
    out_u: &'y mut [u8],
    out_v: &'z mut [u8],
) -> u8
    ensures { TonePictureCall (record {
      stored = «record».now;
      format = format;
      width = width;
      height = height;
      planes = planes;
      lent = record {
        plane = record { bytes = y.now; step = y_step };
        cb = record { bytes = u.now; step = 0 };
        cr = record { bytes = v.now; step = 0 };
        outputs = record {
          first = out_y.old;
          cb = out_u.old;
          cr = out_v.old;
        };
      };
    }) result (record {
      first = out_y.new;
      cb = out_u.new;
      cr = out_v.new;
    }) }
{
    number_of(calls::picture(
        record, format, width, height, planes, y, y_step, u, v, out_y, out_u, out_v,
    ))
}

// Writes the byte table of the master of the set that a record holds to the front of table.
pub fn tone_record_table(record: &[u8], table: &mut [u8]) -> u8
    ensures { ToneRecordTableCall «record».now table.old result table.new }
{
    number_of(calls::record_table(record, table))
}

// Writes the set that a record holds to the front of out with the present writer,
// and its length to written.
pub fn tone_record_copy(record: &[u8], out: &mut [u8], written: &mut usize) -> u8
    ensures { ToneRecordCopyCall «record».now out.old written.old result
        out.new written.new }
{
    number_of(calls::record_copy(record, out, written))
}
