// The C boundary: each call of `tone_c` under its name, with its clauses. A crate is a library or a
// static library and not both, so this one has nothing of its own.
// A slice crosses as a pointer and a length.
// Stays: a parameter for each of the call's in the C interface.
#![tactic(auto)]

ghost use Rattle.tone_c.specs.Boundary.{
  ToneTableCall,
  ToneFineTableCall,
  ToneLookupCall,
  TonePlaneCall,
  TonePictureCall,
  ToneRecordTableCall,
  ToneRecordCopyCall,
};
ghost use Rattle.std.specs.Prelude.{◌≡◌};
ghost use Rattle.tone_c.specs.Version.{version};

#[unsafe(no_mangle)]
pub extern "C" fn tone_version() -> u32
    ensures { result ≡ version }
{
    tone_c::tone_version()
}

#[unsafe(no_mangle)]
pub extern "C" fn tone_table(
    points: &[u8],
    kind: u8,
    tension: u8,
    start_slope: i16,
    end_slope: i16,
    table: &mut [u8],
) -> u8
    ensures { ToneTableCall points.now kind «tension» start_slope end_slope
        table.old result table.new }
{
    tone_c::tone_table(points, kind, tension, start_slope, end_slope, table)
}

#[unsafe(no_mangle)]
pub extern "C" fn tone_fine_table(
    points: &[u8],
    kind: u8,
    tension: u8,
    start_slope: i16,
    end_slope: i16,
    table: &mut [f32],
) -> u8
    ensures { ToneFineTableCall points.now kind «tension» start_slope end_slope
        table.old result table.new }
{
    tone_c::tone_fine_table(points, kind, tension, start_slope, end_slope, table)
}

#[unsafe(no_mangle)]
pub extern "C" fn tone_lookup(table: &[f32], values: &mut [f32]) -> u8
    ensures { ToneLookupCall table.now values.old result values.new }
{
    tone_c::tone_lookup(table, values)
}

#[unsafe(no_mangle)]
pub extern "C" fn tone_plane(
    table: &[u8; 256],
    format: u8,
    width: u32,
    height: u32,
    plane: &mut [u8],
    step: usize,
) -> u8
    ensures { TonePlaneCall table.now format width height step plane.old result
        plane.new }
{
    tone_c::tone_plane(table, format, width, height, plane, step)
}

#[unsafe(no_mangle)]
pub extern "C" fn tone_picture<'a, 'x, 'y, 'z>(
    record: &[u8],
    format: u8,
    width: u32,
    height: u32,
    planes: usize,
    y: &'a [u8],
    y_step: usize,
    u: &'a [u8],
    v: &'a [u8],
    out_y: &'x mut [u8],
    out_u: &'y mut [u8],
    out_v: &'z mut [u8],
) -> u8
    ensures { TonePictureCall (record {
      stored = «record».now;
      format = format;
      width = width;
      height = height;
      planes = planes;
      lent = record {
        plane = record { bytes = y.now; step = y_step };
        cb = record { bytes = u.now; step = 0 };
        cr = record { bytes = v.now; step = 0 };
        outputs = record {
          first = out_y.old;
          cb = out_u.old;
          cr = out_v.old;
        };
      };
    }) result (record {
      first = out_y.new;
      cb = out_u.new;
      cr = out_v.new;
    }) }
{
    tone_c::tone_picture(
        record, format, width, height, planes, y, y_step, u, v, out_y, out_u, out_v,
    )
}

#[unsafe(no_mangle)]
pub extern "C" fn tone_record_table(record: &[u8], table: &mut [u8]) -> u8
    ensures { ToneRecordTableCall «record».now table.old result table.new }
{
    tone_c::tone_record_table(record, table)
}

#[unsafe(no_mangle)]
pub extern "C" fn tone_record_copy(record: &[u8], out: &mut [u8], written: &mut usize) -> u8
    ensures { ToneRecordCopyCall «record».now out.old written.old result
        out.new written.new }
{
    tone_c::tone_record_copy(record, out, written)
}
