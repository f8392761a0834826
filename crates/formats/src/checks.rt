// The checks of the picture calls, in document 01's order. They see numbers only.
ghost use Rattle.std.specs.Prelude.{◌≡◌, ◌≤◌};
ghost use Rattle.rows.specs.Rows.{needed};
ghost use Rattle.answers.specs.Checks.{first_refusal};
ghost use Rattle.formats.specs.Checks.{
  too_large,
  wrong_step,
  plane_checks,
  lut_answer,
  output_checks,
  picture_answer,
};

use crate::{Lengths, PixelFormat};
use answers::{Answer, Refusal, room_for};
use rows::Grid;

fn too_large(w: usize, h: usize) -> bool
    ensures { result ≡ too_large w h }
{
    (PixelFormat::LARGEST_SIDE < w) | (PixelFormat::LARGEST_SIDE < h)
}

fn wrong_step(row: usize, step: usize) -> bool
    ensures { result ≡ wrong_step row step }
{
    (step < row) | (PixelFormat::LARGEST_STEP < step)
}

// How many bytes a plane must have.
#[tactic(auto, unfolding(rows::specs::Rows::needed))]
fn needed_bytes(grid: Grid, row: usize) -> usize
    requires { (grid.h ≤ 4096) × (row ≤ grid.step) × (grid.step ≤ 32768) }
    ensures { result ≡ needed grid.w grid.h row grid.step }
{
    let Grid { w, h, step } = grid;
    if w == 0 {
        return 0;
    }
    if h == 0 {
        return 0;
    }
    (h - 1) * step + row
}

// 11, 12 of a first plane of len bytes.
fn plane_answer(grid: Grid, row: usize, len: usize) -> Answer
    requires { grid.h ≤ 4096 }
    ensures { result ≡ first_refusal (plane_checks grid.w grid.h row grid.step len) }
{
    if wrong_step(row, grid.step) {
        return Err(Refusal::RowStep);
    }
    if len < needed_bytes(grid, row) {
        return Err(Refusal::PlaneTooShort);
    }
    Ok(())
}

// 9, 11, 12.
#[tactic(auto, unfolding(crate::specs::Checks::lut_answer))]
pub fn lut_answer(format: PixelFormat, grid: Grid, len: usize) -> Answer
    ensures { result ≡ lut_answer format grid.w grid.h grid.step len }
{
    if too_large(grid.w, grid.h) {
        return Err(Refusal::PictureTooLarge);
    }
    plane_answer(grid, grid.w * format.bytes_a_pixel(), len)
}

// 13: tight rows of size bytes, and for YUV each chroma plane.
fn output_answer(format: PixelFormat, size: usize, held: Lengths) -> Answer
    ensures { result ≡ first_refusal (output_checks format size held) }
{
    room_for(size, held.out)?;
    if format.planes_read() != 3 {
        return Ok(());
    }
    room_for(held.cb, held.out_cb)?;
    room_for(held.cr, held.out_cr)
}

// 8, 9, 10, 11, 12, 13.
#[tactic(auto, unfolding(crate::specs::Checks::picture_answer))]
pub fn picture_answer(format: PixelFormat, grid: Grid, planes: usize, held: Lengths) -> Answer
    ensures { result ≡ picture_answer format grid.w grid.h planes grid.step held }
{
    let read = format.planes_read();
    if read == 0 {
        return Err(Refusal::UnsupportedFormat);
    }
    if too_large(grid.w, grid.h) {
        return Err(Refusal::PictureTooLarge);
    }
    if planes < read {
        return Err(Refusal::MissingPlane);
    }
    let row = grid.w * format.bytes_a_pixel();
    plane_answer(grid, row, held.plane)?;
    output_answer(format, grid.h * row, held)
}
