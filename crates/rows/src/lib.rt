// Rows of bytes through tables: within a plane, and out of a plane into tight rows. Nothing here
// knows a format: a row is w pixels of p bytes, of which one channel may be kept. Only proved code
// calls this: what it requires, its callers have checked.
#![tactic(auto)]

ghost use Rattle.std.specs.Prelude.{◌≡◌, ◌+◌, ◌-◌, ◌*◌, ◌%◌, ◌≤◌, ◌++◌, length, drop};
ghost use Rattle.lists.specs.Each.{each};
ghost use Rattle.lists.specs.Tabulate.{filled};
ghost use Rattle.lists.specs.Replaced.{Replaced};
ghost use Rattle.rows.specs.Bytes.{same, through, row_byte, pixel_byte};
ghost use Rattle.rows.specs.Lent.{by_channel, HasRows};
ghost use Rattle.rows.specs.Rows.{plane_byte, tight_byte, InPlace, Tight, Pixels, tight_alpha};

// The tables of the colours, lent.
#[derive(Clone, Copy)]
pub struct Tables<'a> {
    pub red: &'a [u8; 256],
    pub green: &'a [u8; 256],
    pub blue: &'a [u8; 256],
}

impl<'a> Tables<'a> {
    // Stays a match: a channel is a number here, as a pixel's bytes lie.
    fn of(self, channel: usize) -> &'a [u8; 256]
        ensures { result.now ≡ by_channel self.entry channel }
    {
        match channel {
            0 => self.red,
            1 => self.green,
            _ => self.blue,
        }
    }
}

// How the rows of a plane lie: h rows of w pixels, each the row step after the one before.
#[derive(Clone, Copy)]
pub struct Grid {
    pub w: usize,
    pub h: usize,
    pub step: usize,
}

// A byte through a table.
fn look(table: &[u8; 256], x: u8) -> u8
    ensures { result ≡ through table.now x }
{
    table[x as usize]
}

// Tones the first K bytes of the pixel that starts at i, each by its channel's table.
fn tone_pixel<const K: usize>(s: &mut [u8], i: usize, tables: Tables)
    requires { i + K ≤ length s.old }
    ensures { Replaced 0 (pixel_byte i (by_channel tables.entry)) i (i + K) s.old s.new }
{
    for c in 0..K {
        s[i + c] = look(tables.of(c), s[i + c]);
    }
}

// Tones the eight pixels from x on.
fn tone_eight<const P: usize, const K: usize>(s: &mut [u8], x: usize, tables: Tables)
    requires { Pixels P K × ((x + 8) * P ≤ length s.old) }
    ensures { Replaced 0 (row_byte P K (by_channel tables.entry)) (x * P) ((x + 8) * P)
        s.old s.new }
{
    for k in 0..8 {
        tone_pixel::<K>(s, (x + k) * P, tables);
    }
}

// Tones as many whole eights of pixels as there are.
// Stays: a `while` with a count of what is left. LLVM then steps a pointer alone, and a store needs
// no index register. `for` over the eights takes 125 us for the 86 of this (Gray8, 128 rows of
// 1,920), half as much again, and misses the mark of the one-table call, 1.00 of the Rust;
// `chunks_exact_mut` is as fast, but its contract does not say what the slice ends as.
fn tone_eights<const P: usize, const K: usize>(s: &mut [u8], w: usize, tables: Tables)
    requires { Pixels P K × (length s.old ≡ w * P) }
    ensures { Replaced 0 (row_byte P K (by_channel tables.entry)) 0 ((w - w % 8) * P) s.old s.new }
{
    let mut x = 0;
    let mut left = w;
    while 8 <= left {
        tone_eight::<P, K>(s, x, tables);
        x += 8;
        left -= 8;
    }
}

// Tones w pixels of P bytes, of which the first K are toned and one after them may be kept.
fn tone_pixels<const P: usize, const K: usize>(s: &mut [u8], w: usize, tables: Tables)
    requires { Pixels P K × (length s.old ≡ w * P) }
    ensures { s.new ≡ each (row_byte P K (by_channel tables.entry)) s.old }
{
    tone_eights::<P, K>(s, w, tables);
    for x in w - w % 8..w {
        tone_pixel::<K>(s, x * P, tables);
    }
}

// Tones each row of a plane in place, pixels of P bytes each. Padding stays.
fn tone_plane<const P: usize, const K: usize>(plane: &mut [u8], grid: Grid, tables: Tables)
    requires { Pixels P K × HasRows grid P (length plane.old) }
    ensures { plane.new
        ≡ each (plane_byte (grid.w * P) grid.h grid.step (row_byte P K (by_channel tables.entry)))
        plane.old }
{
    if grid.w == 0 {
        return;
    }
    let row = grid.w * P;
    for y in 0..grid.h {
        let at = y * grid.step;
        let end = at + row;
        tone_pixels::<P, K>(&mut plane[at..end], grid.w, tables);
    }
}

// Tones each row of a plane in place by one table. Padding and the kept channel stay. Where no
// channel is kept, each byte is a pixel by itself.
pub fn tone_rows(plane: &mut [u8], grid: Grid, p: usize, kept: usize, table: &[u8; 256])
    requires { InPlace p kept × HasRows grid p (length plane.old) }
    ensures { plane.new
        ≡ each (plane_byte (grid.w * p) grid.h grid.step (row_byte p kept (same table.now)))
        plane.old }
{
    let tables = Tables {
        red: table,
        green: table,
        blue: table,
    };
    if p <= kept {
        let w = grid.w * p;
        tone_plane::<1, 1>(plane, Grid { w, ..grid }, tables);
    } else if p == 2 {
        tone_plane::<2, 1>(plane, grid, tables);
    } else {
        tone_plane::<4, 3>(plane, grid, tables);
    }
}

// Copies src to the front of dst.
// Stays: a loop. `copy_from_slice` calls the C library for each block, also of a row of a few
// pixels, and the archive then asks its linker for `memmove`.
pub fn copy_bytes(src: &[u8], dst: &mut [u8])
    requires { length src.now ≤ length dst.old }
    ensures { dst.new ≡ src.now ++ drop (length src.now) dst.old }
{
    let n = src.len();
    for i in 0..n {
        dst[i] = src[i];
    }
}

// Copies w pixels, and tones the copy.
fn tone_block_into<const P: usize, const K: usize>(
    src: &[u8],
    w: usize,
    tables: Tables,
    dst: &mut [u8],
)
    requires { Pixels P K × (length src.now ≡ w * P) × (length dst.old ≡ w * P) }
    ensures { dst.new ≡ each (row_byte P K (by_channel tables.entry)) src.now }
{
    copy_bytes(src, dst);
    tone_pixels::<P, K>(dst, w, tables);
}

// Tones the row src into the row dst, in blocks of so few pixels that a copied block is still in
// the processor's cache when it is toned. A row of one block goes past the loop, whose start and
// end cost more than a narrow row.
fn tone_row_into<const P: usize, const K: usize>(
    src: &[u8],
    w: usize,
    tables: Tables,
    dst: &mut [u8],
)
    requires { Pixels P K × (length src.now ≡ w * P) × (length dst.old ≡ w * P) }
    ensures { dst.new ≡ each (row_byte P K (by_channel tables.entry)) src.now }
{
    if w <= 128 {
        tone_block_into::<P, K>(src, w, tables, dst);
        return;
    }
    for x in (0..w).step_by(128) {
        let n = (w - x).min(128);
        let at = x * P;
        let end = at + n * P;
        tone_block_into::<P, K>(&src[at..end], n, tables, &mut dst[at..end]);
    }
}

// The same of each row of a plane, into tight rows at the front of dst.
fn tone_plane_into<const P: usize, const K: usize>(
    plane: &[u8],
    grid: Grid,
    tables: Tables,
    dst: &mut [u8],
)
    requires { Pixels P K × HasRows grid P (length plane.now)
        × (grid.h * (grid.w * P) ≤ length dst.old) }
    ensures { dst.new
        ≡ filled (grid.h * (grid.w * P))
        (tight_byte (grid.w * P) grid.step (row_byte P K (by_channel tables.entry)) plane.now)
        dst.old }
{
    if grid.w == 0 {
        return;
    }
    let row = grid.w * P;
    for y in 0..grid.h {
        let from = y * grid.step;
        let to = y * row;
        tone_row_into::<P, K>(
            &plane[from..from + row],
            grid.w,
            tables,
            &mut dst[to..to + row],
        );
    }
}

// Tones each row of a plane into tight rows at the front of dst, by colour, or by the red table
// where a pixel is one byte.
pub fn tone_rows_into(plane: &[u8], grid: Grid, p: usize, tables: Tables, dst: &mut [u8])
    requires { Tight p × HasRows grid p (length plane.now)
        × (grid.h * (grid.w * p) ≤ length dst.old) }
    ensures { dst.new
        ≡ filled (grid.h * (grid.w * p))
        (tight_byte (grid.w * p) grid.step
        (row_byte p (tight_alpha p) (by_channel tables.entry)) plane.now)
        dst.old }
{
    match p {
        1 => tone_plane_into::<1, 1>(plane, grid, tables, dst),
        3 => tone_plane_into::<3, 3>(plane, grid, tables, dst),
        _ => tone_plane_into::<4, 3>(plane, grid, tables, dst),
    }
}
