// The twelve formats, and the checks of the picture calls.
#![tactic(auto)]

ghost use Rattle.std.specs.Prelude.{◌≡◌};
ghost use Rattle.formats.specs.Formats.{format_of, numbered_format, new_layout, layout_of};
ghost use Rattle.formats.specs.Formats.{bytes_a_pixel, alpha_of, planes_read, by_colour};

use answers::Refusal;

pub mod checks;

#[derive(Clone, Copy, PartialEq, Eq)]
pub enum PixelFormat {
    Gray8,
    Ya8,
    Rgb24,
    Rgba,
    Cmyk,
    CmykInverted,
    Yuv420P,
    Yuv422P,
    Yuv444P,
    YuvJ420P,
    YuvJ422P,
    YuvJ444P,
}

// The format of a number. One above the last is none: whoever asks has refused it.
// Stays beside `try_from`: what cannot fail has no Result.
pub fn format_of(n: u8) -> PixelFormat
    ensures { result ≡ format_of n }
{
    let in_order = [
        PixelFormat::Gray8,
        PixelFormat::Ya8,
        PixelFormat::Rgb24,
        PixelFormat::Rgba,
        PixelFormat::Cmyk,
        PixelFormat::CmykInverted,
        PixelFormat::Yuv420P,
        PixelFormat::Yuv422P,
        PixelFormat::Yuv444P,
        PixelFormat::YuvJ420P,
        PixelFormat::YuvJ422P,
        PixelFormat::YuvJ444P,
    ];
    if n <= PixelFormat::LAST {
        in_order[n as usize]
    } else {
        PixelFormat::Gray8
    }
}

// 8, of a number above the last.
impl TryFrom<u8> for PixelFormat {
    type Error = Refusal;

    ghost try_from_gives = { λ n r. r ≡ numbered_format n };

    fn try_from(n: u8) -> Result<PixelFormat, Refusal> {
        if PixelFormat::LAST < n {
            return Err(Refusal::UnsupportedFormat);
        }
        Ok(format_of(n))
    }
}

// What the kernels and the checks need to know of a format. Stays: numbers, as the kernels compare
// them; "no alpha" and "no plane" need no test of their own.
#[derive(Clone, Copy)]
pub struct Layout {
    // of a pixel
    pub bytes: usize,
    // the channel that no table tones; the number of channels where there is none
    pub alpha: usize,
    // how many the set call reads; 0 where it refuses the format
    pub planes: usize,
    // whether the set call tones each colour by its own table
    pub by_colour: bool,
}

impl Layout {
    // By position, so that `PixelFormat::layout` reads as a table.
    fn new(bytes: usize, alpha: usize, planes: usize, by_colour: bool) -> Layout
        ensures { result ≡ new_layout bytes alpha planes by_colour }
    {
        Layout {
            bytes,
            alpha,
            planes,
            by_colour,
        }
    }
}

impl PixelFormat {
    // The last format's number.
    pub const LAST: u8 = 11;

    // The limits of 9 and 11: the largest width and height of a picture, and the largest row step
    // of a plane.
    pub const LARGEST_SIDE: usize = 4096;

    pub const LARGEST_STEP: usize = 32768;

    pub fn layout(self) -> Layout
        ensures { result ≡ layout_of self }
    {
        match self {
            PixelFormat::Gray8 => Layout::new(1, 1, 1, false),
            PixelFormat::Ya8 => Layout::new(2, 1, 0, false),
            PixelFormat::Rgb24 => Layout::new(3, 3, 1, true),
            PixelFormat::Rgba => Layout::new(4, 3, 1, true),
            PixelFormat::Cmyk => Layout::new(4, 4, 0, false),
            PixelFormat::CmykInverted => Layout::new(4, 4, 0, false),
            PixelFormat::Yuv420P => Layout::new(1, 1, 3, false),
            PixelFormat::Yuv422P => Layout::new(1, 1, 3, false),
            PixelFormat::Yuv444P => Layout::new(1, 1, 3, false),
            PixelFormat::YuvJ420P => Layout::new(1, 1, 3, false),
            PixelFormat::YuvJ422P => Layout::new(1, 1, 3, false),
            PixelFormat::YuvJ444P => Layout::new(1, 1, 3, false),
        }
    }

    pub fn bytes_a_pixel(self) -> usize
        ensures { result ≡ bytes_a_pixel self }
    {
        self.layout().bytes
    }

    pub fn alpha(self) -> usize
        ensures { result ≡ alpha_of self }
    {
        self.layout().alpha
    }

    pub fn planes_read(self) -> usize
        ensures { result ≡ planes_read self }
    {
        self.layout().planes
    }

    pub fn by_colour(self) -> bool
        ensures { result ≡ by_colour self }
    {
        self.layout().by_colour
    }
}

// How many bytes the planes and the outputs of the set call hold.
#[derive(Clone, Copy)]
pub struct Lengths {
    pub plane: usize,
    pub cb: usize,
    pub cr: usize,
    pub out: usize,
    pub out_cb: usize,
    pub out_cr: usize,
}
