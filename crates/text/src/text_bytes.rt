// A text in an array.
ghost use Rattle.std.specs.Prelude.{◌≤◌};

// The first length bytes are its characters. The longest is the text of a table.
// Stays an array and a length: an `ArrayVec`, in which the characters are put together, is not
// `Copy`.
// Its methods stay in lib.rt: they cite specs/Text, which names the struct, and a struct with
// ghost fields takes in every `ghost use` of its file.
#[derive(Clone, Copy)]
pub struct Text {
    pub bytes: [u8; 768],
    pub length: usize,
    pub ghost fits: { length ≤ 768 },
}
