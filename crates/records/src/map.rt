// The bit map, the first byte of a record: which fields are there.
ghost use Rattle.std.specs.Prelude.{◌≡◌, ◌<◌};
ghost use Rattle.records.specs.Map.{bit, colour_bit};

use sets::Colour;

// Whether the bit of this weight is set.
// Stays: numbers, here and in `colour_bit`; the map is a byte of the record.
pub fn has_bit(map: u8, weight: u8) -> bool
    requires { 0 < weight }
    ensures { result ≡ bit weight map }
{
    map / weight % 2 == 1
}

pub fn colour_bit(colour: Colour) -> u8
    ensures { (result ≡ colour_bit colour) × (0 < result) }
{
    match colour {
        Colour::Red => 2,
        Colour::Green => 4,
        Colour::Blue => 8,
    }
}
