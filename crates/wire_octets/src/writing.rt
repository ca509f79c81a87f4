//! The octets of a number.
ghost use Rattle.std.specs.Prelude.{◌≡◌};
ghost use Rattle.wire_octets.specs.Numbers.{be16_octets, be24_octets, be32_octets, be40_octets};

/// The two octets of a number.
#[inline]
pub fn be16_octets(number: u16) -> [u8; 2]
    ensures { result ≡ be16_octets number }
{
    number.to_be_bytes()
}

/// The three octets of a number below 2^24; of a greater one, those of its low 24 bits.
#[inline]
pub fn be24_octets(number: u32) -> [u8; 3]
    ensures { result ≡ be24_octets number }
{
    let [_, high, middle, low] = number.to_be_bytes();
    [high, middle, low]
}

/// The four octets of a number.
#[inline]
pub fn be32_octets(number: u32) -> [u8; 4]
    ensures { result ≡ be32_octets number }
{
    number.to_be_bytes()
}

/// The five octets of a number below 2^40; of a greater one, those of its low 40 bits.
#[inline]
pub fn be40_octets(number: u64) -> [u8; 5]
    ensures { result ≡ be40_octets number }
{
    let [_, _, _, first, second, third, fourth, fifth] = number.to_be_bytes();
    [first, second, third, fourth, fifth]
}
