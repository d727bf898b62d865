//! The bits of a byte, one for each line of a controller.

ghost use Rattle.std.specs.Prelude.{◌≡◌, ◌==◌, ◌+◌, ◌<◌, ◌^◌, bit_and, bit_or, if◌then◌else◌};
ghost use Rattle.std.specs.Int.{bit_not, w8};
ghost use Rattle.std.specs.List.{list_any, range_with_len};
ghost use Rattle.mpf_pair.specs.Pair.{is_bit, is_line, byte_where};
ghost use Rattle.mpf_pair.specs.Registers.{lowest};

/// Whether a bit is set.
pub fn has_bit(byte: u8, n: u8) -> bool
    requires { n < 8 }
    ensures { result ≡ is_bit n byte }
{
    byte >> n & 1 == 1
}

/// Whether the bit of a line is set, in the byte of its controller.
pub fn has_line(master: u8, slave: u8, n: u8) -> bool
    requires { n < 16 }
    ensures { result ≡ is_line master slave n }
{
    if n < 8 {
        has_bit(master, n)
    } else {
        has_bit(slave, n - 8)
    }
}

/// The place of the lowest bit that is set.
pub fn lowest_bit(byte: u8) -> Option<u8>
    ensures { result ≡ lowest byte }
{
    (0..8).find(|n| has_bit(byte, *n))
}

/// Whether a bit is set from the lowest one up to this.
pub fn has_up_to(byte: u8, n: u8) -> bool
    requires { n < 8 }
    ensures { result ≡ list_any (λ k. is_bit k byte) (range_with_len 0 (n + 1)) }
{
    (0..n + 1).any(|k| has_bit(byte, k))
}

/// The byte with a bit.
pub fn with_bit(byte: u8, n: u8) -> u8
    requires { n < 8 }
    ensures { result ≡ bit_or byte (2 ^ n) }
{
    byte | 1 << n
}

/// The byte without a bit.
pub fn without_bit(byte: u8, n: u8) -> u8
    requires { n < 8 }
    ensures { result ≡ bit_and byte (bit_not w8 (2 ^ n)) }
{
    byte & !(1 << n)
}

/// The byte where bit 2 is this.
pub fn with_cascade(byte: u8, asks: bool) -> u8
    ensures { result ≡ byte_where (λ n. if n == 2 then asks else is_bit n byte) }
{
    let others = without_bit(byte, 2);
    if asks { with_bit(others, 2) } else { others }
}
