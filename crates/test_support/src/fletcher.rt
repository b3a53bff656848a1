//! Fletcher's checksum.

ghost use Rattle.std.specs.Prelude.{◌≡◌, [], ◌∷◌};
ghost use Rattle.test_support.specs.Fletcher.{first_sum, second_sum, nonzero_byte, checksum_of};

/// Both sums over the bytes, each modulo 255: the sum of the bytes, and the sum of the first
/// sums.
fn sums(bytes: &[u8]) -> (u64, u64)
    ensures first { result.0 ≡ first_sum bytes.now }
    ensures second { result.1 ≡ second_sum bytes.now }
{
    let mut first: u64 = 0;
    let mut second: u64 = 0;
    for byte in bytes {
        first = (first + u64::from(*byte)) % 255;
        second = (second + first) % 255;
    }
    (first, second)
}

/// A byte of a checksum, where 0 is written as 255.
fn nonzero_byte(sum: u64) -> u8
    ensures { result ≡ nonzero_byte sum }
{
    match sum % 255 {
        0 => 255,
        byte => byte as u8,
    }
}

/// Fletcher's checksum of an LSA without its LS age, whose own field, in the bytes 14 and 15, is 0
/// (RFC 905, annex B). Modulo 255, 240 stands for -15, 241 for -14 and 254 for -1.
#[tactic(auto, unfolding(crate::specs::Fletcher::checksum_of))]
pub(crate) fn checksum(bytes: &[u8]) -> [u8; 2]
    ensures { result ≡ checksum_of bytes.now }
{
    let (first, second) = sums(bytes);
    let length = bytes.len() as u64 % 255;
    let high = (length + 240) * first + 254 * second;
    let low = 254 * ((length + 241) * first) + second;
    [nonzero_byte(high), nonzero_byte(low)]
}
