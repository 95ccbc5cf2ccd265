// Numbers as bytes: eight each, high byte first.
ghost use Rattle.std.specs.Prelude.{◌≡◌, ◌+◌, ◌*◌, ◌≤◌, length};
ghost use Rattle.std.specs.Int.{to_be_bytes, from_be_bytes, w64};
ghost use Rattle.ports.specs.Bytes.{bytes_at, after_write};
ghost use Rattle.replica_merge.specs.Numbers.{bytes_of_numbers};

/// The bytes of a number.
pub(crate) const WIDTH: usize = 8;

/// The number that stands at a place.
#[inline]
pub(crate) fn number_at(bytes: &[u8], at: usize) -> u64
    requires { at + 8 ≤ length bytes.now }
    ensures { result ≡ from_be_bytes w64 (bytes_at at 8 bytes.now) }
{
    u64::from_be_bytes([
        bytes[at],
        bytes[at + 1],
        bytes[at + 2],
        bytes[at + 3],
        bytes[at + 4],
        bytes[at + 5],
        bytes[at + 6],
        bytes[at + 7],
    ])
}

/// Writes a number over what stands at a place.
#[inline]
fn put_number(bytes: &mut [u8], at: usize, number: u64)
    requires { at + 8 ≤ length bytes.old }
    ensures { bytes.new ≡ after_write at (to_be_bytes w64 number) bytes.old }
{
    bytes[at..at + WIDTH].copy_from_slice(&number.to_be_bytes());
}

/// Writes numbers over all of `bytes`.
pub(crate) fn put_numbers(numbers: &[u64], bytes: &mut [u8])
    requires { length bytes.old ≡ 8 * length numbers.now }
    ensures { bytes.new ≡ bytes_of_numbers numbers.now }
{
    for (index, number) in numbers.iter().enumerate() {
        put_number(bytes, WIDTH * index, *number);
    }
}
