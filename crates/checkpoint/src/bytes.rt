// Numbers and values as bytes, high byte first.
ghost use Rattle.std.specs.Prelude.{◌≡◌, ◌+◌, ◌*◌, ◌≤◌, length};
ghost use Rattle.std.specs.Int.{to_be_bytes, w64};
ghost use Rattle.ports.specs.Bytes.{after_write};
ghost use Rattle.store_model.specs.Slots.{number_bytes, value_bytes, values_bytes};

use graph_model::Value;

/// The bytes of a value.
pub(crate) const WIDTH: usize = 16;

/// Writes a number over what stands at a place.
#[inline]
fn put_number(bytes: &mut [u8], at: usize, number: u64)
    requires { at + 8 ≤ length bytes.old }
    ensures { bytes.new ≡ after_write at (to_be_bytes w64 number) bytes.old }
{
    bytes[at..at + 8].copy_from_slice(&number.to_be_bytes());
}

/// Writes a value over what stands at a place.
#[inline]
fn put_value(bytes: &mut [u8], at: usize, value: Value)
    requires { at + 16 ≤ length bytes.old }
    ensures { bytes.new ≡ after_write at (value_bytes value) bytes.old }
{
    put_number(bytes, at, value.main);
    put_number(bytes, at + 8, value.side);
}

/// Writes values over all of `bytes`.
pub(crate) fn put_values(values: &[Value], bytes: &mut [u8])
    requires { length bytes.old ≡ 16 * length values.now }
    ensures { bytes.new ≡ values_bytes values.now }
{
    for (index, value) in values.iter().enumerate() {
        put_value(bytes, WIDTH * index, *value);
    }
}

/// Writes the numbers of a slot over all of `bytes`.
pub(crate) fn put_slot_numbers(round: u64, changed: u64, bytes: &mut [u8])
    requires { length bytes.old ≡ 16 }
    ensures { bytes.new ≡ number_bytes round changed }
{
    put_number(bytes, 0, round);
    put_number(bytes, 8, changed);
}
