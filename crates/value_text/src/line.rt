ghost use Rattle.std.specs.Prelude.{◌≡◌, ◌+◌, ◌≤◌, ◌∷◌, ◌++◌, decimal};
ghost use Rattle.arrayvec.specs.ArrayVec.{array_vec_len};
ghost use Rattle.graph_model.specs.Answer.{line, shown as shown_number};
ghost use Rattle.value_text.specs.Shown.{shows_side};

use arrayvec::ArrayVec;
use gather_laws::{NONE, Value};
use itoa::Buffer;

/// Which numbers of a value a line shows.
#[derive(Clone, Copy, PartialEq, Eq, Debug)]
pub enum Shown {
    /// The main number.
    Single,
    /// The main number and the side number.
    Pair,
}

/// Replaces `into` by the line of a vertex: its number, the numbers of its value behind a space each, and a line feed.
///
/// A number that was not reached is shown as `-`.
pub fn put_line(into: &mut ArrayVec<u8, 64>, vertex: u32, value: Value, shown: Shown)
    ensures { into.new.items ≡ line (shows_side shown) vertex value }
{
    into.clear();
    put_decimal(into, u64::from(vertex));
    put_field(into, value.main);
    if shown == Shown::Pair {
        put_field(into, value.side);
    }
    into.push(b'\n');
}

// Appends a space and a number of a value.
fn put_field(into: &mut ArrayVec<u8, 64>, number: u64)
    requires { array_vec_len into.old ≤ 43 }
    ensures items { into.new.items ≡ into.old.items ++ 32 ∷ shown_number number }
    ensures len { array_vec_len into.new ≤ array_vec_len into.old + 21 }
{
    into.push(b' ');
    if number == NONE {
        into.push(b'-');
    } else {
        put_decimal(into, number);
    }
}

// Appends the digits of a number, which are at most 20.
fn put_decimal(into: &mut ArrayVec<u8, 64>, number: u64)
    requires { array_vec_len into.old ≤ 44 }
    ensures items { into.new.items ≡ into.old.items ++ decimal number }
    ensures len { array_vec_len into.new ≤ array_vec_len into.old + 20 }
{
    let mut buffer = Buffer::new();
    let digits = buffer.format(number).as_bytes();
    into.try_extend_from_slice(digits).unwrap();
}
