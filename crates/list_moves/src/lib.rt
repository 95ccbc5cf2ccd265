//! Moves of what is owned from list to list.
//!
//! What a worker owns in a phase, such as devices and seats, is moved from the lists where it is kept to the desks of the
//! workers, and back to its place. To the room above this crate promises that what is taken is the first item of a list,
//! that what is put stands last, that the order of all others stays, and that a list keeps its room: a list that has
//! given its items up takes them back with no memory. It touches nothing but the lists.
#![tactic(auto)]

ghost use Rattle.std.specs.Prelude.{◌≡◌, ◌+◌, ◌<◌, ◌≤◌, [], ◌∷◌, ◌++◌, vec_len, vec_capacity};

/// Takes the first item out of a list that has one. The list keeps its room.
pub fn take_first<T>(list: &mut Vec<T>) -> T
    requires { 0 < vec_len list.old }
    ensures items { list.old.items ≡ result ∷ list.new.items }
    ensures len { vec_len list.new + 1 ≡ vec_len list.old }
    ensures room { vec_capacity list.new ≡ vec_capacity list.old }
{
    list.remove(0)
}

/// Puts an item behind the others of a list that has room for it.
pub fn put_last<T>(list: &mut Vec<T>, item: T)
    requires { vec_len list.old < vec_capacity list.old }
    ensures items { list.new.items ≡ list.old.items ++ item ∷ [] }
    ensures len { vec_len list.new ≡ vec_len list.old + 1 }
    ensures room { vec_capacity list.old ≤ vec_capacity list.new }
{
    if let Err(_) = list.push(item) {
        unreachable!();
    }
}

#[cfg(test)]
mod tests;
