//! The end of an epoch.
ghost use Rattle.std.specs.Prelude.{◌≡◌, ◌≤◌, ℕ, All, vec_len, vec_capacity};
ghost use Rattle.chunk_object.specs.Epochs.{Terms};
ghost use Rattle.chunk_cursor.specs.declared.view.View.{View};
ghost use Rattle.chunk_cursor.specs.View.{IsFirst};
ghost use Rattle.epoch_seats.specs.Joining.{joined};
ghost use Rattle.epoch_seats.specs.Between.{HasEnded};
ghost use Rattle.epoch_seats.specs.Seats.{HasBegun, AreSeats, epoch_with};

use chunk_cursor::{CursorSeat, CursorTable};
use list_moves::take_first;

/// Takes the seats of all workers back, in order, and makes known that all calls stand in one legal history. The list
/// keeps its room.
pub fn close_epoch(table: &CursorTable, seat: &mut CursorSeat, seats: &mut Vec<CursorSeat>)
    requires table { seat.old.table ≡ table.now }
    requires tables { All (λ other. other.table ≡ table.now) seats.old.items }
    requires first { IsFirst seat.old.view }
    ensures table { seat.new.table ≡ seat.old.table }
    ensures empty { vec_len seats.new ≡ 0 }
    ensures room { vec_capacity seats.new ≡ vec_capacity seats.old }
    ensures ended { (terms : Terms) (lens : ℕ → ℕ) (before : View) → 1 ≤ terms.engines → HasBegun terms lens before seat.old.view → AreSeats terms.engines before.splits seats.old.items → HasEnded terms before seat.new.view (epoch_with lens seats.old.items) }
{
    join_seats(table, seat, seats);
    table.settle(seat);
}

/// Joins all seats, in order.
fn join_seats(table: &CursorTable, seat: &mut CursorSeat, seats: &mut Vec<CursorSeat>)
    requires table { seat.old.table ≡ table.now }
    requires tables { All (λ other. other.table ≡ table.now) seats.old.items }
    requires first { IsFirst seat.old.view }
    ensures table { seat.new.table ≡ seat.old.table }
    ensures joined { seat.new.view ≡ joined seat.old.view seats.old.items }
    ensures empty { vec_len seats.new ≡ 0 }
    ensures room { vec_capacity seats.new ≡ vec_capacity seats.old }
{
    for _ in 0..seats.len() {
        table.join(seat, take_first(seats));
    }
}
