//! The table of cursors, and seats at it.
ghost use Rattle.std.specs.Prelude.{◌≡◌, ◌<◌, ◌≤◌, IfOk};
ghost use Rattle.chunk_object.specs.declared.call.Call.TheVariants.{Open, Greet, Look, Heads};
ghost use Rattle.chunk_object.specs.History.{opened_len, most_chunks, StandsWhole};
ghost use Rattle.chunk_cursor.specs.View.{newcomer, with_call, knows, out_at, IsFirst, IsAlone, after_split, split_off, after_join, MayClaim, MayAdmit};
ghost use Rattle.chunk_cursor.specs.Steps.{StandsIn, AllStandIn};
ghost use Rattle.chunk_cursor.specs.Claims.{claim_of, IsGiven, admit_of, IsOther};

use crate::rule::{
    Claims, Counts, Greets, Looks, OneHistory, Opens, Returns, Settles, Tries, Worker,
};
use crate::view::View;
use atomic_table::{Seat, Table};
use ports::Memory;
use std::alloc::Global;
use std::marker::Model;

const CURSORS: u32 = 512;

const WORDS: usize = 576;

/// The unit of the high half of a word.
const HALF: u64 = 1 << 32;

/// What a claim answers.
#[derive(Clone, Copy, Debug, PartialEq, Eq)]
pub enum Claim {
    /// This chunk of the cursor, counted from 0, which nobody else is given.
    Took(u64),
    /// No chunk was left.
    Exhausted,
}

/// What an admit answers.
#[derive(Clone, Copy, Debug, PartialEq, Eq)]
pub enum Admit {
    /// The helper count was as asked, and was raised by 1.
    Admitted,
    /// The helper count was this number, and was left as it is.
    Contended(u64),
}

/// The words that all callers share: one for each cursor `64 * engine + partition` of at most 8 engines and 64
/// partitions, and one for the helper count of each partition. Contracts see which table it is.
#[derive(Drop)]
pub struct CursorTable {
    table: Table<(), View, (), OneHistory, Global>,
}

impl Model for CursorTable {
    ghost use Rattle.std.specs.Prelude.{◌≡◌};
    ghost use Rattle.chunk_cursor.specs.Hold.{TableId};

    ghost Value = { TableId };

    ghost view = { λ t. t.table.shared.table_id };

    ghost invariant = { λ t. t.table.shared.table_id.words ≡ 576 };
}

/// The right of one caller to call. Contracts see its table and what it knows: its worker, its calls with their
/// replies, the lists of seats joined into it, and which seats are out.
#[derive(Drop)]
pub struct CursorSeat {
    seat: Seat<(), View>,
}

impl Model for CursorSeat {
    ghost use Rattle.std.specs.Prelude.{◌≡◌, false, []};
    ghost use Rattle.chunk_cursor.specs.Hold.{Hold};

    ghost Value = { Hold };

    ghost view = { λ s. record { table = s.seat.table_id; view = s.seat.me.0 } };

    ghost invariant = { λ s. (s.seat.me.1 ≡ []) × (s.seat.me.0.spent ≡ false) };
}

impl CursorTable {
    /// A table whose cursors have no chunks, with its first seat. It fails only for want of memory.
    pub fn new(alloc: Global) -> Result<(CursorTable, CursorSeat), Memory>
        ensures { IfOk result (λ made. made.1 ≡ record { table = made.0; view = newcomer }) }
    {
        let (table, seat) = Table::of_words(alloc, &[0; WORDS], &())?;
        Ok((CursorTable { table }, CursorSeat { seat }))
    }

    /// Opens a cursor with so many chunks, none of them given yet.
    pub fn open(&self, seat: &mut CursorSeat, cursor: u32, len: u64)
        requires table { seat.old.table ≡ self.now }
        requires cursor { cursor < 512 }
        requires len { len ≤ most_chunks }
        requires alone { IsAlone seat.old.view }
        ensures table { seat.new.table ≡ seat.old.table }
        ensures call { seat.new.view ≡ with_call seat.old.view (Open cursor len) }
    {
        let words = &self.table.shared;
        words.swap::<Opens>(&mut seat.seat, cursor as usize, len * HALF);
    }

    /// Sets the helper count of a partition to 1, which counts its master.
    pub fn greet(&self, seat: &mut CursorSeat, partition: u32)
        requires table { seat.old.table ≡ self.now }
        requires partition { partition < 64 }
        requires alone { IsAlone seat.old.view }
        ensures table { seat.new.table ≡ seat.old.table }
        ensures call { seat.new.view ≡ with_call seat.old.view (Greet partition) }
    {
        let words = &self.table.shared;
        words.swap::<Greets>(&mut seat.seat, (CURSORS + partition) as usize, 1);
    }

    /// Takes the next chunk of a cursor, or learns that none is left.
    pub fn claim(&self, seat: &mut CursorSeat, cursor: u32) -> Claim
        requires table { seat.old.table ≡ self.now }
        requires cursor { cursor < 512 }
        requires once { MayClaim seat.old.view cursor }
        ensures table { seat.new.table ≡ seat.old.table }
        ensures call { seat.new.view ≡ with_call seat.old.view (claim_of cursor result) }
        ensures chunk { IsGiven seat.old.view cursor result }
    {
        let words = &self.table.shared;
        let found = words.fetch_add::<Claims>(&mut seat.seat, cursor as usize, 1);
        let next = found % HALF;
        if next < found / HALF {
            Claim::Took(next)
        } else {
            Claim::Exhausted
        }
    }

    /// The number of chunks that a cursor has left.
    pub fn look(&self, seat: &mut CursorSeat, cursor: u32) -> u64
        requires table { seat.old.table ≡ self.now }
        requires cursor { cursor < 512 }
        ensures table { seat.new.table ≡ seat.old.table }
        ensures call { seat.new.view ≡ with_call seat.old.view (Look cursor result) }
        ensures most { (result ≤ opened_len cursor (knows seat.old.view)) × (result ≤ most_chunks) }
    {
        let words = &self.table.shared;
        let found = words.load::<Looks>(&mut seat.seat, cursor as usize);
        (found / HALF).saturating_sub(found % HALF)
    }

    /// The helper count of a partition.
    pub fn heads(&self, seat: &mut CursorSeat, partition: u32) -> u64
        requires table { seat.old.table ≡ self.now }
        requires partition { partition < 64 }
        ensures table { seat.new.table ≡ seat.old.table }
        ensures call { seat.new.view ≡ with_call seat.old.view (Heads partition result) }
        ensures helpers { MayAdmit seat.old.view partition → (1 ≤ result) × (result ≤ 7) }
    {
        let words = &self.table.shared;
        words.load::<Counts>(&mut seat.seat, (CURSORS + partition) as usize)
    }

    /// Raises the helper count of a partition by 1 if it is `heads`.
    pub fn admit(&self, seat: &mut CursorSeat, partition: u32, heads: u64) -> Admit
        requires table { seat.old.table ≡ self.now }
        requires partition { partition < 64 }
        requires heads { (1 ≤ heads) × (heads ≤ 7) }
        requires once { MayAdmit seat.old.view partition }
        ensures table { seat.new.table ≡ seat.old.table }
        ensures call { seat.new.view ≡ with_call seat.old.view (admit_of partition heads result) }
        ensures other { IsOther heads result }
    {
        let word = (CURSORS + partition) as usize;
        let words = &self.table.shared;
        let found = words.compare_exchange::<Tries>(&mut seat.seat, word, heads, heads + 1);
        if found == heads {
            Admit::Admitted
        } else {
            Admit::Contended(found)
        }
    }

    /// Splits off a seat for a worker that has none out.
    pub fn split(&self, seat: &mut CursorSeat, worker: u32) -> CursorSeat
        requires table { seat.old.table ≡ self.now }
        requires first { IsFirst seat.old.view }
        requires worker { (worker < 8) × (out_at seat.old.view worker ≡ 0) }
        ensures table { (seat.new.table ≡ seat.old.table) × (result.table ≡ seat.old.table) }
        ensures first { seat.new.view ≡ after_split worker seat.old.view }
        ensures other { result.view ≡ split_off worker seat.old.view }
    {
        match worker {
            0 => self.split_for::<0>(seat),
            1 => self.split_for::<1>(seat),
            2 => self.split_for::<2>(seat),
            3 => self.split_for::<3>(seat),
            4 => self.split_for::<4>(seat),
            5 => self.split_for::<5>(seat),
            6 => self.split_for::<6>(seat),
            _ => self.split_for::<7>(seat),
        }
    }

    fn split_for<const NUMBER: u64>(&self, seat: &mut CursorSeat) -> CursorSeat
        requires table { seat.old.table ≡ self.now }
        requires first { IsFirst seat.old.view }
        requires worker { (NUMBER < 8) × (out_at seat.old.view NUMBER ≡ 0) }
        ensures table { (seat.new.table ≡ seat.old.table) × (result.table ≡ seat.old.table) }
        ensures first { seat.new.view ≡ after_split NUMBER seat.old.view }
        ensures other { result.view ≡ split_off NUMBER seat.old.view }
    {
        let words = &self.table.shared;
        let other = words.split_seat::<Worker<NUMBER>>(&mut seat.seat);
        CursorSeat { seat: other }
    }

    /// Takes a seat that was split off back, with its list.
    pub fn join(&self, seat: &mut CursorSeat, other: CursorSeat)
        requires table { (seat.old.table ≡ self.now) × (other.table ≡ self.now) }
        requires first { IsFirst seat.old.view }
        ensures table { seat.new.table ≡ seat.old.table }
        ensures call { seat.new.view ≡ after_join seat.old.view other.view }
    {
        let CursorSeat { seat: other } = other;
        let words = &self.table.shared;
        words.join_seat::<Returns>(&mut seat.seat, other);
    }

    /// Makes known that all lists in the seat stand in one legal history, and, where the seat is alone, that this
    /// history has no other call.
    pub fn settle(&self, seat: &mut CursorSeat)
        requires table { seat.old.table ≡ self.now }
        ensures same { seat.new ≡ seat.old }
        ensures own { StandsIn seat.old.view }
        ensures lists { IsFirst seat.old.view → AllStandIn seat.old.view }
        ensures whole { IsAlone seat.old.view → StandsWhole seat.old.view.story }
    {
        let words = &self.table.shared;
        words.load::<Settles>(&mut seat.seat, 0);
    }
}
