ghost use Rattle.std.specs.Prelude.{◌≡◌, ◌+◌, ◌<◌, ◌≤◌};
ghost use Rattle.chunk_cursor.specs.View.{IsFirst, IsAlone, OutWithin, MayClaim};
ghost use Rattle.chunk_cursor.specs.Claiming.{MayClaimWithin, IsFreshBelow, HasDrained};

use super::*;
use std::test::*;
use std::thread::{Threads, join};

/// What a worker hands back: its seat, and how often it took each chunk.
type Worked = (CursorSeat, Vec<u32>);

/// How many cursors are shared, and how many chunks each has.
#[derive(Clone, Copy)]
struct Size {
    cursors: u32,
    chunks: u32,
}

/// Claims at a cursor until none is left, and counts each chunk taken.
fn drain(table: &CursorTable, seat: &mut CursorSeat, cursor: u32, size: Size, counts: &mut [u32])
    requires table { seat.old.table ≡ table.now }
    requires cursor { cursor < 512 }
    requires may { MayClaim seat.old.view cursor }
    ensures table { seat.new.table ≡ seat.old.table }
    ensures drained { HasDrained cursor seat.old.view seat.new.view }
{
    let from = u64::from(cursor) * u64::from(size.chunks);
    while let Claim::Took(chunk) = table.claim(seat, cursor) {
        if let Some(count) = counts.get_mut(from.wrapping_add(chunk) as usize) {
            *count = count.wrapping_add(1);
        }
    }
}

/// The same at each cursor.
fn drain_all(table: &CursorTable, mut seat: CursorSeat, size: Size, mut counts: Vec<u32>) -> Worked
    requires table { seat.table ≡ table.now }
    requires cursors { size.cursors ≤ 64 }
    requires may { MayClaimWithin 0 size.cursors seat.view }
    ensures table { result.0.table ≡ table.now }
    ensures worker { result.0.view.worker ≡ seat.view.worker }
{
    for cursor in 0..size.cursors {
        drain(table, &mut seat, cursor, size, &mut counts);
    }
    (seat, counts)
}

/// Opens each cursor.
fn open_all(table: &CursorTable, seat: &mut CursorSeat, size: Size)
    requires table { seat.old.table ≡ table.now }
    requires size { (size.cursors ≤ 64) × (size.chunks ≤ 1000) }
    requires alone { IsAlone seat.old.view }
    ensures table { seat.new.table ≡ seat.old.table }
    ensures alone { IsAlone seat.new.view }
    ensures fresh { IsFreshBelow size.cursors seat.new.view }
{
    for cursor in 0..size.cursors {
        table.open(seat, cursor, u64::from(size.chunks));
    }
}

/// Splits off a seat that may claim everywhere.
fn deal(table: &CursorTable, seat: &mut CursorSeat, worker: u32, size: Size) -> CursorSeat
    requires table { seat.old.table ≡ table.now }
    requires first { IsFirst seat.old.view }
    requires worker { (worker < 8) × OutWithin 0 worker seat.old.view }
    requires fresh { IsFreshBelow size.cursors seat.old.view }
    ensures table { (seat.new.table ≡ seat.old.table) × (result.table ≡ seat.old.table) }
    ensures first { IsFirst seat.new.view }
    ensures out { OutWithin 0 (worker + 1) seat.new.view }
    ensures fresh { IsFreshBelow size.cursors seat.new.view }
    ensures other { (result.view.worker ≡ worker) × MayClaimWithin 0 size.cursors result.view }
{
    table.split(seat, worker)
}

/// Takes back the seat of the last worker that is out.
fn collect(table: &CursorTable, seat: &mut CursorSeat, other: CursorSeat, worker: u32)
    requires table { (seat.old.table ≡ table.now) × (other.table ≡ table.now) }
    requires first { IsFirst seat.old.view }
    requires worker { other.view.worker ≡ worker }
    requires out { OutWithin 0 (worker + 1) seat.old.view }
    ensures table { seat.new.table ≡ seat.old.table }
    ensures first { IsFirst seat.new.view }
    ensures out { OutWithin 0 worker seat.new.view }
{
    table.join(seat, other);
}

/// Two threads take chunks of all cursors.
fn in_two_threads<R: Threads + Sync>(
    rt: &R,
    table: &CursorTable,
    size: Size,
    one: Worked,
    two: Worked,
) -> (Worked, Worked)
    requires table { (one.0.table ≡ table.now) × (two.0.table ≡ table.now) }
    requires cursors { size.cursors ≤ 64 }
    requires may { MayClaimWithin 0 size.cursors one.0.view × MayClaimWithin 0 size.cursors two.0.view }
    ensures table { (result.0.0.table ≡ table.now) × (result.1.0.table ≡ table.now) }
    ensures worker { (result.0.0.view.worker ≡ one.0.view.worker) × (result.1.0.view.worker ≡ two.0.view.worker) }
{
    let (one, ones) = one;
    let (two, twos) = two;
    join(
        rt,
        move || -> Worked
            requires { (one.table ≡ table.now) × (size.cursors ≤ 64) × MayClaimWithin 0 size.cursors one.view }
            ensures { (result.0.table ≡ table.entry.now) × (result.0.view.worker ≡ one.view.worker) }
        { drain_all(table, one, size, ones) },
        move || -> Worked
            requires { (two.table ≡ table.now) × (size.cursors ≤ 64) × MayClaimWithin 0 size.cursors two.view }
            ensures { (result.0.table ≡ table.entry.now) × (result.0.view.worker ≡ two.view.worker) }
        { drain_all(table, two, size, twos) },
    )
}

#[test]
fn two_threads_take_each_of_a_thousand_chunks_once(rt: HostRuntime) -> Result<(), Fail> {
    let alloc = rt.alloc();
    let size = Size {
        cursors: 1,
        chunks: 1000,
    };
    let ones = vec![in alloc; 0u32; 1000]?;
    let twos = vec![in alloc; 0u32; 1000]?;
    let (table, mut seat) = CursorTable::new(alloc)?;
    open_all(&table, &mut seat, size);
    let one = deal(&table, &mut seat, 0, size);
    let two = deal(&table, &mut seat, 1, size);
    let ((one, ones), (two, twos)) = in_two_threads(&rt, &table, size, (one, ones), (two, twos));
    collect(&table, &mut seat, two, 1);
    collect(&table, &mut seat, one, 0);
    table.settle(&mut seat);
    for (chunk, (a, b)) in ones.iter().zip(twos.iter()).enumerate() {
        assert_eq!(&rt; a.wrapping_add(*b), 1, "chunk {chunk}");
    }
    Ok(())
}

#[test]
fn two_seats_share_three_chunks(rt: HostRuntime) -> Result<(), Fail> {
    let (table, mut seat) = CursorTable::new(rt.alloc())?;
    table.open(&mut seat, 0, 3);
    table.open(&mut seat, 1, 0);
    let mut one = table.split(&mut seat, 0);
    let mut two = table.split(&mut seat, 1);
    let Claim::Took(first) = table.claim(&mut one, 0) else {
        panic!(&rt; "three chunks were left")
    };
    let Claim::Took(second) = table.claim(&mut two, 0) else {
        panic!(&rt; "two chunks were left")
    };
    let left = table.look(&mut one, 0);
    let third = table.claim(&mut one, 0);
    let fourth = table.claim(&mut two, 0);
    let none = table.claim(&mut two, 1);
    assert!(&rt; first == 0 && second == 1 && left == 1);
    assert!(&rt; third == Claim::Took(2) && fourth == Claim::Exhausted && none == Claim::Exhausted);
    table.join(&mut seat, two);
    table.join(&mut seat, one);
    table.settle(&mut seat);
    Ok(())
}

#[test]
fn helpers_are_counted(rt: HostRuntime) -> Result<(), Fail> {
    let (table, mut seat) = CursorTable::new(rt.alloc())?;
    table.open(&mut seat, 0, 3);
    table.open(&mut seat, 64, 2);
    table.open(&mut seat, 128, 2);
    table.greet(&mut seat, 0);
    let mut one = table.split(&mut seat, 1);
    let mut two = table.split(&mut seat, 2);
    assert_eq!(&rt; table.heads(&mut one, 0), 1);
    assert_eq!(&rt; table.admit(&mut one, 0, 1), Admit::Admitted);
    assert_eq!(&rt; table.admit(&mut two, 0, 1), Admit::Contended(2));
    assert_eq!(&rt; table.heads(&mut two, 0), 2);
    Ok(())
}

/// Four threads take all chunks of all cursors.
fn in_four_threads<R: Threads + Sync>(
    rt: &R,
    table: &CursorTable,
    seat: &mut CursorSeat,
    size: Size,
    counts: [Vec<u32>; 4],
) -> [Vec<u32>; 4]
    requires table { seat.old.table ≡ table.now }
    requires size { (size.cursors ≤ 64) × (size.chunks ≤ 1000) }
    requires alone { IsAlone seat.old.view }
    ensures table { seat.new.table ≡ seat.old.table }
    ensures alone { IsAlone seat.new.view }
{
    let [count0, count1, count2, count3] = counts;
    open_all(table, seat, size);
    let seat0 = deal(table, seat, 0, size);
    let seat1 = deal(table, seat, 1, size);
    let seat2 = deal(table, seat, 2, size);
    let seat3 = deal(table, seat, 3, size);
    let (((seat0, count0), (seat1, count1)), ((seat2, count2), (seat3, count3))) = join(
        rt,
        move || -> (Worked, Worked)
            requires { (seat0.table ≡ table.now) × (seat1.table ≡ table.now) × (size.cursors ≤ 64) × MayClaimWithin 0 size.cursors seat0.view × MayClaimWithin 0 size.cursors seat1.view }
            ensures { (result.0.0.table ≡ table.entry.now) × (result.1.0.table ≡ table.entry.now) × (result.0.0.view.worker ≡ seat0.view.worker) × (result.1.0.view.worker ≡ seat1.view.worker) }
        { in_two_threads(rt, table, size, (seat0, count0), (seat1, count1)) },
        move || -> (Worked, Worked)
            requires { (seat2.table ≡ table.now) × (seat3.table ≡ table.now) × (size.cursors ≤ 64) × MayClaimWithin 0 size.cursors seat2.view × MayClaimWithin 0 size.cursors seat3.view }
            ensures { (result.0.0.table ≡ table.entry.now) × (result.1.0.table ≡ table.entry.now) × (result.0.0.view.worker ≡ seat2.view.worker) × (result.1.0.view.worker ≡ seat3.view.worker) }
        { in_two_threads(rt, table, size, (seat2, count2), (seat3, count3)) },
    );
    collect(table, seat, seat3, 3);
    collect(table, seat, seat2, 2);
    collect(table, seat, seat1, 1);
    collect(table, seat, seat0, 0);
    table.settle(seat);
    [count0, count1, count2, count3]
}

const TIMES: u32 = 200;

#[test]
fn four_threads_take_each_chunk_of_many_cursors_once(rt: HostRuntime) -> Result<(), Fail> {
    let alloc = rt.alloc();
    let size = Size {
        cursors: 64,
        chunks: 20,
    };
    let count0 = vec![in alloc; 0u32; 1280]?;
    let count1 = vec![in alloc; 0u32; 1280]?;
    let count2 = vec![in alloc; 0u32; 1280]?;
    let count3 = vec![in alloc; 0u32; 1280]?;
    let mut counts = [count0, count1, count2, count3];
    let (table, mut seat) = CursorTable::new(alloc)?;
    for _ in 0..TIMES {
        counts = in_four_threads(&rt, &table, &mut seat, size, counts);
    }
    for chunk in 0..1280 {
        let taken: u32 = counts
            .iter()
            .map(|count| count.get(chunk).copied().unwrap_or(0))
            .fold(0, |a: u32, b| a.wrapping_add(b));
        assert_eq!(&rt; taken, TIMES, "chunk {chunk}");
    }
    Ok(())
}
