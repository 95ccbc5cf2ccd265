ghost use Rattle.std.specs.Prelude.{◌≤◌};
ghost use Rattle.std.specs.Int.{IsInRange};
ghost use Rattle.partitioner.specs.Splits.{IsSplit};

use super::*;
use std::process::Abort;
use std::test::*;

fn split_of(rt: &impl Abort, vertices: u32, engines: u32, most: u32) -> Split
    requires engines { IsInRange 1 8 engines }
    requires most { 1 ≤ most }
    ensures { IsSplit result }
{
    Split::of(vertices, engines, most).expect(rt, "a split")
}

#[test]
fn five_vertices_are_split_over_two_engines(rt: HostRuntime) {
    let split = split_of(&rt, 5, 2, 2);
    let want = Split {
        vertices: 5,
        engines: 2,
        parts: 4,
        span: 2,
    };
    assert_eq!(&rt; split, want);
    for (partition, range, master, before) in [
        (0, (0, 2), 0, 0),
        (1, (2, 4), 1, 0),
        (2, (4, 5), 0, 2),
        (3, (5, 5), 1, 2),
    ] {
        assert_eq!(&rt; split.range(partition), range);
        assert_eq!(&rt; split.master_of(partition), master);
        assert_eq!(&rt; split.before(partition), before);
    }
    for (vertex, partition) in [(0, 0), (1, 0), (2, 1), (3, 1), (4, 2)] {
        assert_eq!(&rt; split.partition_of(vertex), partition);
    }
    assert_eq!(&rt; split.own(0), 3);
    assert_eq!(&rt; split.own(1), 2);
}

#[test]
fn no_vertices_give_an_empty_partition_for_each_engine(rt: HostRuntime) {
    let split = split_of(&rt, 0, 3, 1);
    assert_eq!(&rt; split.parts, 3);
    assert_eq!(&rt; split.span, 0);
    assert_eq!(&rt; split.range(2), (0, 0));
    assert_eq!(&rt; split.own(2), 0);
}

#[test]
fn a_split_has_at_most_64_partitions(rt: HostRuntime) {
    assert_eq!(&rt; Split::of(1000, 1, 10), None);
    assert_eq!(&rt; Split::of(65, 1, 1), None);
    let split = split_of(&rt, 64, 8, 1);
    assert_eq!(&rt; split.parts, 64);
    let split = split_of(&rt, u32::MAX, 8, u32::MAX);
    assert_eq!(&rt; split.parts, 8);
    assert_eq!(&rt; split.range(7), (3_758_096_384, u32::MAX));
}
