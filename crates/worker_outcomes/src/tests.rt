use super::*;
use std::test::*;
use store_reader::Part;

#[test]
fn the_lowest_worker_that_is_not_done_counts(rt: HostRuntime) {
    let damaged = Outcome::Damaged {
        part: Part::Lane,
        engine: 1,
        place: 8,
    };
    assert_eq!(&rt; lower_outcome(Outcome::Done, Outcome::Done), Outcome::Done);
    assert_eq!(&rt; lower_outcome(Outcome::Done, damaged), damaged);
    assert_eq!(&rt; lower_outcome(damaged, Outcome::DiskFault), damaged);
    assert_eq!(&rt;
        lower_outcome(Outcome::Memory, Outcome::Done),
        Outcome::Memory
    );
}
