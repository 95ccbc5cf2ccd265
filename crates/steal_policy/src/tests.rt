use super::*;
use chunk_cursor::{Admit, CursorTable};
use std::test::*;

#[test]
fn the_rule_of_cost_refuses_a_tie(rt: HostRuntime) {
    for (set_bytes, unread, heads, alpha, want) in [
        (100, 1000, 1, 100, true),
        (500, 1000, 1, 100, false),
        (100, 1000, 2, 100, true),
        (100, 1000, 1, 0, false),
        (100, 0, 1, 100, false),
        (0, 0, 1, 100, false),
    ] {
        let accepted = accepts(set_bytes, unread, heads, alpha);
        assert_eq!(&rt; accepted, want, "{set_bytes} {unread} {heads} {alpha}");
    }
}

#[test]
fn help_is_proposed_on_two_engines(rt: HostRuntime) -> Result<(), Fail> {
    let (table, mut seat) = CursorTable::new(rt.alloc())?;
    table.open(&mut seat, 0, 3);
    table.open(&mut seat, 64, 2);
    table.greet(&mut seat, 0);
    let mut one = table.split(&mut seat, 1);
    let mut two = table.split(&mut seat, 3);
    let mut three = table.split(&mut seat, 5);
    let ask = |set_bytes: u64| Ask {
        engines: 2,
        partition: 0,
        set_bytes,
        chunk_bytes: 200,
        alpha: 100,
    };
    let refused = propose(&table, &mut one, &ask(500));
    let admitted = propose(&table, &mut two, &ask(100));
    let heads = table.heads(&mut seat, 0);
    let contended = table.admit(&mut three, 0, 1);
    let want = Proposal::Refused {
        unread: 1000,
        heads: 1,
    };
    assert_eq!(&rt; refused, want);
    assert_eq!(&rt; admitted, Proposal::Admitted);
    assert_eq!(&rt; heads, 2);
    assert_eq!(&rt; contended, Admit::Contended(2));
    Ok(())
}
