use super::*;
use std::test::*;

#[test]
fn items_move_in_order_and_come_back(rt: HostRuntime) -> Result<(), Fail> {
    let alloc = rt.alloc();
    let mut kept = Vec::new(alloc);
    kept.push(5u32)?;
    kept.push(6)?;
    kept.push(7)?;
    let mut lent = Vec::with_capacity(alloc, 2)?;
    put_last(&mut lent, take_first(&mut kept));
    put_last(&mut lent, take_first(&mut kept));
    assert!(&rt; kept.as_slice() == [7].as_slice() && lent.as_slice() == [5, 6].as_slice());
    put_last(&mut kept, take_first(&mut lent));
    put_last(&mut kept, take_first(&mut lent));
    assert!(&rt; lent.is_empty() && kept.as_slice() == [7, 5, 6].as_slice());
    Ok(())
}
