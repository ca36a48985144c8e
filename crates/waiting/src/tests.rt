// The list at its edges.
ghost use Rattle.std.specs.Prelude.{nat_lt};

use super::{Full, Question, WaitingList};
use std::test::Fail;

struct Above(u8);

impl Question<u8> for Above {
    ghost fits = { λ q x. nat_lt q.0 x };

    fn asks(&self, x: &u8) -> bool {
        self.0 < *x
    }
}

#[test]
fn without_places(rt: HostRuntime) {
    let mut slots = [0u8; 0];
    let mut list = WaitingList::new(&mut slots, 4);
    assert_eq!(rt; list.put(7), Err(Full));
    assert_eq!(rt; list.take(0), None);
    assert_eq!(rt; list.len(), 0);
}

#[test]
fn one_place_filled_again(rt: HostRuntime) -> Result<(), Fail> {
    let mut slots = [0u8; 1];
    let mut list = WaitingList::new(&mut slots, 4);
    list.put(7)?;
    assert_eq!(rt; list.put(8), Err(Full));
    assert_eq!(rt; list.take(0), Some(7));
    assert_eq!(rt; list.get(0), None);
    list.put(9)?;
    assert_eq!(rt; list.get(0), Some(9));
    Ok(())
}

#[test]
fn taken_from_the_middle(rt: HostRuntime) -> Result<(), Fail> {
    let mut slots = [0u8; 4];
    let mut list = WaitingList::new(&mut slots, 3);
    list.put(1)?;
    list.put(5)?;
    list.put(6)?;
    assert_eq!(rt; list.put(7), Err(Full), "the limit is below the memory");
    assert_eq!(rt; list.find(&Above(1)), Some(1));
    assert_eq!(rt; list.count(&Above(1)), 2);
    assert_eq!(rt; list.take_first(&Above(1)), Some(5));
    assert_eq!(rt; list.get(0), Some(1));
    assert_eq!(rt; list.get(1), Some(6));
    assert_eq!(rt; list.take(2), None);
    assert_eq!(rt; list.free(), 1);
    Ok(())
}
