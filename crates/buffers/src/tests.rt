//! A buffer is a queue, and a load finds the newest store to its location.
use super::buffer::*;
use super::moves::*;
use lang::syntax::Location;
use programs::parts::*;
use std::test::Fail;

fn store(location: Location, value: u8, event: u8) -> Pending {
    Pending {
        location,
        value,
        event,
    }
}

/// The event of a store, or 99.
fn event(pending: Option<Pending>) -> u8 {
    pending.map_or(99, |pending| pending.event)
}

#[test]
fn three_stores(rt: HostRuntime) -> Result<(), Fail> {
    let mut buffer = Buffer::empty(Pending::BLANK);
    assert_eq!(rt; event(newest(&buffer, Location::X)), 99);
    assert_eq!(rt; event(take_oldest(&mut buffer)), 99);
    let _ = buffer.push(store(Location::X, 1, 0));
    let _ = buffer.push(store(Location::Y, 2, 1));
    let _ = buffer.push(store(Location::X, 3, 2));
    assert_eq!(rt; event(newest(&buffer, Location::X)), 2);
    assert_eq!(rt; event(newest(&buffer, Location::Y)), 1);
    assert_eq!(rt; event(newest(&buffer, Location::Z)), 99);
    assert_eq!(rt; event(take_oldest(&mut buffer)), 0);
    assert_eq!(rt; event(take_oldest(&mut buffer)), 1);
    assert_eq!(rt; event(newest(&buffer, Location::Y)), 99);
    assert_eq!(rt; event(take_oldest(&mut buffer)), 2);
    assert_eq!(rt; buffer.len(), 0);
    Ok(())
}
