//! Writes reach memory one after the other, and a read gives the last of its location.
use super::loads::take;
use super::memory::*;
use super::moves::*;
use buffers::buffer::*;
use lang::syntax::Location;
use programs::parts::*;
use std::test::Fail;

#[test]
fn two_writes(rt: HostRuntime) -> Result<(), Fail> {
    let mut memory = Memory::new();
    let at_first = memory.read(Location::Y);
    assert_eq!(rt; at_first.value, 0);
    assert_eq!(rt; at_first.source, 33);
    let _ = memory.write(Location::Y, 7, 8);
    let _ = memory.write(Location::Y, 9, 0);
    let at_last = memory.read(Location::Y);
    assert_eq!(rt; at_last.value, 9);
    assert_eq!(rt; at_last.source, 0);
    assert_eq!(rt; memory.writes(Location::Y), [33u8, 8, 0].as_slice());
    assert_eq!(rt; memory.writes(Location::X), [32u8].as_slice());
    Ok(())
}

/// A thread's load takes its own newest store before memory, and another location from memory.
#[test]
fn own_store_first(rt: HostRuntime) -> Result<(), Fail> {
    let mut memory = Memory::new();
    let _ = memory.write(Location::X, 7, 8);
    let _ = memory.write(Location::Y, 6, 9);
    let mut buffer = Buffer::empty(Pending::BLANK);
    assert_eq!(rt; take(&buffer, &memory, Location::X).value, 7);
    for event in 0..2u8 {
        let _ = buffer.push(Pending {
            location: Location::X,
            value: 4,
            event,
        });
    }
    assert_eq!(rt; take(&buffer, &memory, Location::X).source, 1);
    assert_eq!(rt; take(&buffer, &memory, Location::X).value, 4);
    assert_eq!(rt; take(&buffer, &memory, Location::Y).source, 9);
    Ok(())
}
