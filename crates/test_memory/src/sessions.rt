//! Sessions with enough memory and without. No program serves one, so that no row can ask it.
use jc_card::event::Event;
use jc_card::formatting::format;
use jc_card::power_up::PowerFault;
use jc_card::session::{SessionFault, session};
use jc_image::ImageRoom;
use jc_platform::example::EXAMPLE;
use jc_words::layout::USUAL_CAPACITY;
use jc_words::{MemStore, WordStore};
use std::alloc::Global;
use std::test::Fail;

// A new image.
fn new_store(alloc: Global) -> Result<MemStore, Fail> {
    let (store, made) = format(
        MemStore::new(alloc, 4096)?,
        EXAMPLE.as_bytes(),
        ImageRoom {
            capacity: USUAL_CAPACITY,
            cells: 0,
            buffer: 0,
        },
    );
    made?;
    Ok(store)
}

// How many events are answered, or the error that memory was refused, where it was; any other fault is none that is looked for.
fn served(alloc: Global, store: MemStore) -> Result<(MemStore, usize), Fail> {
    let mut events = Vec::new(alloc);
    events.push(Event::Command(Vec::from_slice(alloc, &[0x80, 0xB0, 0, 0])?))?;
    events.push(Event::Reset)?;
    events.push(Event::Command(Vec::from_slice(alloc, &[0x80, 0xB2, 1, 0])?))?;
    match session(alloc, store, events.as_slice()) {
        (store, Ok(answers)) => Ok((store, answers.len())),
        (_, Err(SessionFault::NoMemory)) => Err("no memory for the answers")?,
        (_, Err(SessionFault::PowerFault(PowerFault::NoMemory))) => Err("no memory to power up")?,
        (_, Err(fault)) => Err(fault)?,
    }
}

#[test]
fn want_of_memory_is_told(rt: HostRuntime) -> Result<(), Fail> {
    let (store, count) = served(rt.alloc(), new_store(rt.alloc())?)?;
    assert_eq!(rt; count, 3);
    assert!(rt; store.size() == 4096 && store.read(0) == 0x4A43);
    Ok(())
}

// Where memory is refused the store is given back as it was, and serves once there is memory.
#[test]
fn the_store_is_given_back(rt: HostRuntime) -> Result<(), Fail> {
    let store = new_store(rt.alloc())?;
    let mut events = Vec::new(rt.alloc());
    events.push(Event::Reset)?;
    let (store, _) = session(rt.alloc(), store, events.as_slice());
    let (_, count) = served(rt.alloc(), store)?;
    assert_eq!(rt; count, 3);
    Ok(())
}
