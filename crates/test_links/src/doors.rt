// A door in memory.
use io_traits::{Both, Door, DoorFault, ListDoor, Source, TextSink, TextSource};
use std::alloc::Global;
use std::test::Fail;

// A link whose source has one byte.
fn short_link(alloc: Global, byte: u8) -> Result<Both<TextSource, TextSink>, Fail> {
    Ok(Both {
        source: TextSource::new(Vec::from_array(alloc, [byte])?, Vec::new(alloc)),
        sink: TextSink::new(alloc, Vec::new(alloc)),
    })
}

// What a door gives next: the first byte of a link, the end, or a fault.
fn next_of<D: Door>(door: &mut D) -> Result<Option<u8>, DoorFault> {
    let Some(mut link) = door.next_link()? else {
        return Ok(None);
    };
    let mut out = [0; 1];
    let _ = link.read_some(&mut out);
    Ok(Some(out[0]))
}

#[test]
fn a_door_gives_its_links_and_fails_where_listed(rt: HostRuntime) -> Result<(), Fail> {
    let alloc = rt.alloc();
    let mut links = Vec::new(alloc);
    links.push(short_link(alloc, b'a')?)?;
    links.push(short_link(alloc, b'b')?)?;
    let mut door = ListDoor::new(links, Vec::from_array(alloc, [1u64])?);
    assert_eq!(rt; next_of(&mut door), Ok(Some(b'a')));
    assert_eq!(rt; next_of(&mut door), Err(DoorFault));
    assert_eq!(rt; next_of(&mut door), Ok(Some(b'b')));
    assert_eq!(rt; next_of(&mut door), Ok(None));
    assert_eq!(rt; next_of(&mut door), Ok(None));
    Ok(())
}
