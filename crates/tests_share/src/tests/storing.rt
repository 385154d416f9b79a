//! A host whose program stores its entries.

use share_entries::{Entry, Source};
use share_law::HostReply;
use share_pending::{AppendAnswer, Resumed, begin, bytes_of_all, entries_of, goes_on};
use share_turns::Heard;
use share_wire::{Ask, Body, Message};
use std::alloc::Global;
use std::test::Fail;

const MARK: [u8; 32] = [7; 32];

/// Begins with an empty log, for one viewer.
fn begun(alloc: Global) -> Result<Resumed, Fail> {
    match begin(alloc, MARK, 1, &[]) {
        Ok(resumed) => Ok(resumed),
        Err(_fault) => Err(Fail::from("an empty log isn't taken")),
    }
}

/// Takes an ask for all inputs.
fn asked(one: &mut Resumed) -> Option<HostReply> {
    let body = Body::Ask(Ask::new(0, 1));
    let read = Ok(Message { mark: MARK, body });
    one.waiting.take(&mut one.host, &read).ok()
}

#[test]
fn an_entry_is_shown_once_it_is_stored(rt: HostRuntime) -> Result<(), Fail> {
    let mut one = begun(rt.alloc())?;
    assert!(rt; one.waiting.clock(&mut one.host, 5).is_ok());
    assert!(rt; asked(&mut one) == Some(HostReply::NothingToDo));
    assert!(rt; one.waiting.packet(&one.host, 1).is_none());
    one.waiting.begin_append(&one.host);
    assert!(rt; one.waiting.appending().len() == 1);
    let token = one.waiting.token();
    assert!(rt; !one.waiting.store(&one.host, 2));
    assert!(rt; one.waiting.store(&one.host, token));
    assert!(rt; one.waiting.stored() == 1);
    assert!(rt; asked(&mut one) == Some(HostReply::Asked { first: 1, count: 1 }));
    assert!(rt; one.waiting.packet(&one.host, 1).is_some());
    assert!(rt; one.waiting.ack(&one.host, 0).is_some());
    assert!(rt; one.waiting.ack(&one.host, 1).is_none());
    one.waiting.drop_passed(&mut one.host, &Heard::nobody(), 0);
    assert!(rt; one.waiting.packet(&one.host, 1).is_some());
    assert!(rt; one.waiting.drop_below(&mut one.host, 2).is_ok());
    assert!(rt; one.waiting.packet(&one.host, 1).is_none());
    let floor = one.waiting.floor_packet(&one.host);
    assert!(rt; floor.as_slice() == one.host.floor_packet().as_slice());
    Ok(())
}

#[test]
fn a_host_goes_on_only_after_stored(rt: HostRuntime) {
    assert!(rt; goes_on(AppendAnswer::Stored));
    assert!(rt; !goes_on(AppendAnswer::Taken));
    assert!(rt; !goes_on(AppendAnswer::InDoubt));
}

#[test]
fn entries_are_read_as_they_are_written(rt: HostRuntime) -> Result<(), Fail> {
    let entries = [Entry::new(5, Source::Clock)];
    let Ok(bytes) = bytes_of_all(rt.alloc(), &entries) else {
        return Err(Fail::from("memory was refused"));
    };
    let Ok(again) = entries_of(rt.alloc(), bytes.as_slice()) else {
        return Err(Fail::from("entries aren't read"));
    };
    assert!(rt; again.as_slice() == entries.as_slice());
    let Some((_last, cut)) = bytes.as_slice().split_last() else {
        return Err(Fail::from("there are no bytes"));
    };
    assert!(rt; entries_of(rt.alloc(), cut).is_err());
    Ok(())
}
