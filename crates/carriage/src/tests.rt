// Carriers at their edges.
use super::carrier::Carrier;
use super::moving::move_all;
use super::question::Between;
use super::record::RecordCarrier;
use isup::message::{Cause, Circuit, Envelope, Exchange, Message, Way};
use std::test::Fail;

// A release of a call, on its leg 1.
fn release_of(from: u8, to: u8, call: u8) -> Option<Envelope> {
    Some(Envelope {
        from: Exchange::new(from)?,
        to: Exchange::new(to)?,
        way: Way::Back,
        circuit: Circuit::new(call, 1)?,
        message: Message::Release(Cause::new(16)?),
    })
}

fn release(from: u8, to: u8, call: u8) -> Result<Envelope, Fail> {
    Ok(release_of(from, to, call).ok_or("out of range")?)
}

fn call_of(e: Option<Envelope>) -> Option<u8> {
    e.map(|e| e.circuit.call())
}

// The two ends of an envelope, and the same the other way round.
fn ends_of(e: Envelope) -> Between {
    Between {
        from: e.from,
        to: e.to,
    }
}

fn other_way_of(e: Envelope) -> Between {
    Between {
        from: e.to,
        to: e.from,
    }
}

#[test]
fn without_places(rt: HostRuntime) -> Result<(), Fail> {
    let e = release(0, 7, 3)?;
    let mut slots = [e; 0];
    let mut carrier = RecordCarrier::new(&mut slots);
    assert_eq!(rt; carrier.free(), 0);
    assert!(rt; carrier.put(e).is_err());
    Ok(())
}

#[test]
fn full_emptied_and_filled_again(rt: HostRuntime) -> Result<(), Fail> {
    let e = release(0, 7, 3)?;
    let mut slots = [e; 1];
    let mut carrier = RecordCarrier::new(&mut slots);
    assert!(rt; carrier.put(e).is_ok());
    assert!(rt; carrier.put(e).is_err());
    assert_eq!(rt; call_of(carrier.take(other_way_of(e))), None);
    assert_eq!(rt; call_of(carrier.take(ends_of(e))), Some(3));
    assert!(rt; carrier.put(e).is_ok());
    Ok(())
}

#[test]
fn taken_from_the_middle(rt: HostRuntime) -> Result<(), Fail> {
    let e = release(0, 7, 1)?;
    let same = release(7, 7, 2)?;
    let mut slots = [e; 3];
    let mut carrier = RecordCarrier::new(&mut slots);
    assert!(rt; carrier.put(e).is_ok());
    assert!(rt; carrier.put(same).is_ok());
    assert!(rt; carrier.put(e).is_ok());
    assert_eq!(rt; call_of(carrier.take(ends_of(same))), Some(2));
    assert_eq!(rt; carrier.waiting_for(1), 2);
    assert_eq!(rt; carrier.free(), 1);
    Ok(())
}

#[test]
fn moved_while_there_is_room(rt: HostRuntime) -> Result<(), Fail> {
    let e = release(0, 7, 5)?;
    let mut slots = [e; 2];
    let mut source = RecordCarrier::new(&mut slots);
    let mut narrow = [e; 1];
    let mut target = RecordCarrier::new(&mut narrow);
    assert!(rt; source.put(e).is_ok());
    assert!(rt; source.put(e).is_ok());
    assert!(rt; move_all(&mut source, &mut target, ends_of(e)).is_err());
    assert_eq!(rt; source.waiting_for(5), 1);
    assert_eq!(rt; target.waiting_for(5), 1);
    Ok(())
}

#[test]
fn no_more_than_4096(rt: HostRuntime) -> Result<(), Fail> {
    let e = release(0, 7, 3)?;
    let mut slots = vec![in rt.alloc(); e; 4097]?;
    let carrier = RecordCarrier::new(&mut slots);
    assert_eq!(rt; carrier.free(), 4096);
    Ok(())
}
