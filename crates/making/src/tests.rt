// Rows against parts that they have not, halves of groups, and the edges of ranges.
use crate::envelope::make_envelope;
use crate::message::make_message;
use crate::parts::{Parts, RawDiversion, RawInformation, RawNotice, RawRedirection};
use numbers::number::{Number, Party};
use std::test::Fail;

fn any_number() -> Result<Number, Fail> {
    Number::from_digits(&[4, 0, 1, 2]).map_err(|_| Fail::new("4012 is a number"))
}

// A type octet and no parts. Type octets and parts are numbers in these tests, since all 256 and all nine are tried by turns.
fn bare(kind: u8) -> Parts {
    Parts {
        call: 63,
        leg: 5,
        kind,
        ..Parts::default()
    }
}

fn redirection(
    redirecting: bool,
    original: bool,
    information: bool,
    number: Number,
) -> RawRedirection {
    let party = Party {
        number,
        restricted: true,
    };
    RawRedirection {
        redirecting: redirecting.then_some(party),
        original: original.then_some(party),
        information: information.then_some(RawInformation {
            indicator: 6,
            count: 5,
            reason: 6,
        }),
    }
}

fn notice(announced: bool, diversion: bool, told: bool, number: Number) -> RawNotice {
    RawNotice {
        announced,
        diversion: diversion.then_some(RawDiversion {
            notification: 3,
            reason: 6,
        }),
        number: told.then_some(number),
    }
}

// The mandatory parts of a row, and no others.
fn least(kind: u8, number: Number) -> Parts {
    let mut parts = bare(kind);
    match kind {
        0x01 => {
            parts.mandatory.service = Some(3);
            parts.mandatory.called = Some(number);
        }
        0x06 => parts.mandatory.status = Some(4),
        0x2C => parts.mandatory.event = Some(2),
        0x0C => parts.mandatory.cause = Some(127),
        _ => {}
    }
    parts
}

// One part more: 0 to 4 are the mandatory ones, 5 to 8 the optional ones.
fn with_part(parts: Parts, part: u8, number: Number) -> Parts {
    let mut parts = parts;
    match part {
        0 => parts.mandatory.service = Some(2),
        1 => parts.mandatory.called = Some(number),
        2 => parts.mandatory.status = Some(0),
        3 => parts.mandatory.event = Some(1),
        4 => parts.mandatory.cause = Some(1),
        5 => parts.redirection = redirection(true, true, true, number),
        6 => parts.may_divert = true,
        7 => parts.notice = notice(true, true, true, number),
        _ => parts.restriction = Some(1),
    }
    parts
}

// Whether a row has a part.
fn has_part(kind: u8, part: u8) -> bool {
    match kind {
        0x01 => part == 0 || part == 1 || part == 5,
        0x06 => part == 2 || part > 5,
        0x2C => part == 3 || part > 5,
        0x0C => part == 4,
        _ => part == 8,
    }
}

#[test]
fn rows_have_their_parts_and_no_others(rt: HostRuntime) -> Result<(), Fail> {
    let number = any_number()?;
    for kind in [0x01, 0x06, 0x2C, 0x09, 0x07, 0x0C] {
        for part in 0..9 {
            let parts = with_part(least(kind, number), part, number);
            assert!(rt; make_message(&parts).is_ok() == has_part(kind, part));
        }
    }
    Ok(())
}

#[test]
fn mandatory_parts_may_not_be_missing(rt: HostRuntime) -> Result<(), Fail> {
    let number = any_number()?;
    for kind in 0..=255 {
        assert!(rt; make_message(&bare(kind)).is_ok() == (kind == 0x09 || kind == 0x07));
    }
    assert!(rt; make_message(&with_part(bare(0x01), 0, number)).is_err());
    assert!(rt; make_message(&with_part(bare(0x01), 1, number)).is_err());
    Ok(())
}

#[test]
fn groups_stand_whole_or_not_at_all(rt: HostRuntime) -> Result<(), Fail> {
    let number = any_number()?;
    for first in [false, true] {
        for second in [false, true] {
            for third in [false, true] {
                let whole = first == second && second == third;
                let mut initial = least(0x01, number);
                initial.redirection = redirection(first, second, third, number);
                assert!(rt; make_message(&initial).is_ok() == whole);
                let mut progress = least(0x2C, number);
                progress.notice = notice(first, second, third, number);
                assert!(rt; make_message(&progress).is_ok() == whole);
            }
        }
    }
    Ok(())
}

#[test]
fn exchanges_are_0_to_7_and_ways_0_or_1(rt: HostRuntime) -> Result<(), Fail> {
    let Ok(made) = make_message(&bare(0x09)) else {
        return Err(Fail::new("an answer needs no parts"));
    };
    let (circuit, message) = made;
    assert!(rt; make_envelope(7, 0, 1, circuit, message).is_ok());
    assert!(rt; make_envelope(8, 0, 1, circuit, message).is_err());
    assert!(rt; make_envelope(7, 8, 1, circuit, message).is_err());
    assert!(rt; make_envelope(7, 0, 2, circuit, message).is_err());
    Ok(())
}
