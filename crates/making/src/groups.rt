// The optional parts of a message, each group whole or absent.
ghost use Rattle.std.specs.Prelude.{◌≡◌};
ghost use Rattle.making.specs.Refusing.{or_refused};
ghost use Rattle.making.specs.Making.{information_in, redirection_in, diversion_in, notice_in, restriction_in, optional_in};

use crate::parts::{Optional, Parts, RawDiversion, RawInformation, RawNotice, RawRedirection};
use isup::groups::all_or_none;
use isup::message::{
    Count, DiversionInformation, Indicator, Notice, Notification, Reason, Redirection,
    RedirectionInformation, Restriction,
};
use numbers::number::Number;
use numbers::refusal::Refusal;

fn information(raw: RawInformation) -> Result<RedirectionInformation, Refusal>
    ensures { result ≡ or_refused (information_in raw) }
{
    let indicator = Indicator::try_from(raw.indicator)?;
    let count = Count::new(raw.count).ok_or(Refusal::OutOfRange)?;
    let reason = Reason::try_from(raw.reason)?;
    Ok(RedirectionInformation {
        indicator,
        count,
        reason,
    })
}

fn redirection(raw: RawRedirection) -> Result<Option<Redirection<Number>>, Refusal>
    ensures { result ≡ or_refused (redirection_in raw) }
{
    let group = all_or_none(raw.redirecting, raw.original, raw.information)?;
    let Some((redirecting, original, raw)) = group else {
        return Ok(None);
    };
    let information = information(raw)?;
    Ok(Some(Redirection {
        redirecting,
        original,
        information,
    }))
}

fn diversion(raw: RawDiversion) -> Result<DiversionInformation, Refusal>
    ensures { result ≡ or_refused (diversion_in raw) }
{
    let notification = Notification::try_from(raw.notification)?;
    let reason = Reason::try_from(raw.reason)?;
    Ok(DiversionInformation {
        notification,
        reason,
    })
}

fn notice(raw: RawNotice) -> Result<Option<Notice<Number>>, Refusal>
    ensures { result ≡ or_refused (notice_in raw) }
{
    let announced = raw.announced.then_some(());
    let group = all_or_none(announced, raw.diversion, raw.number)?;
    let Some((_, raw, number)) = group else {
        return Ok(None);
    };
    let information = diversion(raw)?;
    Ok(Some(Notice {
        information,
        number,
    }))
}

fn restriction(raw: Option<u8>) -> Result<Option<Restriction>, Refusal>
    ensures { result ≡ or_refused (restriction_in raw) }
{
    Ok(raw.map(Restriction::try_from).transpose()?)
}

pub(crate) fn optional(parts: &Parts) -> Result<Optional, Refusal>
    ensures { result ≡ or_refused (optional_in parts.now) }
{
    let redirection = redirection(parts.redirection)?;
    let notice = notice(parts.notice)?;
    let restriction = restriction(parts.restriction)?;
    Ok(Optional {
        redirection,
        may_divert: parts.may_divert,
        notice,
        restriction,
    })
}
