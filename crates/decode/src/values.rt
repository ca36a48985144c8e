// The values of optional parameters and of the cause.
ghost use Rattle.std.specs.Prelude.{◌≡◌};
ghost use Rattle.decode.specs.Values.{information_in, diversion_in, restriction_in, cause_from};

use isup::message::{
    Cause, Count, DiversionInformation, Indicator, Notification, Reason, RedirectionInformation,
    Restriction,
};

// The low three bits of the second octet are the count, the next is 0, and the high four are the reason.
pub(crate) fn information(content: &[u8]) -> Option<RedirectionInformation>
    ensures { result ≡ information_in content.now }
{
    let [first, second] = content else {
        return None;
    };
    let indicator = Indicator::try_from(*first).ok()?;
    let count = Count::new(*second & 0x0F)?;
    let reason = Reason::try_from(*second >> 4).ok()?;
    Some(RedirectionInformation {
        indicator,
        count,
        reason,
    })
}

// The low three bits are the notification option, the next four the reason, and the top one is 0.
pub(crate) fn diversion(content: &[u8]) -> Option<DiversionInformation>
    ensures { result ≡ diversion_in content.now }
{
    let [octet] = content else {
        return None;
    };
    let notification = Notification::try_from(*octet & 0x07).ok()?;
    let reason = Reason::try_from(*octet >> 3).ok()?;
    Some(DiversionInformation {
        notification,
        reason,
    })
}

pub(crate) fn restriction(content: &[u8]) -> Option<Restriction>
    ensures { result ≡ restriction_in content.now }
{
    let [octet] = content else {
        return None;
    };
    Restriction::try_from(*octet).ok()
}

// 82, then 80 and the cause.
pub(crate) fn cause(content: &[u8]) -> Option<Cause>
    ensures { result ≡ cause_from content.now }
{
    match content {
        [0x82, second] if *second >= 0x80 => Cause::new(*second - 0x80),
        _ => None,
    }
}
