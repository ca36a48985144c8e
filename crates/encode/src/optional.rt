// Drafting the optional parameters: each a name, a length and a content.
ghost use Rattle.std.specs.Prelude.{◌≡◌, true, [], ◌∷◌, Some, None};
ghost use Rattle.numbers.specs.Digits.{content};
ghost use Rattle.numbers.specs.Drafts.{Adds};
ghost use Rattle.isup.specs.Codes.{name_code};
ghost use Rattle.isup.specs.Coding.{encoded, information_octets, diversion_octets, optional_octets, behind};
ghost use Rattle.encode.specs.Sending.{redirection_sent, may_divert_sent, notice_sent, restriction_sent, backward_sent, any_sent};

use crate::part::Part;
use isup::message::{
    Backward, DiversionInformation, Notice, Redirection, RedirectionInformation, Restriction,
};
use isup::row::ParameterName;
use numbers::draft::Draft;
use numbers::number::{Number, Party};

// The indicator, then the reason above the count.
fn information_octets(information: RedirectionInformation) -> [u8; 2]
    ensures { result ≡ information_octets information }
{
    let reason = u8::from(information.reason) << 4;
    [
        information.indicator.into(),
        reason | information.count.value(),
    ]
}

// The reason above the notification option.
fn diversion_octet(information: DiversionInformation) -> u8
    ensures { result ∷ [] ≡ diversion_octets information }
{
    (u8::from(information.reason) << 3) | u8::from(information.notification)
}

// A number under a name.
fn draft_party(name: ParameterName, party: &Party<Number>, draft: &mut Draft)
    ensures { Adds draft.old draft.new (encoded ((name_code name, content party.now) ∷ [])) }
{
    draft.push_all(&[name.into(), party.content_len() as u8]);
    party.draft(draft);
}

// The optional part of an initial address: what it tells of diversions, and the closing 00.
impl Part for Redirection<Number> {
    ghost octets = { λ redirection. optional_octets true (redirection_sent (Some redirection)) };

    fn draft(&self, draft: &mut Draft) {
        draft_party(ParameterName::Redirecting, &self.redirecting, draft);
        draft_party(ParameterName::Original, &self.original, draft);
        let [indicator, packed] = information_octets(self.information);
        draft.push_all(&[ParameterName::Information as u8, 2, indicator, packed, 0x00]);
    }
}

// That a diversion may occur.
fn draft_may_divert(may_divert: bool, draft: &mut Draft)
    ensures { Adds draft.old draft.new (encoded (may_divert_sent may_divert)) }
{
    if may_divert {
        draft.push_all(&[ParameterName::MayDivert as u8, 1, 0x02]);
    }
}

// The notice of a diversion: generic notification, call diversion information and redirection number.
impl Part for Notice<Number> {
    ghost octets = { λ notice. encoded (notice_sent (Some notice)) };

    fn draft(&self, draft: &mut Draft) {
        draft.push_all(&[ParameterName::Announced as u8, 1, 0xFB]);
        draft.push_all(&[
            ParameterName::Diversion as u8,
            1,
            diversion_octet(self.information),
        ]);
        draft_party(ParameterName::Redirection, &Party::from(self.number), draft);
    }
}

// Whether the number that is reached may be shown.
impl Part for Restriction {
    ghost octets = { λ restriction. encoded (restriction_sent (Some restriction)) };

    fn draft(&self, draft: &mut Draft) {
        draft.push_all(&[ParameterName::Restriction as u8, 1, (*self).into()]);
    }
}

// Whether there is anything to send.
fn sends_any(backward: &Backward<Number>) -> bool
    ensures { result ≡ any_sent (backward_sent backward.now) }
{
    backward.may_divert || backward.notice.is_some() || backward.restriction.is_some()
}

// What stands behind the fixed octets of a message without a variable field: the pointer, and the optional part if there is any.
impl Part for Backward<Number> {
    ghost octets = { λ backward. behind None (any_sent (backward_sent backward)) (backward_sent backward) };

    fn draft(&self, draft: &mut Draft) {
        if !sends_any(self) {
            return draft.push(0x00);
        }
        draft.push(0x01);
        draft_may_divert(self.may_divert, draft);
        self.notice.draft(draft);
        self.restriction.draft(draft);
        draft.push(0x00);
    }
}
