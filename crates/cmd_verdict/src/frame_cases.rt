//! The verdicts on a frame by itself.

use crate::case::{Case, Needs};
use crate::text::Text;
use cap_tap::SeenRecord;
use its_duties::{
    Claims, Doubt, Duty, Verdict, judge_form, judge_hops, judge_kind, judge_lifetime,
    judge_link_target, judge_mobile,
};
use its_linkframe::{FrameFault, FrameView};

/// The verdict on the form of a record.
pub(crate) fn form_case(claims: &Claims, record: &SeenRecord) -> Case {
    let octets = record.octets.as_slice();
    let verdict = judge_form(claims, record.cut, octets);
    let text = match (verdict, record.frame()) {
        (Verdict::Pass, _) => Text::Packet,
        _ if record.cut => Text::Cut,
        (Verdict::Fail(_), Err(fault)) => Text::Fault(fault),
        (Verdict::Inconclusive(doubt), Err(fault)) => form_doubt(doubt, fault),
        (_, Ok(_)) => Text::Packet,
    };
    Case::of(Duty::Form, verdict, text)
}

/// Why the form of octets with this fault isn't known.
fn form_doubt(doubt: Doubt, fault: FrameFault) -> Text {
    match doubt {
        Doubt::NotRead(_) => Text::NotReadFault(fault),
        _ => Text::OutsideProfile(fault),
    }
}

/// The verdict on a link target.
pub(crate) fn link_target_case(frame: &FrameView<'_>, known_target: bool) -> Case {
    let verdict = judge_link_target(frame, known_target);
    let text = match verdict {
        Verdict::Pass => Text::LinkAddresses,
        Verdict::Fail(_) => Text::SentTo(frame.packet.kind(), frame.to),
        Verdict::Inconclusive(_) => Text::NoLinkTarget,
    };
    Case::of(Duty::LinkTarget, verdict, text)
}

/// The verdict on the mobile bit.
pub(crate) fn mobile_case(claims: &Claims, frame: &FrameView<'_>) -> Case {
    let verdict = judge_mobile(claims, frame);
    let text = match verdict {
        Verdict::Pass | Verdict::Fail(_) => Text::MobileBit(frame.packet.mobile()),
        Verdict::Inconclusive(_) => Text::NoMobile,
    };
    Case::of(Duty::Mobile, verdict, text).needing(Needs {
        mobile: true,
        ..Needs::default()
    })
}

/// The verdict on hops.
pub(crate) fn hops_case(frame: &FrameView<'_>) -> Case {
    let hops = frame.packet.hops();
    let text = Text::Hops(hops.left(), hops.max());
    Case::of(Duty::Hops, judge_hops(frame), text)
}

/// The verdict on a lifetime.
pub(crate) fn lifetime_case(claims: &Claims, frame: &FrameView<'_>) -> Case {
    let verdict = judge_lifetime(claims, frame);
    let millis = frame.packet.lifetime().millis();
    let text = match verdict {
        Verdict::Pass | Verdict::Fail(_) => Text::Lifetime(millis),
        Verdict::Inconclusive(_) => Text::LifetimeDiffers(millis),
    };
    Case::of(Duty::Lifetime, verdict, text)
}

/// The verdict on the kind of a forwarded packet.
pub(crate) fn kind_case(frame: &FrameView<'_>) -> Case {
    let verdict = judge_kind(frame);
    let kind = frame.packet.kind();
    let text = match verdict {
        Verdict::Fail(_) => Text::Forwarded(kind, frame.packet.vector().address()),
        Verdict::Pass | Verdict::Inconclusive(_) => Text::OfKind(kind),
    };
    Case::of(Duty::Kind, verdict, text)
}
