//! Secured frames whose message a security entity verified, read with their plain part.

ghost use Rattle.std.specs.Prelude.{◌≡◌, IfOk, IfErr, IsOkAnd};
ghost use Rattle.its_linkframe.specs.Secured.{Verified, EncodesVerified, IsVerifiedFault};
ghost use Rattle.its_linkframe.specs.Secured.{sealed, seen_on_air};

use crate::fields::{MESSAGE, PACKET};
use crate::secured::{SecuredFrameView, read_secured_frame};
use its_faults::SecuredFault;
use its_headers::InnerPacketView;
use std::marker::Model;

/// A secured frame and the packet in its plain part. Contracts see the packet on the air, and the
/// message.
#[derive(Debug, Drop)]
pub struct VerifiedFrame<'f, 'a> {
    secured: SecuredFrameView<'f>,
    packet: InnerPacketView<'a>,
}

impl<'f, 'a> Model for VerifiedFrame<'f, 'a> {
    ghost use Rattle.std.specs.Prelude.{◌≡◌};
    ghost use Rattle.its_headers.specs.Seen.{basic_of};
    ghost use Rattle.its_linkframe.specs.Secured.{Verified, verified_from_to};

    ghost Value = { Verified };

    ghost view = { λ v. verified_from_to v.secured.link_source v.secured.link_target v.packet
        v.secured.message };

    ghost invariant = { λ v. v.secured.basic ≡ basic_of v.packet };
}

impl<'f, 'a> VerifiedFrame<'f, 'a> {
    /// The frame that these octets are with this plain part, or the first fault: those of the frame
    /// (L1, L2, L3, L5), then L6 where Basic Header and plain part are no packet, and L4 where
    /// octets follow it. Nothing says that the plain part is the message's: that is the security
    /// entity's word.
    pub fn read(octets: &'f [u8], plain: &'a [u8]) -> Result<VerifiedFrame<'f, 'a>, SecuredFault>
        ensures found { IfOk result (λ v. EncodesVerified v octets.now plain.now) }
        ensures only { (v : Verified) → EncodesVerified v octets.now plain.now →
            IsOkAnd result (λ r. r ≡ v) }
        ensures fault { IfErr result (IsVerifiedFault octets.now plain.now) }
    {
        let secured = read_secured_frame(octets)?;
        match InnerPacketView::read_behind(secured.basic(), plain) {
            Ok((_, length)) if length < MESSAGE - PACKET + plain.len() => Err(
                SecuredFault::Trailing,
            ),
            Ok((packet, _)) => Ok(VerifiedFrame { secured, packet }),
            Err(fault) => Err(SecuredFault::Inner(fault)),
        }
    }

    /// The secured frame.
    pub fn secured(&self) -> &SecuredFrameView<'f>
        ensures { result.now ≡ sealed self.now.frame self.now.message }
    {
        &self.secured
    }

    /// Its packet.
    pub fn packet(&self) -> &InnerPacketView<'a>
        ensures { result.now ≡ seen_on_air self.now.frame }
    {
        &self.packet
    }
}
