//! Laws of the definitions.

ghost use Rattle.std.specs.Prelude.{◌≡◌, ◌++◌, ℕ, List};
ghost use Rattle.its_faults.specs.declared.packet.Fault.{Fault};
ghost use Rattle.its_formats.specs.Bytes.{IsBytes};
ghost use Rattle.its_headers.specs.Encoding.{Encodes as EncodesPdu};
ghost use Rattle.its_model.specs.Packet.{Pdu};
ghost use Rattle.its_outside.specs.Encoding.{Standard, Encodes};
ghost use Rattle.its_outside.specs.StandardFault.{StandardFault};

/// No encoding begins another, and each is of one packet. So the octets determine each field.
pub fn one_standard_encoding()
    ensures { (p q : Standard) (a b x y : List ℕ) → Encodes p a → Encodes q b → a ++ x ≡ b ++ y
        → (p ≡ q) × (a ≡ b) }
{}

/// Octets have a first fault if and only if no encoding begins them, and never two.
pub fn one_standard_fault()
    ensures none { (p : Standard) (w rest : List ℕ) (e : Fault) → IsBytes (w ++ rest)
        → Encodes p w
        → StandardFault (w ++ rest) e → ⊥ }
    ensures some { (w : List ℕ) → IsBytes w
        → ((p : Standard) (s rest : List ℕ) → Encodes p s → w ≡ s ++ rest → ⊥)
        → (e : Fault) × StandardFault w e }
    ensures one { (w : List ℕ) (e d : Fault) → StandardFault w e → StandardFault w d → e ≡ d }
{}

/// Each packet of the profile is one of the standard, in the same octets.
pub fn profile_is_standard()
    ensures { (p : Pdu) (left : ℕ) (w : List ℕ) → EncodesPdu p left w
        → (q : Standard) × Encodes q w }
{}
