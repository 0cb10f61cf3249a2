//! Laws of the definitions.

ghost use Rattle.std.specs.Prelude.{◌≡◌, ◌∷◌, ◌++◌, ℕ, List, take, drop};
ghost use Rattle.its_model.specs.Packet.{Pdu};
ghost use Rattle.its_faults.specs.declared.packet.Fault.{Fault};
ghost use Rattle.its_headers.specs.Encoding.{Encodes, encoding, IsBytes};
ghost use Rattle.its_headers.specs.FirstFault.{FirstFault};

/// No encoding begins another, and each is of one packet with one number of hops left. So what was
/// written is read again, whatever follows it.
pub fn one_encoding()
    ensures { (p q : Pdu) (l m : ℕ) (a b x y : List ℕ) → Encodes p l a → Encodes q m b
        → a ++ x ≡ b ++ y
        → (p ≡ q) × (l ≡ m) × (a ≡ b) }
{}

/// A packet with more or fewer hops left differs in octet 3 alone.
pub fn hops_in_one_octet()
    ensures { (p : Pdu) (l m : ℕ)
        → encoding p m ≡ take 3 (encoding p l) ++ m ∷ drop 4 (encoding p l) }
{}

/// Octets have a first fault exactly where no encoding begins them, and never two.
pub fn one_first_fault()
    ensures none { (p : Pdu) (left : ℕ) (w rest : List ℕ) (e : Fault) → IsBytes (w ++ rest)
        → Encodes p left w
        → FirstFault (w ++ rest) e → ⊥ }
    ensures some { (w : List ℕ) → IsBytes w
        → ((p : Pdu) (left : ℕ) (s rest : List ℕ) → Encodes p left s → w ≡ s ++ rest → ⊥)
        → (e : Fault) × FirstFault w e }
    ensures one { (w : List ℕ) (e d : Fault) → FirstFault w e → FirstFault w d → e ≡ d }
{}
