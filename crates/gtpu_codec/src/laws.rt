//! Laws of the grammar, each the contract of a function that does nothing.
ghost use Rattle.std.specs.Prelude.{◌≡◌, ℕ, ◌++◌, ◌↔◌, List, length, Some, None};
ghost use Rattle.gtpu_codec.specs.declared.head.GtpUHead.{GtpUHead};
ghost use Rattle.gtpu_codec.specs.declared.message.GtpU.{GtpU};
ghost use Rattle.gtpu_codec.specs.declared.message.GtpU.TheVariants.{Gpdu};
ghost use Rattle.gtpu_codec.specs.Message.{message_of};
ghost use Rattle.gtpu_codec.specs.Refusal.{first_fault};
ghost use Rattle.gtpu_codec.specs.Spelling.{Spells};
ghost use Rattle.gtpu_codec.specs.Text.{IsMessage, body_of, gpdu_head, head_of, spelling};

/// What is written is read again, whatever octets follow.
pub fn reads_back()
    ensures { (message : GtpU) (more : List ℕ) → IsMessage message
        → Spells (spelling message ++ more) (head_of message) (body_of message) }
{}

/// The message is a function of the octets, and it is the one that they spell.
pub fn message_is_spelled()
    ensures { (octets : List ℕ) (head : GtpUHead) (body : List ℕ)
        → Spells octets head body ↔ (message_of octets ≡ Some (head, body)) }
{}

/// Octets have a fault, or they spell a message, and not both.
pub fn faults_or_spells()
    ensures faultless { (octets : List ℕ) (head : GtpUHead) (body : List ℕ)
        → Spells octets head body → first_fault octets ≡ None }
    ensures spells { (octets : List ℕ) → first_fault octets ≡ None
        → (head : GtpUHead) × (body : List ℕ) × Spells octets head body }
{}

/// A G-PDU is its eight octets and then the payload.
pub fn gpdu_is_head_and_payload()
    ensures { (teid : ℕ) (payload : List ℕ)
        → spelling (Gpdu teid payload) ≡ gpdu_head teid (length payload) ++ payload }
{}
