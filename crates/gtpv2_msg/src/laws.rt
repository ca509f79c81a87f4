//! Laws of the messages, each the contract of a function that does nothing.

ghost use Rattle.std.specs.Prelude.{◌≡◌, ◌↔◌, ℕ, List, ◌++◌, map, None};
ghost use Rattle.std.specs.List.{AllByRecursion};
ghost use Rattle.gtpv2_ie.specs.Validity.{IsElement};
ghost use Rattle.gtpv2_msg.specs.HasRequired.{HasRequired, as_read, contexts_as_read};
ghost use Rattle.gtpv2_msg.specs.Message.{Message};
ghost use Rattle.gtpv2_msg.specs.Reading.{Spells};
ghost use Rattle.gtpv2_msg.specs.Refusal.{first_fault};
ghost use Rattle.gtpv2_msg.specs.Required.{required};
ghost use Rattle.gtpv2_msg.specs.RowFault.{row_fault};
ghost use Rattle.gtpv2_msg.specs.Spelling.{spelling};
ghost use Rattle.gtpv2_msg.specs.Validity.{IsMessage};

/// A message that has the elements which its type asks for is spelled by its text, with any octets
/// behind it too.
pub fn messages_read_back()
    ensures { (message : Message) (more : List ℕ) → IsMessage message → AllByRecursion IsElement message.ies
        → HasRequired message → Spells (spelling message ++ more) message }
{}

/// What octets spell has the elements which its type asks for, so it is spelled by its text too, with
/// any octets behind it.
pub fn read_messages_read_back()
    ensures required { (octets : List ℕ) (message : Message) → Spells octets message → HasRequired message }
    ensures again { (octets more : List ℕ) (message : Message) → IsMessage message → AllByRecursion IsElement message.ies
        → Spells octets message → Spells (spelling message ++ more) message }
{}

/// A message has the elements which its type asks for exactly where the table of faults finds none
/// in it.
pub fn required_or_faulty()
    ensures { (message : Message) → HasRequired message
        ↔ (row_fault (required message.kind) (map as_read message.ies) (contexts_as_read message.ies) ≡ None) }
{}

/// Octets have a fault, or they spell a message, and not both.
pub fn faults_or_spells()
    ensures faultless { (octets : List ℕ) (message : Message) → Spells octets message → first_fault octets ≡ None }
    ensures spells { (octets : List ℕ) → first_fault octets ≡ None → (message : Message) × Spells octets message }
{}

/// No octets spell two messages.
pub fn spells_one()
    ensures { (octets : List ℕ) (first second : Message) → Spells octets first → Spells octets second → first ≡ second }
{}
