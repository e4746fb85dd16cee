//! Laws of the definitions: each function is empty, and its contract is the law.

ghost use Rattle.std.specs.Prelude.{◌≡◌, ◌≤◌, ◌++◌, ◌↔◌, ℕ, List, [], length, Ok, Err};
ghost use Rattle.bgp_messages.specs.declared.fault.Fault.{Fault};
ghost use Rattle.bgp_messages.specs.declared.head.Front.TheVariants.{Whole};
ghost use Rattle.bgp_messages.specs.declared.kind.Kind.{Kind};
ghost use Rattle.bgp_messages.specs.declared.message.Message.{Message};
ghost use Rattle.bgp_messages.specs.declared.said.Said.{Said};
ghost use Rattle.bgp_messages.specs.Decoding.{decoded};
ghost use Rattle.bgp_messages.specs.Heads.{front_of};
ghost use Rattle.bgp_messages.specs.Messages.{kind_of_message, SpellsBody, BodyFault, Spells};
ghost use Rattle.bgp_messages.specs.Updates.{SpellsUpdate};
ghost use Rattle.bgp_messages.specs.Said.{written, message_of, MayBeSaid};
ghost use Rattle.bgp_messages.specs.Worked.{worked_open, open_text, worked_refusal, refusal_text, update_text, worked_update};

/// What is written of a message is read back by the peer; of an OPEN by one that expects its AS, and
/// where identifier and hold time may be said.
pub fn what_is_said_is_read_back()
    ensures { (peer : ℕ) (said : Said) → MayBeSaid peer said → Spells peer (message_of said) (written said) }
{}

/// A body spells a message or has a first fault, never both; and it has one fault at most.
pub fn a_body_has_one_answer()
    ensures never_both { (peer : ℕ) (message : Message) (body : List ℕ) (fault : Fault) → SpellsBody peer message body
        → BodyFault peer (kind_of_message message) body fault → ⊥ }
    ensures one_fault { (peer : ℕ) (kind : Kind) (body : List ℕ) (a b : Fault) → BodyFault peer kind body a → BodyFault peer kind body b → a ≡ b }
{}

/// A body is decoded to the message that it spells, and to the first thing that is wrong with it.
pub fn a_body_is_decoded_to_what_it_spells()
    ensures message { (peer : ℕ) (kind : Kind) (body : List ℕ) (message : Message)
        → (decoded peer kind body ≡ Ok message) ↔ ((kind_of_message message ≡ kind) × SpellsBody peer message body) }
    ensures fault { (peer : ℕ) (kind : Kind) (body : List ℕ) (fault : Fault) → (decoded peer kind body ≡ Err fault) ↔ BodyFault peer kind body fault }
{}

/// No spelling of a message is the front of another, and one spelling spells one message.
pub fn no_spelling_begins_another()
    ensures { (p q : ℕ) (a b : Message) (spelling rest : List ℕ) → Spells p a spelling → Spells q b (spelling ++ rest) → (a ≡ b) × (rest ≡ []) }
{}

/// A message at the front of a stream is found there, whatever follows.
pub fn a_message_is_found_at_the_front()
    ensures { (peer : ℕ) (message : Message) (spelling rest : List ℕ) → Spells peer message spelling
        → front_of (spelling ++ rest) ≡ Whole (record { kind = kind_of_message message; len = length spelling }) }
{}

/// The OPEN of AS 65001 with the identifier 1.1.1.1 and a hold time of 90 seconds, and the
/// NOTIFICATION of a wrong AS, byte by byte.
pub fn worked_messages()
    ensures opening { written worked_open ≡ open_text }
    ensures refusal { written worked_refusal ≡ refusal_text }
{}

/// The body of an UPDATE that announces 172.16.0.0/16 by 10.0.100.1 over AS 65002, byte by byte.
pub fn a_worked_update_is_spelled()
    ensures { (fits : 16 ≤ 32) → SpellsUpdate (worked_update fits) update_text }
{}
