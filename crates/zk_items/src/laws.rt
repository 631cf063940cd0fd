//! The laws of items: what is written is read again, and what is read was written.
ghost use Rattle.zk_items.specs.{Codes.error_code, Codes.failure_code, Codes.event_code, Laws.Lawful, Leaf.int, Leaf.long, Leaf.bit, Leaf.ro, Leaf.text, Leaf.blob};

/// The two laws of each item: the spelling of a value that fits is read again as that value, whatever may follow an
/// item; and what is read is the spelling of a value that fits, and the rest. The function does nothing.
#[tactic(auto, using(crate::proofs::Blobs::blob_is, crate::proofs::Codes::code_is, crate::proofs::Codes::other_code_is, crate::proofs::Flags::bit_is, crate::proofs::Flags::ro_is, crate::proofs::Numbers::int_is, crate::proofs::Numbers::long_is, crate::proofs::Texts::text_is))]
pub fn item_laws()
    ensures int { Lawful int }
    ensures long { Lawful long }
    ensures bit { Lawful bit }
    // A bit that may be absent.
    ensures ro { Lawful ro }
    ensures text { Lawful text }
    ensures blob { Lawful blob }
    // The number of an error, that of a failure, and that of a type of event, with their names.
    ensures error_code { Lawful error_code }
    ensures failure_code { Lawful failure_code }
    ensures event_code { Lawful event_code }
{}
