//! The laws of fields, as the contract of a function that does nothing.
ghost use Rattle.std.specs.Prelude.{◌≡◌, length};
ghost use Rattle.zk_jute.specs.Item.{bytes_of};
ghost use Rattle.zk_asks.specs.Held.{ClientFrame};
ghost use Rattle.zk_asks.specs.Frames as asks;
ghost use Rattle.zk_answers.specs.Held.{ServerFrame};
ghost use Rattle.zk_answers.specs.Frames as answers;
ghost use Rattle.zk_fields.specs.Frames.{Framed, framed_items, client_framed, server_framed, client_fields, server_fields};
ghost use Rattle.zk_fields.specs.{Contents.AreAt, Walks.client_opened, Walks.server_opened, Walks.whole_fields};

/// The fields of a message are its items, in order and in their places. The function does nothing.
#[tactic(auto, using(crate::proofs::Same::client_is, crate::proofs::Same::server_is, crate::proofs::Contents::framed_at, crate::proofs::Agreeing::client_whole, crate::proofs::Agreeing::server_whole))]
pub fn field_laws()
    // The header, the fields' items and a multi's end are the message's items, in order.
    ensures client { (f : ClientFrame) → framed_items (client_framed f) ≡ asks.frame_items f }
    ensures server { (s : ServerFrame) → framed_items (server_framed s) ≡ answers.frame_items s }
    // Each field's place and length are those of its content in the payload.
    ensures contents { (f : Framed) → AreAt (bytes_of (framed_items f)) (length (bytes_of f.front)) f.entries }
    // The fields that a walk meets in a sent message's payload are the message's.
    ensures client_walk { (f : ClientFrame) → asks.IsSent f → whole_fields (client_opened f) (asks.payload f) ≡ client_fields f }
    ensures server_walk { (s : ServerFrame) → answers.IsSent s → whole_fields (server_opened s) (answers.payload s) ≡ server_fields s }
{}
