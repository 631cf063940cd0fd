//! `Speaker`: its laws, and a payload that has no turn. What may be said, and why other messages may not, are stored cases
//! of the program.
use super::frames::{CONNECT, CONNECTED, NO_NODE, newer, same};
use std::process::Abort;
use std::test::Fail;
use zk_jute::{ItemFault, Reason};
use zk_talk::{PayloadFault, Side, Speaker, read_is_said, said_is_read};

#[test]
fn laws(_rt: HostRuntime) {
    said_is_read();
    read_is_said();
}

fn payload(frame: &[u8]) -> Result<&[u8], Fail> {
    Ok(frame.get(4..).ok_or("no payload")?)
}

/// The server's payload is refused: no request waits for it.
fn is_unasked(rt: &impl Abort, speaker: &mut Speaker, payload: &[u8], bytes: &mut Vec<u8>) {
    let unasked = Err(PayloadFault::Item(ItemFault::at(0, Reason::Unasked)));
    same(
        rt,
        &speaker.say_payload(Side::Server, payload, bytes),
        &unasked,
    );
}

/// Says the payloads of the connect request and of the reply to it.
fn connects(speaker: &mut Speaker, bytes: &mut Vec<u8>) -> Result<(), Fail> {
    speaker.say_payload(Side::Client, payload(CONNECT)?, bytes)?;
    speaker.say_payload(Side::Server, payload(CONNECTED)?, bytes)?;
    Ok(())
}

/// The reply to the connect request is refused before the request, and a reply to no other request after both.
fn are_unasked(rt: &impl Abort, speaker: &mut Speaker, bytes: &mut Vec<u8>) -> Result<(), Fail> {
    is_unasked(rt, speaker, payload(CONNECTED)?, bytes);
    connects(speaker, bytes)?;
    is_unasked(rt, speaker, payload(NO_NODE)?, bytes);
    same(rt, &bytes.len(), &(CONNECT.len() + CONNECTED.len()));
    Ok(())
}

#[test]
fn a_payload_without_its_request_is_refused(rt: HostRuntime) -> Result<(), Fail> {
    let mut speaker = Speaker::new(rt.alloc(), newer()?)?;
    are_unasked(&rt, &mut speaker, &mut Vec::new(rt.alloc()))
}
