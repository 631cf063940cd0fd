//! Tests of refused memory: each call of the library whose memory is refused is made again, and returns the same.
//!
//! A call that runs out of memory returns what it does with ample memory when it is called again, and a step allocates
//! nothing. tests/program/refused_memory.py runs the test over each worked example, which is on its standard input, and
//! refuses one growth a run; with no input it goes over the first example that has a reply.
use super::frames::{EXAMPLE, newer, same};
use std::alloc::{AllocError, Global};
use std::io::Read;
use std::process::Abort;
use std::test::Fail;
use zk_jute::Reason;
use zk_lines::{LineFault, LineReason, ending_line, line_of, line_of_ref, read_line};
use zk_talk::{
    Ended, Ending, Fault, Limits, Message, MessageRef, PayloadFault, SayFault, Side, Speaker,
    Taken, Talk, read_all,
};

/// A piece of a side.
type Piece<'a> = (Side, &'a [u8]);

fn talk(alloc: Global, limits: Limits) -> Result<Talk, AllocError> {
    Talk::new(alloc, limits).or_else(|_| Talk::new(alloc, limits))
}

fn speaker(alloc: Global, limits: Limits) -> Result<Speaker, AllocError> {
    Speaker::new(alloc, limits).or_else(|_| Speaker::new(alloc, limits))
}

fn taken(talk: &mut Talk, (side, piece): Piece<'_>) -> Result<Taken, Fault> {
    talk.take(side, piece).or_else(|fault| match fault.reason {
        Reason::NoMemory => talk.take(side, piece),
        _ => Err(fault),
    })
}

fn said(speaker: &mut Speaker, message: &Message, out: &mut Vec<u8>) -> Result<(), SayFault> {
    speaker.say(message, out).or_else(|fault| match fault {
        SayFault::NoMemory => speaker.say(message, out),
        _ => Err(fault),
    })
}

fn said_payload(
    speaker: &mut Speaker,
    side: Side,
    payload: &[u8],
    out: &mut Vec<u8>,
) -> Result<(), PayloadFault> {
    speaker
        .say_payload(side, payload, out)
        .or_else(|fault| match fault {
            PayloadFault::Say(SayFault::NoMemory) => speaker.say_payload(side, payload, out),
            _ => Err(fault),
        })
}

fn line(alloc: Global, message: &Message) -> Result<Vec<u8>, AllocError> {
    line_of(alloc, message).or_else(|_| line_of(alloc, message))
}

fn line_seen(alloc: Global, message: &MessageRef<'_>) -> Result<Vec<u8>, AllocError> {
    match line_of_ref(alloc, message) {
        Ok(line) => Ok(line),
        Err(_) => line_of_ref(alloc, message),
    }
}

fn copied(alloc: Global, message: &MessageRef<'_>) -> Result<Message, AllocError> {
    match message.to_message(alloc) {
        Ok(copy) => Ok(copy),
        Err(_) => message.to_message(alloc),
    }
}

fn message(alloc: Global, line: &[u8]) -> Result<Message, LineFault> {
    read_line(alloc, line).or_else(|fault| match fault.reason {
        LineReason::NoMemory if fault.column == 0 => read_line(alloc, line),
        _ => Err(fault),
    })
}

fn last_line(alloc: Global, ending: &Ending) -> Result<Vec<u8>, AllocError> {
    ending_line(alloc, ending).or_else(|_| ending_line(alloc, ending))
}

fn all(alloc: Global, limits: Limits, pieces: &[Piece<'_>]) -> Result<Ended, AllocError> {
    read_all(alloc, limits, pieces).or_else(|_| read_all(alloc, limits, pieces))
}

fn append(lines: &mut Vec<u8>, bytes: &[u8]) -> Result<(), AllocError> {
    lines
        .extend_from_slice(bytes)
        .or_else(|_| lines.extend_from_slice(bytes))
}

/// The line of a copy of the message.
fn copied_line(alloc: Global, message: &MessageRef<'_>) -> Result<Vec<u8>, AllocError> {
    line(alloc, &copied(alloc, message)?)
}

/// The line of the message that `shown` is read as; nothing if it is no line.
fn line_again(alloc: Global, shown: &[u8]) -> Result<Vec<u8>, AllocError> {
    let Ok(message) = message(alloc, shown) else {
        return Ok(Vec::new(alloc));
    };
    line(alloc, &message)
}

/// A conversation that is read by `take` and by `step`, and said again by its messages and by its payloads.
#[derive(Drop)]
struct Reading {
    alloc: Global,
    taking: Talk,
    stepping: Talk,
    speaker: Speaker,
    payloads: Speaker,
    told: Told,
}

/// The bytes that were said by messages, and by payloads, and the lines of the messages.
#[derive(Drop)]
struct Told {
    bytes: Vec<u8>,
    payloads: Vec<u8>,
    lines: Vec<u8>,
}

/// Both values, if neither was refused.
fn both<A: Drop, B: Drop>(
    first: Result<A, AllocError>,
    second: Result<B, AllocError>,
) -> Result<(A, B), AllocError> {
    Ok((first?, second?))
}

fn begun(alloc: Global, limits: Limits) -> Result<Reading, AllocError> {
    let talks = both(talk(alloc, limits), talk(alloc, limits));
    let speakers = both(speaker(alloc, limits), speaker(alloc, limits));
    let ((taking, stepping), (speaker, payloads)) = both(talks, speakers)?;
    let told = Told {
        bytes: Vec::new(alloc),
        payloads: Vec::new(alloc),
        lines: Vec::new(alloc),
    };
    Ok(Reading {
        alloc,
        taking,
        stepping,
        speaker,
        payloads,
        told,
    })
}

/// The line of what was taken, once it is said; nothing if no message came.
fn taken_line(
    alloc: Global,
    speaker: &mut Speaker,
    message: &Option<Message>,
    out: &mut Vec<u8>,
) -> Result<Vec<u8>, Fail> {
    let Some(message) = message else {
        return Ok(Vec::new(alloc));
    };
    said(speaker, message, out)?;
    Ok(line(alloc, message)?)
}

/// The side shows the message of this line, which is read as the same message.
fn shows(rt: &impl Abort, alloc: Global, shown: &MessageRef<'_>, line: &[u8]) -> Result<(), Fail> {
    same(rt, &line_seen(alloc, shown)?.as_slice(), &line);
    same(rt, &copied_line(alloc, shown)?.as_slice(), &line);
    same(rt, &line_again(alloc, line)?.as_slice(), &line);
    Ok(())
}

/// How much of the piece a step uses, and whether a frame is whole.
fn steps(talk: &mut Talk, (side, piece): Piece<'_>) -> Option<(usize, bool)> {
    let stepped = talk.step(side, piece).ok()?;
    Some((stepped.used, stepped.whole))
}

/// A step uses as much as was taken, and its frame shows the message of this line; with no line it made no frame whole.
fn steps_too(
    rt: &impl Abort,
    reading: &mut Reading,
    piece: Piece<'_>,
    (used, line): (usize, &[u8]),
) -> Result<(), Fail> {
    let stepped = steps(&mut reading.stepping, piece);
    same(rt, &stepped, &Some((used, line.len() > 0)));
    match reading.stepping.view(piece.0) {
        Some(message) => shows(rt, reading.alloc, &message, line),
        None => {
            same(rt, &line.len(), &0);
            Ok(())
        }
    }
}

/// Says the payload that the step kept, if it did.
fn said_too(reading: &mut Reading, side: Side) -> Result<(), Fail> {
    let out = &mut reading.told.payloads;
    match reading.stepping.payload(side) {
        Some(payload) => Ok(said_payload(&mut reading.payloads, side, payload, out)?),
        None => Ok(()),
    }
}

/// Says what was taken of the piece, steps through it, and returns how much was used.
fn heard(
    rt: &impl Abort,
    reading: &mut Reading,
    piece: Piece<'_>,
    taken: &Taken,
) -> Result<usize, Fail> {
    let used = taken.used;
    let out = &mut reading.told.bytes;
    let line = taken_line(reading.alloc, &mut reading.speaker, &taken.message, out)?;
    steps_too(rt, reading, piece, (used, &line))?;
    said_too(reading, piece.0)?;
    if line.len() > 0 {
        append(&mut reading.told.lines, &line)?;
        append(&mut reading.told.lines, b"\n")?;
    }
    Ok(used)
}

/// How much of a piece is read up to the end of a frame; all of it if it is refused, which a step is for the same fault.
fn hear_next(rt: &impl Abort, reading: &mut Reading, piece: Piece<'_>) -> Result<usize, Fail> {
    let taken = match taken(&mut reading.taking, piece) {
        Ok(taken) => taken,
        Err(fault) => {
            let (side, bytes) = piece;
            same(rt, &reading.stepping.step(side, bytes).err(), &Some(fault));
            return Ok(bytes.len());
        }
    };
    heard(rt, reading, piece, &taken)
}

fn hear(rt: &impl Abort, reading: &mut Reading, (side, piece): Piece<'_>) -> Result<(), Fail> {
    let mut rest = piece;
    for _ in 0..piece.len() {
        let used = hear_next(rt, reading, (side, rest))?;
        rest = rest.get(used..).unwrap_or(&[]);
    }
    Ok(())
}

fn hear_all(rt: &impl Abort, reading: &mut Reading, pieces: &[Piece<'_>]) -> Result<(), Fail> {
    for piece in pieces {
        hear(rt, reading, *piece)?;
    }
    let ending = reading.taking.finish();
    same(rt, &reading.stepping.finish(), &ending);
    let last = last_line(reading.alloc, &ending)?;
    Ok(append(&mut reading.told.lines, &last)?)
}

/// The pieces are taken one by one, and their messages said.
fn asked(rt: &impl Abort, alloc: Global, pieces: &[Piece<'_>]) -> Result<Reading, Fail> {
    let mut reading = begun(alloc, newer()?)?;
    hear_all(rt, &mut reading, pieces)?;
    same(rt, &reading.told.payloads, &reading.told.bytes);
    Ok(reading)
}

/// The lines of what was read at once.
fn lines_of(alloc: Global, ended: &Ended) -> Result<Vec<u8>, AllocError> {
    let mut lines = Vec::new(alloc);
    for message in &ended.messages {
        append(&mut lines, &line(alloc, message)?)?;
        append(&mut lines, b"\n")?;
    }
    append(&mut lines, &last_line(alloc, &ended.ending)?)?;
    Ok(lines)
}

fn listed(alloc: Global, pieces: &[Piece<'_>]) -> Result<Vec<u8>, Fail> {
    Ok(lines_of(alloc, &all(alloc, newer()?, pieces)?)?)
}

/// Makes all calls for the pieces, and then those of a conversation once more.
fn ask(rt: &impl Abort, alloc: Global, pieces: &[Piece<'_>]) -> Result<(), Fail> {
    let some = asked(rt, alloc, pieces)?;
    let listed = listed(alloc, pieces)?;
    same(rt, &listed, &some.told.lines);
    let others = asked(rt, alloc, pieces)?;
    same(rt, &others.told.lines, &some.told.lines);
    same(rt, &others.told.bytes, &some.told.bytes);
    Ok(())
}

/// The first piece of what a recording has left, and what is then left.
fn first_piece(recording: &[u8]) -> Option<(Piece<'_>, &[u8])> {
    let (head, rest) = recording.split_at_checked(5)?;
    let side = match head[0] {
        b'C' => Side::Client,
        b'S' => Side::Server,
        _ => return None,
    };
    let size = u32::from_be_bytes([head[1], head[2], head[3], head[4]]);
    let (piece, rest) = rest.split_at_checked(size as usize)?;
    Some(((side, piece), rest))
}

fn put_piece<'a>(pieces: &mut Vec<Piece<'a>>, piece: Piece<'a>) -> Result<(), AllocError> {
    match pieces.push(piece) {
        Ok(()) => Ok(()),
        Err(_) => Ok(pieces.push(piece)?),
    }
}

/// The whole pieces of a recording, up to what is none.
fn pieces_of<'a>(alloc: Global, recording: &'a [u8]) -> Result<Vec<Piece<'a>>, AllocError> {
    let mut pieces = Vec::new(alloc);
    let mut rest = recording.get(4..).unwrap_or(&[]);
    for _ in 0..recording.len() {
        let Some((piece, left)) = first_piece(rest) else {
            break;
        };
        put_piece(&mut pieces, piece)?;
        rest = left;
    }
    Ok(pieces)
}

/// How many bytes a worked example has at most.
const MOST_BYTES: usize = 4_096;

#[test]
fn asked_again(rt: HostRuntime) -> Result<(), Fail> {
    let mut room = [0; MOST_BYTES];
    let count = rt.stdin().read(&mut room)?;
    if count == 0 {
        return ask(&rt, rt.alloc(), &EXAMPLE);
    }
    let pieces = pieces_of(rt.alloc(), &room[..count])?;
    ask(&rt, rt.alloc(), &pieces)
}
