//! Answers as the script prints them.
ghost use Rattle.std.specs.Prelude.{◌≡◌, ◌≤◌, ◌+◌, ◌^◌, ◌-◌, IfOk, OnOk, length, min, slice_get};
ghost use Rattle.std.specs.Io.KnownBytes.{Appends};
ghost use Rattle.hex.specs.Hex.{encode_lower};
ghost use Rattle.shore_script.specs.Texts.{answer_line, answer_text, bytes_text, checkpoint_begun_line, checkpoint_line, committed_line, doubt_line, durable_line, doubt_lines, fault_line, kind_text, lock_line, log_line, log_lines, open_fault_line, record_line, record_lines, some_record_line, threads_line, waits_line};
ghost use Rattle.shore_script.specs.declared.render.TheConstants.{PART};

use shore_model::{Answer, LogRecord, Payload, Request};
use shore_types::{Fault, GlobalId, Granule, Lsn, Pairs, Rid, SessionId, TxnId};
use std::io::{self, Write};

/// So many bytes of a record are written at a time.
const PART: usize = 64;

/// Writes a fault's line, of a session's call or of another line.
pub fn fault<W: Write>(out: &mut W, session: Option<SessionId>, fault: &Fault) -> io::Result<()>
    ensures { OnOk result (Appends (W.contents out.old) (W.contents out.new) (fault_line session fault.now)) }
{
    match session {
        Some(session) => writeln!(out, "{session}: fault {fault}"),
        None => writeln!(out, "fault {fault}"),
    }
}

/// Writes that a session's line had nothing to do.
pub fn nothing<W: Write>(out: &mut W, session: SessionId) -> io::Result<()> {
    writeln!(out, "{session}: nothing")
}

/// Writes the line of an open that was refused.
pub fn open_fault<W: Write>(out: &mut W, fault: &Fault) -> io::Result<()>
    ensures { OnOk result (Appends (W.contents out.old) (W.contents out.new) (open_fault_line fault.now)) }
{
    writeln!(out, "open fault {fault}")
}

/// Writes the line of a session's commit that is durable.
pub fn committed<W: Write>(out: &mut W, session: SessionId) -> io::Result<()>
    ensures { OnOk result (Appends (W.contents out.old) (W.contents out.new) (committed_line session)) }
{
    writeln!(out, "{session}: committed")
}

/// Writes the line that says whether the commit of a ticket is durable.
pub fn durable<W: Write>(out: &mut W, is_durable: bool) -> io::Result<()>
    ensures { OnOk result (Appends (W.contents out.old) (W.contents out.new) (durable_line is_durable)) }
{
    match is_durable {
        true => out.write_all(b"durable yes\n"),
        false => out.write_all(b"durable no\n"),
    }
}

/// Writes the line of threads that have all counted a record up: how often, together.
pub fn threads<W: Write>(out: &mut W, total: u64) -> io::Result<()>
    ensures { OnOk result (Appends (W.contents out.old) (W.contents out.new) (threads_line total)) }
{
    writeln!(out, "threads {total}")
}

/// Writes the line of a checkpoint that has begun, with the number of its begin.
pub fn checkpoint_begun<W: Write>(out: &mut W, number: Lsn) -> io::Result<()>
    ensures { OnOk result (Appends (W.contents out.old) (W.contents out.new) (checkpoint_begun_line number)) }
{
    writeln!(out, "checkpoint begun {number}")
}

/// Writes the line of a checkpoint that is made: the number of its begin, and the tail of its Anchor record.
pub fn checkpoint<W: Write>(out: &mut W, begin: Lsn, tail: Lsn) -> io::Result<()>
    ensures { OnOk result (Appends (W.contents out.old) (W.contents out.new) (checkpoint_line begin tail)) }
{
    writeln!(out, "checkpoint {begin} tail {tail}")
}

/// Writes the line of a session's answer, and those of a scan's pairs. A commit's is its ticket.
pub fn answer<W: Write>(out: &mut W, session: SessionId, answer: &Answer) -> io::Result<()>
    ensures { OnOk result (Appends (W.contents out.old) (W.contents out.new) (answer_line session answer.now)) }
{
    write!(out, "{session}: ")?;
    answer_of(out, answer)
}

fn answer_of<W: Write>(out: &mut W, answer: &Answer) -> io::Result<()>
    ensures { OnOk result (Appends (W.contents out.old) (W.contents out.new) (answer_text answer.now)) }
{
    match answer {
        Answer::Began(txn) => writeln!(out, "began {txn}"),
        Answer::Got(found) => got(out, found.as_slice()),
        Answer::Inserted(id) => writeln!(out, "at {id}"),
        Answer::Scanned(pairs) => scanned(out, pairs),
        Answer::AreInDoubt(found) => in_doubt(out, found.as_slice()),
        Answer::Saved(index) => writeln!(out, "savepoint {index}"),
        Answer::Committed(ticket) => writeln!(out, "ticket {}", ticket.number()),
        Answer::Aborted => writeln!(out, "aborted"),
        Answer::Prepared => writeln!(out, "prepared"),
        Answer::Resolved => writeln!(out, "resolved"),
        _ => writeln!(out, "ok"),
    }
}

fn in_doubt<W: Write>(out: &mut W, found: &[(GlobalId, TxnId)]) -> io::Result<()>
    ensures { OnOk result (Appends (W.contents out.old) (W.contents out.new) (answer_text (Answer.AreInDoubt found.now))) }
{
    let count = found.len();
    writeln!(out, "indoubt {count}")?;
    doubts(out, found)
}

fn doubts<W: Write>(out: &mut W, found: &[(GlobalId, TxnId)]) -> io::Result<()>
    ensures { OnOk result (Appends (W.contents out.old) (W.contents out.new) (doubt_lines found.now)) }
{
    for one in found {
        doubt(out, &one.0, one.1)?;
    }
    Ok(())
}

fn doubt<W: Write>(out: &mut W, global: &GlobalId, txn: TxnId) -> io::Result<()>
    ensures { OnOk result (Appends (W.contents out.old) (W.contents out.new) (doubt_line global.now txn)) }
{
    bytes(out, global.as_slice())?;
    writeln!(out, " {txn}")
}

fn got<W: Write>(out: &mut W, found: &[u8]) -> io::Result<()>
    ensures { OnOk result (Appends (W.contents out.old) (W.contents out.new) (answer_text (Answer.Got found.now))) }
{
    out.write_all(b"bytes ")?;
    bytes(out, found)?;
    out.write_all(b"\n")
}

fn scanned<W: Write>(out: &mut W, pairs: &Pairs) -> io::Result<()>
    ensures { OnOk result (Appends (W.contents out.old) (W.contents out.new) (answer_text (Answer.Scanned pairs.now))) }
{
    let count = pairs.len();
    writeln!(out, "scan {count}")?;
    records(out, pairs)
}

/// Writes the line of a session's call that begins to wait for a lock.
pub fn waits<W: Write>(out: &mut W, session: SessionId, granule: &Granule) -> io::Result<()>
    ensures { OnOk result (Appends (W.contents out.old) (W.contents out.new) (waits_line session granule.now)) }
{
    writeln!(out, "{session}: waits {granule}")
}

/// Writes the line of a lock: what a transaction holds of a granule, or `-`, and what it waits for.
pub fn lock<W: Write>(out: &mut W, request: &Request) -> io::Result<()>
    ensures { OnOk result (Appends (W.contents out.old) (W.contents out.new) (lock_line request.now)) }
{
    let (granule, txn) = (&request.granule, request.txn);
    match &request.held {
        Some(held) => write!(out, "{granule} {txn} {held}")?,
        None => write!(out, "{granule} {txn} -")?,
    }
    if let Some(wanted) = &request.wanted {
        write!(out, " wants {wanted}")?;
    }
    out.write_all(b"\n")
}

/// Writes a line for each record.
pub fn records<W: Write>(out: &mut W, pairs: &Pairs) -> io::Result<()>
    ensures { OnOk result (Appends (W.contents out.old) (W.contents out.new) (record_lines pairs.now)) }
{
    for index in 0..pairs.len() {
        record_at(out, pairs, index)?;
    }
    Ok(())
}

fn record_at<W: Write>(out: &mut W, pairs: &Pairs, index: usize) -> io::Result<()>
    ensures { OnOk result (Appends (W.contents out.old) (W.contents out.new) (some_record_line (slice_get pairs.now index))) }
{
    match pairs.get(index) {
        Some((id, found)) => record(out, id, found),
        None => Ok(()),
    }
}

fn record<W: Write>(out: &mut W, id: Rid, found: &[u8]) -> io::Result<()>
    ensures { OnOk result (Appends (W.contents out.old) (W.contents out.new) (record_line id found.now)) }
{
    write!(out, "{id} ")?;
    bytes(out, found)?;
    out.write_all(b"\n")
}

/// Writes a line for each of these records of the log, of which the first has this number. Answers the number behind the last.
pub fn log_records<W: Write>(out: &mut W, first: u64, records: &[LogRecord]) -> io::Result<u64>
    ensures behind { IfOk result (λ behind. behind ≡ min (first + length records.now) (2 ^ 64 - 1)) }
    ensures lines { OnOk result (Appends (W.contents out.old) (W.contents out.new) (log_lines first records.now)) }
{
    let mut number = first;
    for record in records {
        log_record(out, number, record)?;
        number = number.saturating_add(1);
    }
    Ok(first.saturating_add(records.len() as u64))
}

fn log_record<W: Write>(out: &mut W, number: u64, logged: &LogRecord) -> io::Result<()>
    ensures { OnOk result (Appends (W.contents out.old) (W.contents out.new) (log_line number logged.now)) }
{
    let kind = kind_name(&logged.payload);
    let txn = logged.txn;
    let previous = logged.previous;
    write!(out, "{number} {kind} {txn} {previous}")?;
    if let Payload::Compensation { undo_next, .. } = &logged.payload {
        write!(out, " next {undo_next}")?;
    }
    out.write_all(b"\n")
}

fn kind_name(payload: &Payload) -> &'static str
    ensures { result.now ≡ kind_text payload.now }
{
    match payload {
        Payload::Change { .. } => "Change",
        Payload::Compensation { .. } => "Compensation",
        Payload::Commit => "Commit",
        Payload::End => "End",
        Payload::Prepare { .. } => "Prepare",
        Payload::RollbackDecided => "RollbackDecided",
        Payload::CheckpointBegin => "CheckpointBegin",
        Payload::CheckpointEnd { .. } => "CheckpointEnd",
        Payload::Anchor { .. } => "Anchor",
    }
}

// Pairs of hexadecimal digits, or `-` if there is no byte.
fn bytes<W: Write>(out: &mut W, found: &[u8]) -> io::Result<()>
    ensures { OnOk result (Appends (W.contents out.old) (W.contents out.new) (bytes_text found.now)) }
{
    if found.is_empty() {
        return out.write_all(b"-");
    }
    let mut digits = [0u8; 2 * PART];
    for part in found.chunks(PART) {
        out.write_all(digits_of(part, &mut digits))?;
    }
    Ok(())
}

// The digits of a part, in this place.
fn digits_of<'a>(part: &[u8], digits: &'a mut [u8; 2 * PART]) -> &'a [u8]
    requires { length part.now ≤ PART }
    ensures { result.now ≡ encode_lower part.now }
{
    let room = &mut digits[..2 * part.len()];
    // The room is as long as it has to be, so this cannot fail.
    let _ = hex::encode_to_slice(part, room);
    room
}
