//! Entries of a history as words. A decision is `decided` and what was decided; a call is its session, its transaction, what
//! was asked, and the reply; an ask is `asked`, its ticket, and `yes` or `no`.
use super::steps::Step;
use super::words::Words;
use shore_model::{Answer, Call, Decision, Entry, Exchange, InDoubt, Outcome, RidMap};
use shore_types::{Fault, Lsn, Pairs, SessionId, StoreId, Ticket};
use std::alloc::Global;

impl Step for Entry {
    fn read(alloc: Global, words: &mut Words) -> Entry {
        match words.word() {
            "decided" => Entry::Decided(Decision::read(alloc, words)),
            "asked" => Entry::Asked {
                ticket: ticket(words),
                durable: is_yes(words),
            },
            session => Entry::Exchanged {
                session: SessionId(words.short_number_of(session)),
                txn: words.txn(),
                exchange: exchange(alloc, words),
            },
        }
    }
}

/// As `commit 1`, `prepare 1 g1` or `roll_back 1`.
impl Step for Decision {
    fn read(alloc: Global, words: &mut Words) -> Decision {
        let kind = words.word();
        let txn = words.txn();
        match kind {
            "commit" => Decision::Commit(txn),
            "prepare" => Decision::Prepare(txn, words.bytes(alloc)),
            "roll_back" => Decision::RollBack(txn),
            _ => words.refused(Decision::Commit(txn)),
        }
    }
}

/// A transaction in doubt: its number, its global id, and the one record that it wrote.
impl Step for InDoubt {
    fn read(alloc: Global, words: &mut Words) -> InDoubt {
        let txn = words.txn();
        let id = words.rid();
        let global = words.bytes(alloc);
        let mut writes = RidMap::new(alloc);
        let is_written = writes.insert(id, Some(words.bytes(alloc))).is_ok();
        words.require(is_written);
        InDoubt {
            txn,
            global,
            writes,
        }
    }
}

fn exchange(alloc: Global, words: &mut Words) -> Exchange {
    let call = call(alloc, words);
    let arrow = words.word();
    words.require(arrow == "->");
    let reply = match words.word() {
        "refused" => Err(fault(words)),
        kind => Ok(answer(alloc, kind, words)),
    };
    Exchange { call, reply }
}

fn call(alloc: Global, words: &mut Words) -> Call {
    match words.word() {
        "insert" => Call::Insert(StoreId(words.short_number()), words.bytes(alloc)),
        "update" => Call::Update(words.rid(), words.bytes(alloc)),
        "prepare" => Call::Prepare(words.bytes(alloc)),
        "resolve" => {
            let outcome = outcome(words);
            Call::Resolve(words.bytes(alloc), outcome)
        }
        kind => plain_call(kind, words),
    }
}

fn outcome(words: &mut Words) -> Outcome {
    match words.word() {
        "commit" => Outcome::Commit,
        "abort" => Outcome::Abort,
        _ => words.refused(Outcome::Abort),
    }
}

fn plain_call(kind: &str, words: &mut Words) -> Call {
    match kind {
        "begin" => Call::Begin,
        "get" => Call::Get(words.rid()),
        "getu" => Call::GetForUpdate(words.rid()),
        "delete" => Call::Delete(words.rid()),
        "scan" => Call::Scan(StoreId(words.short_number())),
        "savepoint" => Call::Savepoint,
        "back" => Call::BackTo(words.short_number() as usize),
        "commit" => Call::Commit,
        "abort" => Call::Abort,
        _ => words.refused(Call::Begin),
    }
}

fn answer(alloc: Global, kind: &str, words: &mut Words) -> Answer {
    match kind {
        "began" => Answer::Began(words.txn()),
        "got" => Answer::Got(words.bytes(alloc)),
        "at" => Answer::Inserted(words.rid()),
        "scanned" => Answer::Scanned(records(alloc, words)),
        "saved" => Answer::Saved(words.short_number() as usize),
        "ticket" => Answer::Committed(ticket(words)),
        _ => plain_answer(kind, words),
    }
}

fn plain_answer(kind: &str, words: &mut Words) -> Answer {
    match kind {
        "updated" => Answer::Updated,
        "deleted" => Answer::Deleted,
        "went_back" => Answer::WentBack,
        "aborted" => Answer::Aborted,
        "prepared" => Answer::Prepared,
        "resolved" => Answer::Resolved,
        _ => words.refused(Answer::Updated),
    }
}

fn ticket(words: &mut Words) -> Ticket {
    Ticket::of(Lsn(words.number()))
}

fn is_yes(words: &mut Words) -> bool {
    match words.word() {
        "yes" => true,
        "no" => false,
        _ => words.refused(false),
    }
}

fn fault(words: &mut Words) -> Fault {
    match words.word() {
        "NoTransaction" => Fault::NoTransaction,
        "NoRecord" => Fault::NoRecord,
        "NoSavepoint" => Fault::NoSavepoint,
        "IsPrepared" => Fault::IsPrepared,
        "Device" => Fault::Device,
        "Failed" => Fault::Failed,
        _ => words.refused(Fault::Failed),
    }
}

// How many there are, and then each.
fn records(alloc: Global, words: &mut Words) -> Pairs {
    let count = words.number();
    let mut records = Pairs::new(alloc);
    for _ in 0..count {
        let id = words.rid();
        let is_pushed = records.push(id, words.word().as_bytes()).is_ok();
        words.require(is_pushed);
    }
    records
}
