//! What lines show of a manager: the records in place, those of the log, and the locks.
ghost use Rattle.std.specs.Prelude.{◌≡◌, IfOk, length, min, vec_len};
ghost use Rattle.shore_types.specs.declared.layout.TheConstants.{MAX_STORES};
ghost use Rattle.shore_world.specs.Worlds.{geometry_in};

use crate::asking::refuse;
use crate::manager::{Progress, ScriptWorld};
use shore_model::LogRecord;
use shore_script::render;
use shore_types::layout::MAX_STORES;
use shore_types::{Fault, Pairs, StoreId};
use std::alloc::Global;
use std::io::{self, Write};

// All records are read before the first is written: a dump that is refused writes the fault alone.
pub fn dump<W: Write>(alloc: Global, world: &mut ScriptWorld, out: &mut W) -> io::Result<Progress> {
    match records_in_place(alloc, world) {
        Ok(stores) => {
            write_records(&stores, out)?;
            Ok(Progress::Done)
        }
        Err(fault) => refuse(alloc, world, None, fault, out),
    }
}

// The records of each store.
fn records_in_place(alloc: Global, world: &mut ScriptWorld) -> Result<Vec<Pairs>, Fault>
    // As many as the volume has stores.
    ensures { IfOk result (λ found. vec_len found ≡ min MAX_STORES (length (geometry_in world.old).stores)) }
{
    let mut found = Vec::new(alloc);
    for number in 0..MAX_STORES as u32 {
        let store = StoreId(number);
        if !world.geometry().has_store(store) {
            break;
        }
        found.push(world.dump(alloc, store)?)?;
    }
    Ok(found)
}

fn write_records<W: Write>(stores: &[Pairs], out: &mut W) -> io::Result<()> {
    let mut is_empty = true;
    for records in stores {
        is_empty = is_empty && records.len() == 0;
        render::records(out, records)?;
    }
    if is_empty {
        out.write_all(b"empty\n")?;
    }
    Ok(())
}

// All records are read before the first is written, as a dump's.
pub fn log<W: Write>(alloc: Global, world: &mut ScriptWorld, out: &mut W) -> io::Result<()> {
    match logged(alloc, world) {
        Ok(records) if records.is_empty() => out.write_all(b"no records\n"),
        Ok(records) => {
            render::log_records(out, world.tail().0, &records)?;
            Ok(())
        }
        Err(fault) => render::fault(out, None, &fault),
    }
}

fn logged(alloc: Global, world: &mut ScriptWorld) -> Result<Vec<LogRecord>, Fault> {
    let mut records = world.durable_records(alloc)?;
    records.append(&mut world.waiting(alloc)?)?;
    Ok(records)
}

// Every node of the lock table, by granule and then by transaction: so the world lists them.
pub fn locks<W: Write>(alloc: Global, world: &ScriptWorld, out: &mut W) -> io::Result<()> {
    let nodes = match world.nodes(alloc) {
        Ok(nodes) => nodes,
        Err(_) => return render::fault(out, None, &Fault::Memory),
    };
    if nodes.is_empty() {
        return out.write_all(b"no locks\n");
    }
    for node in &nodes {
        render::lock(out, node)?;
    }
    Ok(())
}
