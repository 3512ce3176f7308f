//! A manager with one session over two files of a folder, and records whose bytes tell a number.
use super::plan::Plan;
use crate::manager::{Manager, SESSION, formatted, opened};
use bench_parts::counted::CountDisk;
use bench_parts::files::file_of;
use bench_parts::layout::{STORE, geometry, volume_bytes};
use bench_parts::records::numbered;
use shore_disk::AnyDisk;
use shore_model::Call;
use shore_types::layout::MAX_POOL_FRAMES;
use shore_types::{Fault, Rid};

fn device(plan: &Plan, name: &str, zeros: Option<u64>) -> Result<CountDisk, Fault> {
    let file = file_of(&plan.host, plan.folder, name, zeros)?;
    Ok(CountDisk::new(AnyDisk::File(file)))
}

/// Makes both files anew, as the plan wants them, and opens them.
pub fn new_manager(plan: &Plan) -> Result<Manager, Fault> {
    let pages = plan.pages();
    let geometry = geometry(plan.host.alloc(), 1_024, pages)?;
    let log = device(plan, "log", Some(plan.log_bytes()))?;
    let volume = device(plan, "volume", Some(volume_bytes(pages)))?;
    formatted(plan.host.alloc(), (log, volume), &geometry, MAX_POOL_FRAMES)
}

/// Opens both files as they are.
pub fn open_manager(plan: &Plan) -> Result<Manager, Fault> {
    let log = device(plan, "log", None)?;
    let volume = device(plan, "volume", None)?;
    opened(plan.host.alloc(), (log, volume), MAX_POOL_FRAMES)
}

/// Updates the record of an id, or inserts one, so that its bytes tell a number. A call that needs a force before it begins is made again behind it.
pub fn change_record(
    plan: &Plan,
    manager: &mut Manager,
    id: &Option<Rid>,
    number: u64,
) -> Result<bool, Fault> {
    match put(plan, manager, id, number) {
        Err(Fault::NeedForce { .. }) => {
            manager.force()?;
            put(plan, manager, id, number)
        }
        answer => answer,
    }
}

fn put(plan: &Plan, manager: &mut Manager, id: &Option<Rid>, number: u64) -> Result<bool, Fault> {
    let bytes = numbered(plan.host.alloc(), number, plan.size)?;
    let call = match id {
        None => Call::Insert(STORE, bytes),
        Some(id) => Call::Update(*id, bytes),
    };
    manager.ask(SESSION, call)
}
