//! Every type that crosses a thread may do so.
use shore_core::Core;
use shore_disk::{AnyDisk, FileDisk, FuseDisk, MemDisk};
use shore_held::{Named, Seat};
use shore_log::{LogDev, PlainTail};
use shore_model::Call;
use shore_queue::{Channel, Numbers, QueuePass, QueueTail, Queued};
use shore_shared::{Session, Shared};
use shore_words::{WakeWords, WordSeat, Words};
use shore_world::{Event, Step, World};
use std::alloc::Global;
use std::marker::Brand;
use std::sync::{Arc, Mutex, Wait};
use std::test::Fail;

fn goes_over<T: Send>() -> bool {
    true
}

fn is_shared<T: Sync>() -> bool {
    true
}

fn sessions_go_over<B: Named + Send + Sync>() -> bool {
    goes_over::<Session<B>>() && goes_over::<Seat<B>>()
}

fn queues_go_over<N: Numbers + Send + Sync, B: Queued + Send + Sync, R: Wait + Copy + Send>(
    _: R,
) -> bool {
    goes_over::<QueueTail<N, B, R>>()
        && goes_over::<Arc<Channel<N>, Global>>()
        && is_shared::<Channel<N>>()
}

fn managers_are_shared<
    N: Numbers + Send + Sync,
    B: Named + Send + Sync,
    R: Wait + Copy + Send + Sync,
>(_: R) -> bool {
    is_shared::<Shared<N, B, QueueTail<N, B, R>, AnyDisk, FuseDisk<AnyDisk>>>()
}

#[test]
fn what_crosses_a_thread_may_do_so(rt: HostRuntime) -> Result<(), Fail> {
    let all = [
        goes_over::<MemDisk>(),
        goes_over::<FileDisk>(),
        goes_over::<AnyDisk>(),
        goes_over::<FuseDisk<AnyDisk>>(),
        goes_over::<Core<PlainTail, AnyDisk>>(),
        goes_over::<LogDev<AnyDisk>>(),
        goes_over::<World<AnyDisk, AnyDisk>>(),
        goes_over::<World<FuseDisk<AnyDisk>, FuseDisk<AnyDisk>>>(),
        is_shared::<Mutex<World<FileDisk, FileDisk>>>(),
        is_shared::<Words>(),
        is_shared::<WakeWords>(),
        goes_over::<WordSeat>(),
        goes_over::<QueuePass>(),
        goes_over::<PlainTail>(),
        goes_over::<Call>(),
        goes_over::<Event>(),
        goes_over::<Step>(),
        sessions_go_over::<Brand>(),
        queues_go_over::<Brand, Brand, _>(rt),
        managers_are_shared::<Brand, Brand, _>(rt),
    ];
    let count = all.iter().filter(|is| **is).count();
    println!(rt; "{count} types cross a thread")?;
    Ok(())
}
