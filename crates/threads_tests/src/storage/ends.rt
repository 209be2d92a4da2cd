//! The ends of an exchange, and an empty store.

ghost use Rattle.std.specs.Prelude.{◌≡◌, ℕ, IfOk};
ghost use Rattle.proto.specs.Sizes.{Sizes};
ghost use Rattle.proto.specs.Cache.{empty_cache};
ghost use Rattle.segcache.specs.StoreState.{sizes_in, segmented_cache, last_moment};
ghost use Rattle.exchange.specs.Ends.{AreMade};
ghost use Rattle.worker_port.specs.Giving.{by_any_clock};

use exchange::{MakeFault, Posted, StorageEnd, WorkerEnd, make};
use proto::{ByteString, Geometry, Request, Terms};
use segcache::Store;
use std::alloc::Global;

/// The ends of `workers` workers and of storage, and a store for the same sizes.
pub(crate) fn made(
    alloc: Global,
    workers: usize,
) -> Result<(Vec<WorkerEnd>, StorageEnd, Store), MakeFault>
    ensures { IfOk result (λ r. (g : Sizes) × AreMade workers (by_any_clock g) r.0.items r.1
        × (sizes_in r.2 ≡ g) × (segmented_cache r.2 ≡ empty_cache 0)
        × (last_moment r.2 ≡ 0)) }
{
    let geometry = match Geometry::new(4096, 8) {
        Ok(geometry) => geometry,
        Err(_) => return Err(MakeFault::BadCount),
    };
    let Ok(store) = Store::new(alloc, geometry) else {
        return Err(MakeFault::NoMemory);
    };
    let terms = Terms {
        geometry,
        system_clock: false,
        may_refuse: true,
    };
    let (ends, storage) = make(alloc, workers, terms)?;
    Ok((ends, storage, store))
}

/// Posts one more request of session 7, and says whether it was sent.
pub(crate) fn ask(alloc: Global, end: &mut WorkerEnd) -> Option<bool>
    ensures { (end.new.exchange ≡ end.old.exchange) × (end.new.worker ≡ end.old.worker) }
{
    let Ok(key) = Vec::from_slice(alloc, b"key") else {
        return None;
    };
    let posted = Posted {
        session: 7,
        number: end.sent() + 1,
        request: Request::Delete {
            key: ByteString::from_vec(key),
        },
    };
    Some(end.post(posted).is_ok())
}
