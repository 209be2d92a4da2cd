//! The seed of the hash of keys.

use std::random::RandomSource;
use std::time::{self, SystemTime, UNIX_EPOCH};

/// Eight random bytes of the system's, or if it gives none its clock's nanoseconds since 1970, 0 if
/// that can't be read.
pub fn seed_of<R: RandomSource + time::Clock>(rt: &R) -> u64 {
    let mut bytes = [0; 8];
    if rt.fill_bytes(&mut bytes).is_ok() {
        return u64::from_le_bytes(bytes);
    }
    let Ok(now) = SystemTime::now(rt) else {
        return 0;
    };
    match now.duration_since(UNIX_EPOCH) {
        Ok(since) => (since.as_nanos() % 0x1_0000_0000_0000_0000) as u64,
        Err(_) => 0,
    }
}
