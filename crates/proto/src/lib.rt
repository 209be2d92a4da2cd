//! The text protocol and the cache's meaning: messages, replies, the sizes of the cache, and in
//! `specs/` the grammar, the answers and the commands as definitions.
#![tactic(auto)]

mod byte_string;
mod clock;
mod counts;
mod dialect;
mod eviction;
mod gauges;
mod geometry;
mod history;
mod hits;
mod keys;
pub mod laws;
mod limits;
mod line;
mod logged_clock;
mod message;
mod next;
mod no_memory;
mod pending_answer;
mod stats;
mod storage;
mod storage_line;
mod system_clock;
mod terms;
mod trace;
mod version;
mod view;
mod words;

pub use byte_string::ByteString;
pub use clock::{AskedClock, Clock, ClockAnswers};
pub use counts::{Counts, Tally};
pub use dialect::Dialect;
pub use eviction::Eviction;
pub use gauges::{Gauge, Gauges, LISTENER_GAUGES, WORKER_GAUGES};
pub use geometry::{
    BESIDE_LARGEST_ITEM, BadItemLimit, BadSize, Geometry, ITEM_HEADER, ITEMS_PER_SEGMENT,
    MAX_SEGMENT_SIZE, MAX_SEGMENTS, MIN_ITEM_LIMIT, MIN_SEGMENT_SIZE, MIN_SEGMENTS, item_size,
};
pub use history::{Answered, Posted};
pub use hits::{Hit, HitRef, HitWriter, Hits};
pub use keys::Keys;
pub use limits::{
    MAX_ANSWER, MAX_BLOCK, MAX_KEY, MAX_LENIENT_BLOCK, MAX_LENIENT_LINE, MAX_LINE, MAX_POSTS,
    MAX_VALUE, MAX_WORKERS, MIN_ITEM_SIZE, WINDOW,
};
pub use line::{RequestView, StorageWord};
pub use message::{FatalKind, LocalKind, Message, Next, Put, Reply, Request, Touch};
pub use next::{next_message, next_message_in, request_to_store, to_message};
pub use no_memory::NoMemory;
pub use pending_answer::{PendingAnswer, show};
pub use stats::StatsText;
pub use storage::Storage;
pub use storage_line::StorageLineView;
pub use system_clock::{ClockAnswer, SystemClock};
pub use terms::Terms;
pub use trace::{Noted, Trace};
pub use version::{TOLD_VERSION, VERSION};
pub use view::{MessageView, NextView, next_view, next_view_behind, too_large};
pub use words::{Words, number};
