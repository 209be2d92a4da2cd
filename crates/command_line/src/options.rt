//! What the program is asked to do.

use proto::{Dialect, Eviction, Storage};

/// What `segcached replay` is told.
#[derive(Drop)]
pub struct Options {
    /// The path of the script.
    pub file: String,
    /// How many workers run, 1 to 8.
    pub workers: u64,
    /// The bytes of a segment, 4,096 to 1,048,576. Whether it is a power of two is tested later.
    pub segment_size: u64,
    /// The number of segments, 8 to 65,536.
    pub segments: u64,
    /// The bytes of the largest item, 512 to 1,048,512; None is an eighth of a segment. Whether a
    /// segment is large enough is tested later.
    pub max_item_size: Option<u64>,
    /// The clock's first answer, in seconds.
    pub now: u64,
    /// How many seconds more each further answer is.
    pub tick: u64,
    /// The most bytes that a port accepts at once, 1 to 65,536; 0 is any number.
    pub accept: u64,
    /// Which give of each worker's port finds its peer gone, counted from 1; 0 is none.
    pub fail_give: u64,
    pub dialect: Dialect,
    /// Whether `incr`, `decr`, `append` and `prepend` change a value where it stands.
    pub update_in_place: bool,
    pub eviction: Eviction,
    /// Which threads execute requests.
    pub storage: Storage,
    /// Whether items keep their own deadlines, to the second.
    pub exact_ttls: bool,
}

/// What `segcached serve` is told.
#[derive(Drop)]
pub struct ServeOptions {
    /// The first address: an IP address and a port, or `unix:` and the path of a socket.
    pub listen: String,
    /// Up to seven further ones.
    pub also: Vec<String>,
    /// The mode of the files of sockets, 0 to 0o777.
    pub socket_mode: u32,
    /// How many workers run, 1 to 8.
    pub workers: u64,
    /// How many connections each worker serves at a time, 1 to 65,536; None is 1,024.
    pub connections: Option<u64>,
    /// How many connections are accepted before serving ends; None is any number.
    pub sessions: Option<u64>,
    /// After how many seconds a silent connection is closed, 1 to 4,294,967,295; None is never.
    pub idle: Option<u64>,
    /// The bytes of output that all workers together may keep for clients that don't read,
    /// 4,194,304 to 1,099,511,627,776 and at least 4,194,304 for each worker; None is 67,108,864
    /// for each.
    pub output_memory: Option<u64>,
    /// For how many microseconds a thread looks for work before it sleeps, 0 to 1,000,000; None
    /// leaves it to each thread. It does nothing if workers execute requests.
    pub spin: Option<u32>,
    /// Whether no line is written for connections that are closed.
    pub quiet: bool,
    /// The bytes of a segment, 4,096 to 1,048,576. Whether it is a power of two is tested later.
    pub segment_size: u64,
    /// The number of segments, 8 to 65,536.
    pub segments: u64,
    /// The bytes of the largest item, 512 to 1,048,512; None is an eighth of a segment. Whether a
    /// segment is large enough is tested later.
    pub max_item_size: Option<u64>,
    pub dialect: Dialect,
    /// Whether `incr`, `decr`, `append` and `prepend` change a value where it stands.
    pub update_in_place: bool,
    pub eviction: Eviction,
    /// Which threads execute requests.
    pub storage: Storage,
    /// Whether items keep their own deadlines, to the second.
    pub exact_ttls: bool,
}

/// What the words ask for.
#[derive(Drop)]
pub enum Job {
    /// To print this text.
    Help(String),
    Replay(Options),
    Serve(ServeOptions),
}
