//! The version. It stands here alone: the definition of the answer to `version` (`specs/Answers`)
//! and the tools read it.

/// The version's number behind these words.
macro_rules! version {
    ($($words:literal)?) => {
        concat!($($words,)? "0.7.0")
    };
}

/// The version's number, as `X.Y.Z`.
pub const VERSION: &str = version!();

/// What `version` and `stats` tell: a number for clients that ask for memcached's, and then the
/// version.
pub const TOLD_VERSION: &str = version!("1.6.0-segcached-");
