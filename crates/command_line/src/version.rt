//! What `segcached --version` shows beside the version's number.

/// The further lines of `segcached --version`: the logic that the program is proved with, as the
/// line of `rt version` ends; and where the package says the rest.
pub(crate) const PROVED_WITH: &str = "proved with Rattle's logic dac8208d650f15bf
the package's share/doc/segcached/PROVED has its commit and its proofs
";
