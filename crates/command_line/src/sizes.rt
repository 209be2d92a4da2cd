//! The sizes that the words ask for.

ghost use Rattle.std.specs.Prelude.{◌≡◌, MatchResult, Err};
ghost use Rattle.command_line.specs.declared.sizes.BadSizes.TheVariants as bad;
ghost use Rattle.proto.specs.Sizes.{IsGeometry, sizes_asked, sizes_of};

use proto::Geometry;
use thiserror::Error;

/// Why no cache may have the sizes; its text says so.
#[derive(Clone, Copy, Debug, Error)]
pub enum BadSizes {
    /// There are no such segments, or not so many of them.
    #[error("bad geometry")]
    Segments,
    /// There are, but the largest item doesn't fit them.
    #[error("the largest item does not fit a segment")]
    LargestItem,
}

/// The sizes of a cache with this many segments of this many bytes, and of the largest item, if one
/// is asked for.
pub fn geometry_of(
    segment_size: u64,
    segments: u64,
    largest_item: Option<u64>,
) -> Result<Geometry, BadSizes>
    ensures made { let asked = sizes_asked segment_size segments largest_item in
        MatchResult result (λ g. IsGeometry asked × (g ≡ asked)) (λ _. ¬ (IsGeometry asked)) }
    ensures segments { result ≡ Err bad.Segments → ¬ (IsGeometry (sizes_of segment_size segments)) }
    ensures item { result ≡ Err bad.LargestItem → IsGeometry (sizes_of segment_size segments) }
{
    let segment_size = u32::try_from(segment_size).map_err(|_| BadSizes::Segments)?;
    let segments = u32::try_from(segments).map_err(|_| BadSizes::Segments)?;
    let geometry = Geometry::new(segment_size, segments).map_err(|_| BadSizes::Segments)?;
    let Some(largest_item) = largest_item else {
        return Ok(geometry);
    };
    let largest_item = u32::try_from(largest_item).map_err(|_| BadSizes::LargestItem)?;
    geometry
        .with_item_limit(largest_item)
        .map_err(|_| BadSizes::LargestItem)
}
