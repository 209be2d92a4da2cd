//! How a probe of the server begins, as a monitor's, or one that asks whether it still serves.

ghost use Rattle.std.specs.Prelude.{◌≡◌};
ghost use Rattle.net.specs.Probes.{is_probe};

/// The most bytes by which a probe is known.
pub(crate) const PROBE_BYTES: usize = 10;

/// Whether the first bytes of a stream are those of a probe.
pub(crate) fn is_probe(first: &[u8]) -> bool
    ensures { result ≡ is_probe first.now }
{
    first.starts_with(b"get health") || first.starts_with(b"version") || first.starts_with(b"stats")
}
