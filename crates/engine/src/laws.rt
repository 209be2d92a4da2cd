//! The limits that definitions say in digits.

ghost use Rattle.std.specs.Prelude.{◌≡◌};
ghost use Rattle.proto.specs.History.{max_moment};
ghost use Rattle.proto.specs.declared.limits.TheConstants.{MAX_KEY};
ghost use Rattle.engine.specs.declared.storage_engine.TheConstants.{MAX_MOMENT};
ghost use Rattle.engine.specs.declared.deadline.TheConstants.{MAX_RELATIVE};

/// The limits of a store in numbers.
pub fn limits()
    ensures key { MAX_KEY ≡ 250 }
    ensures moment { MAX_MOMENT ≡ max_moment }
    ensures relative { MAX_RELATIVE ≡ 2592000 }
{}
