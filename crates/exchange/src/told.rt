//! A history that a worker was told of, kept for clauses alone.

use crate::rule::{LaneSeat, LaneView};
use crate::storage::StorageEnd;
use atomic_table::Badge;
use std::marker::Model;
use std::snapshot::Snapshot;

/// A history that a worker of an exchange was told of. It has no bytes, may be kept and may go to
/// another thread. That a value of it exists says that the history was told: of two such values of
/// one exchange one begins with the other (`WorkerLane::compare`), and none has a request that its
/// worker hasn't sent (`WorkerLane::check`).
#[derive(Drop)]
pub struct ToldHistory {
    badge: Badge<LaneView>,
}

impl Model for ToldHistory {
    ghost use Rattle.std.specs.Prelude.{◌≡◌, ◌∷◌, []};
    ghost use Rattle.exchange.specs.declared.rule.LaneView.TheVariants.{Told};
    ghost use Rattle.exchange.specs.Ends.{ToldView};
    ghost use Rattle.exchange.specs.Seats.{told_view, told_in_seat};

    ghost Value = { ToldView };

    ghost view = { λ h. told_view h.badge.table_id (told_in_seat h.badge.views) };

    ghost invariant = { λ h. h.badge.views ≡ Told (told_in_seat h.badge.views) ∷ [] };
}

impl ToldHistory {
    ghost use Rattle.std.specs.Prelude.{◌≡◌, []};
    ghost use Rattle.exchange.specs.declared.rule.LaneView.TheVariants.{Told};
    ghost use Rattle.exchange.specs.Seats.{told_view, told_at};

    /// The history of a seat that knows one.
    pub(crate) fn of(seat: LaneSeat) -> ToldHistory
        requires { seat.me ≡ (Told (told_at seat.me), []) }
        ensures { result ≡ told_view seat.table_id (told_at seat.me) }
    {
        ToldHistory {
            badge: seat.into_badge(),
        }
    }

    pub(crate) fn into_seat(self) -> LaneSeat
        ensures table { result.table_id ≡ self.exchange }
        ensures known { result.me ≡ (Told self.items, []) }
    {
        let ToldHistory { badge } = self;
        badge.into_seat()
    }
}

/// Which exchange it is, for clauses alone. It has no bytes.
#[derive(Drop)]
pub struct ExchangeName {
    end: Snapshot<StorageEnd>,
}

impl Model for ExchangeName {
    ghost use Rattle.exchange.specs.Ends.{TableId};

    ghost Value = { TableId };

    ghost view = { λ n. n.end.value.exchange };
}

impl ExchangeName {
    ghost use Rattle.std.specs.Prelude.{◌≡◌};

    pub(crate) fn of(end: &StorageEnd) -> ExchangeName
        ensures { result ≡ end.now.exchange }
    {
        ExchangeName {
            end: Snapshot::of(end),
        }
    }
}
