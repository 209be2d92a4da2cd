//! The sessions that a worker opened, and why each ended.

ghost use Rattle.std.specs.Prelude.{◌≡◌, [], ◌∷◌, ◌++◌};
ghost use Rattle.session_book.specs.declared.causes.EndCause.TheVariants.{Drained};
ghost use Rattle.worker.specs.EndCauses.{with_cause};

use proto::Trace;
use session_book::EndCause;
use std::marker::Model;
use std::slice;

/// What is noted of a session.
#[derive(Clone, Copy)]
pub(crate) enum SessionNote {
    Opened(u64),
    Closed(u64, EndCause),
}

/// The sessions that were opened, by rising numbers, and why each ended: Drained if it is still
/// open. The list is for clauses alone and has no bytes, since a server opens sessions without end.
#[derive(Drop)]
pub struct SessionList {
    notes: Trace<SessionNote>,
}

impl Model for SessionList {
    ghost use Rattle.worker.specs.SessionLists.{SessionEntries, listed_sessions};

    ghost Value = { SessionEntries };

    ghost view = { λ l. record { items = listed_sessions l.notes.items } };
}

impl SessionList {
    pub(crate) fn new() -> SessionList
        ensures { result.items ≡ [] }
    {
        SessionList {
            notes: Trace::new(),
        }
    }

    /// One more session is open.
    pub(crate) fn open(&mut self, session: u64)
        ensures { self.new.items ≡ self.old.items ++ (session, Drained) ∷ [] }
    {
        self.notes
            .note(slice::from_ref(&SessionNote::Opened(session)));
    }

    /// The session has ended so.
    pub(crate) fn close(&mut self, session: u64, cause: EndCause)
        ensures { self.new.items ≡ with_cause self.old.items session cause }
    {
        self.notes
            .note(slice::from_ref(&SessionNote::Closed(session, cause)));
    }
}
