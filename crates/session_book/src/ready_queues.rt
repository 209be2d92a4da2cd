//! Which sessions have something to do, as a held piece to feed, input to ask from or output to
//! give.

use crate::load::Load;
use proto::WINDOW;
use std::alloc::{AllocError, Global};
use std::collections::VecDeque;

/// What sessions are taken up for. Each has a queue of its own.
#[derive(Clone, Copy)]
pub enum Task {
    /// Their held piece may fit.
    Feed,
    /// They have input.
    Ask,
    /// They have input, and wait for others and for the answers on their way: the next one is
    /// likely to be large.
    AskLarge,
    /// They have input, and wait until there is room for the next answer.
    AskForRoom,
    /// They may have output, or have finished.
    Give,
    /// They have output, of which their client accepted nothing when it was last offered some.
    RetryWrite,
    /// They are to be paused: there is no room for the large message that they send.
    Pause,
    /// They are paused until there is room for it.
    ReadOn,
}

/// How many tasks there are.
const TASKS: usize = 8;

/// A queue of sessions by their numbers, with the places where they stood in the table. A session
/// that joins gets a ticket: the number of sessions that have joined so far. It is in the queue as
/// long as its ticket is greater than the number that have left, so leaving needs no lookup. The
/// number of a closed session is passed over.
#[derive(Drop)]
struct ReadyQueue {
    sessions: VecDeque<(u64, usize)>,
    left: u64,
}

impl ReadyQueue {
    fn new(alloc: Global) -> ReadyQueue {
        ReadyQueue {
            sessions: VecDeque::new(alloc),
            left: 0,
        }
    }
}

/// The number that a session drew last of a queue, and whose it is.
#[derive(Clone, Copy)]
pub(crate) struct Ticket {
    task: Task,
    number: u64,
}

impl Ticket {
    fn none(task: Task) -> Ticket {
        Ticket { task, number: 0 }
    }
}

/// The tickets of a session. A session with input is in one of three queues, so one ticket does for
/// all. So it is with output: the second queue is for clients that accepted nothing, and is served
/// slowly; and with those that are paused.
#[derive(Clone, Copy)]
pub(crate) struct Tickets {
    pub(crate) feed: Ticket,
    pub(crate) ask: Ticket,
    pub(crate) give: Ticket,
    pub(crate) read: Ticket,
}

impl Tickets {
    pub(crate) fn none() -> Tickets {
        Tickets {
            feed: Ticket::none(Task::Feed),
            ask: Ticket::none(Task::Ask),
            give: Ticket::none(Task::Give),
            read: Ticket::none(Task::Pause),
        }
    }
}

/// The sessions of a book that have something to do, in a queue for each task. No clause speaks of
/// them.
#[derive(Drop)]
pub(crate) struct ReadyQueues {
    /// By their tasks. The memory for a session is reserved when it is opened.
    queues: [ReadyQueue; TASKS],
    /// How many sessions stand in all of them; and one more while memory is held for an answer, so
    /// that its owner doesn't wait.
    pub(crate) members: usize,
    pub(crate) holds_memory: bool,
    /// Where the session that was found last, or taken out of a queue, stands in the table.
    pub(crate) place: usize,
    /// How many sessions were taken out to be asked while another one waited for its turn.
    passed: u64,
    /// What the session waited for that was taken out last to be asked; none if it waited for
    /// nothing.
    pub(crate) let_in: Option<Task>,
}

impl ReadyQueues {
    pub(crate) fn new(alloc: Global) -> ReadyQueues {
        ReadyQueues {
            queues: [
                ReadyQueue::new(alloc),
                ReadyQueue::new(alloc),
                ReadyQueue::new(alloc),
                ReadyQueue::new(alloc),
                ReadyQueue::new(alloc),
                ReadyQueue::new(alloc),
                ReadyQueue::new(alloc),
                ReadyQueue::new(alloc),
            ],
            members: 0,
            holds_memory: false,
            place: 0,
            passed: 0,
            let_in: None,
        }
    }

    /// Reserves memory for this number of additional sessions in each queue, twice as much as
    /// needed if there is too little.
    pub(crate) fn reserve(&mut self, additional: usize) -> Result<(), AllocError> {
        for queue in &mut self.queues {
            if queue
                .sessions
                .capacity()
                .saturating_sub(queue.sessions.len())
                < additional
            {
                queue.sessions.reserve(additional.saturating_mul(2))?;
            }
        }
        Ok(())
    }

    /// Whether a session stands in the queue of its ticket.
    pub(crate) fn has(&self, ticket: Ticket) -> bool {
        ticket.number > self.queues[ticket.task as usize].left
    }

    /// Whether a session stands in the queue of those that have input and wait for nothing.
    pub(crate) fn is_to_ask(&self, ticket: Ticket) -> bool {
        matches!(ticket.task, Task::Ask) && self.has(ticket)
    }

    /// Puts a session into the queue of the task, unless it stands in that of its ticket. The
    /// ticket's number is 0, which is none, if out of memory.
    pub(crate) fn add(&mut self, task: Task, session: u64, ticket: &mut Ticket) {
        if self.has(*ticket) {
            return;
        }
        let queue = &mut self.queues[task as usize];
        let number = match queue.sessions.push_back((session, self.place)) {
            Ok(()) => {
                self.members = self.members.saturating_add(1);
                queue.left.saturating_add(queue.sessions.len() as u64)
            }
            Err(_) => 0,
        };
        *ticket = Ticket { task, number };
    }

    /// The session, which was resumed, is to be paused again: it still waits for room for its large
    /// message.
    pub(crate) fn pause_again(&mut self, session: u64) {
        let queue = &mut self.queues[Task::Pause as usize];
        if queue.sessions.push_back((session, self.place)).is_ok() {
            self.members = self.members.saturating_add(1);
        }
    }

    /// Takes out the next session that is to be taken up for the task.
    pub(crate) fn take(&mut self, task: Task) -> Option<u64> {
        let queue = &mut self.queues[task as usize];
        let (session, place) = queue.sessions.pop_front()?;
        queue.left = queue.left.saturating_add(1);
        self.members = self.members.saturating_sub(1);
        self.place = place;
        Some(session)
    }

    /// The session that would be taken out for the task, and where it stood in the table.
    pub(crate) fn first(&self, task: Task) -> Option<(u64, usize)> {
        self.queues[task as usize].sessions.front().copied()
    }

    /// Memory is held for an answer from now on, or none.
    pub(crate) fn hold_memory(&mut self, is_held: bool) {
        if is_held && !self.holds_memory {
            self.members = self.members.saturating_add(1);
        } else if self.holds_memory && !is_held {
            self.members = self.members.saturating_sub(1);
        }
        self.holds_memory = is_held;
    }

    /// Takes out the next session that is to be asked, where none that waits may come.
    pub(crate) fn take_next(&mut self) -> Option<u64> {
        self.let_in = None;
        self.passed = 0;
        self.take(Task::Ask)
    }

    /// Takes out the next session that is to be asked. One that waits, for room that it has by now
    /// or for the answers on their way, comes if no other is to be asked, or once as many others as
    /// a window has requests went before it. If a large answer is on its way then, none is taken
    /// out until it has come, so that it doesn't wait for ever. While the memory isn't prepared for
    /// the one that waits, all others go before it.
    pub(crate) fn take_to_ask(
        &mut self,
        load: &Load,
        has_room: bool,
        is_prepared: bool,
    ) -> Option<u64> {
        self.let_in = None;
        if self.count(Task::Ask) > 0 && (self.passed < WINDOW || !is_prepared) {
            self.passed = self.passed.saturating_add(1);
            return self.take(Task::Ask);
        }
        if !load.is_free() || !is_prepared {
            return None;
        }
        let task = if has_room {
            Task::AskForRoom
        } else {
            Task::AskLarge
        };
        self.passed = 0;
        self.let_in = Some(task);
        self.take(task)
    }

    /// Whether no session is to be asked, or waits for the answers on their way.
    pub(crate) fn none_is_to_ask(&self) -> bool {
        self.count(Task::Ask) == 0 && self.count(Task::AskLarge) == 0
    }

    /// Whether no session is paused, or to be paused, until there is room for its large message.
    pub(crate) fn none_waits_to_read(&self) -> bool {
        self.count(Task::Pause) == 0 && self.count(Task::ReadOn) == 0
    }

    /// Whether no session waits for memory, or is to be paused until there is some.
    pub(crate) fn none_waits_for_memory(&self) -> bool {
        self.count(Task::AskForRoom) == 0 && self.none_waits_to_read()
    }

    /// How many sessions are to be taken up for the task.
    pub(crate) fn count(&self, task: Task) -> usize {
        self.queues[task as usize].sessions.len()
    }

    /// No session has anything to do, but for those that wait for room or for their clients.
    pub(crate) fn only_wait(&self) -> bool {
        let waiting = self
            .count(Task::AskForRoom)
            .saturating_add(self.count(Task::RetryWrite))
            .saturating_add(self.count(Task::ReadOn));
        self.members == waiting
    }
}
