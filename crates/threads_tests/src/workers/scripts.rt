//! Steps of ports.

use crate::workers::recording_port::Step;
use bytes::Bytes;
use std::alloc::Global;
use std::collections::VecDeque;
use std::process::Abort;

/// Steps, in order.
#[derive(Drop)]
pub(crate) struct Script<R: Abort + Copy + Drop> {
    rt: R,
    alloc: Global,
    pub(crate) steps: VecDeque<Step>,
}

impl<R: Abort + Copy + Drop> Script<R> {
    pub(crate) fn new(rt: &R, alloc: Global) -> Script<R> {
        Script {
            rt: *rt,
            alloc,
            steps: VecDeque::new(alloc),
        }
    }

    pub(crate) fn open(&mut self, session: u64) {
        self.push(Step::Open(session));
    }

    pub(crate) fn end_input(&mut self, session: u64) {
        self.push(Step::EndOfInput(session));
    }

    pub(crate) fn gone(&mut self, session: u64) {
        self.push(Step::Gone(session));
    }

    pub(crate) fn send(&mut self, session: u64, bytes: &[u8]) {
        let bytes = Bytes::copy_from_slice(self.alloc, bytes).expect(&self.rt, "memory");
        self.push(Step::Send(session, bytes));
    }

    fn push(&mut self, step: Step) {
        self.steps.push_back(step).expect(&self.rt, "memory");
    }
}
