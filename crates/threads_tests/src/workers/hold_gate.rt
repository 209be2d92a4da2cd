//! When a gate that holds workers opens for good, and which answers let request 2 of a worker pass
//! it.

use crate::same::check_same;
use std::process::Abort;
use worker::{Gate, HoldGate};

/// As many refusals as there may be, less one.
const REFUSALS: u64 = 999_999;

#[test]
fn refusals_end(rt: HostRuntime) {
    let gate = HoldGate::new();
    for _ in 0..REFUSALS {
        assert!(rt; !gate.may_post(1, 2));
    }
    assert!(rt; !gate.spent());
    assert!(rt; !gate.may_post(0, 2));
    assert!(rt; gate.spent());
    assert!(rt; gate.may_post(0, 2) && gate.may_post(1, 2));
}

#[test]
fn a_stay_ends(rt: HostRuntime) {
    let gate = HoldGate::new();
    assert!(rt; gate.may_post(0, 1));
    assert!(rt; gate.spent());
    assert!(rt; gate.may_post(1, 1));
}

#[test]
fn answers_let_pass(rt: HostRuntime) {
    let gate = HoldGate::new();
    assert!(rt; !gate.may_post(0, 2));
    gate.answered(0, 1);
    assert!(rt; !gate.may_post(0, 2) && gate.may_post(1, 2));
    gate.answered(1, 1);
    assert!(rt; gate.may_post(0, 2));
    assert!(rt; !gate.spent());
}

/// The answer that is told, by worker and number; the worker whose request 2 comes then; whether it
/// passes.
const ROWS: [(usize, u64, usize, bool); 12] = [
    (0, 0, 0, false),
    (0, 1, 0, false),
    (0, 2, 0, false),
    (1, 0, 0, false),
    (1, 1, 0, true),
    (1, 2, 0, false),
    (1, 3, 0, false),
    (2, 1, 0, false),
    (0, 1, 1, true),
    (0, 2, 1, false),
    (1, 1, 1, false),
    (2, 2, 1, false),
];

fn check_answers(rt: &impl Abort, rows: &[(usize, u64, usize, bool)]) {
    for (worker, number, other, passes) in rows {
        let gate = HoldGate::new();
        gate.answered(*worker, *number);
        let passed = gate.may_post(*other, 2);
        let is_spent = gate.spent();
        check_same(
            rt,
            (passed, is_spent),
            (*passes, false),
            (*worker, *number, *other),
        );
    }
}

#[test]
fn only_the_others_first_answer_lets_pass(rt: HostRuntime) {
    check_answers(&rt, &ROWS);
}
