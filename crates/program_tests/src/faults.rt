//! Listeners that can't be bound.

use crate::clients::listener;
use net::{Listener, NetFault, Refusal};
use std::alloc::Global;
use std::fs::Files;
use std::net::Net;
use std::process::Abort;

/// Why nothing can be bound at this address.
fn fault_at<R: Net + Files>(rt: &R, alloc: Global, addr: &str) -> Option<NetFault> {
    Listener::bind(rt, alloc, addr, 0o700).err()
}

#[test]
fn words_that_are_no_address_are_refused(rt: HostRuntime) {
    for words in ["", "nothing", "127.0.0.1", "localhost:0", "127.0.0.1:65536"] {
        let fault = fault_at(&rt, rt.alloc(), words);
        assert!(rt; matches!(fault, Some(NetFault::BadAddress)), "{words}");
    }
}

#[test]
fn paths_that_no_socket_has_are_refused(rt: HostRuntime) {
    let fault = fault_at(&rt, rt.alloc(), "unix:");
    assert!(rt; matches!(fault, Some(NetFault::BadPath)));
    let fault = fault_at(&rt, rt.alloc(), "unix:/nowhere/at/all");
    assert!(rt; matches!(fault, Some(NetFault::Refused(Refusal::NoFolder))));
}

/// A listener's own port can't be bound.
fn check_bound_once<R: Net + Files + Abort>(rt: &R, alloc: Global, listener: &Listener) {
    let port = listener.port();
    assert!(*rt; port > 0);
    let addr = format!(in alloc; "127.0.0.1:{port}").expect(rt, "memory");
    let fault = fault_at(rt, alloc, addr.as_str());
    assert!(*rt; matches!(fault, Some(NetFault::Refused(Refusal::PortTaken))));
}

#[test]
fn a_port_is_bound_once(rt: HostRuntime) {
    check_bound_once(&rt, rt.alloc(), &listener(&rt, rt.alloc()));
}
