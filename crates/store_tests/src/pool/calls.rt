//! Public calls whose answers the runs don't show.

use crate::pool::run::{check, key_of, value_of};
use crate::pool::stock::Stock;
use segments::{ItemRef, LASTING, Move, Place};
use std::alloc::Global;
use std::process::Abort;
use std::test::Fail;

fn check_new(rt: &impl Abort, stock: &Stock) {
    check(rt, stock.pool.oldest().is_none(), "no oldest segment", 0);
    check(rt, stock.moves().is_empty(), "no moves", 0);
    check(
        rt,
        stock.pool.geometry().segment_size() == 4096,
        "the size",
        4096,
    );
    check(rt, stock.pool.geometry().segments() == 8, "the segments", 8);
}

#[test]
fn a_new_pool(rt: HostRuntime) -> Result<(), Fail> {
    let stock = Stock::new(rt.alloc(), 4096, 8)?;
    check_new(&rt, &stock);
    Ok(())
}

/// Appends an item with this cas number.
fn append(stock: &mut Stock, cas: u64, key: &[u8], value: &[u8]) -> Result<Place, Fail> {
    match stock.append(LASTING, 1000, cas, key, value) {
        Some(place) => Ok(place),
        None => Err("no room".into()),
    }
}

fn check_item(rt: &impl Abort, item: ItemRef) {
    check(rt, item.key == b"a".as_slice(), "the key", 1);
    check(rt, item.value == b"x".as_slice(), "the value", 1);
    check(rt, item.flags == 0, "the flags", 1);
    check(rt, item.cas == 1, "the cas number", 1);
    check(rt, item.reads == 127, "the reads", 1);
    check(rt, item.deadline.is_none(), "no deadline", 1);
}

/// Reads an item `times` times, and looks at it.
fn check_read(rt: &impl Abort, stock: &mut Stock, place: Place, times: u32) -> Result<(), Fail> {
    for _ in 0..times {
        stock.read(place);
    }
    match stock.item(place) {
        Some(item) => check_item(rt, item),
        None => return Err("gone".into()),
    }
    Ok(())
}

fn check_two(rt: &impl Abort, stock: &mut Stock) -> Result<(), Fail> {
    let first = append(stock, 1, b"a", b"x")?;
    let second = append(stock, 2, b"b", b"y")?;
    check(rt, first.offset == 0, "the offset", 1);
    check(rt, second.offset == 32, "the offset", 2);
    check(rt, first.segment == second.segment, "the segment", 2);
    check(
        rt,
        stock.pool.oldest() == Some(first.segment),
        "the oldest",
        1,
    );
    check_read(rt, stock, first, 130)
}

/// Items of 32 bytes stand one after the other. Reads are counted up to 127.
#[test]
fn two_items(rt: HostRuntime) -> Result<(), Fail> {
    let mut stock = Stock::new(rt.alloc(), 4096, 8)?;
    check_two(&rt, &mut stock)
}

/// Whether an item with a value of this length finds room.
fn has_room(alloc: Global, stock: &mut Stock, length: usize) -> Result<bool, Fail> {
    let value = value_of(alloc, 1, length)?;
    Ok(stock.append(LASTING, 1000, 1, b"a", &value).is_some())
}

fn check_largest(rt: &impl Abort, alloc: Global, stock: &mut Stock) -> Result<(), Fail> {
    check(rt, !has_room(alloc, stock, 488)?, "no room", 488);
    check(rt, has_room(alloc, stock, 487)?, "room", 487);
    Ok(())
}

/// With the key `a` the largest value of a segment of 4,096 bytes has 487 bytes.
#[test]
fn the_largest_item(rt: HostRuntime) -> Result<(), Fail> {
    let mut stock = Stock::new(rt.alloc(), 4096, 8)?;
    check_largest(&rt, rt.alloc(), &mut stock)
}

fn add(alloc: Global, stock: &mut Stock, n: usize) -> Result<(), Fail> {
    let value = value_of(alloc, n, 476)?;
    let appended = append(stock, n as u64, &key_of(n), &value);
    drop(value);
    appended?;
    Ok(())
}

/// Eight segments with eight items each.
fn fill(alloc: Global, stock: &mut Stock) -> Result<(), Fail> {
    for n in 1..65 {
        add(alloc, stock, n)?;
    }
    Ok(())
}

/// Of 32 moves the first 24 forget an item, and the others put theirs one after another into the
/// first segment.
fn check_moves(rt: &impl Abort, moves: &[Move], segment: u32) {
    assert!(rt; moves.len() == 32, "moves");
    for (k, step) in moves.iter().enumerate() {
        check(rt, step.source.offset == 504 * (k as u32 % 8), "source", k);
        let is_right = match step.target {
            None => k < 24,
            Some(target) => {
                k >= 24 && target.segment == segment && target.offset == step.source.offset
            }
        };
        check(rt, is_right, "target", k);
    }
}

fn check_plan(rt: &impl Abort, alloc: Global, stock: &mut Stock) -> Result<(), Fail> {
    fill(alloc, stock)?;
    let segment = stock.pool.oldest().ok_or("no segment")?;
    assert!(rt; stock.plan());
    check_moves(rt, stock.moves(), segment);
    let first = Place { segment, offset: 0 };
    assert!(rt; stock.item(first).ok_or("gone")?.cas == 1);
    Ok(())
}

/// A plan lists the moves and changes no segment.
#[test]
fn a_planned_merge(rt: HostRuntime) -> Result<(), Fail> {
    let mut stock = Stock::new(rt.alloc(), 4096, 8)?;
    check_plan(&rt, rt.alloc(), &mut stock)
}
