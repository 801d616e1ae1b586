//! Queues of states by hand: the same puts into each, by itself and in a box, and what it then gives.

use fst_queue::{BestFirst, Fifo, Lifo, StateQueue};
use fst_semiring::Key;
use std::alloc::{AllocError, Global};
use std::test::Fail;

/// States with the numbers of their keys. State 7 is put again, with a better key, and state 9 with a worse one.
static PUTS: [(u32, i128); 6] = [(7, 5), (3, 2), (9, -1), (7, -4), (0, 3), (9, 8)];

/// What each queue gives: first in first out, last in first out, and the least key first.
static FIFO: [Option<u32>; 5] = [Some(7), Some(3), Some(9), Some(0), None];

static LIFO: [Option<u32>; 5] = [Some(0), Some(9), Some(3), Some(7), None];

static BEST: [Option<u32>; 5] = [Some(7), Some(3), Some(0), Some(9), None];

/// Puts the states, and lists what five takes give.
fn takes<Q: StateQueue>(alloc: Global, queue: &mut Q) -> Result<Vec<Option<u32>>, AllocError> {
    for (state, number) in &PUTS {
        let key = Key {
            class: 1,
            first: *number,
            second: 0,
        };
        queue.put(*state, key)?;
    }
    let mut taken = Vec::new(alloc);
    for _ in 0..5 {
        taken.push(queue.take())?;
    }
    Ok(taken)
}

/// Whether a queue is empty, gives these states, and is empty again, twice over.
fn is_order<Q: StateQueue>(
    alloc: Global,
    queue: &mut Q,
    wanted: &[Option<u32>],
) -> Result<bool, AllocError> {
    let empty = queue.is_empty();
    let first = takes(alloc, queue)?.as_slice() == wanted;
    let between = queue.is_empty();
    let second = takes(alloc, queue)?.as_slice() == wanted;
    Ok(empty && first && between && second && queue.is_empty())
}

#[test]
fn each_queue_has_its_order(rt: HostRuntime) -> Result<(), Fail> {
    let alloc = rt.alloc();
    assert!(rt; is_order(alloc, &mut Fifo::new(alloc), &FIFO)?);
    assert!(rt; is_order(alloc, &mut Lifo::new(alloc), &LIFO)?);
    assert!(rt; is_order(alloc, &mut BestFirst::new(alloc), &BEST)?);
    Ok(())
}

#[test]
fn a_box_has_the_order_of_its_queue(rt: HostRuntime) -> Result<(), Fail> {
    let alloc = rt.alloc();
    let mut fifo: Box<dyn StateQueue> = Box::new(alloc, Fifo::new(alloc))?;
    assert!(rt; is_order(alloc, &mut fifo, &FIFO)?);
    let mut lifo: Box<dyn StateQueue> = Box::new(alloc, Lifo::new(alloc))?;
    assert!(rt; is_order(alloc, &mut lifo, &LIFO)?);
    let mut best: Box<dyn StateQueue> = Box::new(alloc, BestFirst::new(alloc))?;
    assert!(rt; is_order(alloc, &mut best, &BEST)?);
    Ok(())
}
