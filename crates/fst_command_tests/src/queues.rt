//! Which queue a command takes.

use crate::session::{ends, split};
use fst_command::{Queues, run};
use fst_delayed::CountMeter;
use fst_desk::MemoryDesk;
use fst_queue::{BestFirst, Fifo, Lifo, StateQueue};
use fst_semiring::Key;
use std::alloc::{AllocError, Global};
use std::cell::Cell;
use std::process::Abort;
use std::rc::Rc;
use std::test::Fail;
use std::thread::Threads;

/// A queue that counts its puts.
#[derive(Drop)]
struct Counting<Q: StateQueue> {
    inner: Q,
    puts: Rc<Cell<u64>>,
}

impl<Q: StateQueue> StateQueue for Counting<Q> {
    ghost members = { λ q. Q.members q.inner };

    fn put(&mut self, state: u32, key: Key) -> Result<(), AllocError> {
        let puts = self.puts.get();
        self.puts.set(puts.saturating_add(1));
        self.inner.put(state, key)
    }

    fn take(&mut self) -> Option<u32> {
        self.inner.take()
    }

    fn is_empty(&self) -> bool {
        self.inner.is_empty()
    }
}

/// Commands with the queue that they take: the first, the second or the third that is handed in.
static TAKEN: [(&str, usize); 8] = [
    ("rmepsilon far r", 0),
    ("rmepsilon --queue_type=auto far r", 0),
    ("rmepsilon --queue_type=fifo far r", 0),
    ("rmepsilon --queue_type=lifo far r", 1),
    ("rmepsilon --queue_type=shortest far r", 2),
    ("shortestdistance m r", 0),
    ("shortestdistance --queue_type=lifo m r", 1),
    ("shortestdistance --queue_type=shortest m r", 2),
];

/// A queue whose puts are counted there.
fn counted<Q: StateQueue>(
    alloc: Global,
    inner: Q,
    puts: &Rc<Cell<u64>>,
) -> Result<Box<Counting<Q>>, AllocError> {
    let counting = Counting {
        inner,
        puts: Rc::clone(puts)?,
    };
    Ok(Box::new(alloc, counting)?)
}

/// Asks that a command takes that queue alone.
fn takes<R: Threads + Sync + Abort>(
    rt: &R,
    alloc: Global,
    desk: &mut MemoryDesk,
    line: &str,
    wanted: usize,
) -> Result<(), Fail> {
    let counts = [
        Rc::new(alloc, Cell::new(0u64))?,
        Rc::new(alloc, Cell::new(0u64))?,
        Rc::new(alloc, Cell::new(0u64))?,
    ];
    let queues = Queues {
        fifo: counted(alloc, Fifo::new(alloc), &counts[0])?,
        lifo: counted(alloc, Lifo::new(alloc), &counts[1])?,
        best: counted(alloc, BestFirst::new(alloc), &counts[2])?,
    };
    let words = split(alloc, line)?;
    let mut meter = CountMeter::new();
    let ended = run(rt, alloc, words.as_slice(), desk, queues, &mut meter);
    assert_eq!(rt; ended, 0, "{line}");
    for (place, count) in counts.iter().enumerate() {
        assert!(rt; (count.get() > 0) == (place == wanted), "{line}");
    }
    Ok(())
}

#[test]
fn a_command_takes_one_queue(rt: HostRuntime) -> Result<(), Fail> {
    let alloc = rt.alloc();
    let mut desk = MemoryDesk::new(alloc);
    desk.put("text", b"0 1 0 0 3\n0 2 0 0 1\n2 1 0 0 1\n1 3 5 6 4\n3\n")?;
    ends(&rt, alloc, &mut desk, "compile text m", 0, b"")?;
    // A product on the way is out of range, so that no short search finds what epsilon arcs reach.
    desk.put(
        "far.text",
        b"0 1 0 0 600000000000000000\n1 2 0 0 600000000000000000\n2 3 5 6 -600000000000000000\n3\n",
    )?;
    ends(&rt, alloc, &mut desk, "compile far.text far", 0, b"")?;
    for (line, wanted) in &TAKEN {
        takes(&rt, alloc, &mut desk, line, *wanted)?;
    }
    Ok(())
}
