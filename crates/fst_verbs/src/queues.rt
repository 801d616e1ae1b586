//! The queues that a search of distances may take its states from.

ghost use Rattle.std.specs.Prelude.{◌≡◌, []};

use fst_queue::StateQueue;
use fst_words::Options;

/// The queues that are handed in, of which a command takes one. Which one it takes changes the time of the command, and
/// never what it makes.
#[derive(Drop)]
pub struct Queues {
    /// States leave it in the order in which they came.
    pub fifo: Box<dyn StateQueue>,
    /// The last that came leaves first.
    pub lifo: Box<dyn StateQueue>,
    /// One whose key no other betters leaves first.
    pub best: Box<dyn StateQueue>,
}

/// The queue without the states that it holds.
fn emptied(queue: Box<dyn StateQueue>) -> Box<dyn StateQueue>
    ensures { members result ≡ [] }
{
    let mut queue = queue;
    while queue.take().is_some() {}
    queue
}

/// The queue that the option names, without states: `fifo` for `auto`, and where there is no option.
pub(crate) fn picked(options: &Options, queues: Queues) -> Box<dyn StateQueue>
    ensures { members result ≡ [] }
{
    let name = match &options.queue_type {
        Some(name) => name.text(),
        None => "fifo",
    };
    match name {
        "lifo" => emptied(queues.lifo),
        "shortest" => emptied(queues.best),
        _ => emptied(queues.fifo),
    }
}
