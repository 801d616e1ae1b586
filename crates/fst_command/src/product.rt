//! The status and the bytes of what a command makes.

ghost use Rattle.std.specs.Prelude.{◌≡◌, IfOk};
ghost use Rattle.fst_verbs.specs.Meaning.{bytes_of, ending_of};
ghost use Rattle.fst_verbs.specs.Seeing.{made_seen};
ghost use Rattle.fst_command.specs.Views.{bytes_seen};

use fst_binary::{LentTables, encode_tabled_into, encode_tabled_joined};
use fst_codex::write_codex;
use fst_semiring::Weight;
use fst_verbs::Made;
use std::alloc::{AllocError, Global};

/// The bytes of the outputs of a command, in the order in which they are stored.
#[derive(Drop)]
pub(crate) enum Bytes {
    /// Those of one output.
    One(Vec<u8>),
    /// Those of two.
    Two(Vec<u8>, Vec<u8>),
}

/// What a command hands on for its outputs.
#[derive(Drop)]
pub(crate) struct Product {
    /// The status that the run ends with.
    pub(crate) status: u8,
    /// The bytes of the outputs.
    pub(crate) bytes: Bytes,
}

/// The status and the bytes of what a command makes, a machine with these symbol tables, where the content of a room stood. A codex is
/// freed before the machine beside it is written, the room of a machine as it is written, where the bytes did not stand
/// beside it before, and of a machine in two lists the first before the second is written.
pub(crate) fn product_of<W: Weight>(
    alloc: Global,
    room: Vec<u8>,
    made: Made<W>,
    tables: &LentTables,
) -> Result<Product, AllocError>
    ensures bytes { IfOk result (λ product. bytes_seen product.bytes ≡ bytes_of tables.now (made_seen W.KIND W.value made)) }
    ensures status { IfOk result (λ product. product.status ≡ ending_of (made_seen W.KIND W.value made)) }
{
    match made {
        Made::Machine(machine) => Ok(Product {
            status: 0,
            bytes: Bytes::One(encode_tabled_into(room, machine, tables)?),
        }),
        Made::Joined(joined) => Ok(Product {
            status: 0,
            bytes: Bytes::One(encode_tabled_joined(room, joined, tables)?),
        }),
        Made::Text(text) | Made::Answered(text, _) => Ok(Product {
            status: 0,
            bytes: Bytes::One(text),
        }),
        Made::Separation(text) => Ok(Product {
            status: 2,
            bytes: Bytes::One(text),
        }),
        Made::Coded(codex, machine) => {
            let first = write_codex(alloc, &codex)?;
            drop(codex);
            Ok(Product {
                status: 0,
                bytes: Bytes::Two(first, encode_tabled_into(room, machine, tables)?),
            })
        }
    }
}
