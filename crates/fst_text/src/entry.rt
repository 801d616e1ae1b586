//! What a line of a text says.

/// What a line says, with states by their written numbers: an arc, or the final weight of a state.
#[derive(Clone, Copy)]
pub(crate) enum LineEntry<W> {
    Arc {
        source: u64,
        dest: u64,
        ilabel: u32,
        olabel: u32,
        weight: W,
    },
    Final {
        state: u64,
        weight: W,
    },
}
