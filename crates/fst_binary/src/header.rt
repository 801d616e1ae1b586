//! The fields before the states.

ghost use Rattle.std.specs.Prelude.{◌≡◌, ◌∷◌, [], ◌≤◌, ◌<◌, length, IfOk, IfSome, true, codes};
ghost use Rattle.std.specs.Result.{result_map_both};
ghost use Rattle.fst_machine.specs.Machine.{most_arcs, most_states};
ghost use Rattle.fst_semiring.specs.Names.{known};
ghost use Rattle.fst_bytes.specs.Reading.{named_at};
ghost use Rattle.fst_binary.specs.Reading.{arc_type_of_bytes, header_at, is_start, start_at, types_at};

use crate::fault::BinaryFault;
use crate::fault::BinaryKind::{
    self, BadCount, BadMagic, BadStart, Short, UnknownArcType, UnknownFstType,
};
use crate::sides::read_flags;
use fst_bytes::{
    expect_word, fault_at, read_arc_type, read_bytes, read_count, read_long, read_word,
};
use fst_machine::{MOST_ARCS, MOST_STATES};
use fst_semiring::ArcType;

/// What the header of a machine says.
#[derive(Clone, Copy, Debug)]
pub(crate) struct Header {
    /// The flags, which tell which symbol tables stand after the header.
    pub(crate) flags: u32,
    /// The start; `None` for none.
    pub(crate) start: Option<u32>,
    /// The number of states.
    pub(crate) states: u32,
    /// The number of arcs of all states together.
    pub(crate) arcs: u32,
    /// The offset of the number of arcs.
    pub(crate) counted: usize,
    /// The offset after the header.
    pub(crate) behind: usize,
}

/// The offset after the fst type, which has to be `vector`.
#[tactic(auto, unfolding(fst_bytes::specs::Reading::named_at, fst_bytes::specs::Reading::number_where))]
fn read_fst_type(bytes: &[u8], at: usize) -> Result<usize, BinaryFault>
    requires { at ≤ length bytes.now }
    ensures value { result_map_both (λ behind. (codes "vector", behind)) (λ e. e) result ≡ named_at (λ text. text) (codes "vector" ∷ []) BinaryKind.Short BinaryKind.UnknownFstType bytes.now at }
    ensures behind { IfOk result (λ behind. behind ≤ length bytes.now) }
{
    let (count, behind) = read_word(bytes, at, Short)?;
    if count != 6 {
        return Err(fault_at(at, UnknownFstType));
    }
    let (name, behind) = read_bytes(bytes, behind, count as usize, Short)?;
    if name == b"vector".as_slice() {
        Ok(behind)
    } else {
        Err(fault_at(at, UnknownFstType))
    }
}

/// The arc type of a machine's bytes, and the offset after its name.
#[tactic(auto, unfolding(crate::specs::Reading::types_at))]
pub(crate) fn read_types(bytes: &[u8]) -> Result<(ArcType, usize), BinaryFault>
    ensures value { result ≡ types_at known bytes.now }
    ensures behind { IfOk result (λ x. x.1 ≤ length bytes.now) }
{
    let behind = expect_word(bytes, 0, 2_125_659_606, Short, BadMagic)?;
    let behind = read_fst_type(bytes, behind)?;
    read_arc_type(bytes, behind, Short, UnknownArcType)
}

/// The arc type of a machine's bytes, or the first fault of the fields up to it. Takes no memory.
#[tactic(auto, unfolding(crate::specs::Reading::arc_type_of_bytes))]
pub fn arc_type(bytes: &[u8]) -> Result<ArcType, BinaryFault>
    ensures value { result ≡ arc_type_of_bytes bytes.now }
{
    let (kind, _) = read_types(bytes)?;
    Ok(kind)
}

/// The start, and the offset after it.
#[tactic(auto, unfolding(crate::specs::Reading::start_at))]
fn read_start(bytes: &[u8], at: usize) -> Result<(Option<u32>, usize), BinaryFault>
    requires { at ≤ length bytes.now }
    ensures value { result ≡ start_at bytes.now at }
    ensures behind { IfOk result (λ x. x.1 ≤ length bytes.now) }
{
    let (number, behind) = read_long(bytes, at, Short)?;
    if number == u64::MAX {
        Ok((None, behind))
    } else if number < MOST_STATES as u64 {
        Ok((Some(number as u32), behind))
    } else {
        Err(fault_at(at, BadStart))
    }
}

/// Whether a start is none, or the number of one of the states.
fn is_start_of(start: Option<u32>, states: u32) -> bool
    ensures value { result ≡ is_start start states }
    ensures below { result ≡ true → IfSome start (λ s. s < states) }
{
    match start {
        None => true,
        Some(start) => start < states,
    }
}

/// The fields from the version to the number of arcs.
#[tactic(auto, unfolding(crate::specs::Reading::header_at))]
pub(crate) fn read_header(bytes: &[u8], at: usize) -> Result<Header, BinaryFault>
    requires { at ≤ length bytes.now }
    ensures value { result ≡ header_at bytes.now at }
    ensures start { IfOk result (λ header. IfSome header.start (λ s. s < header.states)) }
    ensures few_states { IfOk result (λ header. header.states ≤ most_states) }
    ensures few_arcs { IfOk result (λ header. header.arcs ≤ most_arcs) }
    ensures behind { IfOk result (λ header. header.behind ≤ length bytes.now) }
{
    let (flags, behind) = read_flags(bytes, at)?;
    let (_, start_offset) = read_long(bytes, behind, Short)?;
    let (start, behind) = read_start(bytes, start_offset)?;
    let (states, counted) = read_count(bytes, behind, MOST_STATES as u64, Short, BadCount)?;
    let states = states as u32;
    if !is_start_of(start, states) {
        return Err(fault_at(start_offset, BadStart));
    }
    let (arcs, behind) = read_count(bytes, counted, MOST_ARCS as u64, Short, BadCount)?;
    Ok(Header {
        flags,
        start,
        states,
        arcs: arcs as u32,
        counted,
        behind,
    })
}
