//! Machines and codices of any arc type, taken as those of one.

ghost use Rattle.std.specs.Prelude.{◌≡◌, map};
ghost use Rattle.std.specs.Result.{result_map_both};
ghost use Rattle.fst_machine.specs.Machine.{valued};
ghost use Rattle.fst_codex.specs.Table.{valued_table};
ghost use Rattle.fst_any.specs.Taken.{TakesAll, codex_as, machine_as, machines_as};
ghost use Rattle.fst_any.specs.Typed.{typed, typed_codex};

use crate::any::{AnyCodex, AnyFst};
use fst_codex::Codex;
use fst_machine::Fst;
use fst_semiring::{ArcType, Boolean, Lexicographic, MinMax, Tropical, Weight};
use std::alloc::{AllocError, AllocFailed, Global};

/// Weights whose machines and codices are among those of any arc type.
pub trait Kinded: Weight {
    /// The machine, where its arc type is that of the weights, and else its arc type. Takes no memory.
    fn machine(any: AnyFst) -> Result<Fst<Self>, ArcType>
        ensures { result_map_both (valued Self.value) (λ kind. kind) result ≡ machine_as Self.KIND (typed any) };

    /// The codex, where its arc type is that of the weights, and else its arc type. Takes no memory.
    fn codex(any: AnyCodex) -> Result<Codex<Self>, ArcType>
        ensures { result_map_both (valued_table Self.value) (λ kind. kind) result ≡ codex_as Self.KIND (typed_codex any) };
}

impl Kinded for Boolean {
    fn machine(any: AnyFst) -> Result<Fst<Boolean>, ArcType> {
        match any {
            AnyFst::Boolean(machine) => Ok(machine),
            AnyFst::Tropical(_) => Err(ArcType::Tropical),
            AnyFst::MinMax(_) => Err(ArcType::MinMax),
            AnyFst::Lexicographic(_) => Err(ArcType::Lexicographic),
        }
    }

    fn codex(any: AnyCodex) -> Result<Codex<Boolean>, ArcType> {
        match any {
            AnyCodex::Boolean(codex) => Ok(codex),
            AnyCodex::Tropical(_) => Err(ArcType::Tropical),
            AnyCodex::MinMax(_) => Err(ArcType::MinMax),
            AnyCodex::Lexicographic(_) => Err(ArcType::Lexicographic),
        }
    }
}

impl Kinded for Tropical {
    fn machine(any: AnyFst) -> Result<Fst<Tropical>, ArcType> {
        match any {
            AnyFst::Tropical(machine) => Ok(machine),
            AnyFst::Boolean(_) => Err(ArcType::Boolean),
            AnyFst::MinMax(_) => Err(ArcType::MinMax),
            AnyFst::Lexicographic(_) => Err(ArcType::Lexicographic),
        }
    }

    fn codex(any: AnyCodex) -> Result<Codex<Tropical>, ArcType> {
        match any {
            AnyCodex::Tropical(codex) => Ok(codex),
            AnyCodex::Boolean(_) => Err(ArcType::Boolean),
            AnyCodex::MinMax(_) => Err(ArcType::MinMax),
            AnyCodex::Lexicographic(_) => Err(ArcType::Lexicographic),
        }
    }
}

impl Kinded for MinMax {
    fn machine(any: AnyFst) -> Result<Fst<MinMax>, ArcType> {
        match any {
            AnyFst::MinMax(machine) => Ok(machine),
            AnyFst::Boolean(_) => Err(ArcType::Boolean),
            AnyFst::Tropical(_) => Err(ArcType::Tropical),
            AnyFst::Lexicographic(_) => Err(ArcType::Lexicographic),
        }
    }

    fn codex(any: AnyCodex) -> Result<Codex<MinMax>, ArcType> {
        match any {
            AnyCodex::MinMax(codex) => Ok(codex),
            AnyCodex::Boolean(_) => Err(ArcType::Boolean),
            AnyCodex::Tropical(_) => Err(ArcType::Tropical),
            AnyCodex::Lexicographic(_) => Err(ArcType::Lexicographic),
        }
    }
}

impl Kinded for Lexicographic {
    fn machine(any: AnyFst) -> Result<Fst<Lexicographic>, ArcType> {
        match any {
            AnyFst::Lexicographic(machine) => Ok(machine),
            AnyFst::Boolean(_) => Err(ArcType::Boolean),
            AnyFst::Tropical(_) => Err(ArcType::Tropical),
            AnyFst::MinMax(_) => Err(ArcType::MinMax),
        }
    }

    fn codex(any: AnyCodex) -> Result<Codex<Lexicographic>, ArcType> {
        match any {
            AnyCodex::Lexicographic(codex) => Ok(codex),
            AnyCodex::Boolean(_) => Err(ArcType::Boolean),
            AnyCodex::Tropical(_) => Err(ArcType::Tropical),
            AnyCodex::MinMax(_) => Err(ArcType::MinMax),
        }
    }
}

/// Why machines are not taken as those of one arc type.
#[derive(Clone, Copy, Debug, PartialEq, Eq)]
pub enum OtherKind {
    /// The first machine of another arc type has this one.
    Other(ArcType),
    /// There is no memory.
    Memory,
}

impl From<ArcType> for OtherKind {
    ghost use Rattle.fst_any.specs.declared.kinded.OtherKind.TheVariants as others;

    ghost from_gives = { λ kind other. other ≡ others.Other kind };

    fn from(kind: ArcType) -> OtherKind {
        OtherKind::Other(kind)
    }
}

impl From<AllocError> for OtherKind {
    ghost use Rattle.fst_any.specs.declared.kinded.OtherKind.TheVariants as others;

    ghost from_gives = { λ _ other. other ≡ others.Memory };

    fn from(_e: AllocError) -> OtherKind {
        OtherKind::Memory
    }
}

impl<T: Drop> From<AllocFailed<T>> for OtherKind {
    ghost use Rattle.fst_any.specs.declared.kinded.OtherKind.TheVariants as others;

    ghost from_gives = { λ _ other. other ≡ others.Memory };

    fn from(_e: AllocFailed<T>) -> OtherKind {
        OtherKind::Memory
    }
}

/// The machines, where all have the arc type of the weights, and else the arc type of the first that has not. Each is
/// moved, and none copied.
pub fn machines_of<W: Kinded>(alloc: Global, list: Vec<AnyFst>) -> Result<Vec<Fst<W>>, OtherKind>
    ensures { TakesAll W.value result (machines_as W.KIND (map typed list.items)) }
{
    let mut machines = Vec::with_capacity(alloc, list.len())?;
    for any in list {
        machines.push(W::machine(any)?)?;
    }
    Ok(machines)
}
