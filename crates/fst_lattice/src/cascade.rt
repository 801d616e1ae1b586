//! The generator: two machines and lines from a number.

ghost use Rattle.std.specs.Prelude.{◌≡◌, ◌+◌, ◌<◌, ◌≤◌, ◌++◌, ◌∷◌, [], All, IfOk, OnOk, length};
ghost use Rattle.fst_machine.specs.Machine.{IsArc, arc_total};
ghost use Rattle.fst_lattice.specs.Cascade.{behind_arcs, behind_first, behind_second, drawn_letters, drawn_lines, first_arcs, first_machine, first_size, letters, same_arc, second_arcs, second_end, second_from, second_machine, second_size, two_arcs};
ghost use Rattle.fst_lattice.specs.Draws.{after, drawn, skip};

use crate::drawing::{draw, weight};
use crate::lines::Lines;
use fst_machine::{Fst, FstArc, StateList};
use fst_semiring::Tropical;
use std::alloc::{AllocError, Global};

/// What the generator makes.
#[derive(Drop)]
pub struct Cascade {
    /// The machine that reads the lines.
    pub first: Fst<Tropical>,
    /// The machine that reads what the first writes.
    pub second: Fst<Tropical>,
    /// The lines.
    pub lines: Lines,
}

/// Puts the two arcs of a letter of the first machine after the others.
fn put_two(out: &mut Vec<FstArc<Tropical>>, x: &mut u64, b: u32) -> Result<(), AllocError>
    ensures put { OnOk result (out.new.items ≡ out.old.items ++ two_arcs x.old b) }
    ensures state { OnOk result (x.new ≡ after x.old 5) }
{
    let olabel = 97 + draw(x, 26);
    let first = weight(draw(x, 10));
    let next = draw(x, 500);
    out.push(FstArc {
        ilabel: b,
        olabel,
        weight: first,
        next,
    })?;
    let second = weight(5 + draw(x, 10));
    let next = draw(x, 500);
    out.push(FstArc {
        ilabel: b,
        olabel: 0,
        weight: second,
        next,
    })?;
    Ok(())
}

/// Makes a list the arcs of a state of the first machine.
fn draw_first_arcs(out: &mut Vec<FstArc<Tropical>>, x: &mut u64) -> Result<(), AllocError>
    ensures arcs { OnOk result (out.new.items ≡ first_arcs x.old 97 letters) }
    ensures state { OnOk result (x.new ≡ behind_arcs x.old) }
{
    out.clear();
    for b in 97..123 {
        put_two(out, x, b)?;
    }
    Ok(())
}

/// Puts the arc of a letter of the second machine after the others.
fn put_same(out: &mut Vec<FstArc<Tropical>>, x: &mut u64, b: u32) -> Result<(), AllocError>
    ensures put { OnOk result (out.new.items ≡ out.old.items ++ same_arc x.old b ∷ []) }
    ensures state { OnOk result (x.new ≡ after x.old 2) }
{
    let first = weight(draw(x, 10));
    let next = draw(x, 200);
    out.push(FstArc {
        ilabel: b,
        olabel: b,
        weight: first,
        next,
    })?;
    Ok(())
}

/// Makes a list the arcs of a state of the second machine.
fn draw_second_arcs(out: &mut Vec<FstArc<Tropical>>, x: &mut u64) -> Result<(), AllocError>
    ensures arcs { OnOk result (out.new.items ≡ second_arcs x.old 97 letters) }
    ensures state { OnOk result (x.new ≡ skip 2 x.old letters) }
{
    out.clear();
    for b in 97..123 {
        put_same(out, x, b)?;
    }
    Ok(())
}

/// The first machine.
fn draw_first(alloc: Global, x: &mut u64) -> Result<Fst<Tropical>, AllocError>
    ensures machine { IfOk result (λ m. m ≡ first_machine x.old) }
    ensures state { OnOk result (x.new ≡ behind_first x.old) }
{
    let mut states = StateList::with_capacity(alloc, 500, 26_000)?;
    let mut arcs = Vec::new(alloc);
    for _state in 0..500u32 {
        draw_first_arcs(&mut arcs, x)?;
        let last = weight(draw(x, 5));
        states.push(last, arcs.as_slice())?;
    }
    Ok(states.into_machine(Some(0)))
}

/// The second machine.
fn draw_second(alloc: Global, x: &mut u64) -> Result<Fst<Tropical>, AllocError>
    ensures machine { IfOk result (λ m. m ≡ second_from x.old) }
    ensures state { OnOk result (x.new ≡ second_end x.old second_size) }
{
    let mut states = StateList::with_capacity(alloc, 200, 5_200)?;
    let mut arcs = Vec::new(alloc);
    for _state in 0..200u32 {
        draw_second_arcs(&mut arcs, x)?;
        states.push(weight(0), arcs.as_slice())?;
    }
    Ok(states.into_machine(Some(0)))
}

/// Makes a list so many letters.
fn draw_letters(out: &mut Vec<u8>, x: &mut u64, count: u32) -> Result<(), AllocError>
    ensures letters { OnOk result (out.new.items ≡ drawn_letters x.old count) }
    ensures state { OnOk result (x.new ≡ skip 1 x.old count) }
{
    out.clear();
    for _letter in 0..count {
        out.push((97 + draw(x, 26)) as u8)?;
    }
    Ok(())
}

/// So many lines.
fn draw_lines(alloc: Global, x: &mut u64, count: u32) -> Result<Lines, AllocError>
    ensures { IfOk result (λ lines. lines ≡ drawn_lines x.old count) }
{
    let mut lines = Lines::new(alloc);
    let mut line = Vec::new(alloc);
    for _line in 0..count {
        let length = 1 + draw(x, 12);
        draw_letters(&mut line, x, length)?;
        lines.push(alloc, line.as_slice())?;
    }
    Ok(lines)
}

/// Two machines over the letters a to z and so many lines of these letters, drawn from a seed. The first machine has 500
/// states, each with two arcs for each letter, of which one writes nothing; the second has 200 states, each with an arc
/// for each letter, which it writes; and each line has 1 to 12 letters.
pub fn make_cascade(alloc: Global, seed: u64, lines: u32) -> Result<Cascade, AllocError>
    ensures first { IfOk result (λ c. c.first ≡ first_machine seed) }
    ensures second { IfOk result (λ c. c.second ≡ second_machine seed) }
    ensures lines { IfOk result (λ c. c.lines ≡ drawn_lines (behind_second seed) lines) }
{
    let mut x = seed;
    let first = draw_first(alloc, &mut x)?;
    let second = draw_second(alloc, &mut x)?;
    let lines = draw_lines(alloc, &mut x, lines)?;
    Ok(Cascade {
        first,
        second,
        lines,
    })
}
