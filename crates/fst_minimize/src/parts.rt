//! States in blocks, the members of each side by side, the marked ones in front. (Valmari and Lehtinen 2008, the refinable
//! partition of Hopcroft's algorithm.)

ghost use Rattle.std.specs.Prelude.{◌≡◌, ◌⊎◌, ◌<◌, ◌≤◌, ◌-◌, ℕ, IfOk, get_or, length};
ghost use Rattle.fst_minimize.specs.Spans.{IsBack, IsFront, IsParts, RenumbersPlaces};

use std::alloc::{AllocError, Global};

/// The members of a block stand in the places from the first to the end, the marked ones before the middle.
#[derive(Clone, Copy)]
pub(crate) struct Span {
    first: u32,
    mid: u32,
    end: u32,
}

/// The two parts of a block that is split at the middle of its span.
#[derive(Clone, Copy)]
struct Halves {
    smaller: Span,
    larger: Span,
}

/// A partition of states.
#[derive(Drop)]
pub(crate) struct Parts {
    /// The states, by place.
    members: Vec<u32>,
    /// The place of each state.
    places: Vec<u32>,
    /// The number of the block of each state.
    pub(crate) blocks: Vec<u32>,
    /// The places of the members of each block.
    spans: Vec<Span>,
    ghost whole: { IsParts members.items places.items blocks.items spans.items },
}

/// The numbers below a count, in order.
fn ascending(alloc: Global, count: u32) -> Result<Vec<u32>, AllocError>
    ensures size { IfOk result (λ v. length v.items ≡ count) }
    ensures each { IfOk result (λ v. (i : ℕ) → i < count → get_or v.items i 0 ≡ i) }
{
    let mut numbers = Vec::with_capacity(alloc, count as usize)?;
    for number in 0..count {
        numbers.push(number)?;
    }
    Ok(numbers)
}

/// Gives a number to the members in these places.
fn renumber(numbers: &mut [u32], members: &[u32], places: Span, number: u32)
    requires order { places.first ≤ places.end }
    requires end { places.end ≤ length members.now }
    requires below { (i : ℕ) → i < length members.now → get_or members.now i 0 < length numbers.old }
    ensures { RenumbersPlaces members.now places.first places.end number numbers.old numbers.new }
{
    for place in places.first..places.end {
        numbers[members[place as usize] as usize] = number;
    }
}

/// The parts before and behind the middle of a span, with no marks.
fn halve(span: Span) -> Halves
    requires from { span.first ≤ span.mid }
    requires to { span.mid ≤ span.end }
    ensures parts { (IsFront span result.smaller × IsBack span result.larger) ⊎ (IsBack span result.smaller × IsFront span result.larger) }
    ensures order { result.smaller.end - result.smaller.first ≤ result.larger.end - result.larger.first }
{
    let front = Span {
        first: span.first,
        mid: span.first,
        end: span.mid,
    };
    let back = Span {
        first: span.mid,
        mid: span.mid,
        end: span.end,
    };
    if span.mid - span.first <= span.end - span.mid {
        Halves {
            smaller: front,
            larger: back,
        }
    } else {
        Halves {
            smaller: back,
            larger: front,
        }
    }
}

impl Parts {
    ghost use Rattle.std.specs.Prelude.{OnOk};
    ghost use Rattle.fst_machine.specs.BreadthFirst.{Has};
    ghost use Rattle.fst_minimize.specs.Numbered.{number_in};
    ghost use Rattle.fst_minimize.specs.Parts.{IsMarked, Marks, Splits};

    /// All of so many states in one block, and no marks. More than 4,294,967,295 states have no memory.
    pub(crate) fn one(alloc: Global, states: usize) -> Result<Parts, AllocError>
        ensures size { IfOk result (λ r. length r.blocks.items ≡ states) }
        ensures one { IfOk result (λ r. (p q : ℕ) → number_in r.blocks.items p ≡ number_in r.blocks.items q) }
        ensures none { IfOk result (λ r. (p : ℕ) → p < states → IsMarked r p → ⊥) }
    {
        if states > 4294967295 {
            return Err(AllocError);
        }
        let end = states as u32;
        let mut spans = Vec::new(alloc);
        spans.push(Span {
            first: 0,
            mid: 0,
            end,
        })?;
        Ok(Parts {
            members: ascending(alloc, end)?,
            places: ascending(alloc, end)?,
            blocks: vec![in alloc; 0u32; states]?,
            spans,
        })
    }

    /// Gives a state a mark. One swap.
    pub(crate) fn mark(&mut self, state: u32)
        requires { state < length self.old.blocks.items }
        ensures { Marks self.old self.new state }
    {
        let block = self.blocks[state as usize] as usize;
        let span = self.spans[block];
        let place = self.places[state as usize];
        if place < span.mid {
            return;
        }
        let other = self.members[span.mid as usize];
        self.members[span.mid as usize] = state;
        self.members[place as usize] = other;
        self.places[state as usize] = span.mid;
        self.places[other as usize] = place;
        self.spans[block] = Span {
            first: span.first,
            mid: span.mid + 1,
            end: span.end,
        };
    }

    /// Splits the block of a state into its marked and its other members, where it has both: the smaller part gets the next
    /// number, which is the result. The block has no marks then. More than 4,294,967,296 blocks have no memory.
    pub(crate) fn split(&mut self, state: u32) -> Result<Option<u32>, AllocError>
        requires { state < length self.old.blocks.items }
        ensures { OnOk result (Splits self.old self.new state) }
    {
        let block = self.blocks[state as usize] as usize;
        let span = self.spans[block];
        let Span { first, mid, end } = span;
        if mid == first || mid == end {
            self.spans[block] = Span {
                first,
                mid: first,
                end,
            };
            return Ok(None);
        }
        let number = self.spans.len();
        if number > 4294967295 {
            return Err(AllocError);
        }
        self.spans.reserve(1)?;
        let parts = halve(span);
        renumber(
            &mut self.blocks,
            &self.members,
            parts.smaller,
            number as u32,
        );
        self.spans.push_reserved(parts.smaller);
        self.spans[block] = parts.larger;
        Ok(Some(number as u32))
    }

    /// Fills a list with the members of a block; with none where there is no such block.
    pub(crate) fn put_members(&self, out: &mut Vec<u32>, block: u32) -> Result<(), AllocError>
        ensures { OnOk result ((p : ℕ) → (Has out.new.items p → (p < length self.now.blocks.items) × (number_in self.now.blocks.items p ≡ block)) × (p < length self.now.blocks.items → number_in self.now.blocks.items p ≡ block → Has out.new.items p)) }
    {
        out.clear();
        if block as usize >= self.spans.len() {
            return Ok(());
        }
        let span = self.spans[block as usize];
        out.extend_from_slice(&self.members[span.first as usize..span.end as usize])?;
        Ok(())
    }
}
