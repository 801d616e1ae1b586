//! `shortestpath`: the paths, or with `--unique` the strings.

ghost use Rattle.std.specs.Prelude.{◌≡◌, ◌≤◌, ◌<◌, ℕ, All, IfErr, IfOk, OnOk, false, length, map, true};
ghost use Rattle.std.specs.Result.{result_map_both};
ghost use Rattle.fst_semiring.specs.Cost.{Cost};
ghost use Rattle.fst_semiring.specs.declared.arc_type.ArcType.{ArcType};
ghost use Rattle.fst_machine.specs.BreadthFirst.{Apart};
ghost use Rattle.fst_machine.specs.Cycles.{IsUseful};
ghost use Rattle.fst_machine.specs.Graph.{graph_of};
ghost use Rattle.fst_machine.specs.Machine.{Machine, greatest_label, valued};
ghost use Rattle.fst_machine.specs.Steps.{written};
ghost use Rattle.fst_search.specs.Distances.{IsListed, NoneImproves};
ghost use Rattle.fst_nbest.specs.FirstPaths.{AreFirstPaths, IfImproving};
ghost use Rattle.fst_select.specs.Strings.{AreFirstStrings, weighted};
ghost use Rattle.fst_select.specs.UniqueRefusals.{IsSettled, IsUnlistable};
ghost use Rattle.fst_words.specs.PlanLaws.{HasNumbersInRange};
ghost use Rattle.fst_verbs.specs.Causes.{faulty, refused, unmade};
ghost use Rattle.fst_verbs.specs.Listing.{listing_by, listing_meaning, listing_text, path_count, unique_stops};
ghost use Rattle.fst_verbs.specs.Meaning.{Declines, Settles};
ghost use Rattle.fst_verbs.specs.Seeing.{given_seen, made_seen};
ghost use Rattle.fst_verbs.specs.Told.{IsMade};

use crate::given::Given;
use crate::outputs::Made;
use crate::refusal::{Refusal, unmade};
use fst_determinize::SubsetWeight;
use fst_machine::{Fst, Paths, Steps};
use fst_nbest::{ChainsFault, NbestFault, chains, nbest};
use fst_select::{StringChainsFault, Strings, UniqueFault, string_chains, unique_nbest};
use fst_semiring::Weight;
use fst_words::Options;
use std::alloc::Global;
use std::fmt;
use std::marker::Brand;
use std::sync::ledger::{Blank, Ledger};

/// Why no paths, or no strings, are listed.
#[derive(Clone, Copy, Debug, PartialEq, Eq)]
pub(crate) enum Unlisted {
    /// This arc of this state, the first such by state and then place, has two different labels.
    NotAcceptor { state: u32, place: u32 },
    /// This arc of this state, the first such by state and then place, has label 0.
    HasEpsilon { state: u32, place: u32 },
    /// A cycle on successful paths is better than One.
    ImprovingCycle,
    /// The paths have more than 4,194,303 arcs together, or the strings so many labels.
    TooManyStates,
    /// In this state of the result, the least such, ends a string whose weight has a number of absolute value above 10 to
    /// the 18.
    Overflow { state: u32 },
}

impl fmt::Display for Unlisted {
    ghost use Rattle.std.specs.Prelude.{Some};
    ghost use Rattle.fst_verbs.specs.Listing.{listing_text};

    ghost output = { λ why. Some (listing_text why) };

    fn fmt<W: fmt::Write>(&self, f: &mut fmt::Formatter<W>) -> fmt::Result {
        match *self {
            Unlisted::NotAcceptor { state, place } => {
                write!(f, "not an acceptor at state {state} arc {place}")
            }
            Unlisted::HasEpsilon { state, place } => {
                write!(f, "epsilon at state {state} arc {place}")
            }
            Unlisted::ImprovingCycle => f.write_str("improving cycle"),
            Unlisted::TooManyStates => f.write_str("too many states"),
            Unlisted::Overflow { state } => write!(f, "number too large at state {state}"),
        }
    }
}

/// How many paths, or strings, are listed at most: one without the option.
pub(super) fn count_of(options: &Options) -> u32
    requires { HasNumbersInRange options.now }
    ensures value { result ≡ path_count options.now }
    ensures some { 1 ≤ result }
    ensures few { result ≤ 100000 }
{
    match options.nshortest {
        Some(count) => count as u32,
        None => 1,
    }
}

/// The first paths of a machine, whose steps nobody counts.
fn first_paths<W: Weight, L: Ledger>(
    alloc: Global,
    fst: &Fst<W>,
    n: u32,
    blank: Blank,
) -> Result<Paths, NbestFault>
    requires name { blank.name ≡ L.name }
    requires parts { blank.parts ≡ L.parts }
    requires own { 0 < blank.parts }
    requires some { 1 ≤ n }
    requires few { n ≤ 100000 }
    ensures first { IfOk result (λ paths. AreFirstPaths W.KIND (graph_of (valued W.value fst.now)) n (map written paths)) }
    ensures none { OnOk result (NoneImproves W.KIND (graph_of (valued W.value fst.now)) (IsUseful (graph_of (valued W.value fst.now)))) }
    ensures cycle { IfErr result (λ f. IfImproving f (IsListed W.KIND (graph_of (valued W.value fst.now)) (IsUseful (graph_of (valued W.value fst.now))))) }
{
    nbest(alloc, fst, n, &mut Steps::<L>::new(blank))
}

/// The machine of the first paths.
fn paths_listed<W: Weight>(
    alloc: Global,
    options: &Options,
    given: Given<W>,
) -> Result<Made<W>, Refusal>
    requires one { length given.machines.items ≡ 1 }
    requires numbers { HasNumbersInRange options.now }
    ensures { Settles (listing_by false (path_count options.now)) (given_seen W.KIND W.value given) (result_map_both (made_seen W.KIND W.value) (λ e. e) result) }
{
    let machine = given.one();
    let paths = match first_paths::<W, Brand>(alloc, &machine, count_of(options), Blank::new(1)) {
        Ok(paths) => paths,
        Err(NbestFault::ImprovingCycle { cycle: _ }) => {
            return Err(unmade(alloc, Unlisted::ImprovingCycle));
        }
        Err(NbestFault::Memory) => return Err(Refusal::Memory),
    };
    match chains(alloc, &machine, &paths) {
        Ok(made) => Ok(Made::Machine(made)),
        Err(ChainsFault::TooManyStates) => Err(unmade(alloc, Unlisted::TooManyStates)),
        Err(ChainsFault::Memory) => Err(Refusal::Memory),
    }
}

/// The first strings of a machine, whose steps nobody counts.
fn first_strings<W: SubsetWeight, L: Ledger>(
    alloc: Global,
    fst: &Fst<W>,
    n: u32,
    blank: Blank,
) -> Result<Strings<W>, UniqueFault>
    requires name { blank.name ≡ L.name }
    requires parts { blank.parts ≡ L.parts }
    requires own { 0 < blank.parts }
    requires some { 1 ≤ n }
    requires few { n ≤ 100000 }
    ensures first { IfOk result (λ strings. AreFirstStrings W.KIND (graph_of (valued W.value fst.now)) n (map (weighted W.wide_value) strings)) }
    ensures apart { IfOk result (λ strings. Apart (map (λ s. s.word) strings)) }
    ensures labels { IfOk result (λ strings. All (λ s. All (λ l. (1 ≤ l) × (l ≤ greatest_label)) s.word) strings) }
    ensures exact { IsSettled W.KIND (valued W.value fst.now) result }
{
    unique_nbest(alloc, fst, n, &mut Steps::<L>::new(blank))
}

/// The strings of the machine are not listed.
fn unlistable(alloc: Global, fault: &UniqueFault) -> Refusal
    ensures { (kind : ArcType) (n : ℕ) (m : Machine Cost) → IsUnlistable kind m fault.now → Declines (unique_stops kind n m) result }
{
    match *fault {
        UniqueFault::NotAcceptor { state, place } => {
            unmade(alloc, Unlisted::NotAcceptor { state, place })
        }
        UniqueFault::HasEpsilon { state, place } => {
            unmade(alloc, Unlisted::HasEpsilon { state, place })
        }
        UniqueFault::ImprovingCycle { cycle: _ } => unmade(alloc, Unlisted::ImprovingCycle),
        UniqueFault::Memory => Refusal::Memory,
    }
}

/// The machine of the first strings.
fn strings_listed<W: SubsetWeight>(
    alloc: Global,
    options: &Options,
    given: Given<W>,
) -> Result<Made<W>, Refusal>
    requires one { length given.machines.items ≡ 1 }
    requires numbers { HasNumbersInRange options.now }
    ensures { Settles (listing_by true (path_count options.now)) (given_seen W.KIND W.value given) (result_map_both (made_seen W.KIND W.value) (λ e. e) result) }
{
    let machine = given.one();
    // What holds of the machine that is read.
    let _states = machine.states();
    let strings = match first_strings::<W, Brand>(
        alloc,
        &machine,
        count_of(options),
        Blank::new(1),
    ) {
        Ok(strings) => strings,
        Err(fault) => return Err(unlistable(alloc, &fault)),
    };
    // Its memory may be used again.
    drop(machine);
    match string_chains(alloc, &strings) {
        Ok(made) => Ok(Made::Machine(made)),
        Err(StringChainsFault::TooManyStates) => Err(unmade(alloc, Unlisted::TooManyStates)),
        Err(StringChainsFault::Overflow { state }) => {
            Err(unmade(alloc, Unlisted::Overflow { state }))
        }
        Err(StringChainsFault::Memory) => Err(Refusal::Memory),
    }
}

/// `shortestpath`; with `--unique` different strings are listed, not paths.
pub(crate) fn listed<W: SubsetWeight>(
    alloc: Global,
    options: &Options,
    given: Given<W>,
) -> Result<Made<W>, Refusal>
    requires one { length given.machines.items ≡ 1 }
    requires numbers { HasNumbersInRange options.now }
    ensures { Settles (listing_meaning options.now) (given_seen W.KIND W.value given) (result_map_both (made_seen W.KIND W.value) (λ e. e) result) }
{
    if options.unique {
        return strings_listed(alloc, options, given);
    }
    paths_listed(alloc, options, given)
}
