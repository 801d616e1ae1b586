//! Where the chains of a machine come from.

use fst_machine::FstArc;
use fst_semiring::Weight;

/// Chains in order, each with its letters and its final weight: what `chain_machine` reads.
pub trait ChainSource<W: Weight> {
    ghost use Rattle.std.specs.Prelude.{◌≡◌, ◌<◌, List, length};
    ghost use Rattle.fst_machine.specs.Letters.{letter_of};
    ghost use Rattle.fst_machine.specs.Machine.{valued_arc};
    ghost use Rattle.fst_nbest.specs.Chains.{Chain, HaveLetters, chain_at, letter_at};

    /// The chains.
    ghost chains: { Self → List Chain };

    /// The number of chains, and with it what holds of their letters. Takes no memory.
    fn chain_count(&self) -> usize
        ensures count { result ≡ length (chains self.now) }
        ensures letters { HaveLetters (chains self.now) };

    /// The number of letters of a chain. Takes no memory.
    fn letter_count(&self, chain: usize) -> usize
        requires { chain < length (chains self.now) }
        ensures { result ≡ length (chain_at (chains self.now) chain).letters };

    /// A letter of a chain as an arc; the state where it leads is not read. Takes no memory.
    fn arc(&self, chain: usize, place: usize) -> FstArc<W>
        requires chain { chain < length (chains self.now) }
        requires place { place < length (chain_at (chains self.now) chain).letters }
        ensures { letter_of (valued_arc W.value result) ≡ letter_at (chain_at (chains self.now) chain).letters place };

    /// The final weight of a chain. Takes no memory.
    fn last(&self, chain: usize) -> W
        requires { chain < length (chains self.now) }
        ensures { W.value result ≡ (chain_at (chains self.now) chain).last };
}
