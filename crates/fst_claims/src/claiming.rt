//! The calls of a claim table.

ghost use Rattle.std.specs.Prelude.{◌≡◌, ◌≢◌, ℕ, ◌+◌, ◌-◌, ◌%◌, ◌<◌, ◌≤◌, [], ◌++◌, IfOk, length};
ghost use Rattle.std.specs.List.{AllPairs, Contains};
ghost use Rattle.fst_claims.specs.Rule.{all_parts, place_of};
ghost use Rattle.fst_claims.specs.Plays.{IsNew, finds, wins};
ghost use Rattle.fst_claims.specs.Passes.{IsPassOf, IsSamePass, found, parts, view, won};
ghost use Rattle.fst_claims.specs.Claimed.{Claimed, HasFound};

use crate::claim::Claim;
use crate::plays::{Both, Learn, Look, Part, Take};
use crate::table::{Claims, Pass};
use atomic_table::Table;
use std::alloc::{AllocError, Global};

impl Claims {
    /// A table of 1 to 1,048,576 places, and its pass with all 1,024 parts, which has won and found nothing.
    pub fn new(alloc: Global, places: usize) -> Result<(Claims, Pass), AllocError>
        requires some { 0 < places }
        requires few { places ≤ 1048576 }
        ensures places { IfOk result (λ r. r.0.places ≡ places) }
        ensures pass { IfOk result (λ r. IsPassOf r.0 r.1) }
        ensures whole { IfOk result (λ r. (won r.1 ≡ []) × (found r.1 ≡ []) × (parts r.1 ≡ all_parts)) }
    {
        let words = Vec::from_elem(alloc, 0u64, places)?;
        let (table, seat) = Table::of_words(alloc, words.as_slice(), &places)?;
        Ok((Claims { table, places }, Pass { seat }))
    }

    /// The number of its places. Takes no memory.
    pub fn places(&self) -> usize
        ensures value { result ≡ self.now.places }
        ensures range { (0 < self.now.places) × (self.now.places ≤ 1048576) }
    {
        self.places
    }

    /// Moves one part to a new pass, which has won and found nothing. Takes no memory.
    pub fn split(&self, pass: &mut Pass) -> Pass
        requires pass { IsPassOf self.now pass.old }
        requires parts { 1 < parts pass.old }
        ensures pass { IsPassOf self.now pass.new × IsPassOf self.now result }
        ensures left { (won pass.new ≡ won pass.old) × (found pass.new ≡ found pass.old) × (parts pass.new ≡ parts pass.old - 1) }
        ensures new { (won result ≡ []) × (found result ≡ []) × (parts result ≡ 1) }
    {
        let seat = self.table.shared.split_seat::<Part>(&mut pass.seat);
        Pass { seat }
    }

    /// Adds what another pass has: its codes behind those of `into`, its parts, and what it found. No code is then among
    /// those of `into` twice, and they are no more than the table has places; codes that it found in different places
    /// differ. Where it then has all parts, each code that it found is among those that it won, which are as many as the
    /// places if it found a code in each. Takes no memory.
    pub fn join(&self, into: &mut Pass, other: Pass)
        requires passes { IsPassOf self.now into.old × IsPassOf self.now other }
        ensures pass { IsPassOf self.now into.new }
        ensures lists { (won into.new ≡ won into.old ++ won other) × (found into.new ≡ found into.old ++ found other) × (parts into.new ≡ parts into.old + parts other) }
        ensures distinct { AllPairs (λ a b. a ≢ b) (won into.new) }
        ensures few { length (won into.new) ≤ self.now.places }
        ensures apart { (p q c d : ℕ) → Contains (found into.new) (p, c) → Contains (found into.new) (q, d) → p ≢ q → c ≢ d }
        ensures all_won { parts into.new ≡ all_parts → (p c : ℕ) → Contains (found into.new) (p, c) → Contains (won into.new) c }
        ensures full { parts into.new ≡ all_parts → ((i : ℕ) → i < self.now.places → (d : ℕ) × Contains (found into.new) (i, d)) → length (won into.new) ≡ self.now.places }
    {
        let Pass { seat } = other;
        self.table.shared.join_seat::<Both>(&mut into.seat, seat);
        let _word = self.table.shared.load::<Learn>(&mut into.seat, 0);
    }

    /// Looks for a code at the place that is so many behind its own, round the table, and sets it to the code where it is
    /// 0. Gives what was there: 0 where the code is now won.
    fn try_at(&self, pass: &mut Pass, code: u64, start: usize, k: usize) -> u64
        requires pass { IsPassOf self.now pass.old }
        requires code { 0 < code }
        requires start { start ≡ code % self.now.places }
        requires within { k < self.now.places }
        requires passed { HasFound self.now.places code k (view pass.old) }
        ensures pass { IsSamePass pass.old pass.new }
        ensures won { result ≡ 0 → (view pass.new ≡ wins (view pass.old) code) × IsNew code (view pass.old) × (length (won pass.new) ≤ (view pass.new).places) }
        ensures found { result ≢ 0 → view pass.new ≡ finds (view pass.old) (place_of self.now.places code k) result }
    {
        let place = (start + k) % self.places;
        let word = self.table.shared.load::<Look>(&mut pass.seat, place);
        if word > 0 {
            return word;
        }
        self.table
            .shared
            .compare_exchange::<Take>(&mut pass.seat, place, 0, code)
    }

    /// Claims a code that is not 0: looks at the places from `code % places` on, round the table, for the code or a word
    /// that is not set.
    ///
    /// `Won`: this call set a word to the code, no word held it at that step, and it is the last of the codes that the
    /// pass has won. `Taken`: a place held the code when this call looked at it. `Full`: every place held another code
    /// when this call looked at it. In each case the pass has found what the call saw, and else is as before. It takes no
    /// memory, waits for no other pass, and looks at each place once at most.
    pub fn claim(&self, pass: &mut Pass, code: u64) -> Claim
        requires pass { IsPassOf self.now pass.old }
        requires code { 0 < code }
        ensures pass { IsPassOf self.now pass.new }
        ensures told { Claimed self.now.places code (view pass.old) result (view pass.new) }
    {
        let start = (code % self.places as u64) as usize;
        for k in 0..self.places {
            let word = self.try_at(pass, code, start, k);
            if word == 0 {
                return Claim::Won;
            }
            if word == code {
                return Claim::Taken;
            }
        }
        Claim::Full
    }
}
