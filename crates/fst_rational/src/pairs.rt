//! Pairs of an old and a new label.

ghost use Rattle.std.specs.Prelude.{◌≡◌, ◌<◌, ◌≤◌, [], IfOk, IfSome, length};
ghost use Rattle.fst_fields.specs.Lines.{fields_of};
ghost use Rattle.fst_fields.specs.Texts.{IsRead};
ghost use Rattle.fst_machine.specs.Machine.{greatest_label};
ghost use Rattle.fst_rational.specs.Faults.{line_of, reason_of};
ghost use Rattle.fst_rational.specs.Labels.{IsPairs, new_label};
ghost use Rattle.fst_rational.specs.Pairs.{Gives, after_line, pair_of, pairs_of_text, with_pair};

use fst_fields::{next_line, read_label, read_row};
use fst_table::Places;
use std::alloc::{AllocError, Global};
use std::marker::Model;

/// Why a text has no pairs: the first fault of the first faulty line. Lines count from 1, blank ones included. In
/// a line the faults come in the order below.
#[derive(Clone, Copy, Debug, PartialEq, Eq)]
pub enum PairsFault {
    /// A line that is not blank has not two fields.
    BadColumns { line: u64 },
    /// A label is not one to eighteen decimal digits, or is above 2,147,483,647; or the old label is 0.
    BadLabel { line: u64 },
    /// An earlier line has the old label.
    Duplicate { line: u64 },
    /// There is no memory.
    Memory,
}

impl PairsFault {
    /// The line, from 1; 0 where there is no memory. Takes no memory.
    pub fn line(self) -> u64
        ensures { result ≡ line_of self }
    {
        match self {
            PairsFault::BadColumns { line }
            | PairsFault::BadLabel { line }
            | PairsFault::Duplicate { line } => line,
            PairsFault::Memory => 0,
        }
    }

    /// What is wrong with the line. Takes no memory.
    pub fn reason(self) -> &'static str
        ensures { result.now ≡ reason_of self }
    {
        match self {
            PairsFault::BadColumns { line: _ } => "wrong number of columns",
            PairsFault::BadLabel { line: _ } => "bad label",
            PairsFault::Duplicate { line: _ } => "label given twice",
            PairsFault::Memory => "out of memory",
        }
    }
}

/// Old labels with their new labels, in the order of their lines. No old label stands twice, and none is 0;
/// all labels are at most 2,147,483,647.
#[derive(Drop)]
pub struct Pairs {
    list: Vec<(u32, u32)>,
    /// The new labels by the old ones: of the lesser ones in a list by number, and of others in a flat table. There a
    /// look-up costs a bounded number of slots and at most a search among sorted labels, whatever the labels are.
    news: Places,
}

impl Model for Pairs {
    ghost use Rattle.std.specs.Prelude.{List};
    ghost use Rattle.fst_rational.specs.Labels.{Pair};
    ghost use Rattle.fst_rational.specs.Pairs.{AreKept, pairs_of};
    ghost use Rattle.fst_table.specs.Found.{found_in};

    ghost Value = { List Pair };

    ghost view = { λ p. pairs_of p.list.items };

    ghost invariant = { λ p. AreKept p.list.items (found_in p.news) };
}

impl Pairs {
    /// No pairs, by which each label stays. Takes no memory.
    pub fn new(alloc: Global) -> Pairs
        ensures { result ≡ [] }
    {
        Pairs::with_bound(alloc, 0)
    }

    /// No pairs. Old labels below the bound are to stand in a list by number. Takes no memory.
    fn with_bound(alloc: Global, bound: usize) -> Pairs
        ensures { result ≡ [] }
    {
        Pairs {
            list: Vec::new(alloc),
            news: Places::new(alloc, bound),
        }
    }

    /// How many pairs there are, and with it what holds of all of them. Takes no memory.
    pub(crate) fn count(&self) -> usize
        ensures value { result ≡ length self.now }
        ensures pairs { IsPairs self.now }
    {
        self.list.len()
    }

    /// The new label of an old one; a label that is no old one stays. Takes no memory.
    pub(crate) fn renew(&self, label: u32) -> u32
        ensures { result ≡ new_label self.now label }
    {
        match self.news.find(u64::from(label)) {
            Some(new) => new,
            None => label,
        }
    }

    /// Adds a pair; the fault, where its old label is there. After either error the pairs are as before.
    fn add(&mut self, line: u64, old: u32, new: u32) -> Result<Result<(), PairsFault>, AllocError>
        requires label { 0 < old }
        requires old { old ≤ greatest_label }
        requires new { new ≤ greatest_label }
        ensures { IfOk result (λ r. IsRead (λ x. self.new) r (with_pair line self.old old new)) }
    {
        self.list.reserve(1)?;
        let known = self.news.find_or_add(u64::from(old), new)?;
        if known.is_some() {
            return Ok(Err(PairsFault::Duplicate { line }));
        }
        self.list.push_reserved((old, new));
        Ok(Ok(()))
    }

    /// Adds a line, which has this number. After either error the pairs are as before.
    fn add_line(&mut self, line: u64, text: &[u8]) -> Result<Result<(), PairsFault>, AllocError>
        ensures { IfOk result (λ r. IsRead (λ x. self.new) r (after_line line self.old (fields_of text.now))) }
    {
        match read_pair(line, text) {
            Ok(Some((old, new))) => self.add(line, old, new),
            Ok(None) => Ok(Ok(())),
            Err(fault) => Ok(Err(fault)),
        }
    }
}

/// The old and the new label of a line; nothing where the line is blank. Takes no memory.
fn read_pair(line: u64, text: &[u8]) -> Result<Option<(u32, u32)>, PairsFault>
    ensures read { result ≡ pair_of line (fields_of text.now) }
    ensures label { IfOk result (λ row. IfSome row (λ p. 0 < p.0)) }
    ensures old { IfOk result (λ row. IfSome row (λ p. p.0 ≤ greatest_label)) }
    ensures new { IfOk result (λ row. IfSome row (λ p. p.1 ≤ greatest_label)) }
{
    let Some(row) = read_row(text) else {
        return Err(PairsFault::BadColumns { line });
    };
    let Some((old, new)) = row else {
        return Ok(None);
    };
    let Some(old) = read_label(old) else {
        return Err(PairsFault::BadLabel { line });
    };
    if old == 0 {
        return Err(PairsFault::BadLabel { line });
    }
    let Some(new) = read_label(new) else {
        return Err(PairsFault::BadLabel { line });
    };
    Ok(Some((old, new)))
}

/// Reads the pairs of a text; the fault is the first one of the first faulty line.
fn read_lines(alloc: Global, bytes: &[u8]) -> Result<Result<Pairs, PairsFault>, AllocError>
    ensures { IfOk result (λ r. IsRead (λ p. p) r (pairs_of_text bytes.now)) }
{
    // The list by number takes no more than twice the memory of the text.
    let mut pairs = Pairs::with_bound(alloc, bytes.len() / 2);
    let mut rest = bytes;
    let mut line: u64 = 0;
    while let Some((first, behind)) = next_line(rest) {
        line += 1;
        match pairs.add_line(line, first)? {
            Ok(()) => {}
            Err(fault) => return Ok(Err(fault)),
        }
        rest = behind;
    }
    Ok(Ok(pairs))
}

/// The pairs of a text: each line that is not blank has an old label, which is not 0, and its new label.
/// (OpenFst manual, "fstrelabel".) Reads the text once, and takes memory by the text. A fault is the first one
/// of the first faulty line; `Memory` where memory runs out.
pub fn read_pairs(alloc: Global, bytes: &[u8]) -> Result<Pairs, PairsFault>
    ensures read { Gives (λ p. p) result (pairs_of_text bytes.now) }
    ensures pairs { IfOk result IsPairs }
{
    match read_lines(alloc, bytes) {
        Ok(Ok(pairs)) => {
            let _count = pairs.count();
            Ok(pairs)
        }
        Ok(Err(fault)) => Err(fault),
        Err(_) => Err(PairsFault::Memory),
    }
}
