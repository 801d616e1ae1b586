//! A machine that is built from the lines of a text.

ghost use Rattle.std.specs.Prelude.{◌≡◌, ◌≢◌, ◌∷◌, ◌++◌, ◌<◌, ◌≤◌, ◌+◌, [], ℕ, List, length, nat_lt, true, None, Some, OnOk, IfOk, IfSome};
ghost use Rattle.std.specs.Option.{option_map};
ghost use Rattle.fst_fields.specs.Lines.{fields_of};
ghost use Rattle.fst_fields.specs.Texts.{IsRead};
ghost use Rattle.fst_semiring.specs.Cost.{infinite};
ghost use Rattle.fst_machine.specs.Machine.{arc_total, bare_state, changed, greatest_label, most_arcs, most_states, with_arc};
ghost use Rattle.fst_text.specs.Entries.{arc_entry, final_entry};
ghost use Rattle.fst_text.specs.FirstLine.{IsFirstLine};
ghost use Rattle.fst_text.specs.Grammar.{acceptor_line, arc_line, arc_weight_of_field, entry_of_fields, final_line, label_of_field, output_label, state_of_field, transducer_line, weight_of_field};
ghost use Rattle.fst_text.specs.Building.{HasRoomFor, IsPlaced, after_line, built, nothing_built, or_start, place_of, room_of, said, with_entry, with_number, with_state};

use crate::entry::LineEntry;
use crate::fault::TextFault;
use crate::field::{Field, inner_field, label_field, last_field, plain_field, read_field};
use crate::options::TextOptions;
use fst_fields::{MOST_LABEL, next_field, next_line};
use fst_machine::{Fst, FstArc, GrowFault, MOST_ARCS, MOST_STATES};
use fst_semiring::{Weight, is_zero};
use fst_symbols::SymbolTable;
use fst_table::Places;
use std::alloc::{AllocError, Global};

/// The machine of the lines so far.
#[derive(Drop)]
pub struct Builder<W: Weight> {
    places: Places,
    fst: Fst<W>,
}

/// The number of a name.
#[inline(never)]
fn find_label(symbols: &SymbolTable, line: u64, name: &[u8]) -> Result<u32, TextFault>
    ensures read { IsRead (λ n. n) result (label_of_field (Some symbols.now) line name.now) }
    ensures small { IfOk result (λ n. n ≤ greatest_label) }
{
    match symbols.find(name) {
        Some(label) => Ok(label),
        None => Err(TextFault::UnknownSymbol { line }),
    }
}

/// The label of a field: the number of a name where its side has a symbol table, else a label number.
#[inline(always)]
fn read_label(symbols: Option<&SymbolTable>, line: u64, field: Field<'_>) -> Result<u32, TextFault>
    ensures read { IsRead (λ n. n) result (label_of_field (option_map (λ t. t.now) symbols.entry) line field.entry) }
    ensures small { IfOk result (λ n. n ≤ greatest_label) }
{
    match symbols {
        None => match field.number() {
            Some(label) if label <= u64::from(MOST_LABEL) => Ok(label as u32),
            _ => Err(TextFault::BadLabel { line }),
        },
        Some(symbols) => find_label(symbols, line, field.bytes()),
    }
}

/// The output label of an arc with this input label, which is both labels where there is no other field.
#[inline(always)]
fn read_output_label(
    symbols: Option<&SymbolTable>,
    line: u64,
    label: u32,
    field: Option<Field<'_>>,
) -> Result<u32, TextFault>
    requires { label ≤ greatest_label }
    ensures read { IsRead (λ n. n) result (output_label (option_map (λ t. t.now) symbols.entry) line label field.entry) }
    ensures small { IfOk result (λ n. n ≤ greatest_label) }
{
    match field {
        None => Ok(label),
        Some(field) => read_label(symbols, line, field),
    }
}

/// The weight of a weight field, One where it is missing.
#[inline(always)]
fn read_weight<W: Weight>(line: u64, field: Option<Field<'_>>) -> Result<W, TextFault>
    ensures { IsRead W.value result (weight_of_field W.KIND line field.entry) }
{
    match field {
        None => Ok(W::one()),
        Some(field) => match W::read_weight(field.bytes()) {
            Ok(weight) => Ok(weight),
            Err(_) => Err(TextFault::BadWeight { line }),
        },
    }
}

/// The weight of an arc's weight field, which is not Zero; One where it is missing.
#[inline(always)]
fn read_arc_weight<W: Weight>(line: u64, field: Option<Field<'_>>) -> Result<W, TextFault>
    ensures read { IsRead W.value result (arc_weight_of_field W.KIND line field.entry) }
    ensures finite { IfOk result (λ w. W.value w ≢ infinite) }
{
    let weight = read_weight::<W>(line, field)?;
    if is_zero(weight) {
        return Err(TextFault::BadWeight { line });
    }
    Ok(weight)
}

impl<W: Weight> Builder<W> {
    /// Nothing is built; written numbers below `bound` are to be looked up in a table. Takes no memory.
    pub fn new(alloc: Global, bound: usize) -> Builder<W>
        ensures nothing { built W.value result ≡ nothing_built }
        ensures placed { IsPlaced (built W.value result) }
        ensures bound { result.places.bound ≡ bound }
    {
        Builder {
            places: Places::new(alloc, bound),
            fst: Fst::new(alloc),
        }
    }

    /// The machine of the lines so far.
    pub fn into_machine(self) -> Fst<W>
        ensures { result ≡ self.fst }
    {
        self.fst
    }

    /// Whether there is room for the state of a number.
    fn has_room(&self, kept: bool, number: u64) -> bool
        ensures { result ≡ (room_of kept (built W.value self.now)).state number }
    {
        let states = self.fst.states();
        if kept {
            return number < MOST_STATES as u64;
        }
        states < MOST_STATES as u32 || self.places.find(number).is_some()
    }

    /// Whether there is room for the states of two numbers, where there is for the first.
    fn has_room_for_both(&self, kept: bool, first: u64, second: u64) -> bool
        requires { (room_of kept (built W.value self.now)).state first ≡ true }
        ensures { result ≡ (room_of kept (built W.value self.now)).states first second }
    {
        let states = self.fst.states();
        if kept {
            return second < MOST_STATES as u64;
        }
        if states + 2 <= MOST_STATES as u32 || first == second {
            return true;
        }
        if self.places.find(second).is_some() {
            return true;
        }
        states < MOST_STATES as u32 && self.places.find(first).is_some()
    }

    /// Whether there is room for one more arc.
    fn has_room_for_arc(&self) -> bool
        ensures { result ≡ nat_lt (arc_total (built W.value self.now).machine.states) most_arcs }
    {
        self.fst.arc_count() < MOST_ARCS
    }

    /// The number of a line's first state field.
    #[inline(always)]
    fn read_first(&self, kept: bool, line: u64, field: Field<'_>) -> Result<u64, TextFault>
        ensures read { IsRead (λ n. n) result (state_of_field line (room_of kept (built W.value self.now)).state field.entry) }
        ensures room { IfOk result (λ n. (room_of kept (built W.value self.now)).state n ≡ true) }
    {
        let Some(number) = field.number() else {
            return Err(TextFault::BadState { line });
        };
        if self.has_room(kept, number) {
            Ok(number)
        } else {
            Err(TextFault::TooManyStates { line })
        }
    }

    /// The number of a line's second state field.
    #[inline(always)]
    fn read_second(
        &self,
        kept: bool,
        line: u64,
        first: u64,
        field: Field<'_>,
    ) -> Result<u64, TextFault>
        requires { (room_of kept (built W.value self.now)).state first ≡ true }
        ensures read { IsRead (λ n. n) result (state_of_field line ((room_of kept (built W.value self.now)).states first) field.entry) }
        ensures room { IfOk result (λ n. (room_of kept (built W.value self.now)).states first n ≡ true) }
    {
        let Some(number) = field.number() else {
            return Err(TextFault::BadState { line });
        };
        if self.has_room_for_both(kept, first, number) {
            Ok(number)
        } else {
            Err(TextFault::TooManyStates { line })
        }
    }

    /// The place of a number, if it is known; `again` where it is likely to be asked for again at once.
    fn find(&mut self, number: u64, again: bool) -> Option<u32>
        ensures place { result ≡ (built W.value self.old).found number }
        ensures fst { self.new.fst ≡ self.old.fst }
        ensures same { built W.value self.new ≡ built W.value self.old }
    {
        if again {
            return self.places.find_again(number);
        }
        self.places.find(number)
    }

    /// The state of a number for which there is room; it is added where it is not known.
    #[inline(always)]
    fn state(&mut self, kept: bool, number: u64, again: bool) -> Result<u32, AllocError>
        requires placed { IsPlaced (built W.value self.old) }
        requires room { (room_of kept (built W.value self.old)).state number ≡ true }
        ensures place { IfOk result (λ place. place ≡ place_of kept (built W.value self.old) number) }
        ensures within { IfOk result (λ place. place < length self.new.fst.states) }
        ensures added { OnOk result (built W.value self.new ≡ with_number kept (built W.value self.old) number) }
        ensures placed { OnOk result (IsPlaced (built W.value self.new)) }
        ensures more { OnOk result (length self.old.fst.states ≤ length self.new.fst.states) }
        ensures arcs { OnOk result (arc_total self.new.fst.states ≡ arc_total self.old.fst.states) }
    {
        if kept {
            self.grow(number)?;
            return Ok(number as u32);
        }
        match self.find(number, again) {
            Some(place) => Ok(place),
            None => self.add(number),
        }
    }

    /// Adds a state with no number, where there is room for one.
    fn push_state(&mut self) -> Result<u32, AllocError>
        requires room { length self.old.fst.states < most_states }
        ensures number { IfOk result (λ n. n ≡ length self.old.fst.states) }
        ensures zero { IfOk result (λ n. (zero : W) × (W.value zero ≡ infinite) × (self.new.fst ≡ record self.old.fst { states = self.old.fst.states ++ bare_state zero ∷ [] })) }
        ensures places { self.new.places ≡ self.old.places }
    {
        match self.fst.add_state() {
            Ok(state) => Ok(state),
            Err(GrowFault::Memory) => Err(AllocError),
            Err(_) => unreachable!(),
        }
    }

    /// Adds states until there is one with this place.
    fn grow(&mut self, place: u64) -> Result<(), AllocError>
        requires placed { IsPlaced (built W.value self.old) }
        requires room { place < most_states }
        ensures added { OnOk result (built W.value self.new ≡ with_number true (built W.value self.old) place) }
        ensures within { OnOk result (place < length self.new.fst.states) }
        ensures placed { OnOk result (IsPlaced (built W.value self.new)) }
        ensures more { OnOk result (length self.old.fst.states ≤ length self.new.fst.states) }
        ensures arcs { OnOk result (arc_total self.new.fst.states ≡ arc_total self.old.fst.states) }
    {
        while u64::from(self.fst.states()) <= place {
            self.push_state()?;
        }
        Ok(())
    }

    /// Adds a state for a number that is not known.
    fn add(&mut self, number: u64) -> Result<u32, AllocError>
        requires placed { IsPlaced (built W.value self.old) }
        requires absent { (built W.value self.old).found number ≡ None }
        requires room { length self.old.fst.states < most_states }
        ensures place { IfOk result (λ place. place ≡ length self.old.fst.states) }
        ensures within { IfOk result (λ place. place < length self.new.fst.states) }
        ensures added { OnOk result (built W.value self.new ≡ with_state (built W.value self.old) number) }
        ensures placed { OnOk result (IsPlaced (built W.value self.new)) }
        ensures more { OnOk result (length self.old.fst.states ≤ length self.new.fst.states) }
        ensures arcs { OnOk result (arc_total self.new.fst.states ≡ arc_total self.old.fst.states) }
    {
        let place = self.push_state()?;
        self.places.add(number, place)?;
        Ok(place)
    }

    /// Makes a state the start where there is none.
    fn begin(&mut self, state: u32)
        requires { state < length self.old.fst.states }
        ensures fst { self.new.fst ≡ record self.old.fst { start = or_start state self.old.fst.start } }
        ensures places { self.new.places ≡ self.old.places }
    {
        if self.fst.start().is_none() {
            self.fst.set_start(state);
        }
    }

    /// Adds an arc behind the others of a state, where there is room for one.
    fn push_arc(&mut self, state: u32, arc: FstArc<W>) -> Result<(), AllocError>
        requires room { arc_total self.old.fst.states < most_arcs }
        requires state { state < length self.old.fst.states }
        requires next { arc.next < length self.old.fst.states }
        requires ilabel { arc.ilabel ≤ greatest_label }
        requires olabel { arc.olabel ≤ greatest_label }
        requires weight { W.value arc.weight ≢ infinite }
        ensures ok { OnOk result (self.new.fst ≡ record self.old.fst { states = changed (with_arc arc) self.old.fst.states state }) }
        ensures places { self.new.places ≡ self.old.places }
    {
        match self.fst.add_arc(state, arc) {
            Ok(()) => Ok(()),
            Err(GrowFault::Memory) => Err(AllocError),
            Err(_) => unreachable!(),
        }
    }

    /// Adds an arc between the states of two numbers.
    fn add_arc(
        &mut self,
        kept: bool,
        source: u64,
        dest: u64,
        ilabel: u32,
        olabel: u32,
        weight: W,
    ) -> Result<(), AllocError>
        requires placed { IsPlaced (built W.value self.old) }
        requires fits { HasRoomFor kept (built W.value self.old) (arc_entry source (record { ilabel = ilabel; olabel = olabel; weight = W.value weight; next = dest })) }
        ensures added { OnOk result (built W.value self.new ≡ with_entry kept (built W.value self.old) (arc_entry source (record { ilabel = ilabel; olabel = olabel; weight = W.value weight; next = dest }))) }
        ensures placed { OnOk result (IsPlaced (built W.value self.new)) }
    {
        let from = self.state(kept, source, true)?;
        let next = self.state(kept, dest, false)?;
        self.begin(from);
        self.push_arc(
            from,
            FstArc {
                ilabel,
                olabel,
                weight,
                next,
            },
        )?;
        Ok(())
    }

    /// Sets the final weight of the state of a number.
    fn add_final(&mut self, kept: bool, number: u64, weight: W) -> Result<(), AllocError>
        requires placed { IsPlaced (built W.value self.old) }
        requires room { (room_of kept (built W.value self.old)).state number ≡ true }
        ensures added { OnOk result (built W.value self.new ≡ with_entry kept (built W.value self.old) (final_entry number (W.value weight))) }
        ensures placed { OnOk result (IsPlaced (built W.value self.new)) }
    {
        let state = self.state(kept, number, true)?;
        self.begin(state);
        self.fst.set_final(state, weight);
        Ok(())
    }

    /// Adds what a line says, for which there is room.
    fn add_entry(&mut self, kept: bool, entry: LineEntry<W>) -> Result<(), AllocError>
        requires placed { IsPlaced (built W.value self.old) }
        requires fits { HasRoomFor kept (built W.value self.old) (said W.value entry) }
        ensures added { OnOk result (built W.value self.new ≡ with_entry kept (built W.value self.old) (said W.value entry)) }
        ensures placed { OnOk result (IsPlaced (built W.value self.new)) }
    {
        match entry {
            LineEntry::Arc {
                source,
                dest,
                ilabel,
                olabel,
                weight,
            } => self.add_arc(kept, source, dest, ilabel, olabel, weight),
            LineEntry::Final { state, weight } => self.add_final(kept, state, weight),
        }
    }

    /// What an arc line says. Takes no memory.
    #[tactic(auto, unfolding(crate::specs::Grammar::arc_line))]
    #[inline(always)]
    fn read_arc(
        &self,
        options: &TextOptions,
        line: u64,
        source: Field<'_>,
        dest: Field<'_>,
        ilabel: Field<'_>,
        olabel: Option<Field<'_>>,
        weight: Option<Field<'_>>,
    ) -> Result<LineEntry<W>, TextFault>
        ensures read { IsRead (said W.value) result (arc_line W.KIND options.now line (room_of options.now.keep_state_numbering (built W.value self.now)) source.entry dest.entry ilabel.entry olabel.entry weight.entry) }
        ensures fits { IfOk result (λ e. HasRoomFor options.now.keep_state_numbering (built W.value self.now) (said W.value e)) }
    {
        let kept = options.keep_state_numbering;
        let source = self.read_first(kept, line, source)?;
        let dest = self.read_second(kept, line, source, dest)?;
        let ilabel = read_label(options.isymbols, line, ilabel)?;
        let olabel = read_output_label(options.osymbols, line, ilabel, olabel)?;
        let weight = read_arc_weight::<W>(line, weight)?;
        if !self.has_room_for_arc() {
            return Err(TextFault::TooManyArcs { line });
        }
        Ok(LineEntry::Arc {
            source,
            dest,
            ilabel,
            olabel,
            weight,
        })
    }

    /// What a final line says. Takes no memory.
    #[tactic(auto, unfolding(crate::specs::Grammar::final_line))]
    fn read_final(
        &self,
        options: &TextOptions,
        line: u64,
        state: Field<'_>,
        weight: Option<Field<'_>>,
    ) -> Result<LineEntry<W>, TextFault>
        ensures read { IsRead (said W.value) result (final_line W.KIND line (room_of options.now.keep_state_numbering (built W.value self.now)) state.entry weight.entry) }
        ensures fits { IfOk result (λ e. HasRoomFor options.now.keep_state_numbering (built W.value self.now) (said W.value e)) }
    {
        let state = self.read_first(options.keep_state_numbering, line, state)?;
        let weight = read_weight::<W>(line, weight)?;
        Ok(LineEntry::Final { state, weight })
    }

    /// What a line with this first field says, with what stands after it. Takes no memory.
    fn read_entry(
        &self,
        options: &TextOptions,
        line: u64,
        first: Field<'_>,
        rest: &[u8],
    ) -> Result<LineEntry<W>, TextFault>
        ensures read { IsRead (said W.value) result (entry_of_fields W.KIND options.now line (room_of options.now.keep_state_numbering (built W.value self.now)) (first.entry ∷ fields_of rest.now)) }
        ensures fits { IfOk result (λ e. HasRoomFor options.now.keep_state_numbering (built W.value self.now) (said W.value e)) }
    {
        let Some((second, rest)) = read_field(rest) else {
            return self.read_final(options, line, first, None);
        };
        let Some((third, rest)) = read_field(rest) else {
            return self.read_final(options, line, first, Some(second));
        };
        if options.acceptor {
            return self.read_acceptor(options, line, first, second, third, rest);
        }
        self.read_transducer(options, line, first, second, third, rest)
    }

    /// What an arc line of an acceptor says, with what stands after its label. Takes no memory.
    fn read_acceptor(
        &self,
        options: &TextOptions,
        line: u64,
        source: Field<'_>,
        dest: Field<'_>,
        label: Field<'_>,
        rest: &[u8],
    ) -> Result<LineEntry<W>, TextFault>
        ensures read { IsRead (said W.value) result (acceptor_line W.KIND options.now line (room_of options.now.keep_state_numbering (built W.value self.now)) (source.entry ∷ dest.entry ∷ label.entry ∷ fields_of rest.now)) }
        ensures fits { IfOk result (λ e. HasRoomFor options.now.keep_state_numbering (built W.value self.now) (said W.value e)) }
    {
        let Some((weight, rest)) = read_field(rest) else {
            return self.read_arc(options, line, source, dest, label, None, None);
        };
        if next_field(rest).is_some() {
            return Err(TextFault::BadColumns { line });
        }
        self.read_arc(options, line, source, dest, label, None, Some(weight))
    }

    /// What an arc line of a transducer says, with what stands after its input label. Takes no memory.
    fn read_transducer(
        &self,
        options: &TextOptions,
        line: u64,
        source: Field<'_>,
        dest: Field<'_>,
        ilabel: Field<'_>,
        rest: &[u8],
    ) -> Result<LineEntry<W>, TextFault>
        ensures read { IsRead (said W.value) result (transducer_line W.KIND options.now line (room_of options.now.keep_state_numbering (built W.value self.now)) (source.entry ∷ dest.entry ∷ ilabel.entry ∷ fields_of rest.now)) }
        ensures fits { IfOk result (λ e. HasRoomFor options.now.keep_state_numbering (built W.value self.now) (said W.value e)) }
    {
        let Some((olabel, rest)) = read_field(rest) else {
            return Err(TextFault::BadColumns { line });
        };
        let Some((weight, rest)) = read_field(rest) else {
            return self.read_arc(options, line, source, dest, ilabel, Some(olabel), None);
        };
        if next_field(rest).is_some() {
            return Err(TextFault::BadColumns { line });
        }
        self.read_arc(
            options,
            line,
            source,
            dest,
            ilabel,
            Some(olabel),
            Some(weight),
        )
    }

    /// What the first line of a text says where it is an arc by numbers alone, and what stands behind it. `None` where it is
    /// another line, and where a label may be a name. Takes no memory.
    ///
    /// Most lines that a program wrote are such, and each of their bytes is looked at once, and those of the weight twice.
    #[inline(always)]
    fn read_plain<'t>(
        &self,
        options: &TextOptions,
        line: u64,
        text: &'t [u8],
    ) -> Option<(Result<LineEntry<W>, TextFault>, &'t [u8])>
        ensures read { IfSome result (λ p. (first : List ℕ) × (others : List (List ℕ)) × IsFirstLine text.now (first ∷ others) p.1.now × IsRead (said W.value) p.0 (entry_of_fields W.KIND options.now line (room_of options.now.keep_state_numbering (built W.value self.now)) (first ∷ others))) }
        ensures fits { IfSome result (λ p. IfOk p.0 (λ e. HasRoomFor options.now.keep_state_numbering (built W.value self.now) (said W.value e))) }
        ensures shorter { IfSome result (λ p. length p.1.now < length text.now) }
    {
        if options.isymbols.is_some() || options.osymbols.is_some() {
            return None;
        }
        let (source, rest) = inner_field(text)?;
        let (dest, rest) = inner_field(rest)?;
        let (ilabel, ended, rest) = plain_field(rest)?;
        let (olabel, ended, rest) = label_field(options.acceptor, ended, rest)?;
        let (weight, rest) = last_field(ended, rest)?;
        let read = self.read_arc(options, line, source, dest, ilabel, olabel, weight);
        Some((read, rest))
    }

    /// Adds a line, which has this number. After an error what is built stands for no text.
    fn line(
        &mut self,
        options: &TextOptions,
        line: u64,
        text: &[u8],
    ) -> Result<Result<(), TextFault>, AllocError>
        requires { IsPlaced (built W.value self.old) }
        ensures read { IfOk result (λ r. IsRead (λ x. built W.value self.new) r (after_line W.KIND options.now line (built W.value self.old) (fields_of text.now))) }
        ensures placed { IfOk result (λ r. OnOk r (IsPlaced (built W.value self.new))) }
    {
        let Some((first, rest)) = read_field(text) else {
            return Ok(Ok(()));
        };
        match self.read_entry(options, line, first, rest) {
            Ok(entry) => {
                self.add_entry(options.keep_state_numbering, entry)?;
                Ok(Ok(()))
            }
            Err(fault) => Ok(Err(fault)),
        }
    }

    /// Adds the first line of a text, which has this number, by the general way. What stands behind it.
    #[inline(never)]
    fn general_line<'t>(
        &mut self,
        options: &TextOptions,
        line: u64,
        text: &'t [u8],
    ) -> Result<(Result<(), TextFault>, &'t [u8]), AllocError>
        requires placed { IsPlaced (built W.value self.old) }
        requires filled { 0 < length text.now }
        ensures read { IfOk result (λ p. (fields : List (List ℕ)) × IsFirstLine text.now fields p.1.now × IsRead (λ x. built W.value self.new) p.0 (after_line W.KIND options.now line (built W.value self.old) fields)) }
        ensures placed { IfOk result (λ p. OnOk p.0 (IsPlaced (built W.value self.new))) }
        ensures shorter { IfOk result (λ p. length p.1.now < length text.now) }
    {
        match next_line(text) {
            Some((first, rest)) => {
                let read = self.line(options, line, first)?;
                Ok((read, rest))
            }
            None => unreachable!(),
        }
    }

    /// Adds the first line of a text, which has this number, and gives what stands behind it. After an error what is built
    /// stands for no text.
    pub fn first_line<'t>(
        &mut self,
        options: &TextOptions,
        line: u64,
        text: &'t [u8],
    ) -> Result<(Result<(), TextFault>, &'t [u8]), AllocError>
        requires placed { IsPlaced (built W.value self.old) }
        requires filled { 0 < length text.now }
        ensures read { IfOk result (λ p. (fields : List (List ℕ)) × IsFirstLine text.now fields p.1.now × IsRead (λ x. built W.value self.new) p.0 (after_line W.KIND options.now line (built W.value self.old) fields)) }
        ensures placed { IfOk result (λ p. OnOk p.0 (IsPlaced (built W.value self.new))) }
        ensures shorter { IfOk result (λ p. length p.1.now < length text.now) }
    {
        let Some((read, rest)) = self.read_plain(options, line, text) else {
            return self.general_line(options, line, text);
        };
        match read {
            Ok(entry) => {
                self.add_entry(options.keep_state_numbering, entry)?;
                Ok((Ok(()), rest))
            }
            Err(fault) => Ok((Err(fault), rest)),
        }
    }
}
