//! Laws of runs. Each stands on the contract of a function with nothing to do, so that it is proved.

ghost use Rattle.std.specs.Prelude.{◌≡◌, ◌≤◌, ◌∷◌, [], ℕ, List, Ok, Option, Some, length, map};
ghost use Rattle.fst_semiring.specs.declared.arc_type.ArcType.{ArcType};
ghost use Rattle.fst_semiring.specs.Cost.{Cost};
ghost use Rattle.fst_machine.specs.Graph.{Graph};
ghost use Rattle.fst_machine.specs.Machine.{Machine};
ghost use Rattle.fst_binary.specs.Sides.{Sides};
ghost use Rattle.fst_compose.specs.Composition.{composed};
ghost use Rattle.fst_lattice.specs.Lattice.{HasNoZero};
ghost use Rattle.fst_batch.specs.Answers.{IsAnswer};
ghost use Rattle.fst_batch.specs.BestPaths.{Told, valued_told};
ghost use Rattle.fst_batch.specs.declared.answer.LineAnswer.TheVariants.{Listed};
ghost use Rattle.fst_desk.specs.Seen.{Files, Seen};
ghost use Rattle.fst_words.specs.declared.plan.Plan.{Plan};
ghost use Rattle.fst_verbs.specs.Commands.{meaning_for};
ghost use Rattle.fst_verbs.specs.Given.{Given, given_of, read_limit};
ghost use Rattle.fst_verbs.specs.OneMeaning.{HasOneOutcome};
ghost use Rattle.fst_verbs.specs.Tabling.{tables_for};
ghost use Rattle.fst_command.specs.Outcome.{Output, Prescribes, Runs};
ghost use Rattle.fst_command.specs.OneOutcome.{OneOutcome};
ghost use Rattle.fst_command.specs.OneResult.{EndAlike, IsDecided};
ghost use Rattle.fst_command.specs.LineMatches.{AreBestMatches, IsMatched};
ghost use Rattle.fst_command.specs.ReadAgain.{AreReadAgain, IsReadAs, ReadsOneMachine, given_one};

/// Of what a command is given, one fault stops it and one thing is made; so the same words and the same contents of
/// files prescribe one list of outputs and one status, or one cause, and never both.
pub fn one_outcome()
    ensures meanings { (plan : Plan) (given : Given) → HasOneOutcome (meaning_for plan) given }
    ensures outcomes { (plan : Plan) (files : Files) → OneOutcome plan files }
{}

/// Two runs of the same words over the same contents of files end alike: with one status, the same outputs, the same told
/// contents, and the same line or none. Only memory, an input that cannot be read, or an output that cannot be written, with
/// a status of their own, tell two runs apart; a search's queue, the counts of threads and the meter do not.
pub fn one_result()
    ensures { (words : List (List ℕ)) (files : Files) (old new other later : Seen) (status also : ℕ) → Runs words old new status → Runs words other later also → old.filed.told ≡ Some files → other.filed.told ≡ Some files → IsDecided status → IsDecided also → EndAlike old new status other later also }
{}

/// What one command writes the next one reads: each machine that a plan prescribes, and each codex, is read from its output as
/// the very machine or codex that was made, of its arc type and with its symbol tables, where these have a spelling. A command
/// that reads one machine and no other file is given just this machine and these tables; so pipelines compose.
pub fn written_reads_again()
    ensures outputs { (plan : Plan) (told : Option Files) (outputs : List Output) (p : Prescribes plan told outputs) → AreReadAgain (tables_for plan p.makes.given.tables) p.made outputs }
    ensures given { (plan : Plan) (kind : ArcType) (m : Machine Cost) (s : Sides) (content : List ℕ) → IsReadAs kind m s content → length content ≤ read_limit → ReadsOneMachine plan → given_of plan (content ∷ []) ≡ Ok (given_one kind m s) }
{}

/// The successful paths of the lattice of a line, of which a batch lists the best, are the matching pairs of paths of its two
/// machines that read the line, one to one. What is answered of a line, where it has no fault, is the best of these pairs: what
/// each writes, and the product of its weights.
pub fn batch_lines_match<N, M, V>()
    ensures matched { (kind : ArcType) (a : Graph N) (b : Graph M) (line : List ℕ) → HasNoZero line → IsMatched kind a b line }
    ensures listed { (kind : ArcType) (a : Graph N) (b : Graph M) (line : List ℕ) (n limit : ℕ) (value : V → Cost) (listed : List (Told V)) → IsAnswer kind (composed kind a b) n limit line value (Listed listed) → AreBestMatches kind a b line n (map (valued_told value) listed) }
{}
