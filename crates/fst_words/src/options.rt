//! The options of the commands.

use crate::name::Name;
use fst_semiring::ArcType;

/// The options and flags of all commands. A flag that does not stand is false; another option that does not
/// stand is `None`, and its default is left to the caller.
#[derive(Drop)]
pub struct Options {
    /// `--arc_type`
    pub arc_type: Option<ArcType>,
    /// `--acceptor`
    pub acceptor: bool,
    /// `--keep_state_numbering`
    pub keep_state_numbering: bool,
    /// `--show_weight_one`
    pub show_weight_one: bool,
    /// `--isymbols`, the name of a file
    pub isymbols: Option<Name>,
    /// `--osymbols`, the name of a file
    pub osymbols: Option<Name>,
    /// `--keep_isymbols`
    pub keep_isymbols: bool,
    /// `--keep_osymbols`
    pub keep_osymbols: bool,
    /// `--numeric`
    pub numeric: bool,
    /// `--closure_plus`
    pub closure_plus: bool,
    /// `--project_output`
    pub project_output: bool,
    /// `--relabel_ipairs`, the name of a file
    pub relabel_ipairs: Option<Name>,
    /// `--relabel_opairs`, the name of a file
    pub relabel_opairs: Option<Name>,
    /// `--sort_type`: `ilabel` or `olabel`
    pub sort_type: Option<Name>,
    /// `--connect`: `true` or `false`
    pub connect: Option<Name>,
    /// `--max_states`, from 1 to 4,194,304
    pub max_states: Option<u64>,
    /// `--queue_type`: `auto`, `fifo`, `lifo` or `shortest`
    pub queue_type: Option<Name>,
    /// `--weight`, a weight text of the machine's arc type: it is read where that is known
    pub weight: Option<Name>,
    /// `--reverse`
    pub reverse: bool,
    /// `--nshortest`, from 1 to 100,000
    pub nshortest: Option<u64>,
    /// `--unique`
    pub unique: bool,
    /// `--push_weights`
    pub push_weights: bool,
    /// `--remove_total_weight`
    pub remove_total_weight: bool,
    /// `--encode_labels`
    pub encode_labels: bool,
    /// `--encode_weights`
    pub encode_weights: bool,
    /// `--decode`
    pub decode: bool,
    /// `--workers`, from 1 to 64
    pub workers: Option<u64>,
    /// `--summary`
    pub summary: bool,
    /// `--seed`, any `u64`
    pub seed: Option<u64>,
    /// `--lines`, from 0 to 10,000
    pub lines: Option<u64>,
}
