//! The weights of the path semirings over whole numbers: boolean, tropical, min-max and lexicographic.
//!
//! The value of a weight of any arc type is a `Cost` of `specs/Cost.antt`; the order, Plus, Times, One and
//! Zero are stated over these values, by arc type, in `specs/Semiring.antt`, and division in
//! `specs/Division.antt`; `value_laws` asks for their laws. The trait `Weight` is what generic code knows of a
//! weight: each of its calls is a function of values, so that the laws hold of every type. Each weight has a wide form
//! with numbers of 128 bits, in which products are computed, and a `Key`, one type for all arc types, that compares as
//! the weights do.
#![tactic(auto)]

mod arc_type;
mod boolean;
mod extended;
mod key;
mod lexicographic;
mod minmax;
mod number;
mod text_laws;
mod tropical;
pub mod value_laws;
mod weight;

pub use arc_type::ArcType;
pub use boolean::Boolean;
pub use key::Key;
pub use lexicographic::{Lexicographic, WideLexicographic};
pub use minmax::{MinMax, WideMinMax};
pub use number::LIMIT;
pub use text_laws::printed_weight_reads_again;
pub use tropical::{Tropical, WideTropical};
pub use weight::{BadWeight, Weight, is_zero};
