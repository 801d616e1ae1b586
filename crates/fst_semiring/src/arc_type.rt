//! The arc types, and their names.

ghost use Rattle.std.specs.Prelude.{◌≡◌, ◌==◌, length};
ghost use Rattle.std.specs.List.{list_any};
ghost use Rattle.fst_semiring.specs.Names.{known, name_of, named};

/// The kinds of weight that a machine may have. (OpenFst Quick Tour, "FST Weights": the arc type names the
/// semiring.)
#[derive(Clone, Copy, Debug, PartialEq, Eq)]
pub enum ArcType {
    /// False and true, with or and and.
    Boolean,
    /// Whole numbers and infinity, with minimum and sum.
    Tropical,
    /// Whole numbers and both infinities, with minimum and maximum.
    MinMax,
    /// Pairs of whole numbers and the infinite pair, with the lesser pair and the sum of each part.
    Lexicographic,
}

impl ArcType {
    /// The name of the arc type: `boolean`, `tropical`, `minmax` or `lexicographic`. Takes no memory.
    pub fn name(self) -> &'static str
        ensures { result.now ≡ name_of self }
    {
        match self {
            ArcType::Boolean => "boolean",
            ArcType::Tropical => "tropical",
            ArcType::MinMax => "minmax",
            ArcType::Lexicographic => "lexicographic",
        }
    }

    /// The arc type with a name. `None` exactly where no arc type has it. Takes no memory.
    pub fn named(name: &[u8]) -> Option<ArcType>
        ensures { result ≡ named name.now }
    {
        if b"boolean".as_slice() == name {
            Some(ArcType::Boolean)
        } else if b"tropical".as_slice() == name {
            Some(ArcType::Tropical)
        } else if b"minmax".as_slice() == name {
            Some(ArcType::MinMax)
        } else if b"lexicographic".as_slice() == name {
            Some(ArcType::Lexicographic)
        } else {
            None
        }
    }

    /// Whether some arc type's name has so many bytes. Takes no memory.
    pub fn is_length_of_name(count: usize) -> bool
        ensures { result ≡ list_any (λ kind. length (name_of kind) == count) known }
    {
        count == 7 || count == 8 || count == 6 || count == 13
    }
}
