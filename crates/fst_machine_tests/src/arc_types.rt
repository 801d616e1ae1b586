//! Arc types by their names.

use fst_semiring::ArcType;

/// Names of arc types, and bytes that are no name.
static NAMES: [(&[u8], Option<ArcType>); 9] = [
    (b"boolean", Some(ArcType::Boolean)),
    (b"tropical", Some(ArcType::Tropical)),
    (b"minmax", Some(ArcType::MinMax)),
    (b"lexicographic", Some(ArcType::Lexicographic)),
    (b"", None),
    (b"Tropical", None),
    (b"minma", None),
    (b"minmax ", None),
    (b"standard", None),
];

/// Numbers of bytes that no name has.
static NO_LENGTHS: [usize; 5] = [0, 5, 9, 12, 14];

/// Whether an arc type has this name, and names may be so long.
fn has_name(kind: ArcType, name: &[u8]) -> bool {
    kind.name().as_bytes() == name && ArcType::is_length_of_name(name.len())
}

#[test]
fn finds_an_arc_type_by_its_name(rt: HostRuntime) {
    for (name, want) in &NAMES {
        let found = ArcType::named(name);
        assert!(rt; found == *want, "{name:?} gives {found:?}");
        assert!(rt; found.is_none_or(|kind| has_name(kind, name)), "{name:?}");
    }
    for count in &NO_LENGTHS {
        assert!(rt; !ArcType::is_length_of_name(*count), "{count}");
    }
}
