//! Fields of the binary forms, and their faults.

use fst_bytes::{
    FileFault, Stopped, expect_end, expect_word, most_that_fit, push_arc_type, read_arc_type,
    read_count, read_label, read_long, read_non_zero_weight, read_weight, read_word,
};
use fst_semiring::{ArcType, MinMax, Tropical, Weight};

/// The kinds of fault of a form.
#[derive(Clone, Copy, Debug, PartialEq, Eq)]
enum Kind {
    Short,
    Wrong,
    Memory,
}

fn wrong_at(offset: u64) -> Option<FileFault<Kind>> {
    Some(FileFault {
        offset,
        kind: Kind::Wrong,
    })
}

fn short_at(offset: u64) -> Option<FileFault<Kind>> {
    Some(FileFault {
        offset,
        kind: Kind::Short,
    })
}

#[test]
fn numbers_with_the_least_byte_first(rt: HostRuntime) {
    let bytes = b"\x01\x02\x00\x00\xff\x00\x00\x00\x00";
    let word = read_word(bytes, 0, Kind::Short).ok();
    assert_eq!(rt; word, Some((513, 4)));
    let long = read_long(bytes, 1, Kind::Short).ok();
    assert_eq!(rt; long, Some((4_278_190_082, 9)));
    assert_eq!(rt; read_long(bytes, 2, Kind::Short).err(), short_at(9));
    assert_eq!(rt;
        read_label(bytes, 2, Kind::Short, Kind::Wrong).ok(),
        Some((16_711_680, 6))
    );
    assert_eq!(rt;
        read_label(b"\xff\xff\xff\xff", 0, Kind::Short, Kind::Wrong).err(),
        wrong_at(0)
    );
    assert_eq!(rt;
        read_count(
            b"\x05\x00\x00\x00\x00\x00\x00\x00",
            0,
            4,
            Kind::Short,
            Kind::Wrong
        )
        .err(),
        wrong_at(0)
    );
    assert_eq!(rt;
        expect_word(bytes, 0, 513, Kind::Short, Kind::Wrong).ok(),
        Some(4)
    );
    assert_eq!(rt;
        expect_word(bytes, 1, 513, Kind::Short, Kind::Wrong).err(),
        wrong_at(1)
    );
}

#[test]
fn names_of_arc_types(rt: HostRuntime) {
    let mut out = Vec::new(rt.alloc());
    push_arc_type(&mut out, ArcType::MinMax).expect(&rt, "there is memory");
    assert_eq!(rt; out.as_slice(), b"\x06\x00\x00\x00minmax".as_slice());
    let read = read_arc_type(&out, 0, Kind::Short, Kind::Wrong).ok();
    assert_eq!(rt; read, Some((ArcType::MinMax, 10)));
    for bytes in [
        b"\x05\x00\x00\x00".as_slice(),
        b"\x06\x00\x00\x00minmix".as_slice(),
    ] {
        assert_eq!(rt;
            read_arc_type(bytes, 0, Kind::Short, Kind::Wrong).err(),
            wrong_at(0)
        );
    }
    assert_eq!(rt;
        read_arc_type(b"\x06\x00\x00\x00min", 0, Kind::Short, Kind::Wrong).err(),
        short_at(7)
    );
}

#[test]
fn weights_in_a_file(rt: HostRuntime) {
    let zero = read_weight(b"\x00", 0, Kind::Short, Kind::Wrong).ok();
    assert_eq!(rt; zero, Some((Tropical::zero(), 1)));
    let refused: Result<(Tropical, usize), FileFault<Kind>> = read_non_zero_weight(
        b"\x00",
        0,
        Kind::Short,
        Kind::Wrong,
    );
    assert_eq!(rt; refused.err(), wrong_at(0));
    let best = read_non_zero_weight(b"\x02", 0, Kind::Short, Kind::Wrong).ok();
    assert_eq!(rt; best, Some((MinMax::one(), 1)));
}

#[test]
fn one_end_for_both(rt: HostRuntime) {
    let fault = FileFault {
        offset: 7,
        kind: Kind::Wrong,
    };
    assert_eq!(rt; Stopped::At(fault).into_fault(Kind::Memory), fault);
    let stopped: Stopped<Kind> = Stopped::Memory;
    assert_eq!(rt; stopped.into_fault(Kind::Memory).offset, 0);
    assert_eq!(rt; expect_end(b"ab", 2, Kind::Wrong).err(), None);
    assert_eq!(rt; expect_end(b"ab", 1, Kind::Wrong).err(), wrong_at(1));
    assert_eq!(rt; most_that_fit(5, 30, 9), 3);
}
