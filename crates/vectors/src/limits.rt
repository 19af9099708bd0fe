//! Texts at each limit of the rules, with the answers that the rules give.
use std::alloc::{AllocError, Global};
use std::test::Fail;

/// How a text is answered: `accepted`, or the line of its refusal.
fn answer(heap: Global, text: &[u8]) -> Result<String, AllocError> {
    match reader::read(text) {
        Ok(_) => String::from_str(heap, "accepted"),
        Err(fault) => format!(in heap; "{fault}"),
    }
}

/// A text of a length of 8 or more: `fence sc`, and then spaces.
fn padded(heap: Global, len: usize) -> Result<Vec<u8>, AllocError> {
    let mut text = Vec::from_slice(heap, b"fence sc")?;
    text.resize(len, b' ')?;
    Ok(text)
}

#[test]
fn lengths(rt: HostRuntime) -> Result<(), Fail> {
    let heap = rt.alloc();
    assert_eq!(rt; answer(heap, b"")?.as_str(), "refused 1 pass 1 place 0");
    assert_eq!(rt;
        answer(heap, padded(heap, 2048)?.as_slice())?.as_str(),
        "accepted"
    );
    assert_eq!(rt;
        answer(heap, padded(heap, 2049)?.as_slice())?.as_str(),
        "refused 1 pass 1 place 0"
    );
    Ok(())
}

#[test]
fn bytes(rt: HostRuntime) -> Result<(), Fail> {
    let heap = rt.alloc();
    assert_eq!(rt;
        answer(heap, b"fence sc\r\n")?.as_str(),
        "refused 2 pass 1 place 8"
    );
    assert_eq!(rt;
        answer(heap, b"\tfence sc")?.as_str(),
        "refused 2 pass 1 place 0"
    );
    assert_eq!(rt;
        answer(heap, b"fence Sc")?.as_str(),
        "refused 2 pass 1 place 6"
    );
    assert_eq!(rt;
        answer(heap, b"fence sc\0")?.as_str(),
        "refused 2 pass 1 place 8"
    );
    assert_eq!(rt;
        answer(heap, b"fence sc\xff")?.as_str(),
        "refused 2 pass 1 place 8"
    );
    assert_eq!(rt;
        answer(heap, b"zz;;;\n\n\x7f")?.as_str(),
        "refused 2 pass 1 place 7"
    );
    Ok(())
}

const CASES: [(&str, &str); 24] = [
    ("fence sc\nfence sc\nfence sc\nfence sc\n", "accepted"),
    ("fence sc\nfence sc\nfence sc\nfence sc", "accepted"),
    (
        "fence sc\nfence sc\nfence sc\nfence sc\nfence sc",
        "refused 3 pass 2 place 36",
    ),
    (
        "fence sc;fence sc;fence sc;fence sc;fence sc;fence sc;fence sc;fence sc",
        "accepted",
    ),
    (
        "fence sc;fence sc;fence sc;fence sc;fence sc;fence sc;fence sc;fence sc;",
        "refused 4 pass 2 place 72",
    ),
    (
        "fence sc;fence sc;fence sc;fence sc;fence sc;fence sc;fence sc;;",
        "refused 5 pass 2 place 63",
    ),
    ("st x 0255 rlx", "accepted"),
    ("st x 000000000000000000000255 rlx", "accepted"),
    ("st x 256 rlx", "refused 7 pass 2 place 5"),
    ("st x 0256 rlx", "refused 7 pass 2 place 5"),
    ("ld r0 x rel", "refused 6 pass 2 place 8"),
    ("fence rlx", "refused 6 pass 2 place 6"),
    ("st x 1 acq", "refused 6 pass 2 place 7"),
    ("\n", "refused 5 pass 2 place 0"),
    ("fence sc\n\nfence sc\n", "refused 5 pass 2 place 9"),
    ("fence sc\n   \nfence sc\n", "refused 5 pass 2 place 12"),
    ("fence sc\n ", "refused 5 pass 2 place 10"),
    ("fence sc;;fence sc", "refused 5 pass 2 place 9"),
    ("  fence   sc  ;  fence sc  ", "accepted"),
    ("fence sc sc", "refused 5 pass 2 place 9"),
    ("fencesc", "refused 5 pass 2 place 0"),
    ("st x r4 rlx", "refused 5 pass 2 place 5"),
    ("ld 256 x rlx", "refused 5 pass 2 place 3"),
    ("st x rlx rlx", "refused 5 pass 2 place 5"),
];

#[test]
fn places(rt: HostRuntime) -> Result<(), Fail> {
    let heap = rt.alloc();
    for (text, line) in CASES {
        assert_eq!(rt; answer(heap, text.as_bytes())?.as_str(), line, "{}", text);
    }
    Ok(())
}
