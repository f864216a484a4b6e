use cst::{Document, LoadError, NodeKind, Refusal, at, path, print, text};
use replay::{Answer, Buffers, Call, Start, replay};

/// 18 nodes, 16 bytes to store, 23 bytes.
const HOUSE: &[u8] = b"{\"F\": [11, 12]} // row\n";

fn refused(refusal: Refusal) -> Result<(), LoadError> {
    Err(LoadError::Refused(refusal))
}

#[test]
fn loads_at_the_limits(rt: HostRuntime) {
    let mut document = Document::new(rt.alloc());
    assert!(rt; document.root() == Err(Refusal::BadMemory));
    assert!(rt; document.load(17, 16, HOUSE) == refused(Refusal::NoNode));
    assert!(rt; document.load(18, 15, HOUSE) == refused(Refusal::NoText));
    assert!(rt; document.load(18, 16, HOUSE) == Ok(()));
    assert!(rt; document.load(0, 16, HOUSE) == refused(Refusal::BadMemory));
    assert!(rt; document.load(65_536, 16, HOUSE) == refused(Refusal::BadMemory));
    assert!(rt; document.load(18, 1_048_577, HOUSE) == refused(Refusal::BadMemory));
    assert!(rt; document.load(18, 16, b"[1,]]") == refused(Refusal::BadText(4)));
    assert!(rt; document.load(65_535, 1_048_576, HOUSE) == Ok(()));
    assert!(rt; document.edits() == Ok(0));
}

#[test]
fn prints_what_was_loaded(rt: HostRuntime) {
    let mut document = Document::new(rt.alloc());
    assert!(rt; document.load(18, 16, HOUSE) == Ok(()));
    let mut short = [7; 22];
    assert!(rt; print(&document, &mut short) == Err(Refusal::Short(23)));
    assert!(rt; short == [7; 22]);
    let mut long = [7; 24];
    assert!(rt; print(&document, &mut long) == Ok(23));
    assert!(rt; &long[..23] == HOUSE);
    assert!(rt; long[23] == 7);
}

#[test]
fn a_late_handle_is_gone(rt: HostRuntime) -> Result<(), Refusal> {
    let mut document = Document::new(rt.alloc());
    assert!(rt; document.load(18, 16, HOUSE) == Ok(()));
    let seat = at(&document, &[0, 0, 1])?;
    assert!(rt; document.kind(seat) == Ok(NodeKind::Number));
    let mut bytes = [0; 2];
    assert!(rt; text(&document, seat, &mut bytes) == Ok(2));
    assert!(rt; bytes == *b"12");
    let mut ordinals = [9; 128];
    assert!(rt; path(&document, seat, &mut ordinals) == Ok(3));
    assert!(rt; &ordinals[..4] == [0, 0, 1, 9].as_slice());
    assert!(rt; document.clear() == Ok(()));
    assert!(rt; document.kind(seat) == Err(Refusal::Gone));
    assert!(rt; at(&document, &[0, 0, 1]) == Err(Refusal::NotHere));
    assert!(rt; document.edits() == Ok(1));
    assert!(rt; print(&document, &mut []) == Ok(0));
    Ok(())
}

#[test]
fn replays_a_list_of_calls(rt: HostRuntime) {
    let mut document = Document::new(rt.alloc());
    let calls = [
        Call::At(&[0, 0]),
        Call::Print,
        Call::Clear,
        Call::At(&[0, 0]),
    ];
    let mut answers = [Answer::Done; 4];
    let mut bytes = [0; 23];
    let start = Start {
        records: 18,
        store: 16,
        text: HOUSE,
    };
    let mut buffers = Buffers {
        bytes: &mut bytes,
        ordinals: &mut [],
        queue: &mut [],
    };
    let done = replay(&mut document, start, &calls, &mut answers, &mut buffers);
    assert!(rt; done == Ok(()));
    assert!(rt; matches!(answers[0], Answer::Node(_)));
    assert!(rt; matches!(answers[1], Answer::Count(23)));
    assert!(rt; matches!(answers[2], Answer::Done));
    assert!(rt; matches!(answers[3], Answer::Refused(Refusal::NotHere)));
    assert!(rt; bytes.as_slice() == HOUSE);
}
