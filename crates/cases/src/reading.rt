use answers::respond;
use facts::FactSet;
use itertools::Itertools;
use samples::set_of;
use std::alloc::{AllocError, Global};
use std::process::Abort;
use std::test::Fail;
use taskfile::Flaw::{Malformed, OutOfRange, TooManyMoves, WrongLine};
use taskfile::{Flaw, Misread, read};
use tasks::Move;

// A place that nothing was written to.
fn untouched() -> Move {
    let none = FactSet::empty();
    Move {
        group: 9,
        price: 9,
        needs: none,
        makes: none,
        breaks: none,
    }
}

// The lines of a small task, counted from 0.
const LINES: [&str; 14] = [
    "facts=3\n",
    "moves=2\n",
    "start=0\n",
    "goal=1,2\n",
    "group=0\n",
    "price=15\n",
    "needs=0\n",
    "makes=1\n",
    "breaks=0\n",
    "group=1\n",
    "price=4\n",
    "needs=\n",
    "makes=2\n",
    "breaks=\n",
];

// The small task with another text for the line `at`; `None` puts the text after its last line.
fn file_with(heap: Global, at: Option<usize>, text: &[u8]) -> Result<Vec<u8>, AllocError> {
    let mut file = Vec::new(heap);
    for (i, line) in LINES.iter().enumerate() {
        file.extend_from_slice(if at == Some(i) { text } else { line.as_bytes() })?;
    }
    if at.is_none() {
        file.extend_from_slice(text)?;
    }
    Ok(file)
}

// Why the bytes are refused, `None` where they are read, into a list of four places.
fn refused(bytes: &[u8]) -> Option<Misread> {
    let mut moves = [untouched(); 4];
    read(bytes, &mut moves).err()
}

fn misread(flaw: Flaw, line: u32) -> Option<Misread> {
    Some(Misread { flaw, line })
}

// Checks what comes of the small task with that line replaced.
fn expect(
    rt: &impl Abort,
    heap: Global,
    at: Option<usize>,
    text: &[u8],
    outcome: Option<Misread>,
) -> Result<(), Fail> {
    let file = file_with(heap, at, text)?;
    assert_eq!(rt; refused(file.as_slice()), outcome);
    Ok(())
}

#[test]
fn small_task(rt: HostRuntime) -> Result<(), Fail> {
    let file = file_with(rt.alloc(), None, b"")?;
    let mut moves = [untouched(); 4];
    let heading = read(file.as_slice(), &mut moves).map_err(|_| "refused")?;
    assert!(rt; heading.facts == 3 && heading.count == 2);
    assert!(rt; heading.start == set_of(&[0])? && heading.goal == set_of(&[1, 2])?);
    assert!(rt; moves[0].group == 0 && moves[0].price == 15 && moves[0].needs == set_of(&[0])?);
    assert!(rt; moves[0].makes == set_of(&[1])? && moves[0].breaks == set_of(&[0])?);
    assert!(rt; moves[1].group == 1 && moves[1].price == 4 && moves[1].makes == set_of(&[2])?);
    assert!(rt; moves[2].group == 9 && moves[3].price == 9);
    Ok(())
}

#[test]
fn a_wrong_key_in_each_place(rt: HostRuntime) -> Result<(), Fail> {
    // the places are what is tested
    for at in 0..14u8 {
        let first = misread(WrongLine, u32::from(at) + 1);
        let line = Some(usize::from(at));
        expect(&rt, rt.alloc(), line, b"fact=3\n", first)?;
        expect(&rt, rt.alloc(), line, b"", first)?;
    }
    Ok(())
}

#[test]
fn line_ends(rt: HostRuntime) -> Result<(), Fail> {
    let heap = rt.alloc();
    assert_eq!(rt; refused(b""), misread(WrongLine, 1));
    expect(&rt, heap, Some(13), b"breaks=", misread(WrongLine, 14))?;
    expect(&rt, heap, None, b"\n", misread(WrongLine, 15))?;
    expect(&rt, heap, None, b"x", misread(WrongLine, 15))?;
    expect(&rt, heap, Some(0), b"facts=3\r\n", misread(Malformed, 1))?;
    expect(&rt, heap, Some(0), b"facts=3\0\n", misread(Malformed, 1))?;
    expect(&rt, heap, Some(0), b"\0facts=3\n", misread(WrongLine, 1))?;
    expect(&rt, heap, Some(0), b"facts 3\n", misread(WrongLine, 1))
}

#[test]
fn numbers(rt: HostRuntime) -> Result<(), Fail> {
    let heap = rt.alloc();
    expect(&rt, heap, Some(5), b"price=015\n", misread(Malformed, 6))?;
    expect(&rt, heap, Some(5), b"price=\n", misread(Malformed, 6))?;
    expect(&rt, heap, Some(5), b"price=1x\n", misread(Malformed, 6))?;
    expect(&rt, heap, Some(5), b"price=100000\n", misread(Malformed, 6))?;
    expect(&rt, heap, Some(5), b"price=65536\n", misread(OutOfRange, 6))?;
    expect(&rt, heap, Some(5), b"price=65535\n", None)?;
    expect(&rt, heap, Some(4), b"group=8\n", misread(OutOfRange, 5))?;
    expect(&rt, heap, Some(0), b"facts=65\n", misread(OutOfRange, 1))?;
    expect(&rt, heap, Some(0), b"facts=0\n", misread(OutOfRange, 1))?;
    expect(&rt, heap, Some(1), b"moves=1025\n", misread(OutOfRange, 2))?;
    expect(&rt, heap, Some(1), b"moves=5\n", misread(TooManyMoves, 2))?;
    expect(&rt, heap, Some(1), b"moves=4\n", misread(WrongLine, 15))
}

#[test]
fn sets(rt: HostRuntime) -> Result<(), Fail> {
    let heap = rt.alloc();
    expect(&rt, heap, Some(2), b"start=3\n", None)?;
    expect(&rt, heap, Some(2), b"start=0,63\n", None)?;
    expect(&rt, heap, Some(2), b"start=1,1\n", misread(Malformed, 3))?;
    expect(&rt, heap, Some(2), b"start=2,1\n", misread(Malformed, 3))?;
    expect(&rt, heap, Some(2), b"start=1,\n", misread(Malformed, 3))?;
    expect(&rt, heap, Some(2), b"start=,1\n", misread(Malformed, 3))?;
    expect(&rt, heap, Some(2), b"start=1,,2\n", misread(Malformed, 3))?;
    expect(&rt, heap, Some(2), b"start=100000\n", misread(Malformed, 3))?;
    expect(&rt, heap, Some(2), b"start=64\n", misread(OutOfRange, 3))?;
    expect(&rt, heap, Some(2), b"start=64,\n", misread(Malformed, 3))?;
    expect(&rt, heap, Some(2), b"start=64,05\n", misread(Malformed, 3))
}

#[test]
fn moves_read_whole_stay(rt: HostRuntime) -> Result<(), Fail> {
    let file = file_with(rt.alloc(), Some(12), b"makes=64\n")?;
    let mut moves = [untouched(); 4];
    assert_eq!(rt;
        read(file.as_slice(), &mut moves).err(),
        misread(OutOfRange, 13)
    );
    assert!(rt; moves[0].group == 0 && moves[0].price == 15);
    assert!(rt; moves[1].group == 9 && moves[2].group == 9 && moves[3].group == 9);
    Ok(())
}

#[test]
fn printed(rt: HostRuntime) -> Result<(), Fail> {
    let heap = rt.alloc();
    for (at, text, answer) in [
        (None, "", "facts=3\nmoves=2\nstart=0\ngoal=1,2\nfloor=19\n"),
        (
            Some(3),
            "goal=\n",
            "facts=3\nmoves=2\nstart=0\ngoal=\nfloor=0\n",
        ),
        (Some(2), "start=3\n", "answer=refused\nnumber=5\nline=0\n"),
        (
            Some(8),
            "breaks=0,1\n",
            "answer=refused\nnumber=6\nline=0\n",
        ),
        (Some(5), "price=015\n", "answer=refused\nnumber=2\nline=6\n"),
    ] {
        let file = file_with(heap, at, text.as_bytes())?;
        let told = respond(heap, file.as_slice())?;
        assert_eq!(rt; told.as_str(), answer);
    }
    Ok(())
}

// A file of 1,024 moves, of which the first `longer` break a fact, so that each of these has a byte more than the others.
fn long_file(heap: Global, longer: usize) -> Result<Vec<u8>, AllocError> {
    let mut file = Vec::new(heap);
    // the facts from 10 to 63, in 161 bytes
    let facts = (10..64u8).join(heap, ",")?;
    let heading = format!(in heap; "facts=64\nmoves=1024\nstart={facts}\ngoal={facts}\n")?;
    file.extend_from_slice(heading.as_bytes())?;
    // written, not read: there is nothing yet to go over
    for i in 0..1024usize {
        file.extend_from_slice(b"group=0\nprice=65535\nneeds=0,1,2,3,4,5,6,7\nmakes=9\n")?;
        let last: &[u8] = if i < longer {
            b"breaks=8\n"
        } else {
            b"breaks=\n"
        };
        file.extend_from_slice(last)?;
    }
    Ok(file)
}

// What comes of the long file, read into a list of so many places as moves may be.
fn long_outcome(heap: Global, longer: usize) -> Result<(usize, Option<Misread>), AllocError> {
    let file = long_file(heap, longer)?;
    let mut moves = [untouched(); 1024];
    let outcome = read(file.as_slice(), &mut moves).err();
    Ok((file.len(), outcome))
}

#[test]
fn the_longest_file(rt: HostRuntime) -> Result<(), Fail> {
    assert_eq!(rt; long_outcome(rt.alloc(), 253)?, (60_000, None));
    assert_eq!(rt;
        long_outcome(rt.alloc(), 254)?,
        (60_001, misread(OutOfRange, 0))
    );
    Ok(())
}

#[test]
fn numbers_of_flaws(rt: HostRuntime) {
    assert_eq!(rt; WrongLine.number(), 1);
    assert_eq!(rt; Malformed.number(), 2);
    assert_eq!(rt; OutOfRange.number(), 3);
    assert_eq!(rt; TooManyMoves.number(), 4);
}

#[test]
fn many_bytes(rt: HostRuntime) {
    assert_eq!(rt; refused(&[b'x'; 60_000]), misread(WrongLine, 1));
    assert_eq!(rt; refused(&[b'x'; 60_001]), misread(OutOfRange, 0));
}
