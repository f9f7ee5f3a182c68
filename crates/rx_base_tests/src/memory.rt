use rx_base::{
    CleanSink, CleanSource, Failed, List, MemorySink, MemorySource, OutOfMemory, Sink, Source,
    Text, combine_surrogate_pair, is_lead_surrogate, is_trail_surrogate, write_all,
};

/// What a list of three characters answers: its lengths when all three were pushed and after one was popped, and whether all else is as it should be.
fn kept(list: &mut List<char>) -> ([usize; 2], bool) {
    let pushed = list.try_push('c').is_ok();
    let length = list.len();
    let items = list.as_slice() == ['a', 'b', 'c'].as_slice();
    let gotten = (list.get(1) == Some(&'b')) & list.get(3).is_none();
    let popped = list.pop() == Some('c');
    ([length, list.len()], pushed & items & gotten & popped)
}

#[test]
fn list_keeps_what_was_pushed(rt: HostRuntime) -> Result<(), OutOfMemory> {
    let mut list = List::new(rt.alloc());
    assert!(rt; list.is_empty());
    list.push('a')?;
    list.push('b')?;
    assert_eq!(rt; kept(&mut list), ([3, 2], true));
    let other: List<char> = List::new(list.allocator());
    other.destroy_empty();
    Ok(())
}

#[test]
fn bytes_are_taken(rt: HostRuntime) -> Result<(), OutOfMemory> {
    let mut bytes = List::new(rt.alloc());
    bytes.extend_from_slice(b"ab")?;
    bytes.extend_from_slice(b"cd")?;
    let before = bytes.as_slice() == b"abcd".as_slice();
    let mut taken = bytes.take_all()?;
    let after = (taken.as_slice() == b"abcd".as_slice()) & bytes.is_empty();
    taken.clear();
    assert!(rt; before & after & taken.is_empty());
    Ok(())
}

#[test]
fn text_grows(rt: HostRuntime) -> Result<(), OutOfMemory> {
    let mut text = Text::from_str(rt.alloc(), "a")?;
    text.push('\u{1f600}')?;
    text.push_str("bc")?;
    let copy = text.clone(rt.alloc())?;
    let wanted = "a\u{1f600}bc";
    assert!(rt; (text.as_str() == wanted) & (copy.as_str() == wanted));
    Ok(())
}

/// Whether a source of `abcdefg` that moves three bytes at most, and fails at its second call, is read so.
fn is_read_in_steps(source: &mut MemorySource) -> bool {
    let mut buffer = [0u8; 5];
    let mut as_wanted = true;
    for (want, front) in [
        (Ok(3), "abc"),
        (Err(Failed), ""),
        (Ok(3), "def"),
        (Ok(1), "g"),
        (Ok(0), ""),
    ] {
        let got = source.read(&mut buffer);
        as_wanted &= (got == want) & buffer.as_slice().starts_with(front.as_bytes());
    }
    as_wanted
}

#[test]
fn memory_source_moves_steps(rt: HostRuntime) -> Result<(), OutOfMemory> {
    let mut bytes = List::new(rt.alloc());
    bytes.extend_from_slice(b"abcdefg")?;
    let mut faults = List::new(rt.alloc());
    faults.push(2)?;
    let mut source = MemorySource::new(bytes, faults, 3);
    assert!(rt; is_read_in_steps(&mut source));
    Ok(())
}

/// Whether a sink with room for four bytes, that moves three at most and fails at its first call, is written to so.
fn is_filled(sink: &mut MemorySink) -> bool {
    let mut as_wanted = true;
    for (piece, want, taken) in [
        ("hello", Err(Failed), ""),
        ("hello", Ok(3), "hel"),
        ("lo", Ok(1), "hell"),
        ("o", Err(Failed), "hell"),
        ("", Ok(0), "hell"),
    ] {
        let got = sink.write(piece.as_bytes());
        as_wanted &= (got == want) & (sink.bytes() == taken.as_bytes());
    }
    as_wanted
}

#[test]
fn memory_sink_fills_its_room(rt: HostRuntime) -> Result<(), OutOfMemory> {
    let mut faults = List::new(rt.alloc());
    faults.push(1)?;
    let mut sink = MemorySink::new(rt.alloc(), 4, faults, 3)?;
    assert!(rt; is_filled(&mut sink));
    Ok(())
}

/// Whether a sink with room for seven bytes takes a first piece whole, and a second as far as it goes; and one that keeps nothing takes it too.
fn is_written_whole(sink: &mut MemorySink) -> bool {
    let first = write_all(sink, b"hello") == Ok(());
    let second = write_all(sink, b"you") == Err(Failed);
    let clean = write_all(&mut CleanSink::new(), b"hello") == Ok(());
    first & second & clean & (sink.bytes() == b"helloyo".as_slice())
}

#[test]
fn pieces_are_written_whole(rt: HostRuntime) -> Result<(), OutOfMemory> {
    let none = List::new(rt.alloc());
    let mut sink = MemorySink::new(rt.alloc(), 7, none, 2)?;
    assert!(rt; is_written_whole(&mut sink));
    Ok(())
}

#[test]
fn clean_source_gives_all(rt: HostRuntime) {
    let mut source = CleanSource::new(b"abc");
    let mut buffer = [0u8; 2];
    let first = source.read(&mut buffer) == Ok(2);
    let front = buffer == *b"ab";
    let others = (source.read(&mut buffer) == Ok(1)) & (source.read(&mut buffer) == Ok(0));
    assert!(rt; first & front & others);
}

/// Code points, with whether each is a lead and whether it is a trail.
const SURROGATES: [(u32, bool, bool); 6] = [
    (0xD7FF, false, false),
    (0xD800, true, false),
    (0xDBFF, true, false),
    (0xDC00, false, true),
    (0xDFFF, false, true),
    (0xE000, false, false),
];

#[test]
fn surrogates_at_their_edges(rt: HostRuntime) {
    for (code_point, lead, trail) in SURROGATES {
        let is_lead = is_lead_surrogate(code_point) == lead;
        let is_trail = is_trail_surrogate(code_point) == trail;
        assert!(rt; is_lead & is_trail, "at {code_point:X}");
    }
    assert_eq!(rt;
        [
            combine_surrogate_pair(0xD800, 0xDC00),
            combine_surrogate_pair(0xD83D, 0xDE00),
            combine_surrogate_pair(0xDBFF, 0xDFFF),
        ],
        [0x10000, 0x1F600, 0x10FFFF]
    );
}
