//! Texts with their summaries, whole and in pieces. The digests are the SHA-256 of the texts.
use std::alloc::{AllocError, Global};
use text::Text;
use trace_summary::{Tally, write_summary};

// Lines of every kind, and words of one kind in lines of another.
const TRACE: &str = "> boot a\n\
    act a ok boot a,b\n\
    > startjoin b a 1\n\
    act b ok startjoin a 1\n\
    m1 b->a join 1 0/0\n\
    > startjoin b a 1\n\
    act b refused:TermNotGreater(1,1) startjoin a 1\n\
    > deliver a 1\n\
    act a ok join b a 1 0/0\n\
    won a 1\n\
    > deliver a 2\n\
    act a ok response b a 1/1\n\
    committed {\"act a refused:\":\"won\"}\n\
    > crash b none\n\
    crashed b\n\
    > restart b\n\
    crashed b\n\
    > restart b\n\
    record b 1 0/0 a,b a,b\n\
    > boot b\n\
    act b crashed boot a,b\n\
    > boot b\n\
    down b\n\
    > client a act a refused:x\n\
    act a stopped boot a,b\n\
    > boot c\n\
    act c disk boot a,b\n";

const SUMMARY: &str = "steps=12\n\
    acts=8\n\
    refused=1\n\
    won=1\n\
    committed=1\n\
    crashes=3\n\
    trace_bytes=483\n\
    trace_sha256=f986ed3123cf60514a2172d699c9915769f97489033e2f4a71edb64eebc097d2\n";

const NOTHING: &str = "steps=0\n\
    acts=0\n\
    refused=0\n\
    won=0\n\
    committed=0\n\
    crashes=0\n\
    trace_bytes=0\n\
    trace_sha256=e3b0c44298fc1c149afbf4c8996fb92427ae41e4649b934ca495991b7852b855\n";

// Adds a trace, in pieces where it has this line: what stands before it, the line, and what stands after it, with an empty piece at
// both ends.
fn add(tally: &mut Tally, trace: &str, line: &str) -> Result<(), AllocError> {
    match trace.split_once(line) {
        Some((before, after)) => {
            for piece in ["", before, line, after, ""] {
                tally.add(piece.as_bytes())?;
            }
            Ok(())
        }
        None => tally.add(trace.as_bytes()),
    }
}

fn is_summed_up(alloc: Global, trace: &str, line: &str, wanted: &str) -> Result<bool, AllocError> {
    let mut tally = Tally::new();
    add(&mut tally, trace, line)?;
    let mut text = Text::new(alloc);
    write_summary(alloc, &mut text, &tally.finish())?;
    Ok(text.as_bytes() == wanted.as_bytes())
}

const WHOLE: &str = "no line of a trace";

// A trace, the line at which it is cut into pieces, and its summary.
const SUMMARIES: &[(&str, &str, &str, &str)] = &[
    ("lines_are_counted_by_their_kinds", TRACE, WHOLE, SUMMARY),
    ("pieces_come_to_the_same", TRACE, "> deliver a 1\n", SUMMARY),
    ("nothing_comes_to_nothing", "", WHOLE, NOTHING),
];

#[test]
fn traces_have_these_summaries(rt: HostRuntime) {
    for (name, trace, line, wanted) in SUMMARIES {
        assert!(rt;
            is_summed_up(rt.alloc(), trace, line, wanted) == Ok(true),
            "{name}"
        );
    }
}
