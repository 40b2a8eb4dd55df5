//! A schedule of whole nodes with its trace, and generated schedules with their summaries. The traces follow from docs/policy.md
//! and docs/formats.md.
ghost use Rattle.std.specs.List.{AllByRecursion};
ghost use Rattle.schedule_text.specs.declared.level.Level.TheVariants.{Node};
ghost use Rattle.schedule_text.specs.Lines.{FitsLine};

use schedule_replay::{generate, replay, write_trace};
use schedule_text::{Level, Schedule, read_schedule};
use std::alloc::{AllocError, Global};
use std::test::*;
use text::Text;
use trace_summary::write_summary;
use zen_link::MemSink;

// Two nodes stop, their disks fail, and they are opened again. The trace was made by an independent program; zen_app_tests/rows.rt has more of them.
const SCHEDULE: &str = "nodes a,b\n\
    initial a\n\
    tick a 0 7\n\
    tick a 8 7\n\
    fail a 2\n\
    deliver a 2\n\
    tick a 20 7\n\
    deliver a 9\n\
    deliver a 99\n\
    crash a none\n\
    crash a all\n\
    tick a 20 7\n\
    restart a\n\
    restart a\n\
    deliver a 3\n\
    deliver a 99\n\
    deliver a 2\n\
    fuse b 3 all\n\
    deliver b 3\n\
    client b x\n\
    restart b\n\
    client b x\n";

const TRACE: &str = "> tick a 0 7\n\
    act a ok boot a\n\
    m1 a->b peersask b\n\
    > tick a 8 7\n\
    m2 a->a startjoin a 1\n\
    m3 a->b startjoin a 1\n\
    > fail a 2\n\
    > deliver a 2\n\
    act a disk startjoin a 1\n\
    > tick a 20 7\n\
    down a\n\
    > deliver a 9\n\
    down a\n\
    > deliver a 99\n\
    down a\n\
    > crash a none\n\
    crashed a\n\
    > crash a all\n\
    down a\n\
    > tick a 20 7\n\
    down a\n\
    > restart a\n\
    record a 0 0/0 a a\n\
    > restart a\n\
    up a\n\
    > deliver a 3\n\
    misrouted\n\
    > deliver a 99\n\
    unsent\n\
    > deliver a 2\n\
    act a ok startjoin a 1\n\
    m4 a->a join 1 0/0\n\
    > fuse b 3 all\n\
    > deliver b 3\n\
    act b crashed startjoin a 1\n\
    > client b x\n\
    down b\n\
    > restart b\n\
    record b 1 0/0 _ _\n\
    > client b x\n\
    reply b {\"error\":\"not_json\"}\n";

// Whether this is the trace of a schedule that is replayed with a summary.
fn is_summed_up(alloc: Global, schedule: &Schedule, trace: &[u8]) -> bool
    requires { AllByRecursion (FitsLine Node schedule.now.nodes) schedule.now.lines }
{
    let mut sink = MemSink::new(alloc, 100, Vec::new(alloc));
    match replay(alloc, schedule, Level::Node, &mut sink) {
        Ok(summary) => { summary.trace_bytes == trace.len() as u64 && *sink.as_bytes() == *trace }
        Err(_) => false,
    }
}

fn is_written(alloc: Global, schedule: &Schedule, trace: &[u8]) -> bool
    requires { AllByRecursion (FitsLine Node schedule.now.nodes) schedule.now.lines }
{
    let mut sink = MemSink::new(alloc, 100, Vec::new(alloc));
    write_trace(alloc, schedule, Level::Node, &mut sink).is_ok() && *sink.as_bytes() == *trace
}

// Whether this is the trace of a schedule that is replayed with a summary and without.
fn replays(alloc: Global, schedule: &str, trace: &str) -> bool {
    match read_schedule(alloc, schedule.as_bytes(), Level::Node) {
        Ok(schedule) => {
            is_summed_up(alloc, &schedule, trace.as_bytes())
                && is_written(alloc, &schedule, trace.as_bytes())
        }
        Err(_) => false,
    }
}

#[test]
fn whole_nodes_have_this_trace(rt: HostRuntime) {
    assert!(rt; replays(rt.alloc(), SCHEDULE, TRACE));
}

// The digests were worked out apart from the program.
const NO_STEP: &str = "steps=0\n\
    acts=0\n\
    refused=0\n\
    won=0\n\
    committed=0\n\
    crashes=0\n\
    trace_bytes=0\n\
    trace_sha256=e3b0c44298fc1c149afbf4c8996fb92427ae41e4649b934ca495991b7852b855\n";

const ONE_BOOT: &str = "steps=1\n\
    acts=1\n\
    refused=0\n\
    won=0\n\
    committed=0\n\
    crashes=0\n\
    trace_bytes=29\n\
    trace_sha256=953ecb5095088a0930770443c28f7a3877848062db4c310ae9d0ad3752fe72e2\n";

const THREE_BOOTS: &str = "steps=3\n\
    acts=3\n\
    refused=0\n\
    won=0\n\
    committed=0\n\
    crashes=0\n\
    trace_bytes=87\n\
    trace_sha256=faa0ec63a416cf1ac6a917e004bd87d720e8b8471f2893e32546ded3eb4b60b9\n";

// Whether the schedule of so many steps comes to this summary.
fn comes_to(alloc: Global, steps: u8, lines: &str) -> Result<bool, AllocError> {
    let summary = generate(alloc, 7, u64::from(steps))?;
    let mut text = Text::new(alloc);
    write_summary(alloc, &mut text, &summary)?;
    Ok(text.as_bytes() == lines.as_bytes())
}

const SUMMARIES: &[(u8, &str)] = &[(0, NO_STEP), (1, ONE_BOOT), (3, THREE_BOOTS)];

#[test]
fn generated_schedules_come_to_these_summaries(rt: HostRuntime) -> Result<(), Fail> {
    for (steps, lines) in SUMMARIES {
        let comes_to = comes_to(rt.alloc(), *steps, lines)?;
        assert!(rt; comes_to, "{steps}");
    }
    Ok(())
}

#[test]
fn equal_numbers_come_to_equal_summaries(rt: HostRuntime) -> Result<(), Fail> {
    let first = generate(rt.alloc(), 11, 100)?;
    let second = generate(rt.alloc(), 11, 100)?;
    assert!(rt; first == second);
    Ok(())
}
