//! The lines that numbers give, also as a second generator draws them. The lines follow from the draws of docs/formats.md.
use schedule_generator::{Generator, empty_schedule};
use schedule_text::{Level, Line, Lines, read_schedule, write_line, write_schedule};
use std::alloc::{AllocError, Global};
use text::Text;

// The first lines of a number's schedule, where each line sends one message.
fn lines(alloc: Global, number: u64, steps: u64) -> Result<Vec<Line>, AllocError> {
    let mut generator = Generator::new(number);
    let mut lines = Vec::new(alloc);
    for step in 0..steps {
        let line = generator.line(alloc, step)?;
        lines.push(line)?;
    }
    Ok(lines)
}

fn text_of(alloc: Global, lines: &[Line]) -> Result<Text, AllocError> {
    let mut text = Text::new(alloc);
    for line in lines {
        write_line(&mut text, line)?;
        text.word("\n")?;
    }
    Ok(text)
}

// What a second generator, in another language, draws of the number 7.
const SEVEN: &str = "boot a\n\
    boot b\n\
    boot c\n\
    deliver c 1\n\
    restart a\n\
    restart a\n\
    deliver a 4\n\
    startjoin b a 1\n\
    restart c\n\
    startjoin c a 1\n\
    deliver d 4\n\
    startjoin c a 1\n\
    startjoin b a 1\n\
    deliver a 13\n\
    startjoin a a 1\n\
    deliver b 14\n\
    restart b\n\
    deliver c 10\n\
    fuse b 1 torn:a5\n\
    deliver a 19\n\
    startjoin b a 1\n\
    value a 22 s21 a,b,c,d\n\
    deliver d 16\n\
    fuse c 4 torn:a5\n";

// Whether of so many lines of a number those after the first ones have this text.
fn are_drawn(
    alloc: Global,
    number: u64,
    (first, steps): (usize, u64),
    wanted: &str,
) -> Result<bool, AllocError> {
    let lines = lines(alloc, number, steps)?;
    let Some(last) = lines.as_slice().get(first..) else {
        return Ok(false);
    };
    let text = text_of(alloc, last)?;
    Ok(text.as_bytes() == wanted.as_bytes())
}

// A number, how many of its lines are drawn and how many of them are not looked at, and the text of the others. After the first row: what
// the second generator draws of other forms, each configuration, each way in which a disk is left, a later term, and a message that lies
// as far back as there are messages.
const DRAWN: &[(&str, u64, u64, usize, &str)] = &[
    ("a_number_gives_these_lines", 7, 24, 0, SEVEN),
    ("each_form_is_drawn", 7, 31, 30, "value a 31 s30 a,b\n"),
    ("each_form_is_drawn", 7, 36, 35, "fuse b 4 none\n"),
    ("each_form_is_drawn", 7, 38, 37, "fuse d 3 all\n"),
    ("each_form_is_drawn", 7, 40, 39, "value a 40 s39 b,c,d\n"),
    ("each_form_is_drawn", 7, 107, 106, "crash a none\n"),
    ("each_form_is_drawn", 7, 109, 108, "startjoin c b 2\n"),
    (
        "each_form_is_drawn",
        7,
        156,
        155,
        "value b 156 s155 a,b,c\n",
    ),
    ("each_form_is_drawn", 18, 4, 3, "deliver c 1\n"),
];

#[test]
fn numbers_give_their_lines(rt: HostRuntime) {
    for (name, number, steps, first, wanted) in DRAWN {
        assert!(rt;
            are_drawn(rt.alloc(), *number, (*first, *steps), wanted) == Ok(true),
            "{name}: {wanted}"
        );
    }
}

fn generated(alloc: Global, number: u64, steps: u64) -> Result<Text, AllocError> {
    let lines = lines(alloc, number, steps)?;
    let mut schedule = empty_schedule(alloc);
    schedule.lines = Lines::of(lines);
    write_schedule(alloc, &schedule)
}

// Whether the text of a number's schedule has so many lines, and is printed as it was read.
fn is_read_back(alloc: Global, number: u64, steps: u64) -> Result<bool, AllocError> {
    let text = generated(alloc, number, steps)?;
    let Ok(read) = read_schedule(alloc, text.as_bytes(), Level::Core) else {
        return Ok(false);
    };
    let again = write_schedule(alloc, &read)?;
    Ok(read.lines.as_slice().len() as u64 == steps && again.as_bytes() == text.as_bytes())
}

#[test]
fn a_schedule_is_read_back_from_its_text(rt: HostRuntime) {
    assert!(rt; is_read_back(rt.alloc(), 11, 300) == Ok(true));
}
