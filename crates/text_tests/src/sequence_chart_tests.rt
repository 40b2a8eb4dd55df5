//! Parts of small pictures. The marks are those of docs/charts.md.
use sequence_chart::draw_trace;
use std::alloc::Global;

const ELECTION: &str = "> boot a\n\
    act a ok boot a,b\n\
    > startjoin b a 1\n\
    act b ok startjoin a 1\n\
    m1 b->a join 1 0/0\n\
    > deliver a 1\n\
    act a ok join b a 1 0/0\n\
    won a 1\n";

// Whether these bytes stand somewhere in the text.
fn has(text: &[u8], wanted: &str) -> bool {
    for start in 0..text.len() {
        if text[start..].starts_with(wanted.as_bytes()) {
            return true;
        }
    }
    false
}

// Where something stands in a picture.
#[derive(Clone, Copy)]
enum Place {
    Somewhere,
    End,
}

// Whether this stands there in the picture of a trace.
fn shows(alloc: Global, trace: &str, part: &str, place: Place) -> bool {
    match draw_trace(alloc, trace.as_bytes()) {
        Ok(picture) => match place {
            Place::Somewhere => has(picture.as_bytes(), part),
            Place::End => picture.as_bytes().ends_with(part.as_bytes()),
        },
        Err(_) => false,
    }
}

// The first message is lost, the second one is handed over.
const TWO_MESSAGES: &str = "> startjoin b a 1\n\
    act b ok startjoin a 1\n\
    m1 b->a join 1 0/0\n\
    > startjoin c a 1\n\
    act c ok startjoin a 1\n\
    m2 c->a join 1 0/0\n\
    > deliver a 2\n\
    act a ok join c a 1 0/0\n";

const STOPS: &str = "> boot a\n\
    act a crashed boot a\n\
    > restart a\n\
    record a 1 0/0 a a\n";

const REFUSED: &str = "> startjoin a a 1\n\
    act a refused:TermNotGreater(1,1) startjoin a 1\n";

// A trace, and what stands in its picture. Of the messages the last row has a line whose characters `<`, `>` and `&` are escaped.
const DRAWN: &[(&str, &str, &str, Place)] = &[
    (
        "an_election_is_drawn",
        ELECTION,
        "<path class='arrow' marker-end='url(#head)' d='M324 72L186 82'><title>m1 b-&gt;a join 1 0/0</title></path>",
        Place::Somewhere,
    ),
    (
        "an_election_is_drawn",
        ELECTION,
        "<title>act a ok join b a 1 0/0</title>ok join b a 1 0/0</text>",
        Place::Somewhere,
    ),
    (
        "an_election_is_drawn",
        ELECTION,
        "<use href='#star' class='won t1'",
        Place::Somewhere,
    ),
    (
        "messages_stops_and_refusals_are_drawn",
        TWO_MESSAGES,
        "<title>m1 b-&gt;a join 1 0/0</title></path><use href='#end' class='end'",
        Place::Somewhere,
    ),
    (
        "messages_stops_and_refusals_are_drawn",
        TWO_MESSAGES,
        "'><title>m2 c-&gt;a join 1 0/0</title></path>\n",
        Place::Somewhere,
    ),
    (
        "messages_stops_and_refusals_are_drawn",
        STOPS,
        "<path class='plain' d='M98 40V54'/>",
        Place::Somewhere,
    ),
    (
        "messages_stops_and_refusals_are_drawn",
        STOPS,
        "<path class='plain' d='M98 68V82'/>",
        Place::Somewhere,
    ),
    (
        "messages_stops_and_refusals_are_drawn",
        STOPS,
        "<use href='#square' class='fault'",
        Place::Somewhere,
    ),
    (
        "messages_stops_and_refusals_are_drawn",
        REFUSED,
        "<use href='#cross' class='refused'",
        Place::Somewhere,
    ),
    (
        "messages_stops_and_refusals_are_drawn",
        "> client a <x>&\n",
        "<title>&gt; client a &lt;x&gt;&amp;</title>",
        Place::Somewhere,
    ),
    (
        "a_picture_ends_once",
        ELECTION,
        "</text>\n</svg>\n",
        Place::End,
    ),
];

#[test]
fn pictures_have_their_marks(rt: HostRuntime) {
    for (name, trace, part, place) in DRAWN {
        assert!(rt; shows(rt.alloc(), trace, part, *place), "{name}: {part}");
    }
}
