//! The beginning of a picture, with how its parts look, and its end.
ghost use Rattle.std.specs.Prelude.{◌≡◌, ◌++◌, OnOk};
ghost use Rattle.sequence_chart.specs.Frame.{frame, last, size, style, view};

use std::alloc::AllocError;
use text::Text;

/// How the chart looks on a light background and on a dark one, and the forms of its marks. It is the same in each picture.
pub const STYLE: &str = "<style>\n\
    svg{color-scheme:light dark}\n\
    text{font:10px ui-monospace,SFMono-Regular,Menlo,Consolas,'DejaVu Sans Mono',monospace;white-space:pre}\n\
    path{fill:none}\n\
    .paper{fill:#ffffff}\n\
    .mark{stroke:#ffffff;stroke-width:2px;paint-order:stroke;fill:inherit}\n\
    .step{stroke:#e4e8ec}\n\
    .head,.schedule{fill:#24292f}\n\
    .head{font-weight:bold;text-anchor:middle}\n\
    .message,.tip{fill:#6e7781}\n\
    .plain,.arrow,.lost,.end{stroke:#6e7781}\n\
    .lost{stroke-dasharray:2 2}\n\
    .candidate,.follower,.leader{fill:none;stroke:currentColor;stroke-width:2px}\n\
    .candidate{stroke-dasharray:2 4}\n\
    .leader{stroke-width:5px}\n\
    .won{font-weight:bold}\n\
    .t0{color:#0072b2;fill:#0072b2}.t1{color:#117733;fill:#117733}.t2{color:#946200;fill:#946200}\n\
    .t3{color:#5a4fcf;fill:#5a4fcf}.t4{color:#00818a;fill:#00818a}\n\
    .taken{color:#24292f;fill:#24292f}.other{color:#57606a;fill:#57606a}\n\
    .refused{color:#c8380a;fill:#c8380a}.fault{color:#a3176f;fill:#a3176f}\n\
    @media (prefers-color-scheme:dark){\n\
    .paper{fill:#0d1117}\n\
    .mark{stroke:#0d1117}\n\
    .step{stroke:#22272e}\n\
    .head,.schedule{fill:#e6edf3}\n\
    .message,.tip{fill:#8b949e}\n\
    .plain,.arrow,.lost,.end{stroke:#8b949e}\n\
    .t0{color:#58b4f0;fill:#58b4f0}.t1{color:#5fce78;fill:#5fce78}.t2{color:#e3b341;fill:#e3b341}\n\
    .t3{color:#b3a7ff;fill:#b3a7ff}.t4{color:#4fd6df;fill:#4fd6df}\n\
    .taken{color:#e6edf3;fill:#e6edf3}.other{color:#8b949e;fill:#8b949e}\n\
    .refused{color:#ff8a5c;fill:#ff8a5c}.fault{color:#f778ba;fill:#f778ba}\n\
    }\n\
    path.candidate,path.follower,path.leader{fill:none}\n\
    </style>\n\
    <defs>\n\
    <marker id='head' orient='auto' markerWidth='7' markerHeight='6' refX='7' refY='3'><path class='tip' d='M0 0L7 3L0 6z'/></marker>\n\
    <path id='dot' class='mark' d='M-3 0a3 3 0 1 1 6 0a3 3 0 1 1 -6 0z'/>\n\
    <path id='square' class='mark' d='M-4 -4H4V4H-4z'/>\n\
    <path id='star' class='mark' d='M0 -8L2.2 -2.5L8 -2.5L3.4 1L5 7L0 3.4L-5 7L-3.4 1L-8 -2.5L-2.2 -2.5z'/>\n\
    <path id='diamond' class='mark' d='M0 -7L6 0L0 7L-6 0z'/>\n\
    <path id='triangle' class='mark' d='M-4.5 -4H4.5L0 4.5z'/>\n\
    <g id='frame'><path class='paper' d='M-3 -3H3V3H-3z'/><path stroke='currentColor' stroke-width='1.5' d='M-3 -3H3V3H-3z'/></g>\n\
    <g id='ring'><path class='paper' d='M-3 0a3 3 0 1 1 6 0a3 3 0 1 1 -6 0z'/><path stroke='currentColor' stroke-width='1.5' d='M-3 0a3 3 0 1 1 6 0a3 3 0 1 1 -6 0z'/></g>\n\
    <path id='cross' stroke='currentColor' stroke-width='2' d='M-4 -4L4 4M4 -4L-4 4'/>\n\
    <path id='bar' stroke='currentColor' stroke-width='2' d='M-6 0H6'/>\n\
    <path id='end' d='M-2.5 -2.5L2.5 2.5M2.5 -2.5L-2.5 2.5'/>\n\
    </defs>\n\
    <rect class='paper' width='100%' height='100%'/>\n";

fn write_size(text: &mut Text, width: u64, height: u64) -> Result<(), AllocError>
    ensures { OnOk result (text.new ≡ text.old ++ size width height) }
{
    text.word("<svg xmlns='http://www.w3.org/2000/svg' xml:space='preserve' width='")?;
    text.number(width)?;
    text.word("' height='")?;
    text.number(height)?;
    text.word("' viewBox='0 0 ")
}

#[tactic(auto, unfolding(crate::specs::Frame::view))]
fn write_view(text: &mut Text, width: u64, height: u64) -> Result<(), AllocError>
    ensures { OnOk result (text.new ≡ text.old ++ view width height) }
{
    text.number(width)?;
    text.word(" ")?;
    text.number(height)?;
    text.word("'>\n")
}

#[tactic(auto, unfolding(crate::specs::Frame::style))]
fn write_style(text: &mut Text) -> Result<(), AllocError>
    ensures { OnOk result (text.new ≡ text.old ++ style) }
{
    text.word(STYLE)
}

/// Writes the beginning of a picture of this size: how its parts look, and its background.
pub fn write_frame(text: &mut Text, width: u64, height: u64) -> Result<(), AllocError>
    ensures { OnOk result (text.new ≡ text.old ++ frame width height) }
{
    write_size(text, width, height)?;
    write_view(text, width, height)?;
    write_style(text)
}

/// Writes the end of a picture.
pub fn end_frame(text: &mut Text) -> Result<(), AllocError>
    ensures { OnOk result (text.new ≡ text.old ++ last) }
{
    text.word("</svg>\n")
}
