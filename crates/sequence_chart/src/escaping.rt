//! Bytes as text of XML.
ghost use Rattle.std.specs.Prelude.{◌≡◌, ◌++◌, OnOk};
ghost use Rattle.sequence_chart.specs.Words.{byte_name, escaped, escaped_byte};

use schedule_text::hex_byte;
use std::alloc::AllocError;
use text::Text;

fn write_byte_name(text: &mut Text, b: u8) -> Result<(), AllocError>
    ensures { OnOk result (text.new ≡ text.old ++ byte_name b) }
{
    text.word("&#x27e8;")?;
    text.bytes(&[hex_byte(b / 16), hex_byte(b % 16)])?;
    text.word("&#x27e9;")
}

fn write_byte(text: &mut Text, b: u8) -> Result<(), AllocError>
    ensures { OnOk result (text.new ≡ text.old ++ escaped_byte b) }
{
    if b == b'&' {
        return text.word("&amp;");
    }
    if b == b'<' {
        return text.word("&lt;");
    }
    if b == b'>' {
        return text.word("&gt;");
    }
    if b >= 32 && b < 127 {
        return text.bytes(&[b]);
    }
    write_byte_name(text, b)
}

/// Writes bytes as text of XML: a printable one of ASCII as itself or by its name, each other one by its two digits of
/// hexadecimal, between angle brackets that are no ASCII. So no two lines are shown as one.
pub fn write_escaped(text: &mut Text, bytes: &[u8]) -> Result<(), AllocError>
    ensures { OnOk result (text.new ≡ text.old ++ escaped bytes.now) }
{
    for b in bytes {
        write_byte(text, *b)?;
    }
    Ok(())
}
