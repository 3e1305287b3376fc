//! Fields as a script writes them.
use bits::BitWriter;

// A value or a width that is left out is 0, how often 1; a field that does not fit is left out.

fn number(text: &str) -> u32 {
    text.parse::<u32>().unwrap_or(0)
}

// A field `value:width` or `value:width*times`.
fn put_field(writer: &mut BitWriter, field: &str) {
    let (value, rest) = field.split_once(':').unwrap_or((field, "0"));
    let (width, times) = rest.split_once('*').unwrap_or((rest, "1"));
    let (value, width) = (number(value), number(width));
    for _ in 0..number(times) {
        let _ = writer.put(value, width);
    }
}

// Puts each word of the text from the place on, with zeros behind it up to the byte; the place behind them.
// Without a word the file stays as it is.
fn put_words<F: Fn(&mut BitWriter, &str)>(file: &mut [u8], at: usize, text: &str, put: F) -> usize
    requires { F.IsAlwaysCallable put }
{
    let mut writer = BitWriter { bytes: file, at };
    for word in text.split_whitespace() {
        put(&mut writer, word);
        let _ = writer.close();
    }
    writer.at
}

/// Writes fields `value:width` or `value:width*times` from the place on, and zeros up to the byte; the place behind the fields.
pub fn put_fields(file: &mut [u8], at: usize, text: &str) -> usize {
    put_words(file, at, text, put_field)
}

/// Writes fields as often as the first word says.
pub fn put_again(file: &mut [u8], at: usize, text: &str) -> usize {
    let (times, fields) = text.split_once(' ').unwrap_or((text, ""));
    let mut at = at;
    for _ in 0..number(times) {
        at = put_fields(file, at, fields);
    }
    at
}

// A byte in hexadecimal.
fn put_byte(writer: &mut BitWriter, byte: &str) {
    let _ = writer.put(u32::from_str_radix(byte, 16).unwrap_or(0), 8);
}

/// Writes bytes in hexadecimal from the first place on; the place behind them.
pub fn put_hex(file: &mut [u8], text: &str) -> usize {
    put_words(file, 0, text, put_byte)
}
