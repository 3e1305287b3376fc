//! How outcomes are printed.
use faults::{Fault, PassFault};
use std::alloc::{AllocError, Global};
use std::{fmt, io};

/// What a buffer is filled with before a call.
pub const FILLING: u8 = 0xEE;

/// Bytes in hexadecimal, or their count and check sum where they are many; `possumgold` prints all, however many.
#[derive(Clone, Copy)]
pub struct Shown<'a>(pub &'a [u8]);

impl<'a> fmt::Display for Shown<'a> {
    fn fmt<W: fmt::Write>(&self, f: &mut fmt::Formatter<W>) -> fmt::Result {
        let count = self.0.len();
        if count > 40 {
            let sum = check_sum(self.0);
            return write!(f, "{count} bytes with check sum {sum}");
        }
        for byte in self.0 {
            write!(f, "{byte:02X}")?;
        }
        Ok(())
    }
}

// Two sums over the bytes, as Adler's.
fn check_sum(bytes: &[u8]) -> u32 {
    let mut low = 1u32;
    let mut high = 0u32;
    for byte in bytes {
        low = (low % 65521 + *byte as u32) % 65521;
        high = (high % 65521 + low) % 65521;
    }
    (high % 65521) * 65536 + low % 65521
}

/// A refusal: number, layer and place. `possumgold` and `solver` print theirs in capitals, and need no text of it.
pub fn refused(heap: Global, fault: Fault) -> Result<String, AllocError> {
    format!(in heap; "refused {fault}")
}

/// A refusal of a pass, which may carry a reading fault.
pub fn refused_pass(heap: Global, fault: PassFault) -> Result<String, AllocError> {
    let text = refused(heap, fault.into())?;
    match fault {
        PassFault::Reading(_) => format!(in heap; "{text} inside a pass"),
        PassFault::Declined(_) => Ok(text),
    }
}

/// A refusal, and whether the file on the bench is the one before.
pub fn bench_kept(
    heap: Global,
    refusal: String,
    before: &[u8],
    after: &[u8],
) -> Result<String, AllocError> {
    let kept = if before == after {
        "bench kept"
    } else {
        "BENCH CHANGED"
    };
    format!(in heap; "{refusal}, {kept}")
}

// Whether all bytes behind the first ones are as they were filled. A call tells how many it wrote, and this looks at the others.
fn rest_kept(buffer: &[u8], len: usize) -> &'static str {
    if buffer.iter().skip(len).all(|byte| *byte == FILLING) {
        "rest kept"
    } else {
        "BUFFER WRITTEN"
    }
}

/// A refusal, and whether all of the buffer is as it was.
pub fn buffer_kept(heap: Global, refusal: String, buffer: &[u8]) -> Result<String, AllocError> {
    let kept = rest_kept(buffer, 0);
    format!(in heap; "{refusal}, {kept}")
}

/// The result in front of a buffer, and whether the rest is as it was.
pub fn result_text(heap: Global, buffer: &[u8], len: usize) -> Result<String, AllocError> {
    let result = Shown(buffer.get(..len).unwrap_or(buffer));
    let kept = rest_kept(buffer, len);
    format!(in heap; "{result}, {kept}")
}

/// Prints what comes of each shorter beginning of a file.
pub fn each_beginning<F: Fn(&[u8]) -> Result<String, AllocError>>(
    rt: &HostRuntime,
    file: &[u8],
    label: &str,
    outcome_of: F,
) -> io::Result<()>
    requires { F.IsAlwaysCallable outcome_of }
{
    for len in 0..file.len() {
        let outcome = outcome_of(&file[..len])?;
        println!(rt; "{label}, {len} bytes: {outcome}")?;
    }
    Ok(())
}
