//! Handing bytes over to the front of a slice.
ghost use Rattle.std.specs.Prelude.{◌≡◌, ◌≤◌, ◌++◌, ◌↔◌, length, drop, IsOk, IsErr, IfOk, OnOk};

use crate::writer::Full;

/// Copies the part to the front of a slice and tells its length; nothing is copied where it does not fit.
pub fn deliver(out: &mut [u8], part: &[u8]) -> Result<usize, Full>
    ensures fits { IsOk result ↔ (length part.now ≤ length out.old) }
    ensures count { IfOk result (λ n. n ≡ length part.now) }
    ensures delivered { OnOk result (out.new ≡ part.now ++ drop (length part.now) out.old) }
    ensures kept { IsErr result → out.new ≡ out.old }
{
    let count = part.len();
    if count > out.len() {
        return Err(Full);
    }
    out[0..count].copy_from_slice(part);
    Ok(count)
}
