// A layout's bytes in a lent buffer.
ghost use Rattle.num.specs.Refusals.{answered, given};
ghost use Rattle.layout.specs.Codec.{LayoutWritten};

use crate::Layout;
use crate::encoded::bytes_of;
use crate::good::is_good;
use num::refusal::Refusal;

// The layout's bytes at the front of the buffer; how many they are. A value that is no good layout's, or a buffer too short, is refused, and nothing is written.
#[tactic(auto, unfolding(crate::specs::Codec::write_refused))]
pub fn write_layout(l: Layout, out: &mut [u8]) -> Result<usize, Refusal>
    ensures { LayoutWritten l out.old (answered result) (given 0 result) out.new }
{
    if !is_good(l) {
        return Err(Refusal::Layout);
    }
    let encoded = bytes_of(l);
    let bytes = encoded.as_slice();
    if out.len() < bytes.len() {
        return Err(Refusal::Layout);
    }
    out[..bytes.len()].copy_from_slice(bytes);
    Ok(bytes.len())
}
