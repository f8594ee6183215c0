// Outputs that a caller lends: what a call leaves in them. What an internal writer did is an Option: the number of bytes that it wrote, or None where
// there is no room for them.
#![tactic(auto)]

ghost use Rattle.std.specs.Prelude.{◌≡◌};
ghost use Rattle.outputs.specs.Outputs.{Placed};

// Bytes as they stand, at the front of the output.
pub fn put_copy(from: &[u8], out: &mut [u8]) -> Option<usize>
    ensures { Placed from.now result out.old out.new }
{
    if out.len() < from.len() {
        return None;
    }
    out[..from.len()].copy_from_slice(from);
    Some(from.len())
}
