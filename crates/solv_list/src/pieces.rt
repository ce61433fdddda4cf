ghost use Rattle.std.specs.Prelude.{◌≡◌, ◌++◌, OnOk, OnErr};
ghost use Rattle.std.specs.List.{flat_map};

use std::alloc::AllocError;

/// Appends pieces to some bytes, one after another. On a refusal the bytes are as before.
pub fn append_all(into: &mut Vec<u8>, pieces: &[&[u8]]) -> Result<(), AllocError>
    ensures ok { OnOk result (into.new.items ≡ into.old.items ++ flat_map (λ piece. piece.now) pieces.now) }
    ensures err { OnErr result (into.new.items ≡ into.old.items) }
{
    let before = into.len();
    for piece in pieces {
        if into.extend_from_slice(piece).is_err() {
            into.truncate(before);
            return Err(AllocError);
        }
    }
    Ok(())
}
