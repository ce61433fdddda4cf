//! A file that a caller lends.
ghost use Rattle.std.specs.Prelude.{◌≡◌};
ghost use Rattle.std.specs.Option.{option_copied};
ghost use Rattle.solv_lent.specs.Lent.{lent_bytes};

/// A file that a caller lends: its name and its bytes. Either may be empty.
#[repr(C)]
pub struct LentFile<'a> {
    pub name: &'a [u8],
    pub bytes: &'a [u8],
}

/// The bytes of the first file with this name.
pub(crate) fn find_file<'a>(held: &'a [LentFile<'a>], name: &[u8]) -> Option<&'a [u8]>
    ensures { option_copied result ≡ lent_bytes held.now name.now }
{
    for file in held {
        if name == file.name {
            return Some(file.bytes);
        }
    }
    None
}
