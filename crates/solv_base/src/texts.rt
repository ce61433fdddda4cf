//! A text as a pool keeps it: a short one inside itself, so that most texts take no memory of their own.
ghost use Rattle.std.specs.Prelude.{◌≡◌, ◌≤◌, ◌∷◌, [], length, IfOk};
ghost use Rattle.std.specs.Str.{bytes_eq};
ghost use Rattle.std.specs.Cmp.{partial_equiv_from_equiv, on_equiv};
ghost use Rattle.std.specs.Cmp.Lexicographic.{bytes_decides, nat_list_eq_equiv};
ghost use Rattle.std.proofs.Common.{ap};

use indexmap::Equivalent;
use std::alloc::{AllocError, Global};
use std::hash::{Hash, Hasher};
use std::marker::Model;

/// The longest text that is kept inside itself. A [`Text`] then has 32 bytes.
pub(crate) const MOST_SHORT: usize = 30;

/// A text. Contracts see its bytes.
#[derive(Drop)]
pub struct Text {
    stored: Stored,
}

/// Where the bytes of a text lie.
#[derive(Drop)]
enum Stored {
    Short { len: u8, bytes: [u8; MOST_SHORT] },
    Long(Vec<u8>),
}

impl Model for Text {
    ghost use Rattle.std.specs.Prelude.{ℕ, List};

    ghost Value = { List ℕ };

    ghost use Rattle.solv_base.specs.Inner.Texts.{stored_bytes, IsStored};

    ghost view = { λ t. stored_bytes t.stored };

    ghost invariant = { λ t. IsStored t.stored };
}

impl Text {
    /// A text with these bytes. Only one of more than 30 takes memory.
    pub fn new(alloc: Global, bytes: &[u8]) -> Result<Text, AllocError>
        ensures { IfOk result (λ text. text ≡ bytes.now) }
    {
        if bytes.len() > MOST_SHORT {
            return Ok(Text {
                stored: Stored::Long(bytes.to_vec(alloc)?),
            });
        }
        Ok(Text::short(bytes))
    }

    /// A short text. It takes no memory.
    pub(crate) fn short(bytes: &[u8]) -> Text
        requires { length bytes.now ≤ 30 }
        ensures { result ≡ bytes.now }
    {
        let mut own = [0; MOST_SHORT];
        own[..bytes.len()].copy_from_slice(bytes);
        Text {
            stored: Stored::Short {
                len: bytes.len() as u8,
                bytes: own,
            },
        }
    }

    /// The bytes.
    #[inline(always)]
    pub fn bytes(&self) -> &[u8]
        ensures { result.now ≡ self.now }
    {
        match &self.stored {
            Stored::Short { len, bytes } => &bytes[..*len as usize],
            Stored::Long(bytes) => bytes,
        }
    }
}

impl PartialEq for Text {
    ghost eq = { bytes_eq };

    ghost laws = { partial_equiv_from_equiv nat_list_eq_equiv };

    fn eq(&self, other: &Text) -> bool {
        self.bytes() == other.bytes()
    }
}

impl Eq for Text {
    ghost laws = { nat_list_eq_equiv };
}

/// A hasher gets all bytes by one call: texts are hashed one at a time, so nothing has to mark where one ends.
impl Hash for Text {
    ghost hash_input = { λ text. text ∷ [] };

    ghost respects_eq = { λ x y h. ap (λ bytes. bytes ∷ []) ((bytes_decides x y).0 h) };

    fn hash<H: Hasher>(&self, state: &mut H) {
        state.write(self.bytes());
    }
}

/// Bytes that a text is looked up by.
#[derive(Clone, Copy)]
pub struct Wanted<'a>(pub &'a [u8]);

impl PartialEq for Wanted<'_> {
    ghost eq = { λ x y. bytes_eq x.0.now y.0.now };

    ghost laws = { partial_equiv_from_equiv (on_equiv (λ w. w.0.now) nat_list_eq_equiv) };

    fn eq(&self, other: &Wanted) -> bool {
        self.0 == other.0
    }
}

impl Eq for Wanted<'_> {
    ghost laws = { on_equiv (λ w. w.0.now) nat_list_eq_equiv };
}

impl Hash for Wanted<'_> {
    ghost hash_input = { λ wanted. wanted.0.now ∷ [] };

    ghost respects_eq = { λ x y h. ap (λ bytes. bytes ∷ []) ((bytes_decides x.0.now y.0.now).0 h) };

    fn hash<H: Hasher>(&self, state: &mut H) {
        state.write(self.0);
    }
}

impl Equivalent<Text> for Wanted<'_> {
    ghost equivalent = { λ wanted text. bytes_eq wanted.0.now text };

    ghost respects_hash = { λ wanted text h. ap (λ bytes. bytes ∷ []) ((bytes_decides wanted.0.now text).0 h) };

    ghost respects_eq = { λ wanted x y. nat_list_eq_equiv.congr wanted.0.now x y };

    fn equivalent(&self, text: &Text) -> bool {
        self.0 == text.bytes()
    }
}
