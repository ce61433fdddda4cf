//! What a text says, before any of it is entered into a pool.
ghost use Rattle.std.specs.Prelude.{◌≡◌, ◌<◌, ◌+◌, [], length, IsTrue};

use crate::sign::{Conditional, Joint};
use solv_base::Cmp;
use std::marker::Model;

/// A part of a text: a name, or an operator between parts that stand before it in the draft.
#[derive(Clone, Copy)]
pub(crate) enum Written<'a> {
    Simple(&'a [u8]),
    Versioned(&'a [u8], Cmp, &'a [u8]),
    Namespace(&'a [u8]),
    Joined(Joint, u8, u8),
    Without(u8, u8),
    Under(Conditional, u8, u8),
    UnderElse(Conditional, u8, u8, u8),
}

/// The parts of a text, each after its operands. With at most 64 operators there are at most 129.
#[derive(Drop)]
pub(crate) struct Draft<'a> {
    parts: [Written<'a>; 129],
    len: usize,
}

impl<'a> Model for Draft<'a> {
    ghost use Rattle.std.specs.Prelude.{List, take};
    ghost use Rattle.solv_deps.specs.declared.draft.Written.{Written};
    ghost use Rattle.solv_deps.specs.Inner.Drafts.{IsDraft};

    ghost Value = { List Written };

    ghost view = { λ d. take d.len d.parts };

    ghost invariant = { λ d. IsDraft d.parts d.len };
}

impl<'a> Draft<'a> {
    ghost use Rattle.solv_deps.specs.Inner.Drafts.{said, written, operands_below, Enters};

    pub(crate) fn new() -> Draft<'a>
        ensures { result ≡ [] }
    {
        Draft {
            parts: [Written::Joined(Joint::Both, 0, 0); 129],
            len: 0,
        }
    }

    /// Adds a part, and gives its number.
    pub(crate) fn push(&mut self, part: &Written<'a>) -> u8
        requires room { length self.old < 129 }
        requires below { IsTrue (operands_below (length self.old) part.now) }
        ensures entered { Enters self.old self.new result (written (said self.old) part.now) }
        ensures longer { length self.new ≡ length self.old + 1 }
    {
        let number = self.len;
        self.parts[number] = *part;
        self.len += 1;
        number as u8
    }

    /// The part of a number.
    pub(crate) fn get(&self, number: u8) -> Written<'a>
        requires { number < length self.now }
        ensures below { IsTrue (operands_below number result) }
        ensures part { said self.now number ≡ written (said self.now) result }
    {
        self.parts[number as usize]
    }
}
