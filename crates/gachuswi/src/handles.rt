//! Handles: what C keeps of an answer.
ghost use Rattle.std.specs.Prelude.{◌≡◌, Option, None, Some, IfOk, IsErr, option_map};
ghost use Rattle.gachuswi.specs.Inner.Held.{handle_owns};
ghost use Rattle.solv_embed.specs.declared.runs.Outcome.{Outcome};

use crate::loose::Loose;
use solv_embed::Outcome;
use std::alloc::{AllocError, Global};
use std::marker::Model;
use std::mem::replace;

/// What lies behind a handle, as C sees it: nothing that it may read.
#[repr(C)]
pub struct Opaque {
    hidden: u8,
}

/// What C keeps of an answer: a pointer to it, or null where there is none. It owns the answer's memory.
#[repr(C)]
pub struct Handle {
    at: *mut Opaque,
    alloc: Global,
    pub ghost value: { Option Outcome },
}

impl Model for Handle {
    ghost also_owns = { λ h. handle_owns h.alloc h.at h.value };
}

impl Handle {
    /// No answer.
    pub(crate) fn none(alloc: Global) -> Handle
        ensures { result.value ≡ None }
    {
        Handle {
            at: std::ptr::null_mut(),
            alloc,
        }
    }

    /// The answer that lies there.
    fn of(loose: Loose<Outcome, Global>) -> Handle
        ensures { result.value ≡ Some loose.value }
    {
        let Loose { at, alloc } = loose;
        Handle {
            at: at as *mut Opaque,
            alloc,
        }
    }

    /// The answer, by its pointer.
    fn into_loose(self) -> Option<Loose<Outcome, Global>>
        ensures { option_map (λ loose. loose.value) result ≡ self.value }
    {
        let Handle { at, alloc } = self;
        if at.is_null() {
            None
        } else {
            Some(Loose {
                at: at as *mut Outcome,
                alloc,
            })
        }
    }

    /// The answer.
    fn into_box(self) -> Option<Box<Outcome>>
        ensures { option_map (λ kept. kept.value) result ≡ self.value }
    {
        match self.into_loose() {
            None => None,
            Some(loose) => Some(loose.into_box()),
        }
    }

    /// Puts an answer into memory of its own. It is dropped where there is none.
    pub(crate) fn keep(alloc: Global, outcome: Outcome) -> Result<Handle, AllocError>
        ensures { IfOk result (λ handle. handle.value ≡ Some outcome) }
    {
        match Box::new(alloc, outcome) {
            Ok(kept) => Ok(Handle::of(Loose::of(kept))),
            Err(_) => Err(AllocError),
        }
    }

    /// Takes the answer out, so that there is none.
    pub(crate) fn take(&mut self, alloc: Global) -> Option<Box<Outcome>>
        ensures taken { option_map (λ kept. kept.value) result ≡ self.old.value }
        ensures left { self.new.value ≡ None }
    {
        replace(self, Handle::none(alloc)).into_box()
    }

    /// Puts it back. No memory is needed.
    pub(crate) fn put(&mut self, kept: Box<Outcome>)
        ensures { self.new.value ≡ Some kept.value }
    {
        *self = Handle::of(Loose::of(kept));
    }
}

impl Drop for Handle {
    fn drop(self) {
        match self.into_box() {
            None => {}
            Some(kept) => drop(kept),
        }
    }
}
