//! What C keeps of a task.
ghost use Rattle.std.specs.Prelude.{◌≡◌, Option, None, Some, IfOk, IsErr, option_map};
ghost use Rattle.gachuswi.specs.Inner.HeldTasks.{handle_owns};
ghost use Rattle.solv_solved.specs.declared.outcomes.Held.{Held};

use crate::handles::Opaque;
use crate::loose::Loose;
use solv_solved::Held;
use std::alloc::{AllocError, Global};
use std::marker::Model;
use std::mem::replace;

/// What C keeps of a task: a pointer to what is held of it, or null where nothing is. It owns that memory.
#[repr(C)]
pub struct TaskHandle {
    at: *mut Opaque,
    alloc: Global,
    pub ghost value: { Option Held },
}

impl Model for TaskHandle {
    ghost also_owns = { λ h. handle_owns h.alloc h.at h.value };
}

impl TaskHandle {
    /// Nothing.
    pub(crate) fn none(alloc: Global) -> TaskHandle
        ensures { result.value ≡ None }
    {
        TaskHandle {
            at: std::ptr::null_mut(),
            alloc,
        }
    }

    /// What lies there.
    fn of(loose: Loose<Held, Global>) -> TaskHandle
        ensures { result.value ≡ Some loose.value }
    {
        let Loose { at, alloc } = loose;
        TaskHandle {
            at: at as *mut Opaque,
            alloc,
        }
    }

    /// What is held, by its pointer.
    fn into_loose(self) -> Option<Loose<Held, Global>>
        ensures { option_map (λ loose. loose.value) result ≡ self.value }
    {
        let TaskHandle { at, alloc } = self;
        if at.is_null() {
            None
        } else {
            Some(Loose {
                at: at as *mut Held,
                alloc,
            })
        }
    }

    /// What is held.
    fn into_box(self) -> Option<Box<Held>>
        ensures { option_map (λ kept. kept.value) result ≡ self.value }
    {
        match self.into_loose() {
            None => None,
            Some(loose) => Some(loose.into_box()),
        }
    }

    /// Puts what is held into memory of its own. It is dropped where there is none.
    pub(crate) fn keep(alloc: Global, held: Held) -> Result<TaskHandle, AllocError>
        ensures { IfOk result (λ handle. handle.value ≡ Some held) }
    {
        match Box::new(alloc, held) {
            Ok(kept) => Ok(TaskHandle::of(Loose::of(kept))),
            Err(_) => Err(AllocError),
        }
    }

    /// Takes it out, so that nothing is held.
    pub(crate) fn take(&mut self, alloc: Global) -> Option<Box<Held>>
        ensures taken { option_map (λ kept. kept.value) result ≡ self.old.value }
        ensures left { self.new.value ≡ None }
    {
        replace(self, TaskHandle::none(alloc)).into_box()
    }

    /// Puts it back. No memory is needed.
    pub(crate) fn put(&mut self, kept: Box<Held>)
        ensures { self.new.value ≡ Some kept.value }
    {
        *self = TaskHandle::of(Loose::of(kept));
    }
}

impl Drop for TaskHandle {
    fn drop(self) {
        match self.into_box() {
            None => {}
            Some(kept) => drop(kept),
        }
    }
}
