//! The pointer of a handle.

ghost use Rattle.std.specs.Prelude.{◌≡◌, Option, None, Some, is_none, false};
ghost use Rattle.std.specs.Coded.{coded_option};
ghost use Rattle.device_c.specs.declared.content.Content.{Content};
ghost use Rattle.device_c.specs.contracts.content.Content.{the_row};

use crate::box_parts::BoxParts;
use crate::content::Content;
use std::alloc::Global;
use std::marker::Model;

/// A pointer to what a handle holds, or to nothing. Dropping it frees nothing: `into_box` gives what is to be freed.
#[repr(C)]
#[derive(Drop)]
pub struct Pointer {
    at: *mut u8,
    pub ghost value: { Option Content } by { coded_option the_row.coded },
}

impl Model for Pointer {
    ghost use Rattle.device_c.specs.contracts.content.Content.{the_row};
    ghost use Rattle.libc.specs.Heap.{chunk};
    ghost use Rattle.device_c.specs.Owned.{owns_some};

    ghost also_owns = { λ h. owns_some (λ ty ptr. chunk ty ptr) the_row h.at h.value };
}

impl Pointer {
    /// To nothing.
    pub(crate) fn none() -> Pointer
        ensures { result.value ≡ None }
    {
        Pointer {
            at: std::ptr::null_mut(),
        }
    }

    /// To what a box holds.
    fn of_parts(parts: BoxParts<Content, Global>) -> Pointer
        ensures { result.value ≡ Some parts.value }
    {
        let BoxParts { at, alloc: _ } = parts;
        Pointer { at: at as *mut u8 }
    }

    /// The parts of the box that it points to.
    fn into_parts(self, alloc: Global) -> BoxParts<Content, Global>
        requires { is_none self.value ≡ false }
        ensures { self.value ≡ Some result.value }
    {
        let Pointer { at } = self;
        BoxParts {
            at: at as *mut Content,
            alloc,
        }
    }

    /// To what a box holds.
    pub(crate) fn of(content: Box<Content>) -> Pointer
        ensures { result.value ≡ Some content.value }
    {
        Pointer::of_parts(BoxParts::of(content))
    }

    /// The box that it points to.
    pub(crate) fn into_box(self, alloc: Global) -> Box<Content>
        requires { is_none self.value ≡ false }
        ensures { self.value ≡ Some result.value }
    {
        self.into_parts(alloc).into_box()
    }
}
