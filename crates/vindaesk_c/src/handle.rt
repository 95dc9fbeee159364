//! What C holds of a session.

ghost use Rattle.std.specs.Prelude.{◌≡◌, Option, Some, None};
ghost use Rattle.std.specs.Option.{MatchOption};
ghost use Rattle.vindaesk_c.specs.Owned.{held_coded};
ghost use Rattle.vindaesk_c.specs.declared.open_session.OpenSession.{OpenSession};

use crate::loose::Loose;
use crate::open_session::OpenSession;
use std::alloc::Global;
use std::marker::Model;
use std::mem::replace;
use std::ptr::null_mut;

/// A session that is open, or none. C has it as a struct of one pointer, which is null where none is open; `alloc` takes no
/// bytes.
#[repr(C)]
pub struct Handle {
    at: *mut u8,
    alloc: Global,
    pub ghost held: { Option OpenSession } by { held_coded },
}

impl Model for Handle {
    ghost use Rattle.vindaesk_c.specs.Owned.{handle_owns};

    ghost also_owns = { λ h. handle_owns h.alloc h.at h.held };
}

impl Handle {
    /// None.
    fn closed(alloc: Global) -> Handle
        ensures { result.held ≡ None }
    {
        Handle {
            at: null_mut(),
            alloc,
        }
    }

    /// An open session.
    fn of(loose: Loose<OpenSession, Global>) -> Handle
        ensures { result.held ≡ Some loose.value }
    {
        let Loose { at, alloc } = loose;
        Handle {
            at: at as *mut u8,
            alloc,
        }
    }

    /// The open session, if one is.
    fn into_loose(self) -> Option<Loose<OpenSession, Global>>
        ensures { MatchOption result (self.held ≡ None) (λ l. self.held ≡ Some l.value) }
    {
        let Handle { at, alloc } = self;
        if at.is_null() {
            None
        } else {
            Some(Loose {
                at: at as *mut OpenSession,
                alloc,
            })
        }
    }

    /// Takes the open session out, if one is. None is open from then on.
    pub fn take(&mut self, alloc: Global) -> Option<Box<OpenSession>>
        ensures taken { MatchOption result (self.old.held ≡ None) (λ session. self.old.held ≡ Some session.value) }
        ensures none { self.new.held ≡ None }
    {
        match replace(self, Handle::closed(alloc)).into_loose() {
            Some(loose) => Some(loose.into_box()),
            None => None,
        }
    }

    /// Puts an open session in.
    pub fn put(&mut self, session: Box<OpenSession>)
        ensures { self.new.held ≡ Some session.value }
    {
        *self = Handle::of(Loose::of(session));
    }
}

impl Drop for Handle {
    /// Frees the open session, if one is.
    fn drop(self) {
        if let Some(loose) = self.into_loose() {
            drop(loose.into_box());
        }
    }
}
