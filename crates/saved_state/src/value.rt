//! What a state has for a view.
ghost use Rattle.std.specs.Prelude.{◌≡◌, IfOk};
ghost use Rattle.saved_state.specs.Restoring.{suits};

use std::alloc::{AllocError, Global};
use view_model::{Class, Text};

/// What a state has for a view: an offset in pixels, or a text.
#[derive(Drop)]
pub enum Value {
    Offset(u32),
    Text(Text),
}

impl Value {
    /// The same value once more.
    pub(crate) fn copy(&self, alloc: Global) -> Result<Value, AllocError>
        ensures { IfOk result (λ value. value ≡ self.now) }
    {
        match self {
            Value::Offset(offset) => Ok(Value::Offset(*offset)),
            Value::Text(text) => Ok(Value::Text(text.copy(alloc)?)),
        }
    }
}

/// Whether a view of this class has such a value: a scroll view an offset, a text view a text.
pub(crate) fn suits(value: &Value, class: Class) -> bool
    ensures { result ≡ suits value.now class }
{
    match value {
        Value::Offset(_) => class.scrolls(),
        Value::Text(_) => class.has_text(),
    }
}
