//! Why a hook is not armed.

/// As many hooks are armed as may be.
#[derive(Clone, Copy)]
pub struct HookFault;
