//! The script of a load.

ghost use Rattle.std.specs.Prelude.{◌≡◌, ◌≤◌, IfOk, length};
ghost use Rattle.load_maker.specs.Load.{load, load_of, opening};
ghost use Rattle.load_maker.specs.Made.{Makes};

use crate::making::Maker;
use std::alloc::{AllocError, Global};

/// The lines that make the root and its six children.
const OPENING: &[u8] = b"window 320 480
add root LinearLayout match match
orient v1 vertical
add v1 LinearLayout match wrap
add v1 LinearLayout match wrap
add v1 LinearLayout match wrap
add v1 LinearLayout match wrap
add v1 LinearLayout match wrap
add v1 LinearLayout match wrap
";

/// The unfinished load of this size: the lines that make the root and its six children.
fn begun(alloc: Global, n: u32) -> Maker
    ensures { Makes result (opening n) }
{
    let mut maker = Maker {
        state: n,
        text: Vec::new(alloc),
        failed: false,
    };
    maker.put(OPENING);
    maker
}

/// All lines of the load of this size.
fn made(alloc: Global, n: u32) -> Maker
    ensures { Makes result (load_of n) }
{
    let views = 32 * u64::from(n);
    let mut maker = begun(alloc, n);
    for k in 0..views {
        maker.view(8 + k);
    }
    for k in 0..2 * views {
        maker.step(views, k + 1);
    }
    maker
}

/// The script of the load of this size, from 1 to 100.
pub fn script(alloc: Global, n: u32) -> Result<Vec<u8>, AllocError>
    ensures load { IfOk result (λ script. script.items ≡ load n) }
    ensures short { n ≤ 100 → IfOk result (λ script. length script.items ≤ 16777216) }
{
    let maker = made(alloc, n);
    if maker.failed {
        return Err(AllocError);
    }
    Ok(maker.text)
}
