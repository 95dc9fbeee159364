//! The digest of pixels, without a copy of all their bytes.
ghost use Rattle.std.specs.Prelude.{◌≡◌, ◌≤◌, ◌*◌, ◌++◌, ℕ, List, length, map, slice_index_or, take};
ghost use Rattle.geom_core.specs.Numbers.{unpainted};
ghost use Rattle.sha2.specs.Hashers.{Holds256};
ghost use Rattle.sha2.specs.Sha256.{sha256};
ghost use Rattle.pixel_raster.specs.Bytes.{bytes_of};
ghost use Rattle.pixel_raster.specs.Marks.{seen_of, seen_pixels};

use crate::marks::seen_of;
use geom_core::Argb;
use sha2::{Digest, Sha256};

/// How many pixels the hasher gets at once.
const PIECE: usize = 1024;

/// The SHA-256 of the red, green and blue that are seen of each pixel of a picture of this size.
pub fn digest_of(pixels: &[Argb], width: usize, height: usize) -> [u8; 32]
    requires { length pixels.now ≡ width * height }
    ensures { result ≡ sha256 (bytes_of (seen_pixels width pixels.now)) }
{
    let mut hasher = Sha256::new();
    for y in 0..height {
        absorb_row(&mut hasher, &pixels[y * width..(y + 1) * width]);
    }
    hasher.finalize()
}

/// Passes what is seen of a row to the hasher.
fn absorb_row(hasher: &mut Sha256, row: &[Argb])
    ensures { (message : List ℕ) → Holds256 hasher.old message
        → Holds256 hasher.new (message ++ bytes_of (map (seen_of (slice_index_or row.now 0 unpainted)) row.now)) }
{
    let mut at = 0;
    'pieces: while at < row.len() {
        let end = row.len().min(at + PIECE);
        absorb(hasher, row[0], &row[at..end]);
        at = end;
    }
}

/// The same of at most `PIECE` pixels of a row that begins with this one.
fn absorb(hasher: &mut Sha256, first: Argb, run: &[Argb])
    requires { length run.now ≤ 1024 }
    ensures { (message : List ℕ) → Holds256 hasher.old message
        → Holds256 hasher.new (message ++ bytes_of (map (seen_of first) run.now)) }
{
    let mut bytes = [0; 3 * PIECE];
    put_bytes(first, run, &mut bytes);
    hasher.update(&bytes[..3 * run.len()]);
}

/// Writes the red, green and blue that are seen of each pixel at the start of the bytes; what follows them may be
/// anything.
fn put_bytes(first: Argb, run: &[Argb], bytes: &mut [u8])
    requires { 3 * length run.now ≤ length bytes.old }
    ensures { take (3 * length run.now) bytes.new ≡ bytes_of (map (seen_of first) run.now) }
{
    for k in 0..run.len() {
        let color = seen_of(first, run[k]);
        bytes[3 * k] = color.red();
        bytes[3 * k + 1] = color.green();
        bytes[3 * k + 2] = color.blue();
    }
}
