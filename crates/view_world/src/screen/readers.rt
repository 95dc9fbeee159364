//! What others read of a screen.

ghost use Rattle.std.specs.Prelude.{◌≡◌, ◌↔◌, ℕ, [], IfSome};
ghost use Rattle.std.specs.Option.{is_some};
ghost use Rattle.touch_event.specs.PointerSets.{has_id};
ghost use Rattle.view_world.specs.screen.KeyedScreen.{window_of};
ghost use Rattle.world_parts.specs.Pointers.{is_pressed};

use super::Screen;
use crate::screen::stage::Stage;
use pixel_raster::Surface;
use view_tree::ViewTree;
use world_parts::ids_of;

impl Screen {
    /// The views. Once a frame has settled, their bounds are the layout of that frame.
    pub fn tree(&self) -> &ViewTree
        ensures { result.now ≡ self.now.views }
    {
        &self.tree
    }

    /// How far its script has come.
    pub fn stage(&self) -> Stage
        ensures { result ≡ self.now.stage }
    {
        self.stage
    }

    /// The picture of the window, if there is one: black if no frame has settled since it opened.
    pub fn surface(&self) -> Option<&Surface>
        ensures some { is_some result ≡ is_some (window_of self.now) }
        ensures value { IfSome result (λ surface. surface.now ≡ self.now.surface) }
    {
        match self.stage {
            Stage::NoWindow => None,
            Stage::NoFrame | Stage::Unsettled | Stage::Settled => Some(&self.surface),
        }
    }

    /// The ids of the pointers that are down. Bit `k` represents the id `k`.
    pub fn pointers(&self) -> u32
        ensures ids { (id : ℕ) → has_id result id ≡ is_pressed id self.now.pointers }
        ensures none { (result ≡ 0) ↔ (self.now.pointers ≡ []) }
    {
        ids_of(self.pointers.as_slice())
    }
}
