//! What others read of a world.

ghost use Rattle.std.specs.Prelude.{◌≡◌, ◌↔◌, ℕ, [], IfSome};
ghost use Rattle.std.specs.Option.{is_some};
ghost use Rattle.touch_event.specs.PointerSets.{has_id};
ghost use Rattle.view_tree.specs.Views.{geometry_of};
ghost use Rattle.view_world.specs.screen.KeyedScreen.{window_of};
ghost use Rattle.view_world.specs.world.KeyedWorld.{world_of};
ghost use Rattle.world_parts.specs.Pointers.{is_pressed};
ghost use Rattle.view_world.specs.declared.screen.stage.Stage.TheVariants.{Settled};

use super::World;
use crate::screen::stage::Stage;
use geom_core::Size;
use pixel_raster::Surface;
use view_tree::ViewTree;

impl World {
    /// The views. Once a frame has settled, their bounds are the layout of that frame.
    pub fn tree(&self) -> &ViewTree
        ensures value { result.now ≡ self.now.screen.views }
        ensures laid { self.now.screen.stage ≡ Settled → geometry_of result.now ≡ (world_of self.now).geometry }
    {
        self.screen.tree()
    }

    /// The size of the window, in pixels, where there is one.
    pub fn window(&self) -> Option<Size>
        ensures { result ≡ window_of self.now.screen }
    {
        self.screen.window()
    }

    /// How far its script has come.
    pub fn stage(&self) -> Stage
        ensures { result ≡ self.now.screen.stage }
    {
        self.screen.stage()
    }

    /// The picture of the window, if there is one: black if no frame has settled since it opened.
    pub fn surface(&self) -> Option<&Surface>
        ensures some { is_some result ≡ is_some (window_of self.now.screen) }
        ensures value { IfSome result (λ surface. surface.now ≡ self.now.screen.surface) }
    {
        self.screen.surface()
    }

    /// The ids of the pointers that are down. Bit `k` represents the id `k`.
    pub fn pointers(&self) -> u32
        ensures ids { (id : ℕ) → has_id result id ≡ is_pressed id self.now.screen.pointers }
        ensures none { (result ≡ 0) ↔ (self.now.screen.pointers ≡ []) }
    {
        self.screen.pointers()
    }
}
